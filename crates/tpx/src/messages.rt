//! The messages on standard error.
ghost use Rattle.std.specs.Prelude.{◌≡◌, ◌≤◌, ◌++◌, ◌∷◌, IfErr, OnOk};
ghost use Rattle.std.specs.List.{flat_map};
ghost use Rattle.outside.specs.Writes.{Writes};
ghost use Rattle.tpx.specs.Faults.{message_of, result_status};
ghost use Rattle.tpx.specs.Messages.{joined, letter_line, letter_text, line_front, undelivered_line, undelivered_message, unread_message, wrong_line_message};
ghost use Rattle.tpx.specs.Streams.{Says};

use crate::fault::Fault;
use crate::refusals::write_refusal;
use itoa::Buffer;
use outside::{Name, Sink, SinkFault, write_all};

/// Writes these texts, one after the other.
pub(crate) fn write_pieces<E: Sink>(err: &mut E, pieces: &[&str]) -> Result<(), SinkFault>
    ensures { Writes E.told E.faults err.old err.new (joined pieces.now) result }
{
    for piece in pieces {
        if let Err(fault) = write_all(err, piece.as_bytes()) {
            return Err(fault);
        }
    }
    Ok(())
}

/// Writes that a file cannot be read.
fn write_unread<'a, E: Sink>(err: &mut E, file: &'a str) -> Result<(), SinkFault>
    ensures { Writes E.told E.faults err.old err.new (unread_message file.now) result }
{
    write_pieces(err, &["tpx: cannot read ", file, "\n"])
}

/// Writes these words of a letter's name between two texts.
fn write_words<'a, E: Sink>(
    err: &mut E,
    before: &'a str,
    phase: &'a str,
    from: &'a str,
    to: &'a str,
    after: &'a str,
) -> Result<(), SinkFault>
    ensures { Writes E.told E.faults err.old err.new (before.now ++ (phase.now ++ 32 ∷ (from.now ++ 32 ∷ to.now)) ++ after.now) result }
{
    write_pieces(err, &[before, phase, " ", from, " ", to, after])
}

/// Writes the name of a letter between two texts.
fn write_letter<'a, E: Sink>(
    err: &mut E,
    before: &'a str,
    name: Name,
    after: &'a str,
) -> Result<(), SinkFault>
    ensures { Writes E.told E.faults err.old err.new (before.now ++ letter_text name ++ after.now) result }
{
    let mut phase = Buffer::new();
    let mut from = Buffer::new();
    let mut to = Buffer::new();
    write_words(
        err,
        before,
        phase.format(name.phase),
        from.format(name.from),
        to.format(name.to),
        after,
    )
}

/// Writes a line for each letter.
fn write_letters<E: Sink>(err: &mut E, names: &[Name]) -> Result<(), SinkFault>
    ensures { Writes E.told E.faults err.old err.new (flat_map letter_line names.now) result }
{
    for name in names {
        if let Err(fault) = write_letter(err, "", *name, "\n") {
            return Err(fault);
        }
    }
    Ok(())
}

/// Writes how many letters are undelivered.
fn write_count<'a, E: Sink>(err: &mut E, count: &'a str) -> Result<(), SinkFault>
    ensures { Writes E.told E.faults err.old err.new (undelivered_line count.now) result }
{
    write_pieces(err, &["tpx: undelivered ", count, "\n"])
}

/// Writes which letters are undelivered.
fn write_undelivered<E: Sink>(err: &mut E, names: &[Name]) -> Result<(), SinkFault>
    ensures { Writes E.told E.faults err.old err.new (undelivered_message names.now) result }
{
    let mut count = Buffer::new();
    if let Err(fault) = write_count(err, count.format(names.len())) {
        return Err(fault);
    }
    write_letters(err, names)
}

/// Writes what stands before the letter that a line names.
fn write_line_number<'a, E: Sink>(err: &mut E, line: &'a str) -> Result<(), SinkFault>
    ensures { Writes E.told E.faults err.old err.new (line_front line.now) result }
{
    write_pieces(err, &["tpx: line ", line, ": "])
}

/// Writes that a line names a letter which is not in flight.
fn write_wrong_line<E: Sink>(err: &mut E, line: u32, name: Name) -> Result<(), SinkFault>
    ensures { Writes E.told E.faults err.old err.new (wrong_line_message line name) result }
{
    let mut number = Buffer::new();
    if let Err(fault) = write_line_number(err, number.format(line)) {
        return Err(fault);
    }
    write_letter(err, "", name, " is not in flight\n")
}

/// Writes the message of a command that ends without its result.
fn write_message<'a, E: Sink>(err: &mut E, fault: &Fault<'a>) -> Result<(), SinkFault>
    ensures { Writes E.told E.faults err.old err.new (message_of fault.now) result }
{
    match fault {
        Fault::Memory => write_all(err, b"tpx: out of memory\n"),
        Fault::NoCommand => write_all(
            err,
            b"tpx: usage: tpx show RANKS FILE; tpx run JOB [--schedule FILE] [--order fifo, lifo or seed] [--seed N] [--traffic]; tpx gen N\n",
        ),
        Fault::Unread { file } => write_unread(err, file.as_str()),
        Fault::Unwritten => write_all(err, b"tpx: cannot write\n"),
        Fault::Refused { file, fault } => write_refusal(err, file.as_str(), fault),
        Fault::Undelivered { names } => write_undelivered(err, names),
        Fault::Overflow => write_all(err, b"tpx: overflow\n"),
        Fault::WrongLine { line, name } => write_wrong_line(err, *line, *name),
        Fault::WireFailed => write_all(err, b"tpx: wire failed\n"),
    }
}

/// Answers the status of a command, and writes the message where it ended without its result. A failing sink changes no
/// status.
pub fn report<'a, E: Sink>(err: &mut E, ended: &Result<(), Fault<'a>>) -> u8
    ensures status { result ≡ result_status ended.now }
    ensures says { IfErr ended.now (λ fault. Says E.told E.faults err.old err.new (message_of fault)) }
    ensures quiet { OnOk ended.now (err.new ≡ err.old) }
    ensures never_falls { E.faults err.old ≤ E.faults err.new }
{
    match ended {
        Ok(()) => 0,
        Err(fault) => {
            let _ = write_message(err, fault);
            fault.status()
        }
    }
}
