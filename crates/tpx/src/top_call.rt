//! The top call: one command of the program.
ghost use Rattle.std.specs.Prelude.{◌≡◌, ◌≤◌, ◌⊎◌, ℕ, List, None, Some, IfErr, IsTrue, OnOk, map, string_bytes};
ghost use Rattle.outside.specs.declared.name.Name.{Name};
ghost use Rattle.outside.specs.Faults.{Rose};
ghost use Rattle.message_play.specs.Plays.{wire_state};
ghost use Rattle.run_input.specs.Sources.{SomeSource};
ghost use Rattle.tpx.specs.Asked.{IsWithinBounds, asked};
ghost use Rattle.tpx.specs.Calls.{SomeCall, is_settled};
ghost use Rattle.tpx.specs.Endings.{EndsWith, command_of, reads, reads_of};
ghost use Rattle.tpx.specs.Faults.{result_status};
ghost use Rattle.tpx.specs.Messages.{memory_message, overflow_message, unwritten_message, usage_message, wire_message};
ghost use Rattle.tpx.specs.Steps.{Gives, IsNoCommand, IsUnread, IsWireFailed, MayHaveRun, RoseAt, Touches, UnreadIsAmong};
ghost use Rattle.tpx.specs.Streams.{Says, SaysRefusal, SaysUndelivered, SaysUnread, SaysWrongLine, TakesPart, TakesText};
ghost use Rattle.tpx.specs.Words.{begins_run, is_played};

use crate::fault::Fault;
use crate::generated::run_generated;
use crate::messages::report;
use crate::run::run_job;
use crate::show::show;
use crate::words::Asked;
use outside::{Files, Sink, Wire};
use std::alloc::{AllocError, Global};

/// Runs this command.
fn run_asked<'a, F: Files, W: Wire, O: Sink>(
    alloc: Global,
    command: Asked<'a>,
    files: &mut F,
    wire: &mut W,
    out: &mut O,
) -> Result<(), Fault<'a>>
    requires nothing_pending { (name : Name) → W.pending wire.old name ≡ None }
    requires bounds { IsWithinBounds command }
    ensures known { IsNoCommand result → ⊥ }
    ensures gives { SomeCall (F.told files.old) (Some (asked command.entry)) (is_settled (result_status result)) (wire_state W.pending W.posted W.taken W.given W.is_honest wire.old) (wire_state W.pending W.posted W.taken W.given W.is_honest wire.new)
        (Gives O.told out.old out.new result) }
    ensures named { SomeSource (F.told files.old) (λ source. UnreadIsAmong (reads (Some (asked command.entry)) source) result) }
    ensures same_files { F.told files.new ≡ F.told files.old }
    ensures files_never_fall { (name : List ℕ) → F.faults files.old name ≤ F.faults files.new name }
    ensures unread { RoseAt (F.faults files.old) (F.faults files.new) result }
    ensures no_read_fault { IsUnread result ⊎ ((name : List ℕ) → F.faults files.new name ≡ F.faults files.old name) }
    ensures untouched { Touches result ⊎ (out.new ≡ out.old) }
    ensures unwritten { IfErr result (λ fault. fault ≡ Fault.Unwritten → Rose (O.faults out.old) (O.faults out.new)) }
    ensures no_write_fault { OnOk result (O.faults out.new ≡ O.faults out.old) }
    ensures out_never_falls { O.faults out.old ≤ O.faults out.new }
    ensures no_wire_fault { IsWireFailed result ⊎ (W.faults wire.new ≡ W.faults wire.old) }
    ensures wire_never_falls { W.faults wire.old ≤ W.faults wire.new }
    ensures wire_fault { IsWireFailed result → IsTrue (is_played (Some (asked command.entry))) × Rose (W.faults wire.old) (W.faults wire.new) }
    ensures same_wire { MayHaveRun (Some (asked command.entry)) (result_status result) ⊎ (wire.new ≡ wire.old) }
{
    match command {
        Asked::Show(command) => show(alloc, command.ranks, command.file, files, out),
        Asked::Run(command) => run_job(alloc, command, files, wire, out),
        Asked::Gen(size) => run_generated(alloc, size, wire, out),
    }
}

/// Runs the command of these words, those after the program's name.
fn run_command<'a, F: Files, W: Wire, O: Sink>(
    alloc: Global,
    words: &'a [String],
    files: &mut F,
    wire: &mut W,
    out: &mut O,
) -> Result<(), Fault<'a>>
    requires nothing_pending { (name : Name) → W.pending wire.old name ≡ None }
    ensures usage { IsNoCommand result → command_of words.now ≡ None }
    ensures no_command { command_of words.now ≡ None → IsNoCommand result ⊎ ((result_status result ≡ 1) × (IsTrue (begins_run (map string_bytes words.now)))) }
    ensures gives { SomeCall (F.told files.old) (command_of words.now) (is_settled (result_status result)) (wire_state W.pending W.posted W.taken W.given W.is_honest wire.old) (wire_state W.pending W.posted W.taken W.given W.is_honest wire.new)
        (Gives O.told out.old out.new result) }
    ensures named { SomeSource (F.told files.old) (λ source. UnreadIsAmong (reads_of words.now source) result) }
    ensures same_files { F.told files.new ≡ F.told files.old }
    ensures files_never_fall { (name : List ℕ) → F.faults files.old name ≤ F.faults files.new name }
    ensures unread { RoseAt (F.faults files.old) (F.faults files.new) result }
    ensures no_read_fault { IsUnread result ⊎ ((name : List ℕ) → F.faults files.new name ≡ F.faults files.old name) }
    ensures untouched { Touches result ⊎ (out.new ≡ out.old) }
    ensures unwritten { IfErr result (λ fault. fault ≡ Fault.Unwritten → Rose (O.faults out.old) (O.faults out.new)) }
    ensures no_write_fault { OnOk result (O.faults out.new ≡ O.faults out.old) }
    ensures out_never_falls { O.faults out.old ≤ O.faults out.new }
    ensures no_wire_fault { IsWireFailed result ⊎ (W.faults wire.new ≡ W.faults wire.old) }
    ensures wire_never_falls { W.faults wire.old ≤ W.faults wire.new }
    ensures wire_fault { IsWireFailed result → IsTrue (is_played (command_of words.now)) × Rose (W.faults wire.old) (W.faults wire.new) }
    ensures same_wire { MayHaveRun (command_of words.now) (result_status result) ⊎ (wire.new ≡ wire.old) }
{
    match Asked::read(alloc, words) {
        Ok(Some(command)) => run_asked(alloc, command, files, wire, out),
        Ok(None) => Err(Fault::NoCommand),
        Err(AllocError) => Err(Fault::Memory),
    }
}

/// Runs one command, whose words are those after the program's name, and answers its exit status.
///
/// `show RANKS FILE` reads FILE as a coordinate file of the NIST Matrix Market exchange formats, deals its entries to
/// RANKS ranks (1 to 32), brings each row to its owner in the contiguous uniform map (`Tpetra::Map`), adds what names
/// one place, and writes the matrix to `out` as coordinate text, its places by row and then column, counted from 1. That
/// ranks do this no clause says: their number changes nothing in the text.
///
/// `run JOB [--schedule FILE] [--order fifo|lifo|seed] [--seed N] [--traffic]` reads the job file JOB, the schedule where
/// one is named, and the files of the given values, plays the ranks of the job over the wire in the order asked for, and
/// writes the printed values to `out`, and then the traffic listing where it was asked for.
///
/// `gen N` makes the job of size N (1 to 1,000,000) without reading a file: y = A x and z = A A x for a vector x that is moved from a
/// cyclic map to the uniform one and a matrix A with 2 on its diagonal and -1 beside it. It plays the 4 ranks of the job over the wire
/// in fifo order, and writes four lines: the size, the number of places of A A, the sums of the cells of y and of z, and the number of
/// letters.
///
/// | status | comes |
/// |---|---|
/// | 0 | the text was written whole |
/// | 1 | memory ran out, before the first write |
/// | 2 | exactly where the words are no command; those of `run` may want memory before |
/// | 3 | exactly where a read failed: the count of faults of the file rose; so it does where no file has the name |
/// | 4 | exactly where a write failed: the count of faults of `out` rose; `out` then has a prefix of the text added |
/// | 5 | where 3 and 1 do not come, exactly where the text of a file is refused, or a file has not the sizes that the job states |
/// | 6 | where 9 does not come either, exactly where a schedule ends while letters are in flight |
/// | 7 | likewise, exactly where the file is accepted, or all letters were delivered, and somewhere the magnitudes added exceed 2^127 - 1: at a place of the matrix, in a cell of some value of the job, or in one of the two sums of `gen` |
/// | 8 | likewise, exactly where a line of the schedule names a letter neither in flight nor delivered before |
/// | 9 | only where the count of faults of the wire rose |
///
/// What the text of a file is, the clauses say of a source, which gives each name its text. Where the files tell what
/// they hold, it is the told one. Where they do not, as the files of the system, some source explains what was done. The
/// letters given on the wire are a run of the job's letters in the order asked for, and what is written are the values that
/// the ranks have of these letters; over an honest wire they are the values on the global data.
///
/// For each status but 0 and 4 `out` stays as it was, and for each status but 0 `err` has one line added, for 6 also one
/// for each letter in flight, or a prefix of it where `err` fails; the status does not depend on that. Nothing is posted
/// for `show`, nor where a run ends with 2, 3 or 5.
pub fn top<F: Files, W: Wire, O: Sink, E: Sink>(
    alloc: Global,
    words: &[String],
    files: &mut F,
    wire: &mut W,
    out: &mut O,
    err: &mut E,
) -> u8
    requires nothing_pending { (name : Name) → W.pending wire.old name ≡ None }

    // The status: how the command ends over some source that agrees with what the files tell, with the letters given.
    ensures ends { SomeCall (F.told files.old) (command_of words.now) (is_settled result) (wire_state W.pending W.posted W.taken W.given W.is_honest wire.old) (wire_state W.pending W.posted W.taken W.given W.is_honest wire.new)
        (λ ending. EndsWith ending result) }
    ensures usage { result ≡ 2 → command_of words.now ≡ None }
    ensures no_command { command_of words.now ≡ None → (result ≡ 2) ⊎ ((result ≡ 1) × (IsTrue (begins_run (map string_bytes words.now)))) }

    // The output: the text whole, a prefix of it, or nothing.
    ensures written { result ≡ 0 → SomeCall (F.told files.old) (command_of words.now) (is_settled result) (wire_state W.pending W.posted W.taken W.given W.is_honest wire.old) (wire_state W.pending W.posted W.taken W.given W.is_honest wire.new)
        (TakesText O.told out.old out.new) }
    ensures prefix { result ≡ 4 → SomeCall (F.told files.old) (command_of words.now) (is_settled result) (wire_state W.pending W.posted W.taken W.given W.is_honest wire.old) (wire_state W.pending W.posted W.taken W.given W.is_honest wire.new)
        (TakesPart O.told out.old out.new) }
    ensures untouched { (result ≡ 0) ⊎ (result ≡ 4) ⊎ (out.new ≡ out.old) }

    // The messages: one line for each status but 0, and for 6 one more for each letter.
    ensures quiet { result ≡ 0 → err.new ≡ err.old }
    ensures memory_message { result ≡ 1 → Says E.told E.faults err.old err.new memory_message }
    ensures usage_message { result ≡ 2 → Says E.told E.faults err.old err.new usage_message }
    ensures unread_message { result ≡ 3 → SomeSource (F.told files.old) (λ source.
        SaysUnread E.told E.faults err.old err.new (F.faults files.old) (F.faults files.new) (reads_of words.now source)) }
    ensures unwritten_message { result ≡ 4 → Says E.told E.faults err.old err.new unwritten_message }
    ensures refused_message { result ≡ 5 → SomeCall (F.told files.old) (command_of words.now) (is_settled result) (wire_state W.pending W.posted W.taken W.given W.is_honest wire.old) (wire_state W.pending W.posted W.taken W.given W.is_honest wire.new)
        (SaysRefusal E.told E.faults err.old err.new) }
    ensures undelivered_message { result ≡ 6 → SomeCall (F.told files.old) (command_of words.now) (is_settled result) (wire_state W.pending W.posted W.taken W.given W.is_honest wire.old) (wire_state W.pending W.posted W.taken W.given W.is_honest wire.new)
        (SaysUndelivered E.told E.faults err.old err.new) }
    ensures overflow_message { result ≡ 7 → Says E.told E.faults err.old err.new overflow_message }
    ensures wrong_line_message { result ≡ 8 → SomeCall (F.told files.old) (command_of words.now) (is_settled result) (wire_state W.pending W.posted W.taken W.given W.is_honest wire.old) (wire_state W.pending W.posted W.taken W.given W.is_honest wire.new)
        (SaysWrongLine E.told E.faults err.old err.new) }
    ensures wire_message { result ≡ 9 → Says E.told E.faults err.old err.new wire_message }

    // The outside: what files tell stays, the wire stays where no run began, and counts of faults rise where a read, a write
    // or a call of the wire failed alone.
    ensures same_files { F.told files.new ≡ F.told files.old }
    ensures same_wire { MayHaveRun (command_of words.now) result ⊎ (wire.new ≡ wire.old) }
    ensures no_read_fault { (result ≡ 3) ⊎ ((name : List ℕ) → F.faults files.new name ≡ F.faults files.old name) }
    ensures unwritten { result ≡ 4 → Rose (O.faults out.old) (O.faults out.new) }
    ensures no_write_fault { (result ≡ 4) ⊎ (O.faults out.new ≡ O.faults out.old) }
    ensures wire_fault { result ≡ 9 → IsTrue (is_played (command_of words.now)) × Rose (W.faults wire.old) (W.faults wire.new) }
    ensures no_wire_fault { (result ≡ 9) ⊎ (W.faults wire.new ≡ W.faults wire.old) }
    ensures files_never_fall { (name : List ℕ) → F.faults files.old name ≤ F.faults files.new name }
    ensures out_never_falls { O.faults out.old ≤ O.faults out.new }
    ensures err_never_falls { E.faults err.old ≤ E.faults err.new }
    ensures wire_never_falls { W.faults wire.old ≤ W.faults wire.new }
{
    let ended = run_command(alloc, words, files, wire, out);
    report(err, &ended)
}
