//! The lines of a traffic listing.
ghost use Rattle.std.specs.Prelude.{◌≡◌, [], ◌∷◌, ◌++◌, codes, decimal};
ghost use Rattle.outside.specs.Writes.{WritesAndHolds};
ghost use Rattle.letter_codec.specs.Kinds.{kind_name};
ghost use Rattle.mm_text.specs.Written.{line_text};
ghost use Rattle.model_defs.specs.Traffic.{letter_line_words, phase_words};

use crate::held::{Held, put_pieces};
use itoa::Buffer;
use model_defs::{LetterLine, PhaseLine};
use outside::{Sink, SinkFault};

/// The words of the first line.
fn put_count_words<'a, O: Sink>(
    out: &mut O,
    held: &mut Held,
    phases: &'a str,
    letters: &'a str,
) -> Result<(), SinkFault>
    ensures { let text = line_text (codes "traffic" ∷ phases.now ∷ letters.now ∷ []) in
        WritesAndHolds O.told O.faults out.old out.new held.new.items (held.old.items ++ text) result }
{
    put_pieces(out, held, &["traffic ", phases, " ", letters, "\n"])
}

/// The first line: how many phases and letters there are.
pub(crate) fn put_counts<O: Sink>(
    out: &mut O,
    held: &mut Held,
    phases: usize,
    letters: usize,
) -> Result<(), SinkFault>
    ensures { let text = line_text (codes "traffic" ∷ decimal phases ∷ decimal letters ∷ []) in
        WritesAndHolds O.told O.faults out.old out.new held.new.items (held.old.items ++ text) result }
{
    let mut first = Buffer::new();
    let mut second = Buffer::new();
    put_count_words(out, held, first.format(phases), second.format(letters))
}

/// The words of the line of a phase.
fn put_phase_words<'a, O: Sink>(
    out: &mut O,
    held: &mut Held,
    phase: &'a str,
    kind: &'a str,
    name: &'a str,
) -> Result<(), SinkFault>
    ensures { let text = line_text (codes "phase" ∷ phase.now ∷ kind.now ∷ name.now ∷ []) in
        WritesAndHolds O.told O.faults out.old out.new held.new.items (held.old.items ++ text) result }
{
    put_pieces(out, held, &["phase ", phase, " ", kind, " ", name, "\n"])
}

/// The line of a phase.
pub(crate) fn put_phase<O: Sink>(
    out: &mut O,
    held: &mut Held,
    line: &PhaseLine,
) -> Result<(), SinkFault>
    ensures { let text = line_text (phase_words line.now) in
        WritesAndHolds O.told O.faults out.old out.new held.new.items (held.old.items ++ text) result }
{
    let mut number = Buffer::new();
    put_phase_words(
        out,
        held,
        number.format(line.phase),
        line.kind.name(),
        line.name.as_str(),
    )
}

/// The words of the line of a letter.
fn put_letter_words<'a, O: Sink>(
    out: &mut O,
    held: &mut Held,
    phase: &'a str,
    from: &'a str,
    to: &'a str,
    entries: &'a str,
) -> Result<(), SinkFault>
    ensures { let text = line_text (codes "letter" ∷ phase.now ∷ from.now ∷ to.now ∷ entries.now ∷ []) in
        WritesAndHolds O.told O.faults out.old out.new held.new.items (held.old.items ++ text) result }
{
    put_pieces(
        out,
        held,
        &["letter ", phase, " ", from, " ", to, " ", entries, "\n"],
    )
}

/// The line of a letter.
pub(crate) fn put_letter<O: Sink>(
    out: &mut O,
    held: &mut Held,
    line: LetterLine,
) -> Result<(), SinkFault>
    ensures { let text = line_text (letter_line_words line) in
        WritesAndHolds O.told O.faults out.old out.new held.new.items (held.old.items ++ text) result }
{
    let mut phase = Buffer::new();
    let mut from = Buffer::new();
    let mut to = Buffer::new();
    let mut entries = Buffer::new();
    put_letter_words(
        out,
        held,
        phase.format(line.name.phase),
        from.format(line.name.from),
        to.format(line.name.to),
        entries.format(line.entries),
    )
}
