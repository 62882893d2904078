//! The traffic listing of a run.
ghost use Rattle.std.specs.Prelude.{◌≡◌, ◌≤◌, ◌++◌, List, drop, length, map, take};
ghost use Rattle.outside.specs.Writes.{Writes, WritesAndHolds};
ghost use Rattle.mm_text.specs.Reading.{File};
ghost use Rattle.mm_text.specs.Written.{lines_text};
ghost use Rattle.model_defs.specs.declared.job.Job.{Job};
ghost use Rattle.model_defs.specs.Traffic.{letter_line_words, letter_lines, phase_lines_of, traffic_text};
ghost use Rattle.run_output.specs.Listings.{leading, listing, listing_lines, phase_lines_with};

use crate::held::{Held, flush};
use crate::lines::{put_counts, put_letter, put_phase};
use model_defs::{LetterLine, PhaseLine};
use outside::{Sink, SinkFault};

/// How many of the letters, from the first on, are of the phase of this number.
fn leading(letters: &[LetterLine], phase: u32) -> usize
    ensures count { result ≡ leading phase letters.now }
    ensures within { result ≤ length letters.now }
{
    let mut count = 0;
    for line in letters {
        let LetterLine { name, entries: _ } = *line;
        if name.phase != phase {
            return count;
        }
        count += 1;
    }
    count
}

/// The letters of the phase of this number, from the first on, and those behind them.
fn split_by_phase(letters: &[LetterLine], phase: u32) -> (&[LetterLine], &[LetterLine])
    ensures these { result.0.now ≡ take (leading phase letters.now) letters.now }
    ensures others { result.1.now ≡ drop (leading phase letters.now) letters.now }
{
    let count = leading(letters, phase);
    (&letters[..count], &letters[count..])
}

/// The lines of letters.
fn put_letters<O: Sink>(
    out: &mut O,
    held: &mut Held,
    letters: &[LetterLine],
) -> Result<(), SinkFault>
    ensures { WritesAndHolds O.told O.faults out.old out.new
        held.new.items (held.old.items ++ lines_text (map letter_line_words letters.now)) result }
{
    for line in letters {
        put_letter(out, held, *line)?;
    }
    Ok(())
}

/// The line of a phase and those of its letters.
fn put_phase_with<O: Sink>(
    out: &mut O,
    held: &mut Held,
    phase: &PhaseLine,
    letters: &[LetterLine],
) -> Result<(), SinkFault>
    ensures { WritesAndHolds O.told O.faults out.old out.new
        held.new.items (held.old.items ++ lines_text (phase_lines_with phase.now letters.now)) result }
{
    put_phase(out, held, phase)?;
    put_letters(out, held, letters)
}

/// The lines of phases, each followed by those of its letters.
fn put_phases<O: Sink>(
    out: &mut O,
    held: &mut Held,
    phases: &[PhaseLine],
    letters: &[LetterLine],
) -> Result<(), SinkFault>
    ensures { WritesAndHolds O.told O.faults out.old out.new
        held.new.items (held.old.items ++ lines_text (listing_lines phases.now letters.now)) result }
{
    let mut rest = letters;
    for phase in phases {
        let (these, others) = split_by_phase(rest, phase.phase);
        put_phase_with(out, held, phase, these)?;
        rest = others;
    }
    Ok(())
}

/// Writes the listing of these lines.
fn write_listing<O: Sink>(
    out: &mut O,
    phases: &[PhaseLine],
    letters: &[LetterLine],
) -> Result<(), SinkFault>
    ensures { Writes O.told O.faults out.old out.new (listing phases.now letters.now) result }
{
    let mut held = Held::new();
    put_counts(out, &mut held, phases.len(), letters.len())?;
    put_phases(out, &mut held, phases, letters)?;
    flush(out, &mut held)
}

/// Writes the traffic listing of a job: a line `traffic PHASES LETTERS` with the two numbers, and for each phase, in order,
/// a line `phase N KIND NAME` and a line `letter N FROM TO ENTRIES` for each of its letters. `phases` and `letters` are the
/// job's, in their order. The call takes no memory.
///
/// A `SinkFault` comes exactly where a write failed, and then the sink has taken a prefix of the text.
pub fn write_traffic<O: Sink>(
    out: &mut O,
    phases: &[PhaseLine],
    letters: &[LetterLine],
) -> Result<(), SinkFault>
    ensures listing { Writes O.told O.faults out.old out.new (listing phases.now letters.now) result }
    ensures of_job { (job : Job) (files : List File) → phases.now ≡ phase_lines_of job → letters.now ≡ letter_lines job files →
        Writes O.told O.faults out.old out.new (traffic_text job files) result }
{
    write_listing(out, phases, letters)
}
