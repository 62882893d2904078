//! The summary of a run of the job that is made of a size.
ghost use Rattle.std.specs.Prelude.{◌≡◌, ◌++◌, length};
ghost use Rattle.outside.specs.Writes.{Writes, WritesAndHolds};
ghost use Rattle.scalar_laws.specs.Weighed.{num_of};
ghost use Rattle.mm_text.specs.Written.{lines_text};
ghost use Rattle.run_output.specs.Summaries.{cell_sum, line_words, summary_by, summary_of, summary_text};

use crate::held::{Held, flush, put_pieces};
use itoa::Buffer;
use mm_text::Shown;
use model_defs::{LetterLine, Sheet};
use outside::{Sink, SinkFault};
use scalar_laws::{Scalar, Weighed};

/// What is said of such a run, in place of its sheets: its size, the number of places of `s`, the sums of the cells of `y` and
/// of `z`, and the number of its letters.
#[derive(Clone, Copy, Debug, PartialEq, Eq)]
pub struct Summary {
    pub size: u32,
    pub entries: usize,
    pub y: i128,
    pub z: i128,
    pub letters: usize,
}

/// The sum of the values of cells, each with its magnitude.
fn cell_sum(cells: &[Shown]) -> Weighed
    ensures { num_of result ≡ cell_sum cells.now }
{
    let mut sum = Weighed::zero();
    for cell in cells {
        let Shown { value, .. } = *cell;
        sum = sum.add(Weighed::new(value, value.unsigned_abs()));
    }
    sum
}

/// The summary where these are the sums.
fn summary_by(size: u32, entries: usize, y: Weighed, z: Weighed, letters: usize) -> Option<Summary>
    ensures { result ≡ summary_by size entries (num_of y) (num_of z) letters }
{
    let (y, _) = y.parts()?;
    let (z, _) = z.parts()?;
    Some(Summary {
        size,
        entries,
        y,
        z,
        letters,
    })
}

/// The summary of a run of this size by its sheets, which are those of `y`, `s` and `z`, and by its letters. The values of
/// cells are added with their magnitudes: with three sheets None comes exactly where the magnitudes of `y`, or those of `z`,
/// exceed 2^127 - 1. The call takes no memory.
pub fn summary_of(size: u32, sheets: &[Sheet], letters: &[LetterLine]) -> Option<Summary>
    ensures { result ≡ summary_of size sheets.now (length letters.now) }
{
    match sheets {
        [y, s, z] => {
            let entries = s.cells.as_slice().len();
            let y = cell_sum(y.cells.as_slice());
            let z = cell_sum(z.cells.as_slice());
            summary_by(size, entries, y, z, letters.len())
        }
        _ => None,
    }
}

/// The words of the four lines.
fn put_words<'a, O: Sink>(
    out: &mut O,
    held: &mut Held,
    size: &'a str,
    entries: &'a str,
    y: &'a str,
    z: &'a str,
    letters: &'a str,
) -> Result<(), SinkFault>
    ensures { WritesAndHolds O.told O.faults out.old out.new held.new.items (held.old.items ++ lines_text (line_words size.now entries.now y.now z.now letters.now)) result }
{
    put_pieces(
        out,
        held,
        &[
            "gen ",
            size,
            "\nentries ",
            entries,
            "\nsum ",
            y,
            " ",
            z,
            "\nletters ",
            letters,
            "\n",
        ],
    )
}

/// The four lines.
fn put_summary<O: Sink>(out: &mut O, held: &mut Held, summary: &Summary) -> Result<(), SinkFault>
    ensures { WritesAndHolds O.told O.faults out.old out.new held.new.items (held.old.items ++ summary_text summary.now) result }
{
    let mut size = Buffer::new();
    let mut entries = Buffer::new();
    let mut y = Buffer::new();
    let mut z = Buffer::new();
    let mut letters = Buffer::new();
    put_words(
        out,
        held,
        size.format(summary.size),
        entries.format(summary.entries),
        y.format(summary.y),
        z.format(summary.z),
        letters.format(summary.letters),
    )
}

/// Writes a summary: the lines `gen N`, `entries E`, `sum Y Z` and `letters L`. The call takes no memory.
///
/// A `SinkFault` comes exactly where a write failed, and then the sink has taken a prefix of the text.
pub fn write_summary<O: Sink>(out: &mut O, summary: &Summary) -> Result<(), SinkFault>
    ensures { Writes O.told O.faults out.old out.new (summary_text summary.now) result }
{
    let mut held = Held::new();
    put_summary(out, &mut held, summary)?;
    flush(out, &mut held)
}
