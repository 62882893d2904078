//! The writers of Matrix Market text: NIST Matrix Market exchange formats, "coordinate" and "array".
ghost use Rattle.std.specs.Prelude.{◌≡◌, ◌*◌, [], ◌++◌, length, map};
ghost use Rattle.outside.specs.Writes.{Writes, WritesAndHolds};
ghost use Rattle.mm_text.specs.Written.{ArePlacesWithin, ArePlacesInOrder, coordinate_text, coordinate_head, array_text, array_head, cell_words, value_words, lines_text};

use crate::writing::line::{
    push_array_banner, push_cell, push_coordinate_banner, push_entry, push_part, push_shape,
    push_sizes,
};
use crate::writing::page::{Page, flush, make_room};
use crate::{Shown, SinkFault};
use itoa::Buffer;
use outside::Sink;

/// Writes cells as coordinate text, of field "integer" and symmetry "general".
///
/// `rows` and `cols` are the sizes. The cells lie within them, in ascending order of row and column, each place once;
/// they are counted from 0, and written counted from 1. Where the cells are one rank's part of a distributed value,
/// `part` is this rank, and a comment names it. The call takes no memory.
///
/// A `SinkFault` comes exactly where a write failed, and then the sink has taken a prefix of the text.
pub fn write_coordinate<O: Sink>(
    out: &mut O,
    rows: u64,
    cols: u64,
    part: Option<u32>,
    cells: &[Shown],
) -> Result<(), SinkFault>
    requires within { ArePlacesWithin rows cols cells.now }
    requires in_order { ArePlacesInOrder cells.now }
    ensures { Writes O.told O.faults out.old out.new (coordinate_text rows cols part cells.now) result }
{
    let mut page = Page::new();
    let mut digits = Buffer::new();
    push_coordinate_head(&mut page, &mut digits, rows, cols, part, cells.len() as u64);
    write_cells(out, &mut page, &mut digits, rows, cols, cells)?;
    flush(out, &mut page)
}

/// Writes values as array text, of field "integer" and symmetry "general".
///
/// The values are those of a dense array of `rows` by `cols`, column by column. The call takes no memory.
///
/// A `SinkFault` comes exactly where a write failed, and then the sink has taken a prefix of the text.
pub fn write_array<O: Sink>(
    out: &mut O,
    rows: u32,
    cols: u32,
    values: &[i128],
) -> Result<(), SinkFault>
    requires { length values.now ≡ rows * cols }
    ensures { Writes O.told O.faults out.old out.new (array_text rows cols values.now) result }
{
    let mut page = Page::new();
    let mut digits = Buffer::new();
    push_array_head(&mut page, &mut digits, rows, cols);
    write_values(out, &mut page, &mut digits, values)?;
    flush(out, &mut page)
}

fn push_coordinate_head(
    page: &mut Page,
    digits: &mut Buffer,
    rows: u64,
    cols: u64,
    part: Option<u32>,
    count: u64,
)
    requires { page.old.items ≡ [] }
    ensures { page.new.items ≡ lines_text (coordinate_head rows cols part count) }
{
    push_coordinate_banner(page);
    push_part(page, digits, part);
    push_sizes(page, digits, rows, cols, count);
}

fn push_array_head(page: &mut Page, digits: &mut Buffer, rows: u32, cols: u32)
    requires { page.old.items ≡ [] }
    ensures { page.new.items ≡ lines_text (array_head rows cols) }
{
    push_array_banner(page);
    push_shape(page, digits, rows, cols);
}

fn write_cells<O: Sink>(
    out: &mut O,
    page: &mut Page,
    digits: &mut Buffer,
    rows: u64,
    cols: u64,
    cells: &[Shown],
) -> Result<(), SinkFault>
    requires { ArePlacesWithin rows cols cells.now }
    ensures { WritesAndHolds O.told O.faults out.old out.new
        page.new.items (page.old.items ++ lines_text (map cell_words cells.now)) result }
{
    for cell in cells {
        make_room(out, page)?;
        push_cell(page, digits, cell);
    }
    Ok(())
}

fn write_values<O: Sink>(
    out: &mut O,
    page: &mut Page,
    digits: &mut Buffer,
    values: &[i128],
) -> Result<(), SinkFault>
    ensures { WritesAndHolds O.told O.faults out.old out.new
        page.new.items (page.old.items ++ lines_text (map value_words values.now)) result }
{
    for value in values {
        make_room(out, page)?;
        push_entry(page, digits, value);
    }
    Ok(())
}
