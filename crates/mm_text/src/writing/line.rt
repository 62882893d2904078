//! The lines of a written text: each goes to a page that has room for it.
ghost use Rattle.std.specs.Prelude.{◌≡◌, ◌+◌, ◌^◌, ◌<◌, ◌≤◌, [], ◌∷◌, ◌++◌, codes, decimal};
ghost use Rattle.arrayvec.specs.ArrayVec.{array_vec_len};
ghost use Rattle.mm_text.specs.Written.{line_text, lines_text, banner_words, part_lines, cell_words, value_words};

use crate::Shown;
use crate::writing::page::{LINE, PAGE, Page, push_bytes, push_number, push_value};
use itoa::Buffer;

/// The banner of coordinate text.
pub(crate) fn push_coordinate_banner(page: &mut Page)
    requires { array_vec_len page.old + LINE ≤ PAGE }
    ensures items { page.new.items
        ≡ page.old.items ++ line_text (banner_words (codes "coordinate")) }
    ensures len { array_vec_len page.new ≤ array_vec_len page.old + LINE }
{
    push_bytes(page, b"%%MatrixMarket matrix coordinate integer general\n");
}

/// The banner of array text.
pub(crate) fn push_array_banner(page: &mut Page)
    requires { array_vec_len page.old + LINE ≤ PAGE }
    ensures items { page.new.items ≡ page.old.items ++ line_text (banner_words (codes "array")) }
    ensures len { array_vec_len page.new ≤ array_vec_len page.old + LINE }
{
    push_bytes(page, b"%%MatrixMarket matrix array integer general\n");
}

/// The comment that names the rank of a part; nothing where the text is no part.
pub(crate) fn push_part(page: &mut Page, digits: &mut Buffer, part: Option<u32>)
    requires { array_vec_len page.old + LINE ≤ PAGE }
    ensures items { page.new.items ≡ page.old.items ++ lines_text (part_lines part) }
    ensures len { array_vec_len page.new ≤ array_vec_len page.old + LINE }
{
    if let Some(rank) = part {
        push_bytes(page, b"% part ");
        push_number(page, digits, u64::from(rank));
        page.push(b'\n');
    }
}

/// The size line of coordinate text.
pub(crate) fn push_sizes(page: &mut Page, digits: &mut Buffer, rows: u64, cols: u64, count: u64)
    requires { array_vec_len page.old + LINE ≤ PAGE }
    ensures items { page.new.items
        ≡ page.old.items ++ line_text (decimal rows ∷ decimal cols ∷ decimal count ∷ []) }
    ensures len { array_vec_len page.new ≤ array_vec_len page.old + LINE }
{
    push_number(page, digits, rows);
    page.push(b' ');
    push_number(page, digits, cols);
    page.push(b' ');
    push_number(page, digits, count);
    page.push(b'\n');
}

/// The size line of array text.
pub(crate) fn push_shape(page: &mut Page, digits: &mut Buffer, rows: u32, cols: u32)
    requires { array_vec_len page.old + LINE ≤ PAGE }
    ensures items { page.new.items
        ≡ page.old.items ++ line_text (decimal rows ∷ decimal cols ∷ []) }
    ensures len { array_vec_len page.new ≤ array_vec_len page.old + LINE }
{
    push_number(page, digits, u64::from(rows));
    page.push(b' ');
    push_number(page, digits, u64::from(cols));
    page.push(b'\n');
}

/// The line of a place.
#[inline]
pub(crate) fn push_cell(page: &mut Page, digits: &mut Buffer, cell: &Shown)
    requires room { array_vec_len page.old + LINE ≤ PAGE }
    requires row { cell.now.row + 1 < 2 ^ 64 }
    requires col { cell.now.col + 1 < 2 ^ 64 }
    ensures items { page.new.items ≡ page.old.items ++ line_text (cell_words cell.now) }
    ensures len { array_vec_len page.new ≤ array_vec_len page.old + LINE }
{
    push_number(page, digits, cell.row + 1);
    page.push(b' ');
    push_number(page, digits, cell.col + 1);
    page.push(b' ');
    push_value(page, digits, cell.value);
    page.push(b'\n');
}

/// The line of a value.
#[inline]
pub(crate) fn push_entry(page: &mut Page, digits: &mut Buffer, value: &i128)
    requires { array_vec_len page.old + LINE ≤ PAGE }
    ensures items { page.new.items ≡ page.old.items ++ line_text (value_words value.now) }
    ensures len { array_vec_len page.new ≤ array_vec_len page.old + LINE }
{
    push_value(page, digits, *value);
    page.push(b'\n');
}
