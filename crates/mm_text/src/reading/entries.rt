//! The entry lines.
ghost use Rattle.std.specs.Prelude.{◌≡◌, ◌*◌, ◌<◌, ◌≤◌, option_map};
ghost use Rattle.mm_text.specs.Cut.{cut_cell};
ghost use Rattle.mm_text.specs.Entries.{entry_of_number, dense_number, entry_of, is_negated, is_out, narrow, pattern_cell, entry_placed, entry_of_cell, valued_cell};
ghost use Rattle.mm_text.specs.Limits.{most_rows};
ghost use Rattle.mm_text.specs.Lines.{words_in, words_of};

use crate::reading::banner::{Banner, Kind};
use crate::reading::numerals::{Number, count, number_of};
use crate::reading::sizes::Sizes;
use crate::{Line, Mirror, MmFault};
use text_lines::{one_word, three_words, two_words, without_return};

/// A row and a column, counted from 1, and the number there.
#[derive(Clone, Copy)]
pub struct Cell {
    pub row: u64,
    pub col: u64,
    pub number: Number,
}

/// The entry at a place that is counted from 0.
fn narrow(line: u32, row: u64, col: u64, number: Number) -> Result<Line, MmFault>
    ensures { result ≡ narrow line row col number }
{
    match number {
        Number::Value(value) => Ok(Line { row, col, value }),
        Number::TooWide => Err(MmFault::NumberTooWide { line }),
    }
}

/// Whether an entry stands for the negated one across the diagonal.
fn is_negated(mirror: Mirror) -> bool
    ensures { result ≡ is_negated mirror }
{
    match mirror {
        Mirror::Negated => true,
        Mirror::Plain => false,
        Mirror::Same => false,
    }
}

/// Whether a place is not from 1 to the size.
fn is_out(size: u64, place: u64) -> bool
    ensures { result ≡ is_out size place }
{
    place == 0 || place > size
}

/// The entry at a place that is counted from 1.
fn entry_placed(mirror: Mirror, sizes: Sizes, number: u32, cell: Cell) -> Result<Line, MmFault>
    ensures { result ≡ entry_placed mirror sizes number cell }
{
    if is_out(sizes.rows, cell.row) || is_out(sizes.cols, cell.col) {
        return Err(MmFault::OutOfRange { line: number });
    }
    if is_negated(mirror) && cell.row == cell.col {
        return Err(MmFault::SkewDiagonal { line: number });
    }
    narrow(number, cell.row - 1, cell.col - 1, cell.number)
}

/// A place and a value; row and column are at most `u64::MAX`.
fn valued_cell(bytes: &[u8]) -> Option<Cell>
    ensures { result ≡ option_map cut_cell (valued_cell (words_in bytes.now)) }
{
    let (row, col, word) = three_words(bytes)?;
    Some(Cell {
        row: count(row)?,
        col: count(col)?,
        number: number_of(word)?,
    })
}

/// A place alone, whose value is 1; row and column are at most `u64::MAX`.
fn pattern_cell(bytes: &[u8]) -> Option<Cell>
    ensures { result ≡ option_map cut_cell (pattern_cell (words_in bytes.now)) }
{
    let (row, col) = two_words(bytes)?;
    Some(Cell {
        row: count(row)?,
        col: count(col)?,
        number: Number::Value(1),
    })
}

/// A number alone.
fn dense_number(bytes: &[u8]) -> Option<Number>
    ensures { result ≡ dense_number (words_in bytes.now) }
{
    number_of(one_word(bytes)?)
}

/// The entry of a place that may be missing.
fn entry_of_cell(
    mirror: Mirror,
    sizes: Sizes,
    number: u32,
    cell: Option<Cell>,
) -> Result<Line, MmFault>
    ensures { result ≡ entry_of_cell mirror sizes number cell }
{
    match cell {
        Some(cell) => entry_placed(mirror, sizes, number, cell),
        None => Err(MmFault::BadLine { line: number }),
    }
}

/// The entry of an array, where `at` entries stand before it.
fn entry_of_number(
    sizes: Sizes,
    line: u32,
    at: u64,
    number: Option<Number>,
) -> Result<Line, MmFault>
    requires { at < sizes.rows * sizes.cols }
    ensures { result ≡ entry_of_number sizes line at number }
{
    match number {
        Some(number) => narrow(line, at % sizes.rows, at / sizes.rows, number),
        None => Err(MmFault::BadLine { line }),
    }
}

/// The entry of a line, where `at` entries stand before it.
pub fn read_entry(
    banner: Banner,
    sizes: Sizes,
    number: u32,
    at: u64,
    line: &[u8],
) -> Result<Line, MmFault>
    requires rows { sizes.rows ≤ most_rows }
    requires cols { sizes.cols ≤ most_rows }
    requires within { banner.kind ≡ Kind.Dense → at < sizes.rows * sizes.cols }
    ensures { result ≡ entry_of banner sizes number at (words_of line.now) }
{
    let bytes = without_return(line);
    match banner.kind {
        Kind::Valued => entry_of_cell(banner.mirror, sizes, number, valued_cell(bytes)),
        Kind::Pattern => entry_of_cell(banner.mirror, sizes, number, pattern_cell(bytes)),
        Kind::Dense => entry_of_number(sizes, number, at, dense_number(bytes)),
    }
}
