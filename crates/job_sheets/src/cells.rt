//! The cells of ranks, put in order.
ghost use Rattle.std.specs.Prelude.{◌≡◌, ◌++◌, true, List, All, Some, map, IfOk, IfSome, OnOk};
ghost use Rattle.std.specs.List.{list_all};
ghost use Rattle.gathered_rows.specs.Blocks.{cells_in};
ghost use Rattle.tables.specs.Tables.{AreInOrder, found, table_of, stands_before};
ghost use Rattle.job_sheets.specs.Cells.{IsLast, placed};

use gathered_rows::sums_of;
use model_defs::Cell;
use scalar_laws::Scalar;
use std::alloc::{AllocError, Global};

/// The cell, with row and column exchanged where cells are put in order by column.
pub fn placed<S: Scalar>(by_column: bool, cell: Cell<S>) -> Cell<S>
    ensures { result ≡ placed by_column cell }
{
    if by_column {
        return Cell {
            row: cell.col,
            col: cell.row,
            value: cell.value,
        };
    }
    cell
}

/// Puts the cells of a rank at the end. `Err` means that memory ran out.
fn add_placed<S: Scalar>(
    cells: &mut Vec<Cell<S>>,
    by_column: bool,
    piece: &[Cell<S>],
) -> Result<(), AllocError>
    ensures cells { OnOk result (cells.new.items ≡ cells.old.items ++ map (placed by_column) piece.now) }
{
    cells.reserve(piece.len())?;
    for cell in piece {
        cells.push(placed(by_column, *cell))?;
    }
    Ok(())
}

/// The cells of all ranks, one rank after the other. `Err` means that memory ran out.
fn collected<S: Scalar>(
    alloc: Global,
    by_column: bool,
    pieces: &[Vec<Cell<S>>],
) -> Result<Vec<Cell<S>>, AllocError>
    ensures cells { IfOk result (λ cells. cells.items ≡ map (placed by_column) (cells_in pieces.now)) }
{
    let mut cells = Vec::new(alloc);
    for piece in pieces {
        add_placed(&mut cells, by_column, piece)?;
    }
    Ok(cells)
}

/// Cells put in order, those of one place added. `Err` means that memory ran out.
fn in_order<S: Scalar>(alloc: Global, cells: Vec<Cell<S>>) -> Result<Vec<Cell<S>>, AllocError>
    ensures in_order { IfOk result (λ sorted. AreInOrder sorted.items) }
    ensures cells { IfOk result (λ sorted. found sorted.items ≡ table_of S.semiring cells.items) }
{
    let mut blocks = Vec::new(alloc);
    blocks.push(cells)?;
    sums_of(alloc, blocks)
}

/// The cells of all ranks in order, those of one place added. `Err` means that memory ran out.
pub fn merged<S: Scalar>(
    alloc: Global,
    by_column: bool,
    pieces: &[Vec<Cell<S>>],
) -> Result<Vec<Cell<S>>, AllocError>
    ensures in_order { IfOk result (λ cells. AreInOrder cells.items) }
    ensures cells { IfOk result (λ cells. found cells.items ≡ table_of S.semiring (map (placed by_column) (cells_in pieces.now))) }
{
    let cells = collected(alloc, by_column, pieces)?;
    in_order(alloc, cells)
}

/// Whether a cell stands before another one, by row, then column.
fn is_before<S: Scalar>(c: Cell<S>, d: Cell<S>) -> bool
    ensures { result ≡ stands_before c d }
{
    c.row < d.row || (c.row == d.row && c.col < d.col)
}

/// Whether no cell stands before `last` or at its place, where there is a last one. Cells are in order, so the first of them
/// tells.
fn all_after<S: Scalar>(last: Option<Cell<S>>, cells: &[Cell<S>]) -> bool
    requires in_order { AreInOrder cells.now }
    ensures after { result ≡ true → IfSome last (λ c. list_all (stands_before c) cells.now ≡ true) }
{
    match (last, cells.first()) {
        (Some(last), Some(first)) => is_before(last, *first),
        _ => true,
    }
}

/// The cell itself.
fn some<S: Scalar>(cell: Cell<S>) -> Option<Cell<S>>
    ensures { result ≡ Some cell }
{
    Some(cell)
}

/// The last of the cells, or `last` where there is none.
fn last_of<S: Scalar>(last: Option<Cell<S>>, cells: &[Cell<S>]) -> Option<Cell<S>>
    requires in_order { AreInOrder cells.now }
    ensures last { (before : List (Cell S)) → IsLast before last → AreInOrder (before ++ cells.now) → IsLast (before ++ cells.now) result }
{
    match cells.last() {
        Some(cell) => some(*cell),
        None => last,
    }
}

/// Whether the cells of the ranks follow one another: those of each rank stand after those of the ranks before it. This takes
/// a step for each rank.
pub fn are_consecutive<S: Scalar>(pieces: &[Vec<Cell<S>>]) -> bool
    requires in_order { All (λ piece. AreInOrder piece.items) pieces.now }
    ensures in_order { result ≡ true → AreInOrder (cells_in pieces.now) }
{
    let mut last = None;
    for piece in pieces {
        if !all_after(last, piece) {
            return false;
        }
        last = last_of(last, piece);
    }
    true
}
