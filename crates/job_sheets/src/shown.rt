//! The cells of a table as they are printed.
ghost use Rattle.std.specs.Prelude.{◌≡◌, ◌++◌, ◌∷◌, [], true, false, All, filter, map, IfOk, OnOk};
ghost use Rattle.gathered_rows.specs.Blocks.{cells_in};
ghost use Rattle.model_defs.specs.ShowText.{shown_cell};
ghost use Rattle.tables.specs.Tables.{AreInOrder, cells_of, found};
ghost use Rattle.job_sheets.specs.Cells.{is_within, listed, shown_within, sum_of_pieces};

use crate::cells::{are_consecutive, merged, placed};
use model_defs::{Cell, Shown};
use scalar_laws::Scalar;
use std::alloc::{AllocError, Global};

/// A cell as it is printed; a number that is over is printed as 0.
fn shown_cell<S: Scalar>(cell: Cell<S>) -> Shown
    ensures { result ≡ shown_cell S.conversions cell }
{
    Shown {
        row: cell.row,
        col: cell.col,
        value: cell.value.shown().unwrap_or(0),
    }
}

/// Puts a cell at the end, where it is in the first rows and columns. `Err` means that memory ran out.
fn add_cell<S: Scalar>(
    shown: &mut Vec<Shown>,
    rows: u64,
    cols: u64,
    cell: Cell<S>,
) -> Result<(), AllocError>
    ensures shown { OnOk result (shown.new.items ≡ shown.old.items ++ map (shown_cell S.conversions) (filter (is_within rows cols) (cell ∷ []))) }
{
    if cell.row < rows && cell.col < cols {
        shown.push(shown_cell(cell))?;
    }
    Ok(())
}

/// Puts the cells of the first rows and columns at the end. `is_turned` says that row and column of the given cells were exchanged.
/// `Err` means that memory ran out.
fn add_shown<S: Scalar>(
    shown: &mut Vec<Shown>,
    is_turned: bool,
    rows: u64,
    cols: u64,
    cells: &[Cell<S>],
) -> Result<(), AllocError>
    ensures shown { OnOk result (shown.new.items ≡ shown.old.items ++ shown_within S.conversions is_turned rows cols cells.now) }
{
    shown.reserve(cells.len())?;
    for cell in cells {
        add_cell(shown, rows, cols, placed(is_turned, *cell))?;
    }
    Ok(())
}

/// What is shown of cells in order, row by row. `Err` means that memory ran out.
pub fn shown_rows<S: Scalar>(
    alloc: Global,
    rows: u64,
    cols: u64,
    cells: &[Cell<S>],
) -> Result<Vec<Shown>, AllocError>
    requires in_order { AreInOrder cells.now }
    ensures shown { IfOk result (λ shown. shown.items ≡ map (shown_cell S.conversions) (cells_of rows cols (found cells.now))) }
{
    let mut shown = Vec::new(alloc);
    add_shown(&mut shown, false, rows, cols, cells)?;
    Ok(shown)
}

/// No cells yet, with room for one for each cell of the ranks. `Err` means that memory ran out.
fn room_for<S: Scalar>(alloc: Global, pieces: &[Vec<Cell<S>>]) -> Result<Vec<Shown>, AllocError>
    ensures empty { IfOk result (λ shown. shown.items ≡ []) }
{
    let mut count = 0usize;
    for piece in pieces {
        count = count.saturating_add(piece.len());
    }
    Vec::with_capacity(alloc, count)
}

/// What is shown of the cells of all ranks, one rank after the other. `Err` means that memory ran out.
fn shown_in_turn<S: Scalar>(
    alloc: Global,
    rows: u64,
    cols: u64,
    pieces: &[Vec<Cell<S>>],
) -> Result<Vec<Shown>, AllocError>
    ensures shown { IfOk result (λ shown. shown.items ≡ shown_within S.conversions false rows cols (cells_in pieces.now)) }
{
    let mut shown = room_for(alloc, pieces)?;
    for piece in pieces {
        add_shown(&mut shown, false, rows, cols, piece)?;
    }
    Ok(shown)
}

/// What is shown of the sum of the ranks' cells, row by row. `Err` means that memory ran out.
fn shown_by_row<S: Scalar>(
    alloc: Global,
    rows: u64,
    cols: u64,
    pieces: &[Vec<Cell<S>>],
) -> Result<Vec<Shown>, AllocError>
    requires in_order { All (λ piece. AreInOrder piece.items) pieces.now }
    ensures shown { IfOk result (λ shown. shown.items ≡ map (shown_cell S.conversions) (listed false rows cols (sum_of_pieces S.semiring pieces.now))) }
{
    if are_consecutive(pieces) {
        return shown_in_turn(alloc, rows, cols, pieces);
    }
    let cells = merged(alloc, false, pieces)?;
    shown_rows(alloc, rows, cols, &cells)
}

/// What is shown of the sum of the ranks' cells, column by column. `Err` means that memory ran out.
fn shown_by_column<S: Scalar>(
    alloc: Global,
    rows: u64,
    cols: u64,
    pieces: &[Vec<Cell<S>>],
) -> Result<Vec<Shown>, AllocError>
    requires in_order { All (λ piece. AreInOrder piece.items) pieces.now }
    ensures shown { IfOk result (λ shown. shown.items ≡ map (shown_cell S.conversions) (listed true rows cols (sum_of_pieces S.semiring pieces.now))) }
{
    let cells = merged(alloc, true, pieces)?;
    let mut shown = Vec::new(alloc);
    add_shown(&mut shown, true, rows, cols, &cells)?;
    Ok(shown)
}

/// What is shown of the sum of the ranks' cells in the first rows and columns, column by column or row by row. Of one column
/// both are the same. `Err` means that memory ran out.
pub fn shown_sum<S: Scalar>(
    alloc: Global,
    by_column: bool,
    rows: u64,
    cols: u64,
    pieces: &[Vec<Cell<S>>],
) -> Result<Vec<Shown>, AllocError>
    requires in_order { All (λ piece. AreInOrder piece.items) pieces.now }
    ensures shown { IfOk result (λ shown. shown.items ≡ map (shown_cell S.conversions) (listed by_column rows cols (sum_of_pieces S.semiring pieces.now))) }
{
    if by_column && cols > 1 {
        return shown_by_column(alloc, rows, cols, pieces);
    }
    shown_by_row(alloc, rows, cols, pieces)
}
