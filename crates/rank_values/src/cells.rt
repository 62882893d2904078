//! The cells of a vector by global indices.
ghost use Rattle.std.specs.Prelude.{◌≡◌, ◌<◌, ◌++◌, [], length, ℕ, true, false, IfOk, OnOk};
ghost use Rattle.tables.specs.Tables.{AreInOrder, found, stands_before, table_of};
ghost use Rattle.rank_values.specs.Vectors.{HasOver, global_table, is_over_there};
ghost use Rattle.rank_values.specs.Rows.{is_row_over, row_of};

use gathered_rows::sums_of;
use multivector::MultiVector;
use scalar_laws::Scalar;
use std::alloc::{AllocError, Global};
use tables::Cell;

/// Puts the cells of a row at the end.
fn add_row<S: Scalar>(
    cells: &mut Vec<Cell<S>>,
    vector: &MultiVector<S>,
    lid: u32,
    row: u64,
) -> Result<(), AllocError>
    requires known { lid < length vector.now.map }
    ensures cells { OnOk result (cells.new.items ≡ cells.old.items ++ row_of vector.now lid row vector.now.columns) }
{
    for col in 0..vector.columns() {
        cells.push(Cell {
            row,
            col: col as u64,
            value: vector.cell(lid, col),
        })?;
    }
    Ok(())
}

/// No cells yet, with room for those of a vector. `Err` means that memory ran out.
fn room_for<S: Scalar>(alloc: Global, vector: &MultiVector<S>) -> Result<Vec<Cell<S>>, AllocError>
    ensures empty { IfOk result (λ cells. cells.items ≡ []) }
{
    let rows = vector.map().len() as usize;
    Vec::with_capacity(alloc, rows.saturating_mul(vector.columns() as usize))
}

/// The cells of a vector, row after row, in the order of its map. `Err` means that memory ran out.
fn listed_cells<S: Scalar>(
    alloc: Global,
    vector: &MultiVector<S>,
) -> Result<Vec<Cell<S>>, AllocError>
    ensures cells { IfOk result (λ cells. table_of S.semiring cells.items ≡ global_table vector.now) }
{
    let map = vector.map();
    let mut cells = room_for(alloc, vector)?;
    for lid in 0..map.len() {
        let Some(row) = map.global_of(lid) else {
            unreachable!();
        };
        add_row(&mut cells, vector, lid, row)?;
    }
    Ok(cells)
}

/// Whether a cell stands before another one, by row, then column.
fn is_before<S: Scalar>(c: &Cell<S>, d: &Cell<S>) -> bool
    ensures { result ≡ stands_before c.now d.now }
{
    c.row < d.row || (c.row == d.row && c.col < d.col)
}

/// Whether each cell stands before the next one, as those of an ascending list of indices do.
fn are_in_order<S: Scalar>(cells: &[Cell<S>]) -> bool
    ensures in_order { result ≡ true → AreInOrder cells.now }
{
    for at in 1..cells.len() {
        if !is_before(&cells[at - 1], &cells[at]) {
            return false;
        }
    }
    true
}

/// Cells put in order by row, then column, those of one place added. `Err` means that memory ran out.
fn put_in_order<S: Scalar>(alloc: Global, cells: Vec<Cell<S>>) -> Result<Vec<Cell<S>>, AllocError>
    ensures in_order { IfOk result (λ sorted. AreInOrder sorted.items) }
    ensures cells { IfOk result (λ sorted. found sorted.items ≡ table_of S.semiring cells.items) }
{
    let mut blocks = Vec::new(alloc);
    blocks.push(cells)?;
    sums_of(alloc, blocks)
}

/// Cells in order by row, then column, those of one place added. Only cells that are not in order take memory. `Err` means
/// that memory ran out.
pub fn in_order<S: Scalar>(alloc: Global, cells: Vec<Cell<S>>) -> Result<Vec<Cell<S>>, AllocError>
    ensures in_order { IfOk result (λ sorted. AreInOrder sorted.items) }
    ensures cells { IfOk result (λ sorted. found sorted.items ≡ table_of S.semiring cells.items) }
{
    if are_in_order(&cells) {
        return Ok(cells);
    }
    put_in_order(alloc, cells)
}

/// The cells of a vector by global index and column, ascending by row, then column. `Err` means that memory ran out.
pub fn global_cells<S: Scalar>(
    alloc: Global,
    vector: &MultiVector<S>,
) -> Result<Vec<Cell<S>>, AllocError>
    ensures in_order { IfOk result (λ cells. AreInOrder cells.items) }
    ensures cells { IfOk result (λ cells. found cells.items ≡ global_table vector.now) }
{
    let cells = listed_cells(alloc, vector)?;
    in_order(alloc, cells)
}

/// Whether some number of a row is over.
fn is_row_over<S: Scalar>(vector: &MultiVector<S>, lid: u32) -> bool
    requires known { lid < length vector.now.map }
    ensures over { result ≡ is_row_over S.conversions vector.now lid vector.now.columns }
{
    for col in 0..vector.columns() {
        if vector.cell(lid, col).is_over() {
            return true;
        }
    }
    false
}

/// Whether some number of the vector is over. It takes no memory.
pub fn is_vector_over<S: Scalar>(vector: &MultiVector<S>) -> bool
    ensures some { result ≡ true → HasOver S.conversions (global_table vector.now) }
    ensures none { result ≡ false → (i j : ℕ) → is_over_there S.conversions (global_table vector.now i j) ≡ false }
{
    for lid in 0..vector.map().len() {
        if is_row_over(vector, lid) {
            return true;
        }
    }
    false
}
