//! The cells of a matrix by global indices.
ghost use Rattle.std.specs.Prelude.{◌≡◌, ◌<◌, ◌++◌, [], length, IfOk, OnOk};
ghost use Rattle.tables.specs.Tables.{AreInOrder, found, table_of};
ghost use Rattle.crs_matrix.specs.ByRow.{by_row};
ghost use Rattle.crs_matrix.specs.Matrices.{crs_table};
ghost use Rattle.rank_matrices.specs.Rows.{local_row};

use crs_matrix::CrsMatrix;
use distributor::DistSource;
use rank_values::in_order;
use scalar_laws::Scalar;
use std::alloc::{AllocError, Global};
use tables::Cell;

/// Puts the cells of a row at the end. The row is a local index of the row map.
fn add_row<S: Scalar>(
    cells: &mut Vec<Cell<S>>,
    matrix: &CrsMatrix<S>,
    lid: u32,
) -> Result<(), AllocError>
    requires known { lid < length matrix.now.graph.rows }
    ensures cells { OnOk result (cells.new.items ≡ cells.old.items ++ local_row (by_row matrix.now) lid) }
{
    let row = matrix.gid(lid);
    for at in 0..matrix.count(lid) {
        let (col, value) = matrix.cell(lid, at);
        cells.push(Cell { row, col, value })?;
    }
    Ok(())
}

/// The cells of a matrix, row after row, in the order of its row map. `Err` means that memory ran out.
fn listed_cells<S: Scalar>(alloc: Global, matrix: &CrsMatrix<S>) -> Result<Vec<Cell<S>>, AllocError>
    ensures cells { IfOk result (λ cells. table_of S.semiring cells.items ≡ crs_table matrix.now) }
{
    let mut cells = Vec::with_capacity(alloc, matrix.graph().places())?;
    for lid in 0..matrix.row_map().len() {
        add_row(&mut cells, matrix, lid)?;
    }
    Ok(cells)
}

/// The cells of a matrix by global row and column, ascending by row, then column. Where the row map ascends they come in
/// order, and only else are they sorted. `Err` means that memory ran out.
pub fn matrix_cells<S: Scalar>(
    alloc: Global,
    matrix: &CrsMatrix<S>,
) -> Result<Vec<Cell<S>>, AllocError>
    ensures in_order { IfOk result (λ cells. AreInOrder cells.items) }
    ensures cells { IfOk result (λ cells. found cells.items ≡ crs_table matrix.now) }
{
    let cells = listed_cells(alloc, matrix)?;
    in_order(alloc, cells)
}
