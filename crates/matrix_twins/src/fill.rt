//! From cells to a matrix under construction.
ghost use Rattle.std.specs.Prelude.{◌≡◌, Some, IfOk, OnOk};
ghost use Rattle.tables.specs.Sums.{both_or_one};
ghost use Rattle.tables.specs.Tables.{table_of, with_place};
ghost use Rattle.crs_matrix.specs.Rows.{row_table};

use crs_graph::FillFault;
use crs_matrix::MatrixFill;
use map_core::LocalMap;
use scalar_laws::Scalar;
use std::alloc::Global;
use std::rc::Rc;
use tables::Cell;

/// The matrix of these cells, which are inserted one after the other, on the rows of a map.
///
/// `NoSuchRow` says that the row map lacks the row of a cell; `NoMem` means that memory ran out.
pub fn filled<S: Scalar>(
    alloc: Global,
    rows: Rc<LocalMap>,
    cells: &[Cell<S>],
) -> Result<MatrixFill<S>, FillFault>
    ensures rows { IfOk result (λ fill. fill.rows ≡ rows.value) }
    ensures table { IfOk result (λ fill. row_table fill ≡ table_of S.semiring cells.now) }
{
    let mut fill = MatrixFill::new(alloc, rows)?;
    for at in 0..cells.len() {
        insert_cell(&mut fill, cells[at])?;
    }
    Ok(fill)
}

/// Inserts a cell. `Err` means the same.
fn insert_cell<S: Scalar>(fill: &mut MatrixFill<S>, cell: Cell<S>) -> Result<(), FillFault>
    ensures place { OnOk result (row_table fill.new ≡ with_place (row_table fill.old) cell.row cell.col (both_or_one S.semiring.plus (row_table fill.old cell.row cell.col) (Some cell.value))) }
    ensures rows { fill.new.rows ≡ fill.old.rows }
{
    fill.insert(cell.row, cell.col, cell.value)
}
