//! The matrices of `crs_matrix` as sources of rows.
ghost use Rattle.std.specs.Prelude.{◌≡◌};
ghost use Rattle.crs_matrix.specs.ByRow.{by_row};
ghost use Rattle.crs_matrix.specs.Matrices.{crs_table};
ghost use Rattle.crs_matrix.specs.Rows.{row_entries, row_table};
ghost use Rattle.matrix_moves.specs.Sources.{IsRowSource, as_rows};

use crs_matrix::{CrsMatrix, MatrixFill};
use scalar_laws::Scalar;

/// A matrix under construction is a source of its own rows. It does nothing.
pub fn fill_is_source<S: Scalar>(fill: &MatrixFill<S>)
    ensures source { IsRowSource (as_rows (row_entries fill.now)) }
    ensures same { as_rows (row_entries fill.now) ≡ fill.now }
{
    let _ = fill.row_map().len();
}

/// A matrix in compressed rows is a source of its rows, whose table is its own. It does nothing.
pub fn matrix_is_source<S: Scalar>(matrix: &CrsMatrix<S>)
    ensures source { IsRowSource (as_rows (row_entries (by_row matrix.now))) }
    ensures same { as_rows (row_entries (by_row matrix.now)) ≡ by_row matrix.now }
    ensures table { row_table (as_rows (row_entries (by_row matrix.now))) ≡ crs_table matrix.now }
{
    let _ = matrix.row_map().len();
}
