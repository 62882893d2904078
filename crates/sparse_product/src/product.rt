//! The product of two matrices.
ghost use Rattle.std.specs.Prelude.{◌≡◌, ◌<◌, ℕ, IfOk};
ghost use Rattle.tables.specs.Indices.{AreBelow};
ghost use Rattle.model_defs.specs.Operations.{product};
ghost use Rattle.crs_matrix.specs.Matrices.{crs_table};
ghost use Rattle.crs_matrix.specs.Rows.{row_table};

use crate::dense_row::DenseRow;
use crate::gather::gather;
use crate::linked_rows::link_rows;
use crs_matrix::{CrsMatrix, MatrixFill};
use scalar_laws::Scalar;
use std::alloc::{AllocError, Global};

/// The product of the rows that a rank holds of a matrix with those rows of another that their columns name: the rows of
/// `b` are those of a's column map, in its order (`Tpetra::MatrixMatrix::Multiply`, on one rank). The result is on a's
/// rows. It has a place where a column with both places is, also where the sum is zero. `Err` means that memory ran out.
pub fn local_product<S: Scalar>(
    alloc: Global,
    a: &CrsMatrix<S>,
    b: &MatrixFill<S>,
) -> Result<MatrixFill<S>, AllocError>
    requires columns { b.now.rows ≡ a.now.graph.cols }
    ensures rows { IfOk result (λ c. c.rows ≡ a.now.graph.rows) }
    ensures product { IfOk result (λ c. (n : ℕ) → AreBelow n a.now.graph.cols → row_table c ≡ product S.semiring n (crs_table a.now) (row_table b.now)) }
{
    let _ = b.row_map();
    let columns = b.columns()?;
    let links = link_rows(alloc, b, &columns)?;
    let mut row = DenseRow::new(alloc, columns.len())?;
    let rows = a.graph().row_map();
    let mut product = MatrixFill::new(alloc, rows.clone()?)?;
    for lid in 0..rows.len() {
        gather(&mut row, a.graph().row(lid), a.row(lid), &links)?;
        row.spill(&columns, &mut product, lid)?;
    }
    Ok(product)
}
