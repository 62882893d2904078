//! A matrix under construction with the places of a matrix.
ghost use Rattle.std.specs.Prelude.{◌≡◌, IfOk};
ghost use Rattle.crs_matrix.specs.Matrices.{crs_table};
ghost use Rattle.crs_matrix.specs.Rows.{row_table};

use crs_matrix::{CrsMatrix, MatrixFill};
use scalar_laws::Scalar;
use sparse_product::local_add;
use std::alloc::{AllocError, Global};

/// The matrix under construction with the rows and the places of a matrix, which stays as it is. `Err` means that memory ran out.
pub(crate) fn copied_fill<S: Scalar>(
    alloc: Global,
    matrix: &CrsMatrix<S>,
) -> Result<MatrixFill<S>, AllocError>
    ensures rows { IfOk result (λ fill. fill.rows ≡ matrix.now.graph.rows) }
    ensures table { IfOk result (λ fill. row_table fill ≡ crs_table matrix.now) }
{
    let empty = MatrixFill::new(alloc, matrix.row_map().clone()?)?;
    local_add(alloc, S::one(), matrix, S::zero(), &empty)
}
