//! Scaled matrices.
ghost use Rattle.std.specs.Prelude.{◌≡◌, IfOk};
ghost use Rattle.crs_matrix.specs.Matrices.{crs_table};
ghost use Rattle.model_defs.specs.Operations.{scaled};

use crs_matrix::CrsMatrix;
use scalar_laws::Scalar;
use std::alloc::AllocError;

/// `alpha` times a matrix, which stays as it is (`Tpetra::CrsMatrix::scale`). The two share one structure. `Err` means that
/// memory ran out.
pub fn scaled_matrix<S: Scalar>(alpha: S, matrix: &CrsMatrix<S>) -> Result<CrsMatrix<S>, AllocError>
    ensures graph { IfOk result (λ m. m.graph ≡ matrix.now.graph) }
    ensures table { IfOk result (λ m. crs_table m ≡ scaled S.semiring alpha (crs_table matrix.now)) }
{
    let mut copy = matrix.copy()?;
    copy.scale(alpha);
    Ok(copy)
}
