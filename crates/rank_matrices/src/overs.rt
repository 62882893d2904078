//! Numbers that are over, in a matrix.
ghost use Rattle.std.specs.Prelude.{◌≡◌, ℕ, true, false};
ghost use Rattle.crs_matrix.specs.Matrices.{crs_table};
ghost use Rattle.rank_values.specs.Vectors.{HasOver, is_over_there};
ghost use Rattle.rank_matrices.specs.Rows.{has_over};

use crs_matrix::CrsMatrix;
use scalar_laws::Scalar;

/// Whether one of these numbers is over.
fn has_over<S: Scalar>(numbers: &[S]) -> bool
    ensures over { result ≡ has_over S.conversions numbers.now }
{
    for number in numbers {
        if number.is_over() {
            return true;
        }
    }
    false
}

/// Whether some number of the matrix is over. It takes no memory.
pub fn is_matrix_over<S: Scalar>(matrix: &CrsMatrix<S>) -> bool
    ensures some { result ≡ true → HasOver S.conversions (crs_table matrix.now) }
    ensures none { result ≡ false → (i j : ℕ) → is_over_there S.conversions (crs_table matrix.now i j) ≡ false }
{
    for lid in 0..matrix.graph().row_map().len() {
        if has_over(matrix.row(lid)) {
            return true;
        }
    }
    false
}
