//! Sums of vectors, cell by cell.
ghost use Rattle.std.specs.Prelude.{◌≡◌, IfOk};
ghost use Rattle.model_defs.specs.Operations.{combination, scaled};
ghost use Rattle.rank_values.specs.Vectors.{global_table};

use multivector::MultiVector;
use scalar_laws::Scalar;
use std::alloc::AllocError;

/// `alpha` times x plus `beta` times y, cell by cell (`Tpetra::MultiVector::update`). Both are on one list and have as many
/// columns. `Err` means that memory ran out.
pub fn sum_of_vectors<S: Scalar>(
    alpha: S,
    x: &MultiVector<S>,
    beta: S,
    y: &MultiVector<S>,
) -> Result<MultiVector<S>, AllocError>
    requires map { x.now.map ≡ y.now.map }
    requires columns { x.now.columns ≡ y.now.columns }
    ensures map { IfOk result (λ v. v.map ≡ y.now.map) }
    ensures columns { IfOk result (λ v. v.columns ≡ y.now.columns) }
    ensures cells { IfOk result (λ v. global_table v ≡ combination S.semiring alpha (global_table x.now) beta (global_table y.now)) }
{
    let sum = MultiVector::combined(alpha, x, beta, y)?;
    Ok(sum)
}

/// `alpha` times x, cell by cell (`Tpetra::MultiVector::scale`). `Err` means that memory ran out.
pub fn scaled_vector<S: Scalar>(alpha: S, x: &MultiVector<S>) -> Result<MultiVector<S>, AllocError>
    ensures map { IfOk result (λ v. v.map ≡ x.now.map) }
    ensures columns { IfOk result (λ v. v.columns ≡ x.now.columns) }
    ensures cells { IfOk result (λ v. global_table v ≡ scaled S.semiring alpha (global_table x.now)) }
{
    sum_of_vectors(alpha, x, S::zero(), x)
}
