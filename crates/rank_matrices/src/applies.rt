//! Products of a matrix with vectors, by global indices.
ghost use Rattle.std.specs.Prelude.{◌≡◌, ℕ, true, false, IfOk};
ghost use Rattle.tables.specs.Indices.{AreBelow};
ghost use Rattle.crs_matrix.specs.Matrices.{crs_table};
ghost use Rattle.model_defs.specs.Operations.{grown, product, turned};
ghost use Rattle.rank_values.specs.Vectors.{global_table};
ghost use Rattle.rank_matrices.specs.Matrices.{product_on, source_list, target_list};

use crs_matrix::CrsMatrix;
use multivector::MultiVector;
use scalar_laws::Scalar;
use spmv::{local_apply, local_apply_transposed};
use std::alloc::{AllocError, Global};

/// The sums of the matrix with x, on its row map.
fn sums_of_rows<S: Scalar>(
    alloc: Global,
    a: &CrsMatrix<S>,
    x: &MultiVector<S>,
) -> Result<MultiVector<S>, AllocError>
    requires domain { x.now.map ≡ a.now.graph.cols }
    ensures map { IfOk result (λ v. v.map ≡ a.now.graph.rows) }
    ensures columns { IfOk result (λ v. v.columns ≡ x.now.columns) }
    ensures sums { IfOk result (λ v. (n : ℕ) → AreBelow n a.now.graph.cols
        → global_table v ≡ product_on S.semiring a.now.graph.rows x.now.columns n (crs_table a.now) (global_table x.now)) }
{
    let mut sums = MultiVector::new(alloc, a.graph().row_map().clone()?, x.columns(), S::zero())?;
    local_apply(a, x, &mut sums);
    Ok(sums)
}

/// The sums of the transposed matrix with x, on its column map.
fn sums_of_columns<S: Scalar>(
    alloc: Global,
    a: &CrsMatrix<S>,
    x: &MultiVector<S>,
) -> Result<MultiVector<S>, AllocError>
    requires range { x.now.map ≡ a.now.graph.rows }
    ensures map { IfOk result (λ v. v.map ≡ a.now.graph.cols) }
    ensures columns { IfOk result (λ v. v.columns ≡ x.now.columns) }
    ensures sums { IfOk result (λ v. (n : ℕ) → AreBelow n a.now.graph.rows
        → global_table v ≡ product_on S.semiring a.now.graph.cols x.now.columns n (turned true (crs_table a.now)) (global_table x.now)) }
{
    let _ = a.row_map().len();
    let mut sums = MultiVector::new(alloc, a.graph().col_map().clone()?, x.columns(), S::zero())?;
    local_apply_transposed(a, x, &mut sums);
    Ok(sums)
}

/// The product of a matrix, or of its transpose, with x, of the rows that this rank holds alone: x is on the column map and
/// the result on the row map, and transposed the other way round (`Tpetra::CrsMatrix::localApply`). It has as many columns as
/// x, and zero where no term comes to a sum. Clauses speak of global indices, of which those of x are below n. `Err` means
/// that memory ran out.
pub fn sums_of_apply<S: Scalar>(
    alloc: Global,
    transposed: bool,
    a: &CrsMatrix<S>,
    x: &MultiVector<S>,
) -> Result<MultiVector<S>, AllocError>
    requires source { x.now.map ≡ source_list transposed a.now.graph }
    ensures map { IfOk result (λ v. v.map ≡ target_list transposed a.now.graph) }
    ensures columns { IfOk result (λ v. v.columns ≡ x.now.columns) }
    ensures sums { IfOk result (λ v. (n : ℕ) → AreBelow n x.now.map
        → global_table v ≡ product_on S.semiring (target_list transposed a.now.graph) x.now.columns n (turned transposed (crs_table a.now)) (global_table x.now)) }
{
    if transposed {
        return sums_of_columns(alloc, a, x);
    }
    sums_of_rows(alloc, a, x)
}

/// `alpha` times the matrix times x, plus `beta` times y, cell by cell (`Tpetra::CrsMatrix::apply`, once x has the entries of
/// the column map). x is on the column map, y on the row map, and they have equally many columns; all three stay as they are.
/// Clauses speak of global indices, of which those of the columns are below n. `Err` means that memory ran out.
pub fn applied<S: Scalar>(
    alloc: Global,
    alpha: S,
    a: &CrsMatrix<S>,
    x: &MultiVector<S>,
    beta: S,
    y: &MultiVector<S>,
) -> Result<MultiVector<S>, AllocError>
    requires domain { x.now.map ≡ a.now.graph.cols }
    requires range { y.now.map ≡ a.now.graph.rows }
    requires columns { y.now.columns ≡ x.now.columns }
    ensures map { IfOk result (λ v. v.map ≡ y.now.map) }
    ensures columns { IfOk result (λ v. v.columns ≡ y.now.columns) }
    ensures cells { IfOk result (λ v. (n : ℕ) → AreBelow n a.now.graph.cols
        → global_table v ≡ grown S.semiring alpha (product S.semiring n (crs_table a.now) (global_table x.now)) beta (global_table y.now)) }
{
    let mut sums = sums_of_rows(alloc, a, x)?;
    let _ = y.map();
    sums.update(beta, y, alpha);
    Ok(sums)
}
