//! Vectors whose cells are combined with those of another one on the same list.
ghost use Rattle.std.specs.Prelude.{◌≡◌, ◌<◌, ℕ, true, IfOk, length};
ghost use Rattle.combine_modes.specs.Modes.{after_one};
ghost use Rattle.multivector.specs.Vectors.{HasSameShape, vector_table};
ghost use Rattle.rank_transfers.specs.Arrivals.{after_table};
ghost use Rattle.rank_values.specs.Vectors.{global_table};

use combine_modes::{Mode, vector_cell};
use multivector::MultiVector;
use scalar_laws::Scalar;
use std::alloc::AllocError;

/// Combines the cells of a row of x with those of y. All other rows stay.
fn combine_row<S: Scalar>(x: &MultiVector<S>, y: &mut MultiVector<S>, lid: u32, mode: Mode)
    requires map { x.now.map ≡ y.old.map }
    requires columns { x.now.columns ≡ y.old.columns }
    requires row { lid < length y.old.map }
    ensures shape { HasSameShape y.old y.new }
    ensures row { (j : ℕ) → vector_table y.new lid j ≡ after_one S.semiring mode true (vector_table y.old lid j) (vector_table x.now lid j) }
    ensures others { (i j : ℕ) → (i ≡ lid → ⊥) → vector_table y.new i j ≡ vector_table y.old i j }
{
    for col in 0..x.columns() {
        let value = vector_cell(y.cell(lid, col), x.cell(lid, col), mode);
        y.set(lid, col, value);
    }
}

/// Combines the cells of x with those of y.
fn combine_cells<S: Scalar>(x: &MultiVector<S>, y: &mut MultiVector<S>, mode: Mode)
    requires map { x.now.map ≡ y.old.map }
    requires columns { x.now.columns ≡ y.old.columns }
    ensures shape { HasSameShape y.old y.new }
    ensures cells { (i j : ℕ) → vector_table y.new i j ≡ after_one S.semiring mode true (vector_table y.old i j) (vector_table x.now i j) }
{
    for lid in 0..x.map().len() {
        combine_row(x, y, lid, mode);
    }
}

/// The vector y, with the cells of x combined with its own by the mode. Both are on one list and have as many columns. `Err` means
/// that memory ran out.
pub fn combined_vector<S: Scalar>(
    x: &MultiVector<S>,
    y: &MultiVector<S>,
    mode: Mode,
) -> Result<MultiVector<S>, AllocError>
    requires map { x.now.map ≡ y.now.map }
    requires columns { x.now.columns ≡ y.now.columns }
    ensures map { IfOk result (λ v. v.map ≡ y.now.map) }
    ensures columns { IfOk result (λ v. v.columns ≡ y.now.columns) }
    ensures cells { IfOk result (λ v. global_table v ≡ after_table S.semiring mode (global_table y.now) (global_table x.now)) }
{
    let mut combined = y.copy()?;
    combine_cells(x, &mut combined, mode);
    Ok(combined)
}
