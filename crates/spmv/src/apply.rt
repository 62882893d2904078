//! The product of a matrix with a vector.
ghost use Rattle.std.specs.Prelude.{◌≡◌, ◌<◌, ◌==◌, ℕ, Some, length, if◌then◌else◌};
ghost use Rattle.tables.specs.Indices.{AreBelow};
ghost use Rattle.tables.specs.Sums.{both_or_one};
ghost use Rattle.crs_graph.specs.Ascending.{IsAscending};
ghost use Rattle.crs_matrix.specs.Matrices.{crs_local};
ghost use Rattle.multivector.specs.Vectors.{vector_table};
ghost use Rattle.model_defs.specs.Operations.{product};
ghost use Rattle.spmv.specs.Applied.{grown, row_product};

use crs_matrix::CrsMatrix;
use multivector::MultiVector;
use scalar_laws::Scalar;

/// Adds to y the product of the matrix with x (`Tpetra::CrsMatrix::localApply`): at each row and each column of the vectors
/// the sum over the row's places of their number times x's. x is on the column map, y on the row map, and they have equally
/// many columns. No memory is taken.
pub fn local_apply<S: Scalar>(a: &CrsMatrix<S>, x: &MultiVector<S>, y: &mut MultiVector<S>)
    requires domain { x.now.map ≡ a.now.graph.cols }
    requires range { y.old.map ≡ a.now.graph.rows }
    requires columns { y.old.columns ≡ x.now.columns }
    ensures sum { vector_table y.new ≡ grown S.semiring (vector_table y.old) (product S.semiring (length a.now.graph.cols) (crs_local a.now) (vector_table x.now)) }
    ensures same_map { y.new.map ≡ y.old.map }
    ensures same_columns { y.new.columns ≡ y.old.columns }
{
    for lid in 0..a.graph().row_map().len() {
        apply_row(a.graph().row(lid), a.row(lid), x, y, lid);
    }
}

/// Adds the product of one row to an entry of y. Vectors of one column have a loop of their own, in which an entry's place is its
/// local index.
#[inline]
fn apply_row<S: Scalar>(
    columns: &[u32],
    numbers: &[S],
    x: &MultiVector<S>,
    y: &mut MultiVector<S>,
    lid: u32,
)
    requires ascend { IsAscending columns.now }
    requires within { AreBelow (length x.now.map) columns.now }
    requires as_many { length numbers.now ≡ length columns.now }
    requires known { lid < length y.old.map }
    requires columns { y.old.columns ≡ x.now.columns }
    ensures row { (i k : ℕ) → vector_table y.new i k ≡ (if lid == i then both_or_one S.semiring.plus (vector_table y.old i k) (row_product S.semiring (length x.now.map) columns.now numbers.now (vector_table x.now) k) else vector_table y.old i k) }
    ensures same_map { y.new.map ≡ y.old.map }
    ensures same_columns { y.new.columns ≡ y.old.columns }
{
    if x.columns() == 1 {
        let sum = row_sum(columns, numbers, x, 0, y.cell(lid, 0));
        y.set(lid, 0, sum);
        return;
    }
    for col in 0..x.columns() {
        let sum = row_sum(columns, numbers, x, col, y.cell(lid, col));
        y.set(lid, col, sum);
    }
}

/// A number and one column of the product of a row.
#[inline(always)]
fn row_sum<S: Scalar>(columns: &[u32], numbers: &[S], x: &MultiVector<S>, col: u32, first: S) -> S
    requires ascend { IsAscending columns.now }
    requires within { AreBelow (length x.now.map) columns.now }
    requires as_many { length numbers.now ≡ length columns.now }
    requires known { col < x.now.columns }
    ensures sum { Some result ≡ both_or_one S.semiring.plus (Some first) (row_product S.semiring (length x.now.map) columns.now numbers.now (vector_table x.now) col) }
{
    let mut sum = first;
    for at in 0..columns.len() {
        sum = sum.add(numbers[at].mul(x.cell(columns[at], col)));
    }
    sum
}
