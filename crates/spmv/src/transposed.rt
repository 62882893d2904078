//! The product of a transposed matrix with a vector.
ghost use Rattle.std.specs.Prelude.{◌≡◌, ◌<◌, ◌==◌, ℕ, Some, length, if◌then◌else◌};
ghost use Rattle.tables.specs.Indices.{AreBelow};
ghost use Rattle.tables.specs.Sums.{both_or_one};
ghost use Rattle.map_core.specs.Layouts.{local_index};
ghost use Rattle.crs_graph.specs.Ascending.{IsAscending};
ghost use Rattle.crs_matrix.specs.Matrices.{crs_local, number_at_place};
ghost use Rattle.multivector.specs.Vectors.{vector_table};
ghost use Rattle.model_defs.specs.Operations.{product, times_there};
ghost use Rattle.spmv.specs.Applied.{grown, turned};

use crs_matrix::CrsMatrix;
use multivector::MultiVector;
use scalar_laws::Scalar;

/// Adds to y the product of the transposed matrix with x (`Tpetra::CrsMatrix::localApply` with `Teuchos::TRANS`): at each
/// column of the matrix and each column of the vectors the sum over its places of their number times x's. x is on the row
/// map, y on the column map, and they have equally many columns. No memory is taken.
pub fn local_apply_transposed<S: Scalar>(
    a: &CrsMatrix<S>,
    x: &MultiVector<S>,
    y: &mut MultiVector<S>,
)
    requires range { x.now.map ≡ a.now.graph.rows }
    requires domain { y.old.map ≡ a.now.graph.cols }
    requires columns { y.old.columns ≡ x.now.columns }
    ensures sum { vector_table y.new ≡ grown S.semiring (vector_table y.old) (product S.semiring (length a.now.graph.rows) (turned (crs_local a.now)) (vector_table x.now)) }
    ensures same_map { y.new.map ≡ y.old.map }
    ensures same_columns { y.new.columns ≡ y.old.columns }
{
    for lid in 0..a.graph().row_map().len() {
        spread_row(a.graph().row(lid), a.row(lid), x, lid, y);
    }
}

/// Adds the numbers of a row times the entry of x at the row to the entries of its columns.
fn spread_row<S: Scalar>(
    columns: &[u32],
    numbers: &[S],
    x: &MultiVector<S>,
    lid: u32,
    y: &mut MultiVector<S>,
)
    requires ascend { IsAscending columns.now }
    requires within { AreBelow (length y.old.map) columns.now }
    requires as_many { length numbers.now ≡ length columns.now }
    requires known { lid < length x.now.map }
    requires columns { y.old.columns ≡ x.now.columns }
    ensures row { (i k : ℕ) → vector_table y.new i k ≡ both_or_one S.semiring.plus (vector_table y.old i k) (times_there S.semiring (number_at_place numbers.now (local_index columns.now i)) (vector_table x.now lid k)) }
    ensures same_map { y.new.map ≡ y.old.map }
    ensures same_columns { y.new.columns ≡ y.old.columns }
{
    for at in 0..columns.len() {
        spread_place(numbers[at], x, lid, y, columns[at]);
    }
}

/// Adds a number times an entry of x to an entry of y. In vectors of one column an entry's place is its local index.
#[inline]
fn spread_place<S: Scalar>(number: S, x: &MultiVector<S>, lid: u32, y: &mut MultiVector<S>, to: u32)
    requires known { lid < length x.now.map }
    requires there { to < length y.old.map }
    requires columns { y.old.columns ≡ x.now.columns }
    ensures entry { (i k : ℕ) → vector_table y.new i k ≡ (if to == i then both_or_one S.semiring.plus (vector_table y.old i k) (times_there S.semiring (Some number) (vector_table x.now lid k)) else vector_table y.old i k) }
    ensures same_map { y.new.map ≡ y.old.map }
    ensures same_columns { y.new.columns ≡ y.old.columns }
{
    if y.columns() == 1 {
        let sum = y.cell(to, 0).add(number.mul(x.cell(lid, 0)));
        y.set(to, 0, sum);
        return;
    }
    for col in 0..x.columns() {
        let sum = y.cell(to, col).add(number.mul(x.cell(lid, col)));
        y.set(to, col, sum);
    }
}
