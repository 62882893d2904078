//! What statements name: pieces of the values before, the plans of a matrix, and factors.
ghost use Rattle.std.specs.Prelude.{◌≡◌, true, false, Some, slice_get};
ghost use Rattle.map_core.specs.Plans.{PlanLists};
ghost use Rattle.multivector.specs.Vectors.{VectorState};
ghost use Rattle.model_defs.specs.FileMatrix.{number_of};
ghost use Rattle.model_defs.specs.ShapeLists.{at_list};
ghost use Rattle.rank_pieces.specs.declared.pieces.Piece.TheVariants.{Matrix, Vector};
ghost use Rattle.rank_pieces.specs.declared.pieces.RankMatrix.{RankMatrix};

use map_core::Plan;
use model_defs::Shape;
use multivector::MultiVector;
use rank_pieces::{Piece, RankMatrix};
use rank_values::number_of;
use scalar_laws::Scalar;

/// The number of a factor.
pub(crate) fn factor<S: Scalar>(value: i64) -> S
    ensures number { result ≡ number_of S.semiring S.conversions value }
{
    number_of(value as i128)
}

/// The piece of this number, which is a vector.
pub(crate) fn vector_at<S: Scalar>(pieces: &[Piece<S>], k: usize) -> &MultiVector<S>
    requires vector { (v : VectorState S) × (slice_get pieces.now k ≡ Some (Vector v)) }
    ensures at { slice_get pieces.now k ≡ Some (Vector result.now) }
{
    match &pieces[k] {
        Piece::Vector(vector) => vector,
        Piece::Matrix(_) => unreachable!(),
    }
}

/// The piece of this number, which is a matrix.
pub(crate) fn matrix_at<S: Scalar>(pieces: &[Piece<S>], k: usize) -> &RankMatrix<S>
    requires matrix { (m : RankMatrix S) × (slice_get pieces.now k ≡ Some (Matrix m)) }
    ensures at { slice_get pieces.now k ≡ Some (Matrix result.now) }
{
    match &pieces[k] {
        Piece::Matrix(m) => m,
        Piece::Vector(_) => unreachable!(),
    }
}

/// The plan of the rows of a matrix that is split, or that of the columns of a matrix.
pub(crate) fn plan_of<S: Scalar>(m: &RankMatrix<S>, rows: bool) -> &Plan
    requires split { rows ≡ true → (plan : PlanLists) × (m.now.rows ≡ Some plan) }
    ensures columns { rows ≡ false → result.now ≡ m.now.columns }
    ensures rows { rows ≡ true → m.now.rows ≡ Some result.now }
{
    if !rows {
        return &m.columns;
    }
    match &m.rows {
        Some(plan) => plan,
        None => unreachable!(),
    }
}

/// The map of the rows of the value of this number.
pub(crate) fn rows_at(shapes: &[Shape], value: usize) -> u32
    ensures rows { result ≡ (at_list shapes.now value).rows }
{
    match shapes.get(value) {
        Some(shape) => shape.rows,
        None => 0,
    }
}
