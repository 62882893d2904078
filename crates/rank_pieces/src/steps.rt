//! What the statements make of a rank's pieces without letters.
ghost use Rattle.std.specs.Prelude.{◌≡◌, ◌<◌, ℕ, IfOk, Some, length, slice_get};
ghost use Rattle.combine_modes.specs.declared.mode.Mode.{Mode};
ghost use Rattle.multivector.specs.Vectors.{IsVector, VectorState};
ghost use Rattle.model_defs.specs.FileMatrix.{number_of};
ghost use Rattle.model_defs.specs.Operations.{combination};
ghost use Rattle.rank_transfers.specs.Arrivals.{after_table};
ghost use Rattle.rank_values.specs.Vectors.{global_table};
ghost use Rattle.rank_pieces.specs.declared.pieces.Piece.{Piece};
ghost use Rattle.rank_pieces.specs.declared.pieces.Piece.TheVariants.{Vector};
ghost use Rattle.rank_pieces.specs.Steps.{AreAlike, CanMake, IsOnListOf, IsSame, IsScaled, IsStepPiece, IsVectorAt, IsVectorOn};

use crate::combining::combined_vector;
use crate::matrices::{copy_matrix, scaled_copy};
use crate::pieces::Piece;
use combine_modes::Mode;
use model_defs::Step;
use multivector::MultiVector;
use rank_values::{number_of, scaled_vector, sum_of_vectors};
use scalar_laws::Scalar;
use std::alloc::AllocError;

/// The number of a factor.
fn factor<S: Scalar>(value: i64) -> S
    ensures number { result ≡ number_of S.semiring S.conversions value }
{
    number_of(value as i128)
}

/// The piece of this number, which is a vector.
fn vector_at<S: Scalar>(pieces: &[Piece<S>], k: usize) -> &MultiVector<S>
    requires vector { IsVectorAt pieces.now k }
    ensures at { slice_get pieces.now k ≡ Some (Vector result.now) }
{
    match &pieces[k] {
        Piece::Vector(vector) => vector,
        Piece::Matrix(_) => unreachable!(),
    }
}

/// The same vector once more.
fn same_vector<S: Scalar>(x: &MultiVector<S>) -> Result<MultiVector<S>, AllocError>
    ensures same { IfOk result (λ v. v ≡ x.now) }
    ensures is_vector { IsVector x.now }
{
    let _ = x.map().len();
    x.copy()
}

/// The same piece once more.
fn same_piece<S: Scalar>(piece: &Piece<S>) -> Result<Piece<S>, AllocError>
    ensures same { IfOk result (IsSame piece.now) }
{
    match piece {
        Piece::Vector(vector) => Ok(Piece::Vector(same_vector(vector)?)),
        Piece::Matrix(matrix) => Ok(Piece::Matrix(copy_matrix(matrix)?)),
    }
}

/// `alpha` times a piece, which stays as it is.
fn scaled_piece<S: Scalar>(alpha: S, piece: &Piece<S>) -> Result<Piece<S>, AllocError>
    ensures scaled { IfOk result (IsScaled S.semiring alpha piece.now) }
{
    match piece {
        Piece::Vector(vector) => Ok(Piece::Vector(scaled_vector(alpha, vector)?)),
        Piece::Matrix(matrix) => Ok(Piece::Matrix(scaled_copy(alpha, matrix)?)),
    }
}

/// The piece of this number once more.
fn same_at<S: Scalar>(pieces: &[Piece<S>], from: usize) -> Result<Piece<S>, AllocError>
    requires there { from < length pieces.now }
    ensures piece { IfOk result (λ p. (a : Piece S) → slice_get pieces.now from ≡ Some a → IsSame a p) }
{
    same_piece(&pieces[from])
}

/// `alpha` times the piece of this number.
fn scaled_at<S: Scalar>(pieces: &[Piece<S>], alpha: S, value: usize) -> Result<Piece<S>, AllocError>
    requires there { value < length pieces.now }
    ensures piece { IfOk result (λ p. (a : Piece S) → slice_get pieces.now value ≡ Some a → IsScaled S.semiring alpha a p) }
{
    scaled_piece(alpha, &pieces[value])
}

/// The vector of one number combined with that of another one.
fn combined_piece<S: Scalar>(
    pieces: &[Piece<S>],
    from: usize,
    onto: usize,
    mode: Mode,
) -> Result<Piece<S>, AllocError>
    requires alike { AreAlike pieces.now from onto }
    ensures piece { IfOk result (λ p. (a b : VectorState S) → slice_get pieces.now from ≡ Some (Vector a) → slice_get pieces.now onto ≡ Some (Vector b)
        → IsVectorOn b (after_table S.semiring mode (global_table b) (global_table a)) p) }
{
    let combined = combined_vector(vector_at(pieces, from), vector_at(pieces, onto), mode)?;
    Ok(Piece::Vector(combined))
}

/// The sum of the vectors of two numbers, each times a factor.
fn sum_piece<S: Scalar>(
    pieces: &[Piece<S>],
    alpha: S,
    x: usize,
    beta: S,
    y: usize,
) -> Result<Piece<S>, AllocError>
    requires alike { AreAlike pieces.now x y }
    ensures piece { IfOk result (λ p. (a b : VectorState S) → slice_get pieces.now x ≡ Some (Vector a) → slice_get pieces.now y ≡ Some (Vector b)
        → IsVectorOn b (combination S.semiring alpha (global_table a) beta (global_table b)) p) }
{
    let sum = sum_of_vectors(alpha, vector_at(pieces, x), beta, vector_at(pieces, y))?;
    Ok(Piece::Vector(sum))
}

/// The piece of the value that a statement makes of those before it. What is moved, imported, exported or spread stays on its
/// map. `Err` means that memory ran out.
pub(crate) fn step_piece<S: Scalar>(
    pieces: &[Piece<S>],
    step: &Step,
) -> Result<Piece<S>, AllocError>
    requires operands { CanMake pieces.now step.now }
    ensures piece { IfOk result (IsStepPiece S.semiring S.conversions pieces.now step.now) }
{
    match step {
        Step::Move { from, .. } => same_at(pieces, *from as usize),
        Step::Spread { from, .. } => same_at(pieces, *from as usize),
        Step::Import {
            from,
            onto,
            mode,
            ..
        } => combined_piece(pieces, *from as usize, *onto as usize, *mode),
        Step::Export {
            from,
            onto,
            mode,
            ..
        } => combined_piece(pieces, *from as usize, *onto as usize, *mode),
        Step::Update {
            x,
            y,
            alpha,
            beta,
            ..
        } => sum_piece(
            pieces,
            factor(*alpha),
            *x as usize,
            factor(*beta),
            *y as usize,
        ),
        Step::Scale { value, alpha, .. } => scaled_at(pieces, factor(*alpha), *value as usize),
        Step::Print { .. }
        | Step::Apply { .. }
        | Step::Transpose { .. }
        | Step::Multiply { .. }
        | Step::Add { .. }
        | Step::Assemble { .. } => unreachable!(),
    }
}
