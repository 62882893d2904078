//! Matrices under construction: made of the rows that came, or by the rank itself.
ghost use Rattle.std.specs.Prelude.{◌≡◌, ℕ, true, List, IfOk};
ghost use Rattle.mm_text.specs.Reading.{File};
ghost use Rattle.peers.specs.Protocols.{Letter};
ghost use Rattle.model_defs.specs.declared.shape.Shape.{Shape};
ghost use Rattle.model_defs.specs.Makers.{maker_of};
ghost use Rattle.model_defs.specs.ShapeLists.{at_list};
ghost use Rattle.model_defs.specs.Shapes.{shape};
ghost use Rattle.rank_share.specs.declared.share.Share.{Share};
ghost use Rattle.value_phases.specs.ValueKinds.{IsProduct, IsSum, IsSumHere, is_own_matrix};
ghost use Rattle.rank_makings.specs.Beginnings.{CanFill, IsAt};
ghost use Rattle.rank_makings.specs.Comings.{IsFilled};

use crate::copied::copied_fill;
use crate::gathering::{factors_of, is_product, is_sum, summands_of};
use crate::operands::{factor, matrix_at, rows_at};
use crs_matrix::MatrixFill;
use model_defs::{Job, Shape, Step};
use phase_list::{MadeBy, maker_at};
use rank_pieces::{Piece, dealt_fill};
use rank_share::Share;
use scalar_laws::Scalar;
use sparse_product::{local_add, local_product};
use std::alloc::{AllocError, Global};

/// The rank's rows of a product, of its rows of a and the rows of b that came.
fn filled_product<S: Scalar>(
    alloc: Global,
    job: &Job,
    pieces: &[Piece<S>],
    k: usize,
    came: &MatrixFill<S>,
) -> Result<MatrixFill<S>, AllocError>
    requires kind { IsProduct job.now k }
    requires can { (files : List File) × ((me : ℕ) × ((share : Share) × ((shapes : List Shape) × ((given : List Letter)
        × CanFill S.semiring S.conversions job.now files me share shapes pieces.now given k came.now)))) }
    ensures filled { IfOk result (λ fill. (files : List File) (me : ℕ) (share : Share) (shapes : List Shape) (given : List Letter)
        → CanFill S.semiring S.conversions job.now files me share shapes pieces.now given k came.now
        → IsFilled S.semiring S.conversions job.now files me pieces.now given k fill) }
{
    let said = factors_of(job, k);
    local_product(alloc, &matrix_at(pieces, said.a).matrix, came)
}

/// The rank's rows of a sum, of its rows of a and the rows of b that came.
fn filled_sum<S: Scalar>(
    alloc: Global,
    job: &Job,
    pieces: &[Piece<S>],
    k: usize,
    came: &MatrixFill<S>,
) -> Result<MatrixFill<S>, AllocError>
    requires kind { IsSum job.now k }
    requires can { (files : List File) × ((me : ℕ) × ((share : Share) × ((shapes : List Shape) × ((given : List Letter)
        × CanFill S.semiring S.conversions job.now files me share shapes pieces.now given k came.now)))) }
    ensures filled { IfOk result (λ fill. (files : List File) (me : ℕ) (share : Share) (shapes : List Shape) (given : List Letter)
        → CanFill S.semiring S.conversions job.now files me share shapes pieces.now given k came.now
        → IsFilled S.semiring S.conversions job.now files me pieces.now given k fill) }
{
    let said = summands_of(job, k);
    let (alpha, beta) = (factor(said.alpha), factor(said.beta));
    local_add(alloc, alpha, &matrix_at(pieces, said.a).matrix, beta, came)
}

/// The rank's rows of value k, a matrix, once the rows that its statement names came: the product of its rows of a with those of b, the
/// sum of both, or else what came. `Err` means that memory ran out.
pub fn filled_rows<S: Scalar>(
    alloc: Global,
    job: &Job,
    pieces: &[Piece<S>],
    k: usize,
    came: MatrixFill<S>,
) -> Result<MatrixFill<S>, AllocError>
    requires can { (files : List File) × ((me : ℕ) × ((share : Share) × ((shapes : List Shape) × ((given : List Letter)
        × CanFill S.semiring S.conversions job.now files me share shapes pieces.now given k came)))) }
    ensures filled { IfOk result (λ fill. (files : List File) (me : ℕ) (share : Share) (shapes : List Shape) (given : List Letter)
        → CanFill S.semiring S.conversions job.now files me share shapes pieces.now given k came
        → IsFilled S.semiring S.conversions job.now files me pieces.now given k fill) }
{
    if is_product(job, k) {
        return filled_product(alloc, job, pieces, k, &came);
    }
    if is_sum(job, k) {
        return filled_sum(alloc, job, pieces, k, &came);
    }
    Ok(came)
}

/// The rank's rows of the sum of two matrices on one map.
fn own_sum<S: Scalar>(
    alloc: Global,
    job: &Job,
    pieces: &[Piece<S>],
    k: usize,
) -> Result<MatrixFill<S>, AllocError>
    requires kind { IsSumHere job.now k }
    requires at { (files : List File) × ((me : ℕ) × ((share : Share) × ((shapes : List Shape) × ((given : List Letter)
        × IsAt S.semiring S.conversions job.now files me share shapes pieces.now given k)))) }
    ensures filled { IfOk result (λ fill. (files : List File) (me : ℕ) (share : Share) (shapes : List Shape) (given : List Letter)
        → IsAt S.semiring S.conversions job.now files me share shapes pieces.now given k
        → IsFilled S.semiring S.conversions job.now files me pieces.now given k fill) }
{
    let said = summands_of(job, k);
    let came = copied_fill(alloc, &matrix_at(pieces, said.b).matrix)?;
    filled_sum(alloc, job, pieces, k, &came)
}

/// The rank's rows of value k, a matrix of a file that stays split, or the sum of two matrices on one map: they are made of what the rank
/// has by itself. `Err` means that memory ran out.
pub fn own_rows<S: Scalar>(
    alloc: Global,
    job: &Job,
    me: u32,
    share: &Share,
    pieces: &[Piece<S>],
    k: usize,
) -> Result<MatrixFill<S>, AllocError>
    requires kind { is_own_matrix job.now (maker_of job.now k) ≡ true }
    requires at { (files : List File) × ((shapes : List Shape) × ((given : List Letter)
        × IsAt S.semiring S.conversions job.now files me share.now shapes pieces.now given k)) }
    ensures filled { IfOk result (λ fill. (files : List File) (shapes : List Shape) (given : List Letter)
        → IsAt S.semiring S.conversions job.now files me share.now shapes pieces.now given k
        → IsFilled S.semiring S.conversions job.now files me pieces.now given k fill) }
{
    if is_sum(job, k) {
        return own_sum(alloc, job, pieces, k);
    }
    dealt_fill(alloc, job, me, share, k)
}

/// Whether value k is such a matrix. `shapes` are those of the values.
pub fn has_own_rows(job: &Job, shapes: &[Shape], k: usize) -> bool
    requires shapes { at_list shapes.now ≡ shape job.now }
    ensures own { result ≡ is_own_matrix job.now (maker_of job.now k) }
{
    match maker_at(job, k) {
        MadeBy::Matrix(spec) => spec.split,
        MadeBy::Statement(Step::Add { a, b, .. }) => {
            rows_at(shapes, *b as usize) == rows_at(shapes, *a as usize)
        }
        _ => false,
    }
}
