//! How a value is begun whose numbers come, and how it is made of what came.
ghost use Rattle.std.specs.Prelude.{◌≡◌, ℕ, List, IfOk};
ghost use Rattle.mm_text.specs.Reading.{File};
ghost use Rattle.peers.specs.Protocols.{Letter};
ghost use Rattle.rank_share.specs.declared.share.Share.{Share};
ghost use Rattle.rank_pieces.specs.declared.pieces.Piece.TheVariants.{Matrix};
ghost use Rattle.rank_pieces.specs.Pieces.{IsOwnPiece};
ghost use Rattle.rank_makings.specs.Beginnings.{CanBegin, CanComplete, CanFinish};
ghost use Rattle.rank_makings.specs.Comings.{IsComing, first_gathered};

use crate::Coming;
use crate::applying::{begin_apply, finished_apply, is_applied};
use crate::assembling::begin_assembled;
use crate::completing::{on_columns, row_plan};
use crate::copies::begin_copy;
use crate::gathering::{begin_made, is_made_matrix};
use crs_matrix::MatrixFill;
use model_defs::{Job, Plan, Shape, Step};
use multivector::MultiVector;
use phase_list::{MadeBy, maker_at};
use plan_phases::structure_plan;
use rank_pieces::{Piece, RankMatrix};
use rank_plans::PlanBook;
use rank_share::Share;
use scalar_laws::Scalar;
use std::alloc::{AllocError, Global};

/// Begins value k at a stage: what stays on the rank is there, combined as the statement says. `came` is what came at the stage before,
/// if there was one. `Err` means that memory ran out.
pub fn begin_coming<S: Scalar>(
    alloc: Global,
    job: &Job,
    me: u32,
    share: &Share,
    shapes: &[Shape],
    book: &PlanBook,
    pieces: &[Piece<S>],
    came: Option<MultiVector<S>>,
    k: usize,
    stage: usize,
) -> Result<Coming<S>, AllocError>
    requires can { (files : List File) × ((given : List Letter) × CanBegin S.semiring S.conversions job.now files me share.now shapes.now pieces.now given book.now k stage came) }
    ensures begun { IfOk result (λ c. (files : List File) (given : List Letter)
        → CanBegin S.semiring S.conversions job.now files me share.now shapes.now pieces.now given book.now k stage came
        → IsComing S.semiring S.conversions job.now files me pieces.now given k stage (first_gathered S.semiring S.conversions job.now files me pieces.now given k stage) c) }
{
    if is_applied(job, k) {
        return begin_apply(alloc, job, me, share, shapes, book, pieces, came, k, stage);
    }
    if is_made_matrix(job, k) {
        let rows = begin_made(alloc, job, me, share, shapes, book, pieces, &came, k, stage)?;
        return Ok(Coming::Rows(rows));
    }
    match maker_at(job, k) {
        MadeBy::Matrix(_) => begin_assembled(
            alloc, job, me, share, shapes, book, pieces, came, k, stage,
        ),
        MadeBy::Statement(_) => begin_copy(
            alloc, job, me, share, shapes, book, pieces, came, k, stage,
        ),
        MadeBy::Vector(_) | MadeBy::Parts(_) | MadeBy::Nothing => unreachable!(),
    }
}

/// The rank's piece of value k, a vector or parts, of what came at its last stage. `Err` means that memory ran out.
pub fn finished_cells<S: Scalar>(
    alloc: Global,
    job: &Job,
    me: u32,
    shapes: &[Shape],
    pieces: &[Piece<S>],
    k: usize,
    came: MultiVector<S>,
) -> Result<Piece<S>, AllocError>
    requires can { (files : List File) × ((given : List Letter) × ((share : Share) × CanFinish S.semiring S.conversions job.now files me share shapes.now pieces.now given k came)) }
    ensures piece { IfOk result (λ p. (files : List File) (given : List Letter) (share : Share)
        → CanFinish S.semiring S.conversions job.now files me share shapes.now pieces.now given k came
        → IsOwnPiece S.semiring S.conversions job.now files me given k p) }
{
    if is_applied(job, k) {
        let made = finished_apply(alloc, job, me, shapes, pieces, k, &came)?;
        return Ok(Piece::Vector(made));
    }
    Ok(Piece::Vector(came))
}

/// The rank's piece of value k, a matrix with a structure of its own, once the plans of its structure were shared
/// (`Tpetra::CrsMatrix::fillComplete`). `Err` means that memory ran out.
pub fn completed_matrix<S: Scalar>(
    alloc: Global,
    job: &Job,
    shapes: &[Shape],
    book: &PlanBook,
    k: usize,
    fill: MatrixFill<S>,
) -> Result<RankMatrix<S>, AllocError>
    requires can { (files : List File) × ((me : ℕ) × ((given : List Letter) × ((share : Share) × ((pieces : List (Piece S)) × CanComplete S.semiring S.conversions job.now files me share shapes.now pieces given book.now k fill)))) }
    ensures piece { IfOk result (λ m. (files : List File) (me : ℕ) (given : List Letter) (share : Share) (pieces : List (Piece S))
        → CanComplete S.semiring S.conversions job.now files me share shapes.now pieces given book.now k fill
        → IsOwnPiece S.semiring S.conversions job.now files me given k (Matrix m)) }
{
    let matrix = on_columns(alloc, job, shapes, book, k, fill)?;
    let plan = Plan::ColumnPlan { value: k };
    let columns = structure_plan::<S>(alloc, book, job, shapes, plan, matrix.graph().col_map())?;
    let rows = row_plan::<S>(alloc, job, shapes, book, k, matrix.row_map())?;
    Ok(RankMatrix {
        matrix,
        columns,
        rows,
    })
}
