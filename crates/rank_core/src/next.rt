//! How a rank leaves the value that it makes, and begins the next one.
ghost use Rattle.std.specs.Prelude.{◌≡◌, ℕ, List, None, Some, IfOk, OnOk};
ghost use Rattle.mm_text.specs.Reading.{File};
ghost use Rattle.peers.specs.Protocols.{Letter};
ghost use Rattle.model_defs.specs.ShapeLists.{at_list};
ghost use Rattle.model_defs.specs.Shapes.{shape};
ghost use Rattle.rank_share.specs.declared.share.Share.{Share};
ghost use Rattle.rank_pieces.specs.declared.pieces.Piece.{Piece};
ghost use Rattle.rank_pieces.specs.Pieces.{IsOwnPiece};
ghost use Rattle.rank_core.specs.declared.makings.Making.TheVariants.{Arrived};
ghost use Rattle.rank_core.specs.Leaving.{CanGoOn, CanLeave, IsNext, with_made};

use crate::makings::Making;
use model_defs::{Job, Shape};
use multivector::MultiVector;
use rank_makings::{Came, completed_matrix, filled_rows, finished_cells, has_own_rows, own_rows};
use rank_pieces::Piece;
use rank_plans::PlanBook;
use rank_share::Share;
use scalar_laws::Scalar;
use std::alloc::{AllocError, Global};

/// The vector that came at the stage before, if one did.
pub(crate) fn arrived_of<S: Scalar>(making: Option<Making<S>>) -> Option<MultiVector<S>>
    ensures none { making ≡ None → result ≡ None }
    ensures some { (v : _) → making ≡ Some (Arrived v) → result ≡ Some v }
{
    match making {
        Some(Making::Arrived(vector)) => Some(vector),
        _ => None,
    }
}

/// The piece of value k, the next one after these pieces, if it was made of what came or is a matrix under construction. `Err` means
/// that memory ran out.
pub(crate) fn finished_value<S: Scalar>(
    alloc: Global,
    job: &Job,
    me: u32,
    shapes: &[Shape],
    book: &PlanBook,
    pieces: &[Piece<S>],
    k: usize,
    making: Option<Making<S>>,
) -> Result<Option<Piece<S>>, AllocError>
    requires left { (files : List File) × ((given : List Letter) × ((share : Share) × CanLeave S.semiring S.conversions job.now files me share shapes.now pieces.now given book.now k making)) }
    ensures made { IfOk result (λ o. (p : _) → o ≡ Some p → (files : List File) (given : List Letter) (share : Share)
        → CanLeave S.semiring S.conversions job.now files me share shapes.now pieces.now given book.now k making
        → IsOwnPiece S.semiring S.conversions job.now files me given k p) }
    ensures none { IfOk result (λ o. o ≡ None → making ≡ None) }
{
    match making {
        None => Ok(None),
        Some(Making::Arriving(coming)) => match coming.into_came() {
            Came::Cells(vector) => Ok(Some(finished_cells(
                alloc, job, me, shapes, pieces, k, vector,
            )?)),
            Came::Rows(_) => unreachable!(),
        },
        Some(Making::Filled(fill)) => Ok(Some(Piece::Matrix(completed_matrix(
            alloc, job, shapes, book, k, fill,
        )?))),
        Some(Making::Arrived(_)) => unreachable!(),
    }
}

/// Puts a piece at the end, if there is one. `Err` means that memory ran out.
pub(crate) fn put_piece<S: Scalar>(
    values: &mut Vec<Piece<S>>,
    made: Option<Piece<S>>,
) -> Result<(), AllocError>
    ensures put { OnOk result (values.new.items ≡ with_made values.old.items made) }
{
    if let Some(piece) = made {
        values.push(piece)?;
    }
    Ok(())
}

/// What is in the making before the next phase for value k, at the end behind the last value: copies or sums that came of it, or a matrix
/// under construction, of the rows that came or of the rank's own. `Err` means that memory ran out.
pub(crate) fn next_making<S: Scalar>(
    alloc: Global,
    job: &Job,
    me: u32,
    share: &Share,
    shapes: &[Shape],
    pieces: &[Piece<S>],
    k: usize,
    making: Option<Making<S>>,
) -> Result<Option<Making<S>>, AllocError>
    requires shapes { at_list shapes.now ≡ shape job.now }
    requires can { (files : List File) × ((given : List Letter) × CanGoOn S.semiring S.conversions job.now files me share.now shapes.now pieces.now given k making) }
    ensures next { IfOk result (λ next. (files : List File) (given : List Letter) → CanGoOn S.semiring S.conversions job.now files me share.now shapes.now pieces.now given k making
        → IsNext S.semiring S.conversions job.now files me pieces.now given k making next) }
{
    match making {
        None => {
            if !has_own_rows(job, shapes, k) {
                return Ok(None);
            }
            let rows = own_rows(alloc, job, me, share, pieces, k)?;
            Ok(Some(Making::Filled(rows)))
        }
        Some(Making::Arriving(coming)) => match coming.into_came() {
            Came::Cells(vector) => Ok(Some(Making::Arrived(vector))),
            Came::Rows(came) => {
                let rows = filled_rows(alloc, job, pieces, k, came)?;
                Ok(Some(Making::Filled(rows)))
            }
        },
        Some(Making::Filled(fill)) => Ok(Some(Making::Filled(fill))),
        Some(Making::Arrived(_)) => unreachable!(),
    }
}
