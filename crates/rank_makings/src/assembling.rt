//! Matrices that are assembled of the entries of a file.
ghost use Rattle.std.specs.Prelude.{◌≡◌, ℕ, List, IfOk};
ghost use Rattle.mm_text.specs.Reading.{File};
ghost use Rattle.peers.specs.Protocols.{Letter};
ghost use Rattle.value_phases.specs.ValueKinds.{IsAssembled};
ghost use Rattle.rank_makings.specs.Beginnings.{CanBegin};
ghost use Rattle.rank_makings.specs.Comings.{IsComing, first_gathered};

use crate::coming::{Coming, RowSource, RowsComing};
use combine_modes::Mode;
use crs_matrix::MatrixFill;
use matrix_moves::{ArrivingRows, fill_is_source};
use model_defs::{Job, Plan, Shape};
use multivector::MultiVector;
use plan_phases::structure_plan;
use rank_pieces::{Piece, dealt_fill};
use rank_plans::PlanBook;
use rank_share::{Share, own_map};
use scalar_laws::Scalar;
use std::alloc::{AllocError, Global};

/// Begins a matrix of the rows of the entries that were dealt to the ranks: what the rank has of its own rows is there. `Err` means that
/// memory ran out.
pub(crate) fn begin_assembled<S: Scalar>(
    alloc: Global,
    job: &Job,
    me: u32,
    share: &Share,
    shapes: &[Shape],
    book: &PlanBook,
    pieces: &[Piece<S>],
    came: Option<MultiVector<S>>,
    k: usize,
    stage: usize,
) -> Result<Coming<S>, AllocError>
    requires kind { IsAssembled job.now k }
    requires can { (files : List File) × ((given : List Letter) × CanBegin S.semiring S.conversions job.now files me share.now shapes.now pieces.now given book.now k stage came) }
    ensures begun { IfOk result (λ c. (files : List File) (given : List Letter)
        → CanBegin S.semiring S.conversions job.now files me share.now shapes.now pieces.now given book.now k stage came
        → IsComing S.semiring S.conversions job.now files me pieces.now given k stage (first_gathered S.semiring S.conversions job.now files me pieces.now given k stage) c) }
{
    let dealt = dealt_fill(alloc, job, me, share, k)?;
    fill_is_source(&dealt);
    let plan = Plan::RowPlan { value: k };
    let kept = structure_plan::<S>(alloc, book, job, shapes, plan, dealt.row_map())?;
    let rows = own_map(alloc, job, shapes[k].rows, me)?;
    let empty = MatrixFill::new(alloc, rows)?;
    let arriving = ArrivingRows::begin(kept.reverse(), &dealt, empty, Mode::Add)?;
    let source = RowSource::Own(dealt);
    Ok(Coming::Rows(RowsComing { source, arriving }))
}
