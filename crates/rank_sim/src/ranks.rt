//! The ranks of a job: how they are made, and what they have once they are finished.
ghost use Rattle.std.specs.Prelude.{◌≡◌, ◌<◌, All, IfOk, List, length, map};
ghost use Rattle.mm_text.specs.Reading.{File, file_of};
ghost use Rattle.peers.specs.Protocols.{Letter};
ghost use Rattle.tables.specs.Tables.{AreInOrder};
ghost use Rattle.message_play.specs.Plays.{AreFresh};
ghost use Rattle.model_defs.specs.Machine.{job_protocol};
ghost use Rattle.model_defs.specs.Sheets.{is_any_over};
ghost use Rattle.rank_core.specs.Ranks.{IsRank};
ghost use Rattle.rank_sim.specs.Ranks.{AreFinished, ArePieces, HaveFinished, IsRunInput};
ghost use Rattle.rank_sim.specs.Runs.{gathered_values};

use model_defs::{Cell, FileData, Job};
use rank_core::Rank;
use rank_share::share_of;
use scalar_laws::Scalar;
use std::alloc::{AllocError, Global};
use std::rc::Rc;

/// A new rank for each share of the files.
pub(crate) fn new_ranks<S: Scalar + Drop>(
    alloc: Global,
    job: &Rc<Job>,
    files: &[FileData],
) -> Result<Vec<Rank<S>>, AllocError>
    requires input { IsRunInput S.conversions job.now.value (map file_of files.now) }
    ensures fresh { IfOk result (λ ranks. AreFresh (IsRank S.semiring S.conversions) (job_protocol S.semiring S.conversions job.now.value (map file_of files.now)) ranks.items) }
{
    let mut ranks = Vec::new(alloc);
    for me in 0..job.ranks {
        let share = share_of(alloc, job, files, me)?;
        ranks.push(Rank::<S>::start(alloc, me, job, share)?)?;
    }
    Ok(ranks)
}

/// Whether a cell of some rank's piece of some value is over. It takes no memory.
pub(crate) fn any_over<S: Scalar + Drop>(ranks: &[Rank<S>]) -> bool
    requires finished { (job : Job) × HaveFinished S.semiring S.conversions job ranks.now }
    ensures over { (job : Job) (files : List File) (letters : List Letter) → AreFinished S.semiring S.conversions job files letters ranks.now
        → is_any_over S.conversions job (gathered_values S.semiring S.conversions job files letters) ≡ result }
{
    for rank in ranks {
        if rank.any_over() {
            return true;
        }
    }
    false
}

/// Each rank's cells of a value. `Err` means that memory ran out.
pub(crate) fn pieces_of<S: Scalar + Drop>(
    alloc: Global,
    ranks: &[Rank<S>],
    value: u32,
) -> Result<Vec<Vec<Cell<S>>>, AllocError>
    requires finished { (job : Job) × HaveFinished S.semiring S.conversions job ranks.now }
    ensures many { IfOk result (λ pieces. length pieces.items ≡ length ranks.now) }
    ensures in_order { IfOk result (λ pieces. All (λ piece. AreInOrder piece.items) pieces.items) }
    ensures cells { IfOk result (λ pieces. (job : Job) (files : List File) (letters : List Letter) → AreFinished S.semiring S.conversions job files letters ranks.now
        → ArePieces S.semiring S.conversions job files letters value pieces.items) }
{
    let mut pieces = Vec::new(alloc);
    for rank in ranks {
        pieces.push(rank.piece(value)?)?;
    }
    Ok(pieces)
}
