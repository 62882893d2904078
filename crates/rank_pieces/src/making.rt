//! The pieces that a rank makes of the values of a job without letters, one after the other.
ghost use Rattle.std.specs.Prelude.{◌≡◌, ◌<◌, ◌≤◌, ℕ, List, OnOk, IfOk, length};
ghost use Rattle.mm_text.specs.Reading.{File};
ghost use Rattle.peers.specs.Protocols.{Letter};
ghost use Rattle.model_defs.specs.Makers.{value_count};
ghost use Rattle.model_defs.specs.Shapes.{shape};
ghost use Rattle.rank_share.specs.Shares.{cell_count};
ghost use Rattle.rank_pieces.specs.Inputs.{IsRankInput};
ghost use Rattle.rank_pieces.specs.Pieces.{AreOwnPieces, IsMadeHere, IsOwnPiece};

use crate::pieces::Piece;
use crate::steps::step_piece;
use model_defs::Job;
use phase_list::{MadeBy, maker_at};
use rank_share::{Share, own_map};
use rank_values::vector_of_lines;
use scalar_laws::Scalar;
use std::alloc::{AllocError, Global};

/// The piece of value k on map m, of the lines of the share.
fn given_piece<S: Scalar>(
    alloc: Global,
    job: &Job,
    me: u32,
    share: &Share,
    k: usize,
    m: u32,
    columns: u32,
) -> Result<Piece<S>, AllocError>
    requires input { (files : List File) × IsRankInput S.conversions job.now files me share.now }
    requires known { k < cell_count job.now }
    requires map { m ≡ (shape job.now k).rows }
    requires columns { columns ≡ (shape job.now k).columns }
    ensures piece { IfOk result (λ p. (files : List File) (given : List Letter) → IsRankInput S.conversions job.now files me share.now
        → IsOwnPiece S.semiring S.conversions job.now files me given k p) }
{
    let map = own_map(alloc, job, m, me)?;
    let vector = vector_of_lines(alloc, map, columns, share.cells.as_slice()[k].as_slice())?;
    Ok(Piece::Vector(vector))
}

/// The rank's piece of value k, which is made without letters and plans: of the rank's share of the files, or of its pieces of
/// the values before it. A matrix that is scaled, or moved to its own map, shares the structure and the plans of the matrix that
/// it is made of. `Err` means that memory ran out.
pub fn own_piece<S: Scalar>(
    alloc: Global,
    job: &Job,
    me: u32,
    share: &Share,
    pieces: &[Piece<S>],
    k: usize,
) -> Result<Piece<S>, AllocError>
    requires before { (files : List File) × ((given : List Letter) × (IsRankInput S.conversions job.now files me share.now
        × AreOwnPieces S.semiring S.conversions job.now files me given k pieces.now)) }
    requires known { k < value_count job.now }
    requires here { IsMadeHere job.now k }
    ensures piece { IfOk result (λ p. (files : List File) (given : List Letter) → IsRankInput S.conversions job.now files me share.now
        → AreOwnPieces S.semiring S.conversions job.now files me given k pieces.now
        → IsOwnPiece S.semiring S.conversions job.now files me given k p) }
{
    match maker_at(job, k) {
        MadeBy::Vector(spec) => given_piece(alloc, job, me, share, k, spec.map, spec.columns),
        MadeBy::Parts(spec) => given_piece(alloc, job, me, share, k, spec.map, spec.columns),
        MadeBy::Statement(step) => step_piece(pieces, step),
        MadeBy::Matrix(_) | MadeBy::Nothing => unreachable!(),
    }
}

/// Puts the rank's pieces of the next values at the end, up to so many in all, which are made without letters and plans. `Err`
/// means that memory ran out.
pub fn add_pieces<S: Scalar>(
    alloc: Global,
    pieces: &mut Vec<Piece<S>>,
    job: &Job,
    me: u32,
    share: &Share,
    count: usize,
) -> Result<(), AllocError>
    requires before { (files : List File) × ((given : List Letter) × (IsRankInput S.conversions job.now files me share.now
        × AreOwnPieces S.semiring S.conversions job.now files me given (length pieces.old.items) pieces.old.items)) }
    requires more { length pieces.old.items ≤ count }
    requires known { count ≤ value_count job.now }
    requires here { (k : ℕ) → length pieces.old.items ≤ k → k < count → IsMadeHere job.now k }
    ensures pieces { OnOk result ((files : List File) (given : List Letter) → IsRankInput S.conversions job.now files me share.now
        → AreOwnPieces S.semiring S.conversions job.now files me given (length pieces.old.items) pieces.old.items
        → AreOwnPieces S.semiring S.conversions job.now files me given count pieces.new.items) }
{
    for k in pieces.len()..count {
        let piece = own_piece(alloc, job, me, share, pieces.as_slice(), k)?;
        pieces.push(piece)?;
    }
    Ok(())
}
