//! The rank itself.
ghost use Rattle.std.specs.Prelude.{◌≡◌, true, false, ℕ, List, IfOk, length};
ghost use Rattle.mm_text.specs.Reading.{File};
ghost use Rattle.peers.specs.Peers.{PeerState, fresh};
ghost use Rattle.tables.specs.Tables.{AreInOrder, found};
ghost use Rattle.model_defs.specs.Machine.{job_protocol};
ghost use Rattle.rank_phases.specs.Ranks.{has_failed, is_past};
ghost use Rattle.rank_core.specs.Ranks.{IsEntriesGiven, IsFinished, IsPhaseAt, IsRank, IsRankInput, is_over_there, result_table};

use crate::JobWorker;
use model_defs::Job;
use outside::Name;
use peers::Peer;
use rank_phases::Phased;
use rank_pieces::{is_piece_over, piece_cells};
use rank_share::Share;
use scalar_laws::Scalar;
use std::alloc::{AllocError, Global};
use std::rc::Rc;
use tables::Cell;

/// One rank of a job: it knows its own share of the files and the letters to it, and nothing else.
#[derive(Drop)]
pub struct Rank<S> {
    alloc: Global,
    phased: Phased<JobWorker<S>>,
}

impl<S: Scalar + Drop> Rank<S> {
    /// The rank `me` of a valid job, counted from 0, which was given nothing yet. `share` is its share of files that fit the
    /// job, as `share_of` gives it. `Err` means that memory ran out.
    pub fn start(alloc: Global, me: u32, job: &Rc<Job>, share: Share) -> Result<Rank<S>, AllocError>
        requires input { (files : List File) × IsRankInput S.conversions job.now.value files me share }
        ensures fresh { IfOk result (λ rank. (files : List File) → IsRankInput S.conversions job.now.value files me share
            → IsRank S.semiring S.conversions rank (fresh (job_protocol S.semiring S.conversions job.now.value files) me)) }
    {
        let worker = JobWorker::new(alloc, me, job.clone()?, share)?;
        Ok(Rank {
            alloc,
            phased: Phased::new(alloc, worker),
        })
    }

    /// The rank's cells of the value of this number, by row, then column: rows are global indices, columns those of a
    /// vector, both counted from 0. A number that no value has gives no cell. The rank has worked, and was given all letters
    /// to it. `Err` means that memory ran out.
    pub fn piece(&self, value: u32) -> Result<Vec<Cell<S>>, AllocError>
        requires done { (s : PeerState) × (IsRank S.semiring S.conversions self.now s × IsFinished s) }
        ensures in_order { IfOk result (λ cells. AreInOrder cells.items) }
        ensures cells { IfOk result (λ cells. (s : PeerState) → IsRank S.semiring S.conversions self.now s → IsFinished s
            → found cells.items ≡ result_table S.conversions s value) }
    {
        match self.phased.worker().values().get(value as usize) {
            Some(piece) => piece_cells(self.alloc, piece),
            None => Ok(Vec::new(self.alloc)),
        }
    }

    /// Whether some number of some of its pieces is over. The rank has worked, and was given all letters to it. It takes no
    /// memory.
    pub fn any_over(&self) -> bool
        requires done { (s : PeerState) × (IsRank S.semiring S.conversions self.now s × IsFinished s) }
        ensures none { result ≡ false → (s : PeerState) → IsRank S.semiring S.conversions self.now s → IsFinished s
            → (v i j : ℕ) → is_over_there S.conversions (result_table S.conversions s v i j) ≡ false }
        ensures some { result ≡ true → (s : PeerState) → IsRank S.semiring S.conversions self.now s → IsFinished s
            → (v : ℕ) × ((i : ℕ) × ((j : ℕ) × (is_over_there S.conversions (result_table S.conversions s v i j) ≡ true))) }
    {
        for piece in self.phased.worker().values() {
            if is_piece_over(piece) {
                return true;
            }
        }
        false
    }

    /// How many entries the letter has that another rank sent to this one in a phase, if it sent one. The rank has worked, and was
    /// given all letters to it. It takes no memory.
    pub fn entries_from(&self, phase: u32, from: u32) -> Option<u64>
        requires done { (s : PeerState) × (IsRank S.semiring S.conversions self.now s × IsFinished s) }
        ensures entries { (s : PeerState) → IsRank S.semiring S.conversions self.now s → IsFinished s
            → IsEntriesGiven s.given (record { phase = phase; from = from; to = s.me }) result }
    {
        self.phased.worker().entries_from(phase, from)
    }

    /// The phase that a rank which has worked is in: the first of which it awaits a letter, or the number of phases.
    pub fn phase(&self) -> u32
        ensures { (s : PeerState) → IsRank S.semiring S.conversions self.now s → s.has_worked ≡ true → IsPhaseAt s self.now.phased.phases result (is_past self.now.phased) }
    {
        self.phased.phase()
    }

    /// Whether it has finished all phases.
    pub fn is_done(&self) -> bool
        ensures { result ≡ is_past self.now.phased }
    {
        self.phased.is_done()
    }

    /// Whether `work` or `on_letter` ran out of memory. Nothing else is said of such a rank.
    pub fn is_failed(&self) -> bool
        ensures { result ≡ has_failed self.now.phased }
    {
        self.phased.is_failed()
    }

    /// The number of blocks of the rank's pool that are lent: one for each letter that is queued. It takes no memory.
    pub fn live_blocks(&self) -> u64
        ensures { (s : PeerState) → IsRank S.semiring S.conversions self.now s → result ≡ length s.queued }
    {
        self.phased.live_blocks()
    }
}

impl<S: Scalar + Drop> Peer for Rank<S> {
    ghost use Rattle.rank_core.specs.Ranks.{IsRank};

    ghost stands = { λ r s. IsRank S.semiring S.conversions r s };

    fn work(&mut self) -> Result<(), AllocError> {
        Peer::work(&mut self.phased)
    }

    fn on_letter(&mut self, name: Name, bytes: &[u8]) -> Result<bool, AllocError> {
        Peer::on_letter(&mut self.phased, name, bytes)
    }

    fn first_post(&self) -> Option<Name> {
        Peer::first_post(&self.phased)
    }

    fn post_bytes(&self) -> &[u8] {
        Peer::post_bytes(&self.phased)
    }

    fn sent(&mut self) {
        Peer::sent(&mut self.phased)
    }
}
