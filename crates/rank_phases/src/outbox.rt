//! The letters that a rank is to send.
ghost use Rattle.std.specs.Prelude.{◌≡◌, ◌<◌, ◌∷◌, ◌++◌, [], ℕ, List, Some, IfOk, OnOk, OnErr, length, option_map, slice_get};
ghost use Rattle.rank_phases.specs.Phases.{names_from, names_to};
ghost use Rattle.rank_phases.specs.Stages.{Stage, CanEnter, CanSend, entering};

use crate::{Entered, Worker};
use byte_pool::{Lease, Pool};
use outside::Name;
use std::alloc::{AllocError, Global};
use std::collections::VecDeque;
use std::marker::Model;

/// A letter that is to be sent. Its bytes lie in the pool.
#[derive(Drop)]
struct Post {
    name: Name,
    lease: Lease,
}

/// The letters that are to be sent, in order, and the pool in which their bytes lie.
#[derive(Drop)]
pub struct Outbox {
    pool: Pool,
    queue: VecDeque<Post>,
}

impl Model for Outbox {
    ghost use Rattle.std.specs.Prelude.{ℕ, List};
    ghost use Rattle.outside.specs.declared.name.Name.{Name};

    ghost Value = { List (Name × List ℕ) };

    ghost use Rattle.byte_pool.specs.Leases.{leases};
    ghost use Rattle.rank_phases.specs.Outboxes.{posted, AreKept};

    ghost view = { λ o. posted (leases o.pool) o.queue.items };

    ghost invariant = { λ o. AreKept (leases o.pool) o.queue.items };
}

impl Outbox {
    /// No letter.
    pub(crate) fn new(alloc: Global) -> Outbox
        ensures { result ≡ [] }
    {
        Outbox {
            pool: Pool::new(alloc),
            queue: VecDeque::new(alloc),
        }
    }

    /// Has a worker enter a phase. It may make room in the pool. The letters stay, also without memory.
    pub(crate) fn enter<W: Worker>(
        &mut self,
        worker: &mut W,
        phase: u32,
    ) -> Result<Entered, AllocError>
        requires { (s : Stage) × (W.stands worker.old s × CanEnter s phase) }
        ensures posts { IfOk result (λ e. (s : Stage) → W.stands worker.old s → CanEnter s phase → e.posts.items ≡ names_from s.protocol.names phase s.rank) }
        ensures awaits { IfOk result (λ e. (s : Stage) → W.stands worker.old s → CanEnter s phase → e.awaits.items ≡ names_to s.protocol.names phase s.rank) }
        ensures enters { OnOk result ((s : Stage) → W.stands worker.old s → CanEnter s phase → W.stands worker.new (entering s)) }
        ensures same { self.new ≡ self.old }
    {
        worker.enter(phase, &mut self.pool)
    }

    /// Has a worker pack a letter, and puts it behind the others. Without memory the others stay.
    pub(crate) fn post<W: Worker>(&mut self, worker: &W, name: Name) -> Result<(), AllocError>
        requires { (s : Stage) × (W.stands worker.now s × CanSend s name) }
        ensures ok { OnOk result ((s : Stage) → W.stands worker.now s → CanSend s name → self.new ≡ self.old ++ (name, s.protocol.content name s.absorbed) ∷ []) }
        ensures err { OnErr result (self.new ≡ self.old) }
    {
        let lease = worker.pack(name, &mut self.pool)?;
        match self.queue.push_back(Post { name, lease }) {
            Ok(()) => Ok(()),
            Err(failed) => {
                self.pool.give_back(failed.value.lease);
                Err(AllocError)
            }
        }
    }

    /// The name of the first letter.
    pub(crate) fn first(&self) -> Option<Name>
        ensures { result ≡ option_map (λ l. l.0) (slice_get self.now 0) }
    {
        match self.queue.front() {
            Some(post) => Some(post.name),
            None => None,
        }
    }

    /// The bytes of the first letter.
    pub(crate) fn first_bytes(&self) -> &[u8]
        requires { 0 < length self.now }
        ensures { option_map (λ l. l.1) (slice_get self.now 0) ≡ Some result.now }
    {
        match self.queue.front() {
            Some(post) => self.pool.bytes(&post.lease),
            None => unreachable!(),
        }
    }

    /// Takes out the first letter, and gives its block back.
    pub(crate) fn take_out(&mut self)
        requires { 0 < length self.old }
        ensures { (l : Name × List ℕ) → slice_get self.old 0 ≡ Some l → self.old ≡ l ∷ self.new }
    {
        if let Some(post) = self.queue.pop_front() {
            self.pool.give_back(post.lease);
        }
    }

    /// How many blocks of the pool are lent: one for each letter.
    pub(crate) fn live_blocks(&self) -> u64
        ensures { result ≡ length self.now }
    {
        self.pool.live()
    }
}
