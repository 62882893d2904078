//! What is done in the phases.
ghost use Rattle.std.specs.Prelude.{◌≡◌, ◌<◌, ◌+◌, ◌^◌, ◌∷◌, [], ℕ, None, IfOk, OnErr, OnOk};
ghost use Rattle.byte_pool.specs.Leases.{leases, with_lease};
ghost use Rattle.rank_phases.specs.Phases.{names_from, names_to};
ghost use Rattle.rank_phases.specs.Stages.{Stage, CanAbsorb, CanEnter, CanSend, absorbing, entering};

use byte_pool::{Lease, Pool};
use outside::Name;
use std::alloc::AllocError;

/// The letters of a phase that a rank enters: those that it posts, by receiver, and those that it awaits, by sender.
#[derive(Drop)]
pub struct Entered {
    pub posts: Vec<Name>,
    pub awaits: Vec<Name>,
}

/// What one rank does in its phases. It has what is its own, and is given the letters to it and nothing else.
///
/// Whatever it is asked, all letters to its rank of the phases before the one in question were absorbed
/// (`HasAbsorbed` of `specs/Stages`). Each call that answers `Err` has run out of memory, and nothing is known of the
/// worker from then on.
pub trait Worker {
    ghost use Rattle.rank_phases.specs.Stages.{Stage};

    /// Whether the worker is that of this rank of this protocol, has entered so many phases, and absorbed these
    /// letters: its values, plans and counts are what the protocol gives on them.
    ghost stands: { Self → Stage → Type 0 };

    /// The number of phases.
    fn phases(&self) -> u32
        ensures count { (s : Stage) → stands self.now s → result ≡ s.phases }
        ensures limit { (s : Stage) → stands self.now s → s.phases + 1 < 2 ^ 32 };

    /// Finishes the phase that it is in, if it is in one, does what needs no letters, and enters this phase. After the
    /// last phase it is asked to enter once more: then it does what is left, and names no letters. It may reserve blocks
    /// in the pool for the letters that it will pack. The leases stay, also without memory.
    fn enter(&mut self, phase: u32, pool: &mut Pool) -> Result<Entered, AllocError>
        requires { (s : Stage) × (stands self.old s × CanEnter s phase) }
        ensures posts { IfOk result (λ e. (s : Stage) → stands self.old s → CanEnter s phase → e.posts.items ≡ names_from s.protocol.names phase s.rank) }
        ensures awaits { IfOk result (λ e. (s : Stage) → stands self.old s → CanEnter s phase → e.awaits.items ≡ names_to s.protocol.names phase s.rank) }
        ensures enters { OnOk result ((s : Stage) → stands self.old s → CanEnter s phase → stands self.new (entering s)) }
        ensures same_leases { leases pool.new ≡ leases pool.old };

    /// Packs a letter of the phase that was just entered into a block of the pool, as a new lease. The other leases
    /// stay, also without memory.
    fn pack(&self, name: Name, pool: &mut Pool) -> Result<Lease, AllocError>
        requires { (s : Stage) × (stands self.now s × CanSend s name) }
        ensures fresh { IfOk result (λ lease. leases pool.old lease ≡ None) }
        ensures ok { IfOk result (λ lease. (s : Stage) → stands self.now s → CanSend s name → leases pool.new ≡ with_lease (leases pool.old) lease (s.protocol.content name s.absorbed)) }
        ensures err { OnErr result (leases pool.new ≡ leases pool.old) };

    /// Absorbs a letter of the phase that it is in.
    fn absorb(&mut self, name: Name, bytes: &[u8]) -> Result<(), AllocError>
        requires { (s : Stage) × (stands self.old s × CanAbsorb s name bytes.now) }
        ensures { OnOk result ((s : Stage) → stands self.old s → CanAbsorb s name bytes.now → stands self.new (absorbing s ((name, bytes.now) ∷ []))) };
}
