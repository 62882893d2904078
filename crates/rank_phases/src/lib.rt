//! One rank that goes through phases, over any worker.
//!
//! The letters of a run are sent in phases, as by a Distributor: in each phase a rank posts its letters and awaits those of
//! other ranks, and when it was given all of them it enters the next phase. Letters may come in any order, also before
//! their phase and again. A [`Phased`] keeps what all such ranks have in common: the phase, the letters that are awaited,
//! copies of those that came early, and the queue of posts, whose bytes lie in blocks of a pool. What is done in a phase is
//! a [`Worker`]'s: it names the letters that it posts and awaits, packs each into a block of the pool, and absorbs what it
//! is given. It is asked only at its stage: whatever it is asked, all letters to its rank of the phases before were
//! absorbed, phase by phase, those of a phase in the order in which they were first given.
//!
//! Contracts see a rank by its course (`specs/Ranks`): the protocol, the first letters given to it, and what it sent. What
//! it queued so far is what its protocol makes of these, by phase, then receiver. A [`Phased`] meets the trait `Peer`
//! (`specs/PhasedPeers`), by which the play of all ranks speaks of it. A protocol of this kind is one that keeps
//! `GoesByPhase` of `specs/Phases`; where its letters go between each two ranks, `specs/Pairs` has their names. The module
//! `laws` has what follows.
//!
//! ```text
//! let mut rank = Phased::new(alloc, worker);
//! rank.work()?;                          // enters phases until a letter is awaited
//! let is_new = rank.on_letter(name, bytes)?;
//! if is_new {
//!     rank.work()?;
//! }
//! ```
//!
//! The crate stands on `outside`, whose names of letters it uses, on `peers`, and on `byte_pool`. The ranks of a job and of
//! a product of blocks stand on it.
#![tactic(auto)]

mod early;
pub mod laws;
mod letter;
mod outbox;
mod phase_names;
mod phased;
mod phased_peer;
mod room;
mod worker;

pub use early::Early;
pub use letter::Letter;
pub use outbox::Outbox;
pub use phase_names::{names_from_others, names_to_others};
pub use phased::Phased;
pub use room::lease_block;
pub use worker::{Entered, Worker};
