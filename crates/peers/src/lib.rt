//! Ranks that send one another letters by a protocol.
//!
//! A protocol says which letters there are, what must be delivered before each, and what its sender makes of what it was
//! given (`specs/Protocols`). From it follow which letters are in flight after which deliveries, and which lists of given
//! letters are runs (`specs/Runs`). Nothing in it speaks of matrices: a job is a protocol, and so is a reduction over a
//! tree of ranks.
//!
//! A [`Peer`] is one rank of a protocol: it queues letters, and is given letters. Contracts see where it stands
//! (`specs/Peers`): the letters given to it, the letters queued, and those that it will make when it works next.
//!
//! ```text
//! rank.work()?;
//! while let Some(name) = rank.first_post() {
//!     wire.post(name, rank.post_bytes())?;
//!     rank.sent();
//! }
//! ```
//!
//! The crate stands on `outside`, whose names of letters it uses. Schedules, the play of all ranks over a wire, and the
//! ranks themselves stand on it.
#![tactic(auto)]

pub mod laws;
mod peer;

pub use peer::Peer;
