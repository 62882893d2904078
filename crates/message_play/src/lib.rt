//! The play of all ranks over a wire, in an order of delivery.
//!
//! Ranks that run in one process send one another letters over a wire. One event is the delivery of one letter to one
//! rank, which then works until it must wait for another letter; so every interleaving of the ranks is a list of
//! deliveries. [`play`] goes through one: it posts what the ranks queue, takes from the wire what the order names, and
//! hands it to its receiver.
//!
//! It plays any ranks that meet the trait `Peer` and any `Wire`, in every `Order`, and its contract speaks of the protocol
//! by which the ranks send: of a job, of a reduction over a tree of ranks, of a product of dense blocks. Contracts see the
//! letters that the wire gave (`specs/Plays`): they are a run, each alike to what its sender makes of the letters before
//! it, and over an honest wire equal to it. What a wire tells of itself is not needed for that. The names taken are those
//! that the order delivers, as many as neither the wire nor memory refused. Where the order was played to its end, each
//! rank was given exactly the first letter of each name to it, the letters in flight are pending, and the answer says how
//! the order ends. The module `laws` has what follows for every play.
//!
//! ```text
//! let mut wire = MailRoom::new(alloc);
//! match play(alloc, &mut ranks, &mut wire, &Order::Fifo)? {
//!     Played::Complete => ..,       // each rank tells its result
//!     Played::Left(names) => ..,    // what a listed schedule left in flight, sorted by name
//! }
//! ```
//!
//! The crate stands on `outside`, `peers` and `schedule`. Whatever runs a set of ranks stands on it.
#![tactic(auto)]

mod delivery;
mod fault;
pub mod laws;
mod playing;
mod posting;
mod start;
mod whole;

pub use fault::{PlayFault, Played};
pub use whole::play;
