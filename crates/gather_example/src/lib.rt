//! A worked example of ranks that send one another letters: each tells all others its word, and later what it heard.
//!
//! In each of the first phases, the rounds, each rank tells each other rank its word, as `MPI_Allgather` does; in each later
//! phase each other rank tells it rank 0, as `MPI_Gather` does. From phase 1 on it also tells what it heard in phase 0, in
//! the order in which it heard it. So what a rank hears, and what it says then, depends on the order of the deliveries, and
//! nothing else does.
//!
//! A [`Teller`] is what one rank does in its phases: a `Worker` of `rank_phases`. [`play_tellers`] plays any number of them
//! over any wire in any order, by `message_play`. Contracts see the protocol by which they send (`specs/Gathers`), and
//! what each rank heard then.
//!
//! ```text
//! let mut wire = MailRoom::new(alloc);
//! let outcome = play_tellers(alloc, &words, 1, 2, &mut wire, &Order::Lifo)?;
//! outcome.heard[0]        // the words of the others as rank 0 heard them
//! ```
//!
//! The crate stands on `outside`, `peers`, `schedule`, `byte_pool`, `message_play` and `rank_phases`, and shows how a set of
//! ranks is built on them. Nothing stands on it.
#![tactic(auto)]

mod play;
mod teller;
#[cfg(test)]
mod tests;

pub use play::{Outcome, play_tellers};
pub use teller::Teller;
