//! Which letters are in flight, in which order they are delivered, and the text of a schedule.
//!
//! A protocol of `peers` names the letters of a set of ranks, and for each the letters that its sender must have been
//! given before it posts it. A letter is in flight where it was not delivered and its sender was given all of those. An
//! [`Order`] says which letter in flight is delivered next: the first or the last posted, one drawn from a seed, or those
//! of a list. What it delivers, and how it ends, is defined in `specs/Orders` for every protocol. [`Flow`] has the letters
//! in flight: contracts see their names in order of posting, and the names delivered. [`read_schedule`] reads a list from
//! a text, which `specs/Texts` defines on whole lines.
//!
//! ```text
//! let mut flow = Flow::new(alloc);
//! flow.post(name)?;
//! while let Some(next) = flow.choose(&mut Chooser::Fifo) {
//!     flow.deliver(next);
//! }
//! ```
//!
//! The module `laws` proves of every protocol that no order can stall, that fifo, lifo and seed deliver each letter once,
//! and that a list may name letters again. The crate stands on `outside`, `peers`, `text_lines` and `thiserror`. The play
//! of all ranks over a wire stands on it.
#![tactic(auto)]

mod chooser;
mod fault;
mod flow;
pub mod laws;
mod order;
mod register;
mod tally;
#[cfg(test)]
mod tests;
mod text;

pub use chooser::Chooser;
pub use fault::ScheduleFault;
pub use flow::Flow;
pub use order::{Entry, Order};
pub use text::read_schedule;
