//! The run of all ranks of a job over a wire.
//!
//! A job of `model_defs` is run by as many ranks as it states, in one process. [`run`] gives each rank its own share of the files,
//! plays the ranks over a wire in an order of delivery, and puts their pieces together: the sheets of the values that the
//! job prints, with its phases and letters, or `Over` where a cell of some value, given, intermediate or printed, is over.
//! [`run_with`] does it with numbers of any kind.
//!
//! `specs/Runs` says what a run comes to: the letters that were given, and the values that the ranks have of them. The module
//! `laws` says that these are the values on the global data (`eval` of `model_defs`), in whatever order the letters are
//! delivered.
//!
//! ```text
//! let mut wire = MailRoom::new(alloc);
//! match run(alloc, &job, &files, &mut wire, &Order::Fifo)? {
//!     End::Done(outcome) => ..,         // outcome.sheets: what is printed, in order
//!     End::Over => ..,                  // a number did not fit
//!     End::Undelivered(names) => ..,    // what a listed schedule left in flight, sorted by name
//! }
//! ```
//!
//! The crate stands on `rank_core`, which is one rank, `message_play`, which delivers the letters, `rank_share`, `job_sheets` and
//! `phase_list`. The program stands on it.
#![tactic(auto)]

mod ends;
pub mod laws;
mod letters;
mod ranks;
mod running;
mod shown;
mod stated;

pub use ends::{End, Outcome, RunFault};
pub use running::{run, run_with};
