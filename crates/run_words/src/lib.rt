//! The words of the command `run`, read with `clap`.
//!
//! [`run_words`] answers what the words ask for exactly where they are a command. Contracts see the words as lists of bytes, and
//! cite the definition `command` of `specs/Given`, in which no word of `clap` stands.
//!
//! ```text
//! let Some(asked) = run_words(alloc, words)? else { return usage() };
//! open(asked.job);
//! ```
//!
//! The crate stands on `clap` alone. The program `tpx` stands on it.
#![tactic(auto)]

mod app;
mod checks;
#[cfg(test)]
mod tests;
mod words;

pub use checks::OrderWord;
pub use words::{RunWords, run_words};
