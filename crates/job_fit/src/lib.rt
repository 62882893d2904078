//! Whether the files of a job have the sizes that it states.
//!
//! A job of `model_defs` states how many rows and columns each of its files has. [`fit`] compares them and names the first
//! given value of which a file has others; what they are to be is `expected_file`, and the first value `first_unfit`, of
//! `model_defs/specs/Fitting`. `laws` says that files which were read for a job, and whose sizes were compared, fit it.
//!
//! ```text
//! let files = read_files(alloc, &mut files, &held, &job)?;
//! fit(&job, files.as_slice())?;    // Err(SizeMismatch { value: 0 }): the file of the first vector
//! ```
//!
//! The crate stands on `model_defs`, `map_core` and, for its law, `job_files`. What carries out a job stands on it.
#![tactic(auto)]

mod counts;
mod fault;
mod fitting;
pub mod laws;
#[cfg(test)]
mod tests;
mod values;

pub use fault::FitFault;
pub use fitting::fit;
