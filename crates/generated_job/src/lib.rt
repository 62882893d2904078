//! The job that is made of a size alone, without a text.
//!
//! It has 4 ranks, the uniform map `u` and the cyclic map `m` of its size, the vector `x0` on `m` with i + 1 at index i, and the
//! assembled matrix `A` on `u` with 2 on the diagonal and -1 beside it. Its statements are a move of `x0` to `u`, `y` = A x,
//! `s` = A A and `z` = s x, and `y`, `s` and `z` are printed. [`generated_job`] is the job, [`generated_files`] the files of
//! its given values, and the module `laws` says that it is valid and that the files fit it. `specs/Generated` defines both.
//!
//! ```text
//! let job = generated_job(alloc, 10_000)?;
//! let files = generated_files(alloc, 10_000)?;
//! ```
//!
//! The crate stands on `model_defs`, `mm_text`, `map_core` and `tables`. The program `tpx` stands on it.
#![tactic(auto)]

mod files;
mod job;
pub mod laws;
#[cfg(test)]
mod tests;

pub use files::generated_files;
pub use job::generated_job;
