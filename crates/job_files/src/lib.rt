//! The files of the given values of a job, read in order: those of the vectors, of the parts with the ranks ascending, and of
//! the matrices.
//!
//! Which files a job wants, and in which form, is the definition `wanted` of `specs/Wanted`; what they are over a source of
//! texts, or where their reading ends, is `files_of` of `specs/Walk`. [`read_files`] answers it. A name that is wanted twice is
//! read once, and a text that the caller holds is not read, so that one source explains all that was answered, also where
//! the files tell nothing of what they hold.
//!
//! ```text
//! let held = [HeldText { name: "job.toml", text: &job_text }];
//! let files = read_files(alloc, &mut files, &held, &job)?;
//! ```
//!
//! The crate stands on `mm_text`, whose reader it calls, and on the jobs of `model_defs`. The program `tpx` stands on it.
#![tactic(auto)]

mod fault;
mod held;
pub mod laws;
mod reading;
#[cfg(test)]
mod tests;
mod wanted;

pub use fault::FilesFault;
pub use held::HeldText;
pub use reading::read_files;
pub use wanted::{FileKind, WantedFile};
