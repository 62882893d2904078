//! What the run of a job is given: the job, the order of deliveries and the files of the given values, all read by name.
//!
//! The job file is read and its text tested, then the schedule where the words name one, then the files of the vectors, of
//! the parts with the ranks ascending, and of the matrices, each tested before the next; last their sizes are compared with
//! those that the job states. The first step that refuses decides. This walk is the definition `input_of` of `specs/Walk`,
//! over a source, which gives each name its text. [`read_given`] answers it. A name that is wanted several times is read
//! once, so that one source explains all that was answered, also where the files tell nothing of what they hold.
//!
//! ```text
//! let given = read_given(alloc, &mut files, words.job, words.order)?;
//! given.job.ranks;
//! ```
//!
//! The crate stands on the readers of `job_text`, `schedule` and `job_files`, on `job_fit`, and on the words of `run_words`.
//! The program `tpx` stands on it.
#![tactic(auto)]

mod fault;
mod found;
mod front;
mod given;
mod name;
mod names;
mod sizes;
#[cfg(test)]
mod tests;
mod texts;

pub use fault::{InputFault, TextFault};
pub use given::{Given, read_given};
pub use name::FileName;
