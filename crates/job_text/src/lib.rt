//! Job texts: a TOML text is read as a `Job`, or refused with its first fault.
//!
//! A job states maps (`Tpetra::Map`), vectors and parts on them (`Tpetra::MultiVector`), matrices (`Tpetra::CrsMatrix`), and
//! statements that make values of those before them. What each table, kind and statement is read as stands in `specs/`, a
//! short file a subject: `Names` and `Words` (keys and words), `Keys` and `Lists` (the value of a key), `Tables` (arrays of
//! tables), `Maps`, `Given` and `Steps` (the tables of each array), `Statements` (what operands must be), `Whole` (the job
//! of a text). A text gives exactly the job that this definition finds, and each refusal comes exactly where it is the first by
//! the order of tests; want of memory alone has no cause.
//!
//! It stands on `toml`, on `map_core` for the layouts of maps, and on `model_defs` for jobs, shapes and limits.
//!
//! ```text
//! let job = read_job(alloc, b"ranks = 2")?;
//! job.ranks;                                  // 2
//! read_job(alloc, b"ranks = 33");             // Err(Limit { key: "ranks" })
//! ```
#![tactic(auto)]

mod arrays;
mod fault;
mod given;
mod known;
mod layouts;
mod lists;
mod maps;
mod names;
mod place;
mod shape;
mod statements;
mod steps;
#[cfg(test)]
mod tests;
mod value;
mod whole;
mod words;

pub use fault::JobFault;
pub use whole::read_job;
