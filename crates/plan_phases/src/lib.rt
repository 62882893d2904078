//! What one rank of a job does in the phases in which plans are made.
//!
//! In these phases the ranks register maps, ask for owners and are told them (`Tpetra::Directory`), and say what they lack of each
//! owner: what they take of it (`Tpetra::Import`), or what they give to it (`Tpetra::Export`). A rank keeps what it learns in a
//! `PlanBook`. It enters a phase, makes the words of its letter to each other rank, absorbs the words that come, and makes the plan
//! once all came. Which list of indices a phase is about follows from the job and from what the book has by then.
//!
//! A plan is one between two maps, or one of the structure of a matrix: of the columns of its places, or of the rows of a rank's part
//! (the importer and the exporter of a `Tpetra::CrsGraph`). Of the latter the rank's list comes from the caller, and its map of owners is
//! read off the shapes of the job's values. It is not made with its phase, since its positions are those of a column map, which is
//! known once the owners are: `column_owners` says these, and `structure_plan` makes the plan for any list that has the indices of
//! other ranks in the plan's order. A column map is such a list, and so are the rows, ascending (`laws`).
//!
//! `specs/BookStages` says what a book has after which phases and letters: the slices of a `View` of `rank_stages`. The words are
//! the entries of the job's letters (`model_defs`). The crate knows no bytes of letters and no numbers of values.
//!
//! ```text
//! enter_phase::<S>(alloc, &mut book, &job, &shapes, about, &list)?;
//! for q in others { send(q, phase_words::<S>(alloc, &book, &job, &shapes, about, q)?); }
//! absorb_words::<S>(&mut book, &job, about, from, &words)?;      // each letter that comes
//! finish_phase::<S>(alloc, &mut book, &job, about)?;             // once all came
//! column_owners::<S>(alloc, &book, &job, &shapes, plan, &columns)?;
//! structure_plan::<S>(alloc, &book, &job, &shapes, plan, &column_map)?;
//! ```
//!
//! It stands on `rank_plans`, on the laws of `rank_stages`, and on `value_phases`. The worker of a rank stands on it.
#![tactic(auto)]

mod absorbing;
mod entering;
mod finishing;
pub mod laws;
mod maps;
mod sharing;
mod words;

pub use absorbing::absorb_words;
pub use entering::enter_phase;
pub use finishing::finish_phase;
pub use sharing::{column_owners, structure_plan};
pub use words::phase_words;
