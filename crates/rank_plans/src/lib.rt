//! What one rank of a job keeps of maps and plans, and how it grows by the letters of other ranks.
//!
//! The ranks register a map whose owners are not known by arithmetic: each tells the indices of its list to their homes, which
//! keep them in a directory (`Tpetra::Directory`). By a plan a rank asks the homes for the owners of the indices that it
//! lacks, answers what it is asked, says to each owner what it lacks of it, and keeps what each rank lacks of itself. Then the
//! plan of the transfer is made (`Tpetra::Import`, `Tpetra::Export`). By an import a rank lacks the indices of its target list
//! that it does not own, and takes them from their owners; by an export it lacks those of its source list, and gives them to
//! their owners. A `PlanBook` keeps all of this for every map and every plan of one rank. Maps and plans are those of a job, by
//! their numbers; indices are global ones, counted from 0.
//!
//! Contracts see a `PlanBook` by its slices (`specs/Books`): the directories of maps, and by plan what was asked, which owners
//! are known, what is lacked, what was told, and the plan that was made. Each call says which slice changes at which map, plan
//! and rank, and that all others stay. The words of a letter are lists of numbers here: the crate knows no letters and no
//! phases.
//!
//! It stands on `directory`, `import_plan`, `export_plan` and `map_core`, and on the plans of `model_defs`. The worker of a rank
//! stands on it.
//!
//! ```text
//! let mut book = PlanBook::new(alloc, me, ranks);
//! book.begin_register(map, size, &own)?;                // and book.register_words(&own, size, q)? to each other rank q
//! book.absorb_register(map, q, &words)?;
//! book.begin_ask(plan, size, lacked_indices(alloc, &source, &target)?)?;
//! book.absorb_ask(plan, q, &words)?;                    // what q asked: book.ask_words(plan, me)? of rank q
//! book.begin_tell(plan, map)?;
//! book.absorb_tell(plan, q, &words)?;                   // what q answered: book.tell_words(plan, map, me)? of rank q
//! book.absorb_share(plan, q, &words)?;                  // what q lacks: book.share_words(plan, me)? of rank q
//! book.finish_import(plan, &source, &target)?;         // or book.finish_export(plan, &source, &target)?
//! book.plan(plan);                                      // the plan that was made
//! ```
#![tactic(auto)]

mod answers;
mod book;
mod indices;
pub mod laws;
mod lists;
mod looked_up;
mod owners;
mod places;
mod registered;
mod registering;
mod structures;
mod task;

pub use book::PlanBook;
pub use indices::lacked_indices;
