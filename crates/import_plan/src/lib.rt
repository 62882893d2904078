//! Import plans: what one rank sends, receives and copies when each rank takes from the owners the entries that it needs, as
//! `Tpetra::Import` has it.
//!
//! A rank has a source list of global indices, those that it owns, and a target list, those that it needs. It knows the
//! owner of each target index. It asks each other rank for what it lacks, accepts what each of them asks for, and finishes
//! the plan:
//!
//! ```text
//! let mut import = ImportPlan::start(alloc, me, ranks, &source, &target, &owners)?;
//! // for each other rank: send it import.wanted(rank), and with what it wants
//! import.accept_want(rank, &gids)?;
//! let plan = import.finish()?;
//! ```
//!
//! Contracts see an `ImportPlan` as its two lists, the wanted indices of each rank, and those that each rank wants. The
//! classes of indices are defined in `map_core`, on which the crate stands. Transfers of entries stand on it.
#![tactic(auto)]

mod faults;
mod import;
pub mod laws;
#[cfg(test)]
mod tests;

pub use faults::WantFault;
pub use import::ImportPlan;
