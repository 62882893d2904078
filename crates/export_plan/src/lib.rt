//! Export plans: what one rank sends, receives and copies when each rank gives the entries that it has to their owners, as
//! `Tpetra::Export` has it.
//!
//! A rank has a source list of global indices, those of its entries, and a target list, those that it owns. It knows the
//! owner of each source index. It offers to each other rank what that one owns, accepts what each of them offers, and
//! finishes the plan:
//!
//! ```text
//! let mut export = ExportPlan::start(alloc, me, ranks, &source, &target, &owners)?;
//! // for each other rank: send it export.offered(rank), and with what it offers
//! export.accept_offer(rank, &gids)?;
//! let plan = export.finish()?;
//! ```
//!
//! Contracts see an `ExportPlan` as its two lists, the indices offered to each rank, and those that each rank offers. The
//! classes of indices are defined in `map_core`, on which the crate stands. Transfers of entries stand on it.
#![tactic(auto)]

mod export;
mod faults;
pub mod laws;
#[cfg(test)]
mod tests;

pub use export::ExportPlan;
pub use faults::OfferFault;
