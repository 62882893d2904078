//! Maps: which rank of a parallel run has which global indices, as `Tpetra::Map` says it.
//!
//! A rank's indices are a `LocalMap`, an ordered list of distinct global indices: a place in it, counted from 0, is a
//! local index. A `Layout` has the lists of all ranks. Contracts see a `LocalMap` as its list, and a `Layout` as its
//! size and its lists. The layouts are the contiguous uniform one, runs of stated lengths, the cyclic one, and lists as
//! they are given. A list of its own is kept with `indexmap`; the indices of the others are known by arithmetic, so such
//! a layout takes memory for each rank, and none for each index. No contract tells which it is.
//!
//! A `Plan` is what one rank sends, receives and copies in a transfer from a source to a target, as `Tpetra::Import` and
//! `Tpetra::Export` keep it; contracts see its lists of local indices.
//!
//! It stands on `indexmap`, which keeps the indices. All that speaks of the indices of a rank stands on it.
//!
//! ```text
//! let layout = Layout::cyclic(alloc, 3, 7)?;          // 0 3 6; 1 4; 2 5
//! let mine = layout.list(1);
//! mine.global_of(1);                                  // Some(4)
//! mine.local_of(4);                                   // Some(1)
//! mine.local_of(5);                                   // None: rank 2 has it
//! layout.is_one_to_one() && layout.is_total();        // true
//! ```
#![tactic(auto)]

mod faults;
pub mod laws;
mod layout;
mod lists;
mod local_map;
mod parts;
mod plan;
mod plan_builder;
mod stride;
#[cfg(test)]
mod tests;
mod uniform;

pub use faults::{HeldFault, ListFault, MapFault};
pub use layout::Layout;
pub use local_map::LocalMap;
pub use plan::Plan;
pub use plan_builder::PlanBuilder;
pub use uniform::uniform_owner;

/// A global index, counted from 0.
pub type Gid = u64;
