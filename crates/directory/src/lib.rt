//! A directory: which rank owns which global index, as `Tpetra::Map` asks it of its distributed directory.
//!
//! Where a layout's owners are not known by arithmetic, each rank tells the indices of its list to their homes, and asks
//! the homes for the owners of others. The home of an index is the rank that would own it in the contiguous uniform layout
//! of the same size, so each rank finds it alone. A `Directory` is what one home knows. Contracts see its rank, the number
//! of ranks, the size, and its entries, each an index with the rank that registered it; `owner_of` is the owner that these
//! give. Where every rank registered its indices of this home, in any order, that is the owner in the layout.
//!
//! It stands on `map_core` and `indexmap`. What a rank does with letters to other ranks stands on it.
//!
//! ```text
//! let mut directory = Directory::new(alloc, 0, 2, 4)?;   // rank 0 of 2 is the home of 0 and 1
//! directory.register(1, &[1])?;                          // rank 1 has index 1
//! directory.owner(1);                                    // Some(1)
//! directory.answers(&[0, 1])?;                           // 4294967295, 1: no rank registered 0
//! questions(alloc, 2, 4, &[3, 0, 2], 1)?;                // 3, 2: what to ask of rank 1
//! ```
#![tactic(auto)]

mod directory_of;
mod faults;
pub mod laws;
mod questions_of;
#[cfg(test)]
mod tests;

pub use directory_of::{Directory, NO_OWNER};
pub use faults::DirFault;
pub use questions_of::questions;
