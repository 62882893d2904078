//! Transfers: entries of a source come to a target, on the rank itself and from other ranks, as `Tpetra::Distributor`
//! and the packing and unpacking of `Tpetra::DistObject` do it.
//!
//! A `DistSource` has entries by local index, each with its global index and its cells. A `DistTarget` takes cells by
//! local index and column and combines each with the one that it has. A `Transfer` stands on a plan of `map_core`: it
//! combines the entries that stay on their rank (`local`), makes the letter of those that go to another (`pack`), and
//! combines those that came with a letter (`absorb`). Its letters lie in blocks of a pool; for entries of equally many
//! numbers `ready` reserves them, and after it no call takes memory.
//!
//! Contracts see a source as the list of its entries, and a target as a table together with the pairs of local index and
//! column that it takes. A transfer brings a list of cells, one after the other, and the table afterwards is the one
//! that combining them in this order gives.
//!
//! The crate stands on `map_core` for plans, on `combine_modes` for what becomes of a cell, on `letter_codec` for the
//! bytes of letters and on `byte_pool` for their blocks. Vectors and matrices stand on it.
//!
//! ```text
//! let transfer = Transfer::ready(plan, 1, &mut pool)?;
//! transfer.local(&x, &mut y, Mode::Replace)?;
//! let lease = transfer.pack(Kind::Nums, &x, to, &mut pool)?;
//! send(pool.bytes(&lease));
//! pool.give_back(lease);
//! transfer.absorb(&arrived, from, &mut y, Mode::Replace)?;
//! ```
#![tactic(auto)]

mod absorbing;
mod combining;
mod fault;
pub mod laws;
mod packing;
mod source;
mod target;
mod transfer;

pub use fault::AbsorbFault;
pub use source::DistSource;
pub use target::DistTarget;
pub use transfer::Transfer;
