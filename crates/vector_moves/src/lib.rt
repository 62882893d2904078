//! Vectors that move between the lists of two maps, as `Tpetra::Import` and `Tpetra::Export` do it with
//! `Tpetra::MultiVector::doImport`: one rank's rows go to another rank's vector as a letter of bytes.
//!
//! `ready` makes a transfer for vectors of some columns, with a block of a pool for each letter; after it no call takes memory.
//! `for_vectors` makes one and leaves the room to the caller. `local` combines the rows that stay on their rank, `pack` writes
//! the letter to a rank, `absorb` combines the rows of a letter. `transfer` is a whole letter's way from one vector to another, and `transfer_often` goes it over and
//! over on one pool, which is the same afterwards.
//!
//! Contracts see vectors by global index: a row of the source comes to the target's row of the same index, and each of
//! its numbers is combined with the one that is there.
//!
//! ```text
//! let transfer = ready(&x, plan, &mut pool)?;
//! local(&transfer, &x, &mut y, Mode::Replace);
//! let lease = pack(&transfer, &x, to, &mut pool);
//! send(pool.bytes(&lease));
//! pool.give_back(lease);
//! absorb(&transfer, &arrived, from, &mut y, Mode::Replace)?;
//! ```
//!
//! It stands on `multivector` and `distributor`, and on what these stand on.
#![tactic(auto)]

mod fault;
pub mod laws;
mod moving;
mod rounds;
#[cfg(test)]
mod tests;

pub use fault::MoveFault;
pub use moving::{absorb, for_vectors, local, pack, ready};
pub use rounds::{transfer, transfer_often};
