//! Vectors of several columns on the indices of a map, as `Tpetra::MultiVector` has them on one rank.
//!
//! A `MultiVector` has for each index of its map a row of numbers, one for each column. Contracts see the indices of the
//! map, the number of columns and the numbers, and a number at each local index and column. Its rows are entries that go
//! to other ranks, and its cells take what comes from them: it is a source and a target of transfers, and always has
//! each of its cells.
//!
//! The crate stands on `map_core`, `distributor` and what these stand on. What computes with vectors stands on it.
//!
//! ```text
//! let mut y = MultiVector::new(alloc, map.clone()?, 1, S::zero())?;
//! y.set(lid, 0, value);
//! y.update(alpha, &x, beta);
//! ```
#![tactic(auto)]

mod multi_vector;
#[cfg(test)]
mod tests;

pub use multi_vector::MultiVector;
