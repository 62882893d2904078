//! Plain twins of the operations on the sparse matrices of one rank.
//!
//! A matrix is a list of cells here, in any order, each place named as often as it comes: the matrix that `table_of` makes of
//! it. Each program walks the whole list for every number that it gives, and its contract is the definition that the fast
//! program's contract cites. So the two agree at every place; the tests run both on random matrices, with stored zeros, empty
//! rows, repeated places and numbers that are Over, and on one large matrix.
//!
//! `filled` is how a list of cells becomes a `MatrixFill`, by `insert` alone; `random_cells` makes lists of cells.
//!
//! The crate stands on `crs_matrix` and, in its tests, on all that computes with the matrices of one rank; a program that
//! measures stands on it.
#![tactic(auto)]

mod fill;
mod operations;
mod random;
#[cfg(test)]
mod tests;
#[cfg(test)]
mod tests_matrices;

pub use fill::filled;
pub use operations::{combination_at, number_at, product_at, turned};
pub use random::{Sequence, random_cells};
