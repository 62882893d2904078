//! Sparse matrices on one rank: a matrix under construction, and the same in compressed rows.
//!
//! A `MatrixFill` takes numbers by global row and column, in any order and each place as often as it comes: the numbers of
//! one place are added. Contracts see it as the list of its rows and, for each of them, its cells, ascending by column; so
//! it is a finite map from places to numbers, in which a stored zero differs from an absent place. Its rows go to other
//! ranks, and it takes cells that come from them: it is a source and a target of transfers.
//!
//! A `CrsMatrix` is a structure, which several matrices may share, with a number for each of its places. Contracts see the
//! structure and for each row the numbers of its columns, in their order. Its numbers change, its places never do. Its
//! rows go to other ranks as those of a `MatrixFill` do: with global columns, ascending.
//!
//! ```text
//! let mut fill = MatrixFill::new(alloc, rows)?;
//! fill.insert(row, col, value)?;
//! let columns = fill.columns()?;
//! let number = fill.get(row, col);
//! let mut matrix = fill.fill_complete(&domain, &owners)?;
//! matrix.sum_into(row, col, value)?;
//! ```
//!
//! It stands on `crs_graph`, `distributor` and what these stand on, and keeps rows under construction with `smallvec`.
//! What computes with matrices stands on it.
#![tactic(auto)]

mod complete;
mod fill;
mod matrix;
mod packed_places;
mod places;
mod row_fault;
#[cfg(test)]
mod tests;

pub use fill::MatrixFill;
pub use matrix::CrsMatrix;
pub use row_fault::RowFault;
