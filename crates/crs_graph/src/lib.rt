//! The structure of a sparse matrix on one rank: which places its rows have, as `Tpetra::CrsGraph` keeps it.
//!
//! A `GraphFill` takes places by global row and column, in any order and each as often as it comes. Contracts see it as the
//! list of its rows and, for each of them, the columns that it has, ascending: a set of places. The column map lists first
//! the columns of the domain, in its order, then the others by owner, then by index.
//!
//! A `CrsGraph` is the same set of places in compressed rows. Contracts see it as the list of its rows, the list of its
//! column map, and for each row the local indices of its columns, ascending.
//!
//! ```text
//! let mut fill = GraphFill::new(alloc, rows)?;
//! let is_new = fill.insert(row, col)?;
//! let columns = fill.columns()?;
//! let graph = fill.fill_complete(&domain, &owners)?;      // one owner for each of the columns
//! graph.row(lid);                                         // local columns
//! ```
//!
//! It stands on `map_core`, whose maps have the rows, and keeps rows under construction with `smallvec`. Matrices stand on
//! it.
#![tactic(auto)]

mod column_order;
mod columns;
mod compress;
mod faults;
mod fill;
mod graph;
pub mod laws;
mod packed_rows;
mod spans;
#[cfg(test)]
mod tests;

pub use column_order::column_map;
pub use columns::distinct_columns;
pub use faults::FillFault;
pub use fill::GraphFill;
pub use graph::CrsGraph;
pub use packed_rows::PackedRows;
