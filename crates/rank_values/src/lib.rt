//! The values that a rank makes by itself: vectors of the lines that it is given, and sums of vectors cell by cell.
//!
//! A rank's piece of a vector or of parts is a `MultiVector` on the rank's list of a map. Contracts see it by global indices
//! (`global_table` in specs/): so they speak of the same tables as the values on the global data. A vector is made of
//! lines, each of which adds its number to the cell that it names; two vectors on one list are added, each times a factor;
//! and the cells of a vector are told by row, then column.
//!
//! The crate stands on `multivector`, on `model_defs`, and on `gathered_rows`, which sorts cells. The ranks of a job stand
//! on it.
//!
//! ```text
//! let x = vector_of_lines::<Weighed>(alloc, map, 1, lines)?;
//! let y = sum_of_vectors(two, &x, one, &x)?;
//! let cells = global_cells(alloc, &y)?;
//! ```
#![tactic(auto)]

mod cells;
mod lines;
mod sums;
#[cfg(test)]
mod tests;

pub use cells::{global_cells, in_order, is_vector_over};
pub use lines::{number_of, vector_of_lines};
pub use sums::{scaled_vector, sum_of_vectors};
