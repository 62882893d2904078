//! The matrices that a rank makes by itself: those of the lines that it is given, scaled ones, and products with vectors.
//!
//! A rank's piece of a matrix is a `MatrixFill` or a `CrsMatrix` on a list of rows. Contracts see it by global indices
//! (`row_table` and `crs_table` of `crs_matrix`): so they speak of the same tables as the values on the global data, and of
//! the textbook's operations on them. A fill is made of lines, each of which adds its number to the place that it names; a
//! matrix is scaled, its cells are told by row, then column, and it is applied to a vector.
//!
//! The crate stands on `crs_matrix`, `spmv`, `rank_values`, and on `rank_share`, whose lines it takes. The ranks of a job
//! stand on it.
//!
//! ```text
//! let fill = fill_of_lines::<Weighed>(alloc, lines)?;
//! let a = fill.fill_complete(&domain, &owners)?;
//! let sums = sums_of_apply(alloc, false, &a, &x)?;    // a x, on the row map of a
//! let z = applied(alloc, two, &a, &x, one, &y)?;      // 2 a x + y
//! let cells = matrix_cells(alloc, &a)?;
//! ```
#![tactic(auto)]

mod applies;
mod cells;
mod fills;
pub mod laws;
mod overs;
mod scaled;
#[cfg(test)]
mod tests;

pub use applies::{applied, sums_of_apply};
pub use cells::matrix_cells;
pub use fills::{fill_of_lines, rows_of_lines};
pub use overs::is_matrix_over;
pub use scaled::scaled_matrix;
