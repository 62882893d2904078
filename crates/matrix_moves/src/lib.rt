//! Rows of matrices on their way between ranks, as `Tpetra::CrsMatrix::doImport` and `doExport` bring them: a matrix is begun with
//! the rows that stay on the rank, the letters to other ranks are packed, and the letters that come are absorbed, each when it
//! comes.
//!
//! `ArrivingRows` is a matrix in the making. A source is whatever has rows: a matrix under construction, or one in compressed
//! rows. In a letter stands each row that is sent, also one without places: its global index, the number of its places and their
//! columns, ascending; and behind all of them the numbers, place after place.
//!
//! Contracts see a matrix as its table by global indices. What comes is combined with it place by place, as the places of a
//! matrix are: one that is absent may be made. Of a letter that comes its rows are known; its places and its numbers may be any.
//!
//! `fill_is_source` and `matrix_is_source` say that a matrix is a source of its own rows.
//!
//! ```text
//! fill_is_source(&a);
//! let mut arriving = ArrivingRows::begin(plan, &a, MatrixFill::new(alloc, rows)?, Mode::Add)?;
//! for q in 0..ranks {
//!     if arriving.has_letter_to(q) {
//!         send(q, arriving.pack(&a, q, &mut pool)?);
//!     }
//! }
//! arriving.absorb(from, &bytes)?;         // each letter that comes
//! let matrix = arriving.into_fill();
//! ```
//!
//! It stands on `crs_matrix`, `distributor`, `vector_moves` for what a plan moves, and the words of letters of `model_defs`.
#![tactic(auto)]

mod arriving_rows;
pub mod laws;
mod moving;
mod room;
mod sources;
#[cfg(test)]
mod tests;

pub use arriving_rows::ArrivingRows;
pub use sources::{fill_is_source, matrix_is_source};
