//! The pieces that a rank of a job makes of its values by itself: those of the files, and those that statements make without letters.
//!
//! A rank's piece of a vector or of parts is a `MultiVector` on its list of the value's map; that of a matrix is a `CrsMatrix` with the
//! plans of its structure. Contracts see a piece by global indices, and say of it that it is the rank's piece of the value by the letters
//! that were given to it (`specs/Pieces`).
//!
//! It stands on `rank_values`, `rank_matrices`, `rank_share` and `matrix_arrivals`. The worker of a rank stands on it.
#![tactic(auto)]

mod combining;
mod copying;
mod dealt;
mod making;
mod matrices;
mod pieces;
mod steps;

pub use combining::combined_vector;
pub use copying::{copying_step, mode_of, onto_of, plan_of, source_of};
pub use dealt::{dealt_fill, dealt_rows};
pub use making::{add_pieces, own_piece};
pub use matrices::copy_matrix;
pub use pieces::{Piece, RankMatrix, is_piece_over, piece_cells};
