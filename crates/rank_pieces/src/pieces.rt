//! A rank's pieces of values.
ghost use Rattle.std.specs.Prelude.{◌≡◌, ℕ, true, false, IfOk};
ghost use Rattle.tables.specs.Tables.{AreInOrder, found};
ghost use Rattle.rank_values.specs.Vectors.{HasOver, is_over_there};
ghost use Rattle.rank_pieces.specs.Pieces.{piece_table};

use crs_matrix::CrsMatrix;
use map_core::Plan;
use multivector::MultiVector;
use rank_matrices::{is_matrix_over, matrix_cells};
use rank_values::{global_cells, is_vector_over};
use scalar_laws::Scalar;
use std::alloc::{AllocError, Global};
use tables::Cell;

/// A matrix of a rank with the plans of its structure: `columns` is that of an import from the rank's own indices of the domain to the
/// column map (`Tpetra::CrsGraph::getImporter`); `rows`, of a matrix that is split, that of an import from the rank's own rows to those
/// of its part (the reverse of `getExporter`).
#[derive(Drop)]
pub struct RankMatrix<S> {
    pub matrix: CrsMatrix<S>,
    pub columns: Plan,
    pub rows: Option<Plan>,
}

/// A rank's piece of a value.
#[derive(Drop)]
pub enum Piece<S> {
    Vector(MultiVector<S>),
    Matrix(RankMatrix<S>),
}

/// The cells of a piece by global row and column, ascending by row, then column. `Err` means that memory ran out.
pub fn piece_cells<S: Scalar>(alloc: Global, piece: &Piece<S>) -> Result<Vec<Cell<S>>, AllocError>
    ensures in_order { IfOk result (λ cells. AreInOrder cells.items) }
    ensures cells { IfOk result (λ cells. found cells.items ≡ piece_table piece.now) }
{
    match piece {
        Piece::Vector(vector) => global_cells(alloc, vector),
        Piece::Matrix(m) => matrix_cells(alloc, &m.matrix),
    }
}

/// Whether some number of a piece is over. It takes no memory.
pub fn is_piece_over<S: Scalar>(piece: &Piece<S>) -> bool
    ensures some { result ≡ true → HasOver S.conversions (piece_table piece.now) }
    ensures none { result ≡ false → (i j : ℕ) → is_over_there S.conversions (piece_table piece.now i j) ≡ false }
{
    match piece {
        Piece::Vector(vector) => is_vector_over(vector),
        Piece::Matrix(m) => is_matrix_over(&m.matrix),
    }
}
