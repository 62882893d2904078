//! Why a number of a matrix is not changed.
use map_core::Gid;
use thiserror::Error;

/// Why a number of a matrix is not changed.
#[derive(Debug, Drop, Error)]
pub enum RowFault {
    /// The structure lacks the place of this row and column, both global indices.
    #[error("NoSuchPlace {row} {col}")]
    NoSuchPlace { row: Gid, col: Gid },
}
