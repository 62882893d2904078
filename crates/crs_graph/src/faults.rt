//! Why a place is not taken.
use map_core::Gid;
use std::alloc::AllocError;
use thiserror::Error;

/// Why a place is not taken by a structure or a matrix under construction.
#[derive(Debug, Drop, Error)]
pub enum FillFault {
    /// The row map lacks the row.
    #[error("NoSuchRow {row}")]
    NoSuchRow { row: Gid },
    /// Memory ran out.
    #[error("NoMem")]
    NoMem,
}

impl From<AllocError> for FillFault {
    ghost use Rattle.std.specs.Prelude.{◌≡◌};
    ghost use Rattle.crs_graph.specs.declared.faults.FillFault.TheVariants.{NoMem};

    ghost from_gives = { λ _ e. e ≡ NoMem };

    fn from(_: AllocError) -> FillFault {
        FillFault::NoMem
    }
}
