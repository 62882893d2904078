//! Why a list of indices makes no map.
use crate::Gid;
use std::alloc::{AllocError, AllocFailed};
use thiserror::Error;

/// Why a list of global indices makes no `LocalMap`.
#[derive(Debug, Drop, Error)]
pub enum ListFault {
    /// The index stands twice in the list.
    #[error("Repeated {gid}")]
    Repeated { gid: Gid },
    /// Memory ran out.
    #[error("NoMem")]
    NoMem,
}

impl From<AllocError> for ListFault {
    ghost use Rattle.std.specs.Prelude.{◌≡◌};
    ghost use Rattle.map_core.specs.declared.faults.ListFault.TheVariants.{NoMem};

    ghost from_gives = { λ _ e. e ≡ NoMem };

    fn from(_: AllocError) -> ListFault {
        ListFault::NoMem
    }
}

impl<T: Drop> From<AllocFailed<T>> for ListFault {
    ghost use Rattle.std.specs.Prelude.{◌≡◌};
    ghost use Rattle.map_core.specs.declared.faults.ListFault.TheVariants.{NoMem};

    ghost from_gives = { λ _ e. e ≡ NoMem };

    fn from(_: AllocFailed<T>) -> ListFault {
        ListFault::NoMem
    }
}

/// Why a list of global indices is not accepted by a rank that is to hold them all.
#[derive(Debug, Drop, Error)]
pub enum HeldFault {
    /// The rank does not hold the index: the first such of the list.
    #[error("NotHeld {gid}")]
    NotHeld { gid: Gid },
    /// Memory ran out.
    #[error("NoMem")]
    NoMem,
}

impl From<AllocError> for HeldFault {
    ghost use Rattle.std.specs.Prelude.{◌≡◌};
    ghost use Rattle.map_core.specs.declared.faults.HeldFault.TheVariants.{NoMem};

    ghost from_gives = { λ _ e. e ≡ NoMem };

    fn from(_: AllocError) -> HeldFault {
        HeldFault::NoMem
    }
}

impl<T: Drop> From<AllocFailed<T>> for HeldFault {
    ghost use Rattle.std.specs.Prelude.{◌≡◌};
    ghost use Rattle.map_core.specs.declared.faults.HeldFault.TheVariants.{NoMem};

    ghost from_gives = { λ _ e. e ≡ NoMem };

    fn from(_: AllocFailed<T>) -> HeldFault {
        HeldFault::NoMem
    }
}

/// Why lists of global indices, one for each rank, make no `Layout`.
#[derive(Debug, Drop, Error)]
pub enum MapFault {
    /// The index stands twice in the list of the rank.
    #[error("Repeated {rank} {gid}")]
    Repeated { rank: u32, gid: Gid },
    /// The list of the rank has an index that is not below the size.
    #[error("OutOfSize {rank} {gid}")]
    OutOfSize { rank: u32, gid: Gid },
    /// Memory ran out.
    #[error("NoMem")]
    NoMem,
}

impl From<AllocError> for MapFault {
    ghost use Rattle.std.specs.Prelude.{◌≡◌};
    ghost use Rattle.map_core.specs.declared.faults.MapFault.TheVariants.{NoMem};

    ghost from_gives = { λ _ e. e ≡ NoMem };

    fn from(_: AllocError) -> MapFault {
        MapFault::NoMem
    }
}

impl<T: Drop> From<AllocFailed<T>> for MapFault {
    ghost use Rattle.std.specs.Prelude.{◌≡◌};
    ghost use Rattle.map_core.specs.declared.faults.MapFault.TheVariants.{NoMem};

    ghost from_gives = { λ _ e. e ≡ NoMem };

    fn from(_: AllocFailed<T>) -> MapFault {
        MapFault::NoMem
    }
}
