//! Why a list is not registered.
use map_core::Gid;
use std::alloc::{AllocError, AllocFailed};
use thiserror::Error;

/// Why the indices of a rank are not registered.
#[derive(Debug, Drop, Error)]
pub enum DirFault {
    /// The index is registered already, or stands earlier in the list.
    #[error("Twice {gid}")]
    Twice { gid: Gid },
    /// Memory ran out.
    #[error("NoMem")]
    NoMem,
}

impl From<AllocError> for DirFault {
    ghost use Rattle.std.specs.Prelude.{◌≡◌};
    ghost use Rattle.directory.specs.declared.faults.DirFault.TheVariants.{NoMem};

    ghost from_gives = { λ _ e. e ≡ NoMem };

    fn from(_: AllocError) -> DirFault {
        DirFault::NoMem
    }
}

impl<T: Drop> From<AllocFailed<T>> for DirFault {
    ghost use Rattle.std.specs.Prelude.{◌≡◌};
    ghost use Rattle.directory.specs.declared.faults.DirFault.TheVariants.{NoMem};

    ghost from_gives = { λ _ e. e ≡ NoMem };

    fn from(_: AllocFailed<T>) -> DirFault {
        DirFault::NoMem
    }
}
