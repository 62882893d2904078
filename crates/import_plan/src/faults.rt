//! Why a want is not accepted.
use map_core::{Gid, HeldFault};
use std::alloc::AllocError;
use thiserror::Error;

/// Why the indices that another rank wants are not accepted.
#[derive(Debug, Drop, Error)]
pub enum WantFault {
    /// The source lacks the index: the first such of the want.
    #[error("NotHeld {gid}")]
    NotHeld { gid: Gid },
    /// Memory ran out.
    #[error("NoMem")]
    NoMem,
}

impl From<AllocError> for WantFault {
    ghost use Rattle.std.specs.Prelude.{◌≡◌};
    ghost use Rattle.import_plan.specs.declared.faults.WantFault.TheVariants.{NoMem};

    ghost from_gives = { λ _ e. e ≡ NoMem };

    fn from(_: AllocError) -> WantFault {
        WantFault::NoMem
    }
}

impl From<HeldFault> for WantFault {
    ghost use Rattle.std.specs.Prelude.{◌≡◌};
    ghost use Rattle.import_plan.specs.Faults.{of_held};

    ghost from_gives = { λ fault e. e ≡ of_held fault };

    fn from(fault: HeldFault) -> WantFault {
        match fault {
            HeldFault::NotHeld { gid } => WantFault::NotHeld { gid },
            HeldFault::NoMem => WantFault::NoMem,
        }
    }
}
