//! Why an offer is not accepted.
use map_core::{Gid, HeldFault};
use std::alloc::AllocError;
use thiserror::Error;

/// Why the indices that another rank offers are not accepted.
#[derive(Debug, Drop, Error)]
pub enum OfferFault {
    /// The target lacks the index: the first such of the offer.
    #[error("NotHeld {gid}")]
    NotHeld { gid: Gid },
    /// Memory ran out.
    #[error("NoMem")]
    NoMem,
}

impl From<AllocError> for OfferFault {
    ghost use Rattle.std.specs.Prelude.{◌≡◌};
    ghost use Rattle.export_plan.specs.declared.faults.OfferFault.TheVariants.{NoMem};

    ghost from_gives = { λ _ e. e ≡ NoMem };

    fn from(_: AllocError) -> OfferFault {
        OfferFault::NoMem
    }
}

impl From<HeldFault> for OfferFault {
    ghost use Rattle.std.specs.Prelude.{◌≡◌};
    ghost use Rattle.export_plan.specs.Faults.{of_held};

    ghost from_gives = { λ fault e. e ≡ of_held fault };

    fn from(fault: HeldFault) -> OfferFault {
        match fault {
            HeldFault::NotHeld { gid } => OfferFault::NotHeld { gid },
            HeldFault::NoMem => OfferFault::NoMem,
        }
    }
}
