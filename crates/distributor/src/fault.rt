//! Why a letter is not absorbed.
use std::alloc::AllocError;
use thiserror::Error;

/// Why a letter is not absorbed.
#[derive(Debug, Drop, Error)]
pub enum AbsorbFault {
    /// The letter has `have` entries where the plan has `want` positions for the entries of its sender.
    #[error("NotThePlan {have} {want}")]
    NotThePlan { have: u64, want: u64 },
    /// Memory ran out.
    #[error("NoMem")]
    NoMem,
}

impl From<AllocError> for AbsorbFault {
    ghost use Rattle.std.specs.Prelude.{◌≡◌};
    ghost use Rattle.distributor.specs.declared.fault.AbsorbFault.TheVariants.{NoMem};

    ghost from_gives = { λ _ e. e ≡ NoMem };

    fn from(_: AllocError) -> AbsorbFault {
        AbsorbFault::NoMem
    }
}
