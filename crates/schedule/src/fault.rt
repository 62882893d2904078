//! Why the text of a schedule is refused.

use std::alloc::{AllocError, AllocFailed};
use thiserror::Error;

/// Why the text of a schedule is refused.
#[derive(Debug, Drop, Error)]
pub enum ScheduleFault {
    /// The first line that is no letter's name has this number, counted from 1.
    #[error("BadLine")]
    BadLine { line: u32 },
    /// Memory ran out.
    #[error("NoMem")]
    NoMem,
    /// The text has more than 67,108,864 bytes.
    #[error("TooLong")]
    TooLong,
}

impl From<AllocError> for ScheduleFault {
    ghost use Rattle.std.specs.Prelude.{◌≡◌};
    ghost use Rattle.schedule.specs.declared.fault.ScheduleFault.TheVariants.{NoMem};

    ghost from_gives = { λ _ e. e ≡ NoMem };

    fn from(_e: AllocError) -> ScheduleFault {
        ScheduleFault::NoMem
    }
}

impl<T: Drop> From<AllocFailed<T>> for ScheduleFault {
    ghost use Rattle.std.specs.Prelude.{◌≡◌};
    ghost use Rattle.schedule.specs.declared.fault.ScheduleFault.TheVariants.{NoMem};

    ghost from_gives = { λ _ e. e ≡ NoMem };

    fn from(_e: AllocFailed<T>) -> ScheduleFault {
        ScheduleFault::NoMem
    }
}
