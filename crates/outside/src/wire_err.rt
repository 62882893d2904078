//! The answer of a wire that did not do what was asked.
ghost use Rattle.std.specs.Prelude.{◌≡◌};
ghost use Rattle.outside.specs.declared.wire_err.WireErr.TheVariants.{Memory};

use std::alloc::{AllocError, AllocFailed};

/// Why a wire did not post or give a letter.
#[derive(Clone, Copy, Debug, PartialEq, Eq)]
pub enum WireErr {
    /// There was no memory for it.
    Memory,
    /// The outside refused the call: the wire's count of faults rose.
    Failed,
}

impl From<AllocError> for WireErr {
    ghost from_gives = { λ _ e. e ≡ Memory };

    fn from(_: AllocError) -> Self {
        WireErr::Memory
    }
}

impl<T: Drop> From<AllocFailed<T>> for WireErr {
    ghost from_gives = { λ _ e. e ≡ Memory };

    fn from(_: AllocFailed<T>) -> Self {
        WireErr::Memory
    }
}
