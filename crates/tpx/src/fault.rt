//! Why a command ends without its result.
ghost use Rattle.std.specs.Prelude.{◌≡◌};

use outside::Name;
use run_input::{FileName, TextFault};
use std::alloc::{AllocError, AllocFailed};

/// Why a command ends without its result.
#[derive(Debug, Drop)]
pub enum Fault<'a> {
    /// Memory ran out, before anything was written.
    Memory,
    /// The words are no command.
    NoCommand,
    /// The file of this name could not be read.
    Unread {
        file: FileName<'a>,
    },
    /// The output could not be written.
    Unwritten,
    /// The text of the file of this name is refused.
    Refused {
        file: FileName<'a>,
        fault: TextFault,
    },
    /// The schedule ended while these letters were in flight, sorted by name.
    Undelivered {
        names: Vec<Name>,
    },
    /// A number has more weight than fits.
    Overflow,
    /// This line of the schedule is the first that names a letter neither in flight nor delivered before.
    WrongLine {
        line: u32,
        name: Name,
    },
    /// The wire refused a call.
    WireFailed,
}

impl<'a> Fault<'a> {
    ghost use Rattle.tpx.specs.Faults.{status_of};

    /// The exit status.
    pub fn status(&self) -> u8
        ensures { result ≡ status_of self.now }
    {
        match self {
            Fault::Memory => 1,
            Fault::NoCommand => 2,
            Fault::Unread { .. } => 3,
            Fault::Unwritten => 4,
            Fault::Refused { .. } => 5,
            Fault::Undelivered { .. } => 6,
            Fault::Overflow => 7,
            Fault::WrongLine { .. } => 8,
            Fault::WireFailed => 9,
        }
    }
}

impl<'a> From<AllocError> for Fault<'a> {
    ghost use Rattle.std.specs.Prelude.{◌≡◌};
    ghost use Rattle.tpx.specs.declared.fault.Fault.TheVariants.{Memory};

    ghost from_gives = { λ _ e. e ≡ Memory };

    fn from(_e: AllocError) -> Fault<'a> {
        Fault::Memory
    }
}

impl<'a, T: Drop> From<AllocFailed<T>> for Fault<'a> {
    ghost use Rattle.std.specs.Prelude.{◌≡◌};
    ghost use Rattle.tpx.specs.declared.fault.Fault.TheVariants.{Memory};

    ghost from_gives = { λ _ e. e ≡ Memory };

    fn from(_e: AllocFailed<T>) -> Fault<'a> {
        Fault::Memory
    }
}
