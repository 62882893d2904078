//! Why the files of a job are not read.

use mm_text::MmFault;
use std::alloc::{AllocError, AllocFailed};

/// Why the files of a job are not read.
#[derive(Debug, Drop)]
pub enum FilesFault<'a> {
    /// Memory ran out.
    Memory,
    /// The file of this name could not be read.
    Unread { name: &'a str },
    /// The text of the file of this name is refused.
    Refused { name: &'a str, fault: MmFault },
}

impl<'a> From<AllocError> for FilesFault<'a> {
    ghost use Rattle.std.specs.Prelude.{◌≡◌};
    ghost use Rattle.job_files.specs.declared.fault.FilesFault.TheVariants.{Memory};

    ghost from_gives = { λ _ e. e ≡ Memory };

    fn from(_e: AllocError) -> FilesFault<'a> {
        FilesFault::Memory
    }
}

impl<'a, T: Drop> From<AllocFailed<T>> for FilesFault<'a> {
    ghost use Rattle.std.specs.Prelude.{◌≡◌};
    ghost use Rattle.job_files.specs.declared.fault.FilesFault.TheVariants.{Memory};

    ghost from_gives = { λ _ e. e ≡ Memory };

    fn from(_e: AllocFailed<T>) -> FilesFault<'a> {
        FilesFault::Memory
    }
}
