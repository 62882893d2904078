//! Why a run is not given what it needs.

use crate::FileName;
use job_text::JobFault;
use mm_text::MmFault;
use model_defs::Text;
use schedule::ScheduleFault;
use std::alloc::{AllocError, AllocFailed};

/// Why the text of a file is refused.
#[derive(Debug, Drop)]
pub enum TextFault {
    /// It is no job.
    Job(JobFault),
    /// It is no schedule.
    Schedule(ScheduleFault),
    /// It is no matrix file of its kind.
    Matrix(MmFault),
    /// It is a job, and the value of this name is the first of which a file has other sizes than the job states.
    SizeMismatch { value: Text },
}

/// Why a run is not given what it needs.
#[derive(Debug, Drop)]
pub enum InputFault<'a> {
    /// Memory ran out.
    Memory,
    /// The file of this name could not be read.
    Unread {
        name: FileName<'a>,
    },
    /// The text of the file of this name is refused.
    Refused {
        name: FileName<'a>,
        fault: TextFault,
    },
}

impl<'a> From<AllocError> for InputFault<'a> {
    ghost use Rattle.std.specs.Prelude.{◌≡◌};
    ghost use Rattle.run_input.specs.declared.fault.InputFault.TheVariants.{Memory};

    ghost from_gives = { λ _ e. e ≡ Memory };

    fn from(_e: AllocError) -> InputFault<'a> {
        InputFault::Memory
    }
}

impl<'a, T: Drop> From<AllocFailed<T>> for InputFault<'a> {
    ghost use Rattle.std.specs.Prelude.{◌≡◌};
    ghost use Rattle.run_input.specs.declared.fault.InputFault.TheVariants.{Memory};

    ghost from_gives = { λ _ e. e ≡ Memory };

    fn from(_e: AllocFailed<T>) -> InputFault<'a> {
        InputFault::Memory
    }
}
