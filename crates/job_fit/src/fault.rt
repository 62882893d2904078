//! Why files do not fit a job.

use thiserror::Error;

/// Why files do not fit a job.
#[derive(Debug, Drop, Error)]
pub enum FitFault {
    /// The given value of this number, counted from 0, is the first one of which a file has other sizes than the job states.
    #[error("SizeMismatch {value}")]
    SizeMismatch { value: u32 },
}
