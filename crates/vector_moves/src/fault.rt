//! Why a letter is refused.
use thiserror::Error;

/// Why a letter of rows is refused.
#[derive(Debug, Drop, Error)]
pub enum MoveFault {
    /// The bytes are no letter of rows with as many numbers each as the vector has columns.
    #[error("NotALetter")]
    NotALetter,
    /// The letter has `have` rows where the plan has `want` positions for the rows of its sender.
    #[error("NotThePlan {have} {want}")]
    NotThePlan { have: u64, want: u64 },
}
