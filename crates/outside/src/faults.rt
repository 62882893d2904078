//! The answer of a call that the outside refused.

/// The outside refused the call: its count of faults rose.
#[derive(Clone, Copy, Debug, PartialEq, Eq)]
pub struct Failed;
