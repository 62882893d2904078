//! A place of a matrix with its value, as it is written.

/// A place with its value; rows and columns are counted from 0.
#[derive(Clone, Copy, Debug, PartialEq, Eq)]
pub struct Shown {
    pub row: u64,
    pub col: u64,
    pub value: i128,
}
