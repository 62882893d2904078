//! What the values of a job are before any number is known.

/// The sorts of values. Vectors and matrices are whole, parts and split matrices have a piece for each rank.
#[derive(Clone, Copy, Debug, PartialEq, Eq)]
pub enum Sort {
    Vector,
    Parts,
    Matrix,
    Split,
}

/// A value's maps by their numbers, its columns, and the number of the matrix whose structure and plans it shares, which is
/// its own number where it has its own. Of a vector or parts the domain says nothing.
#[derive(Clone, Copy, Debug, PartialEq, Eq)]
pub struct Shape {
    pub sort: Sort,
    pub rows: u32,
    pub domain: u32,
    pub columns: u32,
    pub structure: usize,
}
