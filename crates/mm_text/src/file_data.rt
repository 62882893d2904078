//! What a Matrix Market file holds.

/// The form of a file by its banner: NIST Matrix Market exchange formats, "coordinate" and "array".
#[derive(Clone, Copy, Debug, PartialEq, Eq)]
pub enum Form {
    Coordinate,
    Array,
}

/// What an entry (i, j) of value v says of the place (j, i), where i is not j: nothing, v, or -v. These are the
/// symmetries "general", "symmetric" and "skew-symmetric".
#[derive(Clone, Copy, Debug, PartialEq, Eq)]
pub enum Mirror {
    Plain,
    Same,
    Negated,
}

/// An entry of a file; rows and columns are counted from 0.
#[derive(Clone, Copy, Debug, PartialEq, Eq)]
pub struct Line {
    pub row: u64,
    pub col: u64,
    pub value: i128,
}

/// A file that was read: its sizes, its symmetry and its entries in file order.
#[derive(Debug, Drop)]
pub struct FileData {
    pub rows: u64,
    pub cols: u64,
    pub mirror: Mirror,
    pub lines: Vec<Line>,
}
