//! What a run shows: the printed values, the phases and the letters.

use crate::{ListOf, Text};
use letter_codec::Kind;
use mm_text::Shown;
use outside::Name;

/// The form of a printed text.
#[derive(Clone, Copy, Debug, PartialEq, Eq)]
pub enum SheetKind {
    Array,
    Coordinate,
}

/// A printed value, or one part of it. Rows and columns count from 0. The cells of an `Array` are all of them, column by
/// column; those of a `Coordinate` sheet ascend by row, then column.
#[derive(Debug, Drop)]
pub struct Sheet {
    pub kind: SheetKind,
    pub rows: u64,
    pub cols: u64,
    pub part: Option<u32>,
    pub cells: ListOf<Shown>,
}

/// A phase of a job: its number from 0, what its letters are for, and the name of the value for which it is.
#[derive(Debug, Drop)]
pub struct PhaseLine {
    pub phase: u32,
    pub kind: Kind,
    pub name: Text,
}

/// A letter of a job and the number of its entries.
#[derive(Clone, Copy, Debug, PartialEq, Eq)]
pub struct LetterLine {
    pub name: Name,
    pub entries: u64,
}
