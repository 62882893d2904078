//! The modes, one value at a time.
ghost use Rattle.std.specs.Prelude.{◌≡◌, true, false};
ghost use Rattle.combine_modes.specs.Modes.{after_one};

use scalar_laws::Scalar;

/// How the values that come for a cell are combined with the one that it has (`Tpetra::CombineMode` by name).
#[derive(Clone, Copy, Debug, PartialEq, Eq)]
pub enum Mode {
    /// A vector's cell has the picked value; a place of a matrix keeps its own, and an absent one is made with the picked.
    Insert,
    /// The cell has the picked value; an absent place stays absent.
    Replace,
    /// The cell has the sum; an absent place is made with the sum of the values.
    Add,
    /// The cell has the greatest magnitude, as the kind of number says it; an absent place counts as zero and is made.
    AbsMax,
    /// The cell has zero; an absent place stays absent.
    Zero,
}

/// The cell of a vector that had `old`, after `new` came for it. It takes no memory.
pub fn vector_cell<S: Scalar>(old: S, new: S, mode: Mode) -> S
    ensures cell { Some result ≡ after_one S.semiring mode true (Some old) (Some new) }
{
    match mode {
        Mode::Insert | Mode::Replace => new,
        Mode::Add => old.add(new),
        Mode::AbsMax => old.top(new),
        Mode::Zero => S::zero(),
    }
}

/// The place of a matrix that had `old`, or was absent, after `new` came for it; `None` where it is absent then. It takes
/// no memory.
pub fn place<S: Scalar>(old: Option<S>, new: S, mode: Mode) -> Option<S>
    ensures place { result ≡ after_one S.semiring mode false old (Some new) }
{
    match old {
        Some(cell) if mode != Mode::Insert => Some(vector_cell(cell, new, mode)),
        Some(cell) => Some(cell),
        None => absent(new, mode),
    }
}

/// A place that was absent.
fn absent<S: Scalar>(new: S, mode: Mode) -> Option<S>
    ensures place { result ≡ after_one S.semiring mode false None (Some new) }
{
    match mode {
        Mode::Insert | Mode::Add => Some(new),
        Mode::AbsMax => Some(S::zero().top(new)),
        Mode::Replace | Mode::Zero => None,
    }
}
