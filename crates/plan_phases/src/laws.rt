//! Laws of a rank's book. Each function has an empty body: what it proves is its contract.
ghost use Rattle.plan_phases.specs.Laws.{BooksBegin, BooksPassNumbers, BooksStay, ColumnMapsAreLists, RowsAreLists};

use scalar_laws::Scalar;

/// A book without maps and plans is that of a rank that entered no phase.
pub fn books_begin<S: Scalar>()
    ensures { BooksBegin S.semiring S.conversions }
{}

/// A book stays as it is in a phase that sends numbers, and at the end.
pub fn books_pass_numbers<S: Scalar>()
    ensures entered { BooksPassNumbers S.semiring S.conversions }
    ensures absorbed { BooksStay S.semiring S.conversions }
{}

/// The column map of a matrix and the rows of a rank's part are lists of the plans of its structure.
pub fn structures_are_lists()
    ensures columns { ColumnMapsAreLists }
    ensures rows { RowsAreLists }
{}
