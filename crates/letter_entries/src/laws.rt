//! The law of the entries of letters, the contract of a function that does nothing.
ghost use Rattle.letter_entries.specs.Laws.{LettersHaveJobEntries};

use scalar_laws::Scalar;

/// Each letter that a rank of a job makes has the form of its kind, and as many entries as the job says: words in phases that make
/// plans, and rows in those that send numbers.
pub fn letters_have_job_entries<S: Scalar>()
    ensures { LettersHaveJobEntries S.semiring S.conversions }
{}
