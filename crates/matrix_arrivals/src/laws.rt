//! Laws over transfers of rows, each the contract of a function that does nothing.
ghost use Rattle.matrix_arrivals.specs.Bounds.{MatricesAreNarrow, RowWordsAreFew, SentRowsAreFew};
ghost use Rattle.matrix_arrivals.specs.RowLetters.{LettersAreRows, LettersAreTables, RowsAreContent};
ghost use Rattle.matrix_arrivals.specs.RowPlans.{FromOwnersServe, ImportsAreFromOwners, JobListsAreListed, ToOwnersServe};
ghost use Rattle.matrix_arrivals.specs.RowsBegun.{AssembledRowsAreCombined, OwnRowsAreBrought, PlainRowsAreAdded, RowsAreBegun};

use scalar_laws::Scalar;

/// Of a valid job: a plan with the lists of a transfer from the owners is one that a matrix can be begun by, the rows that it
/// sends, those that come and those that stay are the rows of the job's transfer; and in reverse it is so of the transfer to
/// the owners. The lists of maps, of the columns of a rank's places and of the rows that were dealt to it are such lists.
pub fn plans_serve_jobs()
    ensures from_owners { FromOwnersServe }
    ensures to_owners { ToOwnersServe }
    ensures lists { JobListsAreListed }
    ensures imports { ImportsAreFromOwners }
{}

/// The letters of rows that are packed are the job's, and what a wire gives for them are letters of these rows, whose table is
/// the one that the rank of the job combines.
pub fn letters_serve_jobs<S: Scalar>()
    ensures content { RowsAreContent S.semiring S.conversions }
    ensures rows { LettersAreRows S.semiring S.conversions }
    ensures tables { LettersAreTables S.semiring S.conversions }
{}

/// What a matrix is begun with, onto whatever its statement says, is what the rank of the job gathers first. It is onto no places,
/// to which rows are added; a matrix that is assembled is begun onto the rank's piece of another one, by the statement's mode.
pub fn rows_are_begun<S: Scalar>()
    ensures own { OwnRowsAreBrought S }
    ensures begun { RowsAreBegun S.semiring S.conversions }
    ensures plain { PlainRowsAreAdded S.semiring S.conversions }
    ensures assembled { AssembledRowsAreCombined S.semiring S.conversions }
{}

/// A valid job is small: a transfer sends at most 2^24 rows to a rank, a matrix has at most 2^24 columns, and so the words of its
/// letters have room.
pub fn rows_are_small()
    ensures sent { SentRowsAreFew }
    ensures narrow { MatricesAreNarrow }
    ensures words { RowWordsAreFew }
{}
