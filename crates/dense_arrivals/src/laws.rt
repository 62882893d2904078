//! Laws of vectors on their way, each the contract of a function that does nothing.
ghost use Rattle.dense_arrivals.specs.DenseLetters.{CellsAreContent, CellsAreData, CellsAreFull, CellsAreTables, CellsComeInRows};
ghost use Rattle.dense_arrivals.specs.DenseBegun.{CellsAreBegun, ServingPlansCanBegin};
ghost use Rattle.dense_arrivals.specs.Applies.{AppliesAreOntoNoughts, AppliesHaveTransfers, CopiesAreApplied, CopiesOfX, SumsAreApplied, SumsOfOwn};

use scalar_laws::Scalar;

/// Where the numbers of a vector or of parts are sent, the letters that are packed of its rows are the job's, and what a wire gives for
/// them are letters of these rows, whose table is the one that the rank of the job combines.
pub fn cells_serve_jobs<S: Scalar>()
    ensures full { CellsAreFull }
    ensures data { CellsAreData }
    ensures content { CellsAreContent S.semiring S.conversions }
    ensures rows { CellsComeInRows S.semiring S.conversions }
    ensures tables { CellsAreTables S.semiring S.conversions }
{}

/// What is begun of a vector that agrees with the rank's entries is what the rank of the job gathers first.
pub fn cells_are_begun<S: Scalar>()
    ensures plans { ServingPlansCanBegin }
    ensures begun { CellsAreBegun S.semiring S.conversions }
{}

/// An apply at one rank: its transfers, what it has for others, onto what it gathers what comes, and what it makes of it.
pub fn applies_are_made<S: Scalar>()
    ensures transfers { AppliesHaveTransfers }
    ensures copies { CopiesOfX S.semiring S.conversions }
    ensures sums { SumsOfOwn S.semiring S.conversions }
    ensures onto { AppliesAreOntoNoughts S.semiring S.conversions }
    ensures copies_applied { CopiesAreApplied S.semiring S.conversions }
    ensures sums_applied { SumsAreApplied S.semiring S.conversions }
{}
