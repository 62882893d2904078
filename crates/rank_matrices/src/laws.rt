//! The laws of the lines of matrices. Each function has an empty body: what it proves is its contract.
ghost use Rattle.rank_matrices.specs.Laws.{DealtLinesAreParts, DealtLinesNameRows, DealtLinesNameRankRows};

/// Of a valid job with files that fit, the lines of a given matrix that are dealt to a rank have the matrix of the entries
/// that are dealt to it as their table, and name the rows of that matrix, which are the rank's rows in the row plan of the
/// matrix. So a fill of these lines is the rank's part as the definitions have it.
pub fn dealt_lines_are_parts<S>()
    ensures table { DealtLinesAreParts S }
    ensures rows { DealtLinesNameRows }
    ensures rank_rows { DealtLinesNameRankRows }
{}
