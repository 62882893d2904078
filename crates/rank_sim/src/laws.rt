//! What holds of every run, for every kind of number. Each function has an empty body: what it proves is its contract.
ghost use Rattle.rank_sim.specs.Laws.{CompleteRunsShowEval, GatheredSheetsAreWritable, LocalOrdersEnd, LocalRunsHaveNoLetters, LocalRunsShowEval, SheetsAreWritable};

use scalar_laws::Scalar;

/// Over an honest wire, in whatever order the letters are delivered and however often, a complete run shows the values of
/// the job on the global data: the sheets that it answers are those of these values, and it answers `Over` exactly where a
/// cell of one of them is over.
pub fn complete_runs_show_eval<S: Scalar>()
    ensures { CompleteRunsShowEval S.semiring S.conversions }
{}

/// A job without matrices whose statements go cell by cell, or print, has no letters: a list that names one is wrong in its
/// first line, and any other order is complete. Over any wire such a job shows its values on the global data.
pub fn local_runs_show_eval<S: Scalar>()
    ensures ending { LocalOrdersEnd S.semiring S.conversions }
    ensures letters { LocalRunsHaveNoLetters S.semiring S.conversions }
    ensures values { LocalRunsShowEval S.semiring S.conversions }
{}

/// Each sheet of a valid job whose files fit can be written: of the values on the global data, whatever is picked, and of those
/// that the ranks have once all letters came, whatever numbers a wire gave in these.
pub fn sheets_are_writable<S: Scalar>()
    ensures values { SheetsAreWritable S.semiring S.conversions }
    ensures gathered { GatheredSheetsAreWritable S.semiring S.conversions }
{}
