//! The law of files whose sizes were compared.
ghost use Rattle.job_fit.specs.Laws.{ReadFilesFit};

/// Files that were read for a job, and have the sizes that it states, fit it.
pub fn read_files_fit()
    ensures { ReadFilesFit }
{}
