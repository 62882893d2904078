//! The laws of the jobs that are read. Each function has an empty body: what it proves is its contract.
ghost use Rattle.job_validity.specs.Laws.{ReadJobsAreValid};

/// A job that a text gives is valid.
pub fn read_jobs_are_valid()
    ensures valid { ReadJobsAreValid }
{}
