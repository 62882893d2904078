//! What is proved of the job and of its files. The function does nothing.
ghost use Rattle.std.specs.Prelude.{◌≤◌};
ghost use Rattle.model_defs.specs.Fitting.{IsFitting};
ghost use Rattle.model_defs.specs.Valid.{IsValid};
ghost use Rattle.generated_job.specs.Generated.{generated_files, generated_job, most_generated};

/// The job of each size from 1 to 1,000,000 is valid, and its files fit it.
pub fn generated_jobs_are_valid(size: u32)
    requires some { 1 ≤ size }
    requires few { size ≤ most_generated }
    ensures valid { IsValid (generated_job size) }
    ensures fitting { IsFitting (generated_job size) (generated_files size) }
{}
