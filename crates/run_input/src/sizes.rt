//! The sizes of the files of a job's given values.
ghost use Rattle.std.specs.Prelude.{◌≡◌, ◌<◌, ◌+◌, [], IfOk, length, map};
ghost use Rattle.mm_text.specs.Reading.{file_of};
ghost use Rattle.model_defs.specs.Fitting.{file_total, first_unfit};
ghost use Rattle.model_defs.specs.Makers.{maker_name, maker_of};
ghost use Rattle.model_defs.specs.Valid.{IsValid};
ghost use Rattle.run_input.specs.Answering.{Answers};
ghost use Rattle.run_input.specs.Walk.{sizes_compared};

use crate::{FileName, InputFault, TextFault};
use job_fit::{FitFault, fit};
use mm_text::FileData;
use model_defs::{Job, Text};
use std::alloc::{AllocError, Global};

/// A copy of the name of a given value.
fn value_name(alloc: Global, job: &Job, value: u32) -> Result<Text, AllocError>
    requires { value < length job.now.vectors + length job.now.parts + length job.now.matrices }
    ensures { IfOk result (λ name. name ≡ maker_name (maker_of job.now value)) }
{
    let vectors = job.vectors.as_slice();
    let parts = job.parts.as_slice();
    let k = value as usize;
    if k < vectors.len() {
        return Text::new(alloc, vectors[k].name.as_str());
    }
    let m = k - vectors.len();
    if m < parts.len() {
        return Text::new(alloc, parts[m].name.as_str());
    }
    Text::new(
        alloc,
        job.matrices.as_slice()[m - parts.len()].name.as_str(),
    )
}

/// The number of the value that a fault names.
fn value_of(fault: FitFault) -> u32
    ensures { fault ≡ FitFault.SizeMismatch result }
{
    match fault {
        FitFault::SizeMismatch { value } => value,
    }
}

/// Compares the sizes of the files with those that the job of this name states.
pub(crate) fn compare<'a>(
    alloc: Global,
    name: &'a str,
    job: &Job,
    files: &[FileData],
) -> Result<(), InputFault<'a>>
    requires valid { IsValid job.now }
    requires count { length files.now ≡ file_total job.now }
    ensures { Answers (λ fits. fits) [] (sizes_compared name.now job.now (first_unfit job.now (map file_of files.now))) result }
{
    match fit(job, files) {
        Ok(()) => Ok(()),
        Err(fault) => match value_name(alloc, job, value_of(fault)) {
            Ok(value) => Err(InputFault::Refused {
                name: FileName::Word(name),
                fault: TextFault::SizeMismatch { value },
            }),
            Err(_) => Err(InputFault::Memory),
        },
    }
}
