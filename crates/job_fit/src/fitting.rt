//! The first value whose files do not fit.
ghost use Rattle.std.specs.Prelude.{◌≡◌, ◌+◌, ℕ, IfOk, IsErrOf, None, OnOk, Some, length, map};
ghost use Rattle.mm_text.specs.Reading.{file_of};
ghost use Rattle.model_defs.specs.Fitting.{file_total, first_unfit};
ghost use Rattle.model_defs.specs.Valid.{IsValid};
ghost use Rattle.job_fit.specs.Walk.{files_before, unfit_from};
ghost use Rattle.job_fit.specs.declared.fault.FitFault.TheVariants.{SizeMismatch};

use crate::FitFault;
use crate::counts::count_of;
use crate::values::{each_part_fits, matrix_fits, vector_fits};
use model_defs::{FileData, Job};

/// Compares the files of the vectors, and answers how many they are.
fn fit_vectors(job: &Job, files: &[FileData]) -> Result<usize, FitFault>
    requires valid { IsValid job.now }
    requires count { length files.now ≡ file_total job.now }
    ensures files { IfOk result (λ at. at ≡ files_before job.now (length job.now.vectors)) }
    ensures fits { let files = map file_of files.now in
        OnOk result (first_unfit job.now files ≡ unfit_from job.now files (length job.now.vectors)) }
    ensures misfits { (value : ℕ) → IsErrOf result (SizeMismatch value) → first_unfit job.now (map file_of files.now) ≡ Some value }
{
    let mut at = 0;
    for (k, spec) in job.vectors.as_slice().iter().enumerate() {
        if !vector_fits(job, spec, files, at) {
            return Err(FitFault::SizeMismatch { value: k as u32 });
        }
        at += count_of(&spec.from);
    }
    Ok(at)
}

/// Compares the files of the parts, after those of the vectors, of which there are `first`. Answers where they end.
fn fit_parts(job: &Job, files: &[FileData], first: usize) -> Result<usize, FitFault>
    requires valid { IsValid job.now }
    requires count { length files.now ≡ file_total job.now }
    requires first { first ≡ files_before job.now (length job.now.vectors) }
    requires vectors { let files = map file_of files.now in
        first_unfit job.now files ≡ unfit_from job.now files (length job.now.vectors) }
    ensures files { IfOk result (λ at. at ≡ files_before job.now (length job.now.vectors + length job.now.parts)) }
    ensures fits { let files = map file_of files.now in
        OnOk result (first_unfit job.now files ≡ unfit_from job.now files (length job.now.vectors + length job.now.parts)) }
    ensures misfits { (value : ℕ) → IsErrOf result (SizeMismatch value) → first_unfit job.now (map file_of files.now) ≡ Some value }
{
    let vectors = job.vectors.as_slice().len();
    let mut at = first;
    for (m, spec) in job.parts.as_slice().iter().enumerate() {
        if !each_part_fits(job, spec, files, at) {
            return Err(FitFault::SizeMismatch {
                value: (vectors + m) as u32,
            });
        }
        at += count_of(&spec.from);
    }
    Ok(at)
}

/// Compares the files of the matrices, after those of the vectors and the parts, of which there are `first`.
fn fit_matrices(job: &Job, files: &[FileData], first: usize) -> Result<(), FitFault>
    requires valid { IsValid job.now }
    requires count { length files.now ≡ file_total job.now }
    requires first { first ≡ files_before job.now (length job.now.vectors + length job.now.parts) }
    requires parts { let files = map file_of files.now in
        first_unfit job.now files ≡ unfit_from job.now files (length job.now.vectors + length job.now.parts) }
    ensures fits { OnOk result (first_unfit job.now (map file_of files.now) ≡ None) }
    ensures misfits { (value : ℕ) → IsErrOf result (SizeMismatch value) → first_unfit job.now (map file_of files.now) ≡ Some value }
{
    let given = job.vectors.as_slice().len() + job.parts.as_slice().len();
    for (m, spec) in job.matrices.as_slice().iter().enumerate() {
        if !matrix_fits(job, spec, files, first + m) {
            return Err(FitFault::SizeMismatch {
                value: (given + m) as u32,
            });
        }
    }
    Ok(())
}

/// Compares the sizes of a job's files with those that it states.
///
/// The job is valid, and `files` are as many as it names, in the order of its values: those of the vectors, of the parts
/// with the ranks ascending, and of the matrices. The file of a vector has a row for each index below the size of its map,
/// that of a part one for each index of the rank's list, and both have the columns of the value; the file of a matrix has
/// the sizes of its row map and its domain map.
///
/// `SizeMismatch` comes exactly where the given value of this number, counted from 0 in the order vectors, parts, matrices,
/// is the first one of which a file has other sizes than the job states. Job and files stay as they are, and no memory is
/// taken.
pub fn fit(job: &Job, files: &[FileData]) -> Result<(), FitFault>
    requires valid { IsValid job.now }
    requires count { length files.now ≡ file_total job.now }
    ensures fits { OnOk result (first_unfit job.now (map file_of files.now) ≡ None) }
    ensures misfits { (value : ℕ) → IsErrOf result (SizeMismatch value) → first_unfit job.now (map file_of files.now) ≡ Some value }
{
    match fit_vectors(job, files) {
        Ok(parts) => match fit_parts(job, files, parts) {
            Ok(matrices) => fit_matrices(job, files, matrices),
            Err(fault) => Err(fault),
        },
        Err(fault) => Err(fault),
    }
}
