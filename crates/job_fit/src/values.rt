//! The files of one given value.
ghost use Rattle.std.specs.Prelude.{◌≡◌, ◌+◌, ◌<◌, ◌≤◌, ◌&&◌, ◌==◌, length, map};
ghost use Rattle.mm_text.specs.Reading.{file_of};
ghost use Rattle.model_defs.specs.Given.{origin_files};
ghost use Rattle.model_defs.specs.Makers.{GivenVector, GivenParts, GivenMatrix};
ghost use Rattle.model_defs.specs.Valid.{IsValid};
ghost use Rattle.job_fit.specs.Walk.{parts_fit};

use crate::counts::{count_of, index_count, size_of};
use model_defs::{FileData, Job, MatrixSpec, PartsSpec, VectorSpec};

/// Whether a file has these sizes.
fn has_sizes(file: &FileData, rows: u64, cols: u64) -> bool
    ensures { result ≡ ((file.now.rows == rows) && (file.now.cols == cols)) }
{
    file.rows == rows && file.cols == cols
}

/// Whether the files of a vector, which stand from `at` on, have a row for each index below the size of its map.
pub(crate) fn vector_fits(job: &Job, spec: &VectorSpec, files: &[FileData], at: usize) -> bool
    requires there { at + length (origin_files spec.now.from) ≤ length files.now }
    ensures { result ≡ parts_fit job.now (map file_of files.now) at (GivenVector spec.now) }
{
    let rows = size_of(job, spec.map);
    for part in 0..count_of(&spec.from) {
        if !has_sizes(&files[at + part], rows, u64::from(spec.columns)) {
            return false;
        }
    }
    true
}

/// Whether the files of parts, which stand from `at` on, have a row for each index of the rank's list.
pub(crate) fn each_part_fits(job: &Job, spec: &PartsSpec, files: &[FileData], at: usize) -> bool
    requires valid { IsValid job.now }
    requires known { spec.now.map < length job.now.maps }
    requires few { length (origin_files spec.now.from) ≤ job.now.ranks }
    requires there { at + length (origin_files spec.now.from) ≤ length files.now }
    ensures { result ≡ parts_fit job.now (map file_of files.now) at (GivenParts spec.now) }
{
    for part in 0..count_of(&spec.from) {
        let rows = index_count(job, spec.map, part as u32);
        if !has_sizes(&files[at + part], rows, u64::from(spec.columns)) {
            return false;
        }
    }
    true
}

/// Whether the file of a matrix, which stands at `at`, has the sizes of its row map and its domain map.
pub(crate) fn matrix_fits(job: &Job, spec: &MatrixSpec, files: &[FileData], at: usize) -> bool
    requires there { at < length files.now }
    ensures { result ≡ parts_fit job.now (map file_of files.now) at (GivenMatrix spec.now) }
{
    let rows = size_of(job, spec.rows);
    has_sizes(&files[at], rows, size_of(job, spec.domain))
}
