//! The files that a job wants.
ghost use Rattle.std.specs.Prelude.{◌≡◌, ◌≤◌, ◌++◌, IfOk, OnOk, map};
ghost use Rattle.std.specs.List.{flat_map};
ghost use Rattle.model_defs.specs.Given.{origin_files};
ghost use Rattle.model_defs.specs.Limits.{most_indices, most_size};
ghost use Rattle.model_defs.specs.Makers.{GivenMatrix, GivenParts, GivenVector};
ghost use Rattle.model_defs.specs.Maps.{size_of};
ghost use Rattle.job_files.specs.Wanted.{form_of, most_rows_of, seen, vector_kind, wanted, wanted_as, wanted_by};

use mm_text::Form;
use model_defs::{Job, MatrixSpec, Origin, PartsSpec, Text, VectorSpec};
use std::alloc::{AllocError, Global};

/// The most indices of a map whose vectors are read from array files, and the most rows of all files but those of larger
/// vectors: 2^24.
const MOST_INDICES: u64 = 16_777_216;

/// The most rows of the file of a vector on a large map: 2^40.
const MOST_SIZE: u64 = 1_099_511_627_776;

/// How a file is read.
#[derive(Clone, Copy, Debug, PartialEq, Eq)]
pub enum FileKind {
    /// An array file of at most 2^24 rows.
    Array,
    /// A coordinate file of at most 2^24 rows.
    Coordinate,
    /// A coordinate file of at most 2^40 rows: that of a vector on a large map.
    LargeCoordinate,
}

impl FileKind {
    /// The form of the file.
    pub fn form(self) -> Form
        ensures { result ≡ form_of self }
    {
        match self {
            FileKind::Array => Form::Array,
            FileKind::Coordinate => Form::Coordinate,
            FileKind::LargeCoordinate => Form::Coordinate,
        }
    }

    /// The most rows that the file may have.
    pub fn most_rows(self) -> u64
        ensures rows { result ≡ most_rows_of self }
        ensures most { result ≤ most_size }
        ensures array { form_of self ≡ Form.Array → result ≤ most_indices }
    {
        match self {
            FileKind::Array => MOST_INDICES,
            FileKind::Coordinate => MOST_INDICES,
            FileKind::LargeCoordinate => MOST_SIZE,
        }
    }
}

/// A file that is wanted.
#[derive(Clone, Copy)]
pub struct WantedFile<'a> {
    pub name: &'a str,
    pub kind: FileKind,
}

/// The size of a map of a job, and 0 where there is no such map.
fn size_of(job: &Job, map: u32) -> u64
    ensures { result ≡ size_of job.now map }
{
    match job.maps.as_slice().get(map as usize) {
        Some(map) => map.size,
        None => 0,
    }
}

/// Adds the files of these names.
fn push_names<'a>(
    wanted: &mut Vec<WantedFile<'a>>,
    origin: &'a Origin,
    kind: FileKind,
) -> Result<(), AllocError>
    ensures { OnOk result (seen wanted.new.items ≡ seen wanted.old.items ++ map (wanted_as kind) (origin_files origin.now)) }
{
    let Origin::Files(names) = origin else {
        return Ok(());
    };
    for name in names.as_slice() {
        wanted.push(WantedFile {
            name: name.as_str(),
            kind,
        })?;
    }
    Ok(())
}

/// The kind of the file of a vector on a map of this size.
fn vector_kind(size: u64) -> FileKind
    ensures { result ≡ vector_kind size }
{
    if size <= MOST_INDICES {
        FileKind::Array
    } else {
        FileKind::LargeCoordinate
    }
}

/// Adds the files of the vectors.
fn push_vectors<'a>(wanted: &mut Vec<WantedFile<'a>>, job: &'a Job) -> Result<(), AllocError>
    ensures { OnOk result (seen wanted.new.items ≡ seen wanted.old.items ++ flat_map (λ spec. wanted_by job.now (GivenVector spec)) job.now.vectors) }
{
    for spec in job.vectors.as_slice() {
        push_names(wanted, &spec.from, vector_kind(size_of(job, spec.map)))?;
    }
    Ok(())
}

/// Adds the files of the parts, the ranks ascending.
fn push_parts<'a>(wanted: &mut Vec<WantedFile<'a>>, job: &'a Job) -> Result<(), AllocError>
    ensures { OnOk result (seen wanted.new.items ≡ seen wanted.old.items ++ flat_map (λ spec. wanted_by job.now (GivenParts spec)) job.now.parts) }
{
    for spec in job.parts.as_slice() {
        push_names(wanted, &spec.from, FileKind::Array)?;
    }
    Ok(())
}

/// Adds the files of the matrices.
fn push_matrices<'a>(wanted: &mut Vec<WantedFile<'a>>, job: &'a Job) -> Result<(), AllocError>
    ensures { OnOk result (seen wanted.new.items ≡ seen wanted.old.items ++ flat_map (λ spec. wanted_by job.now (GivenMatrix spec)) job.now.matrices) }
{
    for spec in job.matrices.as_slice() {
        wanted.push(WantedFile {
            name: spec.file.as_str(),
            kind: FileKind::Coordinate,
        })?;
    }
    Ok(())
}

/// The files that a job wants, in the order in which they are read: those of the vectors, of the parts with the ranks
/// ascending, and of the matrices.
pub fn wanted_files<'a>(alloc: Global, job: &'a Job) -> Result<Vec<WantedFile<'a>>, AllocError>
    ensures { IfOk result (λ files. seen files.items ≡ wanted job.now) }
{
    let mut wanted = Vec::new(alloc);
    push_vectors(&mut wanted, job)?;
    push_parts(&mut wanted, job)?;
    push_matrices(&mut wanted, job)?;
    Ok(wanted)
}
