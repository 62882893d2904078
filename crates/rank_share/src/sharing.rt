//! The share of a rank, value by value.
ghost use Rattle.std.specs.Prelude.{◌≡◌, ◌<◌, [], length, map, IfOk, OnOk};
ghost use Rattle.mm_text.specs.Reading.{file_of};
ghost use Rattle.tables.specs.Indices.{count_from};
ghost use Rattle.model_defs.specs.Fitting.{IsFitting};
ghost use Rattle.model_defs.specs.Given.{value_file};
ghost use Rattle.model_defs.specs.Valid.{IsValid};
ghost use Rattle.rank_share.specs.Conditions.{files_before};
ghost use Rattle.rank_share.specs.Shares.{share, value_lines, place_lines, cell_count};

use crate::Share;
use crate::files::count_of;
use crate::places::dealt_places;
use crate::values::{parts_lines, vector_lines};
use model_defs::{FileData, Job, Line, ListOf};
use std::alloc::{AllocError, Global};

/// Adds the rank's cells of each vector, and answers how many files the vectors have. `Err` means that memory ran out.
fn add_vectors(
    alloc: Global,
    job: &Job,
    files: &[FileData],
    me: u32,
    cells: &mut Vec<ListOf<Line>>,
) -> Result<usize, AllocError>
    requires valid { IsValid job.now }
    requires fitting { IsFitting job.now (map file_of files.now) }
    requires rank { me < job.now.ranks }
    requires first { cells.old.items ≡ [] }
    ensures cells { OnOk result (cells.new.items ≡ map (value_lines job.now (map file_of files.now) me) (count_from 0 (length job.now.vectors))) }
    ensures files { IfOk result (λ at. at ≡ files_before job.now (length job.now.vectors)) }
{
    let mut at = 0;
    for spec in job.vectors.as_slice() {
        cells.push(vector_lines(alloc, job, spec, files, at, me)?)?;
        at += count_of(&spec.from);
    }
    Ok(at)
}

/// Adds the rank's cells of each parts, after those of the vectors, whose files end at `first`. Answers where the files of
/// the parts end. `Err` means that memory ran out.
fn add_parts(
    alloc: Global,
    job: &Job,
    files: &[FileData],
    me: u32,
    first: usize,
    cells: &mut Vec<ListOf<Line>>,
) -> Result<usize, AllocError>
    requires valid { IsValid job.now }
    requires fitting { IsFitting job.now (map file_of files.now) }
    requires rank { me < job.now.ranks }
    requires vectors { cells.old.items ≡ map (value_lines job.now (map file_of files.now) me) (count_from 0 (length job.now.vectors)) }
    requires first { first ≡ files_before job.now (length job.now.vectors) }
    ensures cells { OnOk result (cells.new.items ≡ map (value_lines job.now (map file_of files.now) me) (count_from 0 (cell_count job.now))) }
    ensures files { IfOk result (λ at. at ≡ files_before job.now (cell_count job.now)) }
{
    let mut at = first;
    for spec in job.parts.as_slice() {
        cells.push(parts_lines(alloc, job, spec, files, at, me)?)?;
        at += count_of(&spec.from);
    }
    Ok(at)
}

/// The places of each matrix, whose files come from `first` on, that are dealt to the rank. `Err` means that memory ran
/// out.
fn matrix_places(
    alloc: Global,
    job: &Job,
    files: &[FileData],
    me: u32,
    first: usize,
) -> Result<Vec<ListOf<Line>>, AllocError>
    requires valid { IsValid job.now }
    requires fitting { IsFitting job.now (map file_of files.now) }
    requires rank { me < job.now.ranks }
    requires first { first ≡ files_before job.now (cell_count job.now) }
    ensures places { let files = map file_of files.now in
        IfOk result (λ places. places.items ≡ map (λ k. place_lines job.now.ranks me (value_file job.now files k 0)) (count_from (cell_count job.now) (length job.now.matrices))) }
{
    let mut places = Vec::new(alloc);
    for m in 0..job.matrices.as_slice().len() {
        let lines = dealt_places(alloc, job.ranks, me, &files[first + m])?;
        places.push(ListOf::new(lines))?;
    }
    Ok(places)
}

/// What rank `me` is given of the files of a job, and nothing else: its cells of the vectors and the parts, and the places
/// of the matrices' entries that are dealt to it.
///
/// The job is valid, the files are those that it names, in the order of its values, with the sizes that it states, and `me`
/// is one of its ranks. Rows and columns are global indices, counted from 0. `Err` means that memory ran out. Job and files
/// stay as they are. Beyond the share and the files nothing is kept that grows with the size of a uniform, blocks or cyclic
/// map.
pub fn share_of(alloc: Global, job: &Job, files: &[FileData], me: u32) -> Result<Share, AllocError>
    requires valid { IsValid job.now }
    requires fitting { IsFitting job.now (map file_of files.now) }
    requires rank { me < job.now.ranks }
    ensures share { IfOk result (λ s. s ≡ share job.now (map file_of files.now) me) }
{
    let mut cells = Vec::new(alloc);
    let parts = add_vectors(alloc, job, files, me, &mut cells)?;
    let matrices = add_parts(alloc, job, files, me, parts, &mut cells)?;
    let places = matrix_places(alloc, job, files, me, matrices)?;
    Ok(Share {
        cells: ListOf::new(cells),
        places: ListOf::new(places),
    })
}
