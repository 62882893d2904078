//! The lines of one given value.
ghost use Rattle.std.specs.Prelude.{◌≡◌, ◌+◌, ◌<◌, length, map, IfOk};
ghost use Rattle.mm_text.specs.Reading.{file_of};
ghost use Rattle.model_defs.specs.Fitting.{expected_file};
ghost use Rattle.model_defs.specs.Makers.{GivenVector, GivenParts};
ghost use Rattle.model_defs.specs.Maps.{list_of};
ghost use Rattle.model_defs.specs.Valid.{IsValid};
ghost use Rattle.rank_share.specs.Conditions.{HasFile, file_at};
ghost use Rattle.rank_share.specs.Shares.{origin_lines, place_in};

use crate::cells::{array_cells, coordinate_cells, fill_cells, part_cells};
use crate::own_maps::own_map;
use model_defs::{FileData, Job, Line, ListOf, Origin, PartsSpec, VectorSpec};
use std::alloc::{AllocError, Global};

/// The most indices of a map whose vectors are read from array files: 2^24. On a larger map they are read from coordinate
/// files.
const MOST_INDICES: u64 = 16777216;

/// The cells of a vector that the rank has. `at` is the place of its file. `Err` means that memory ran out.
pub(crate) fn vector_lines(
    alloc: Global,
    job: &Job,
    spec: &VectorSpec,
    files: &[FileData],
    at: usize,
    me: u32,
) -> Result<ListOf<Line>, AllocError>
    requires valid { IsValid job.now }
    requires known { spec.now.map < length job.now.maps }
    requires file { HasFile (expected_file job.now (GivenVector spec.now) 0) (map file_of files.now) at spec.now.from }
    requires rank { me < job.now.ranks }
    ensures lines { IfOk result (λ lines. lines ≡ origin_lines (λ g. g) (list_of job.now spec.now.map me) spec.now.columns spec.now.from (file_at (map file_of files.now) at)) }
{
    let map = own_map(alloc, job, spec.map, me)?;
    let lines = match &spec.from {
        Origin::Fill(value) => fill_cells(alloc, &map, spec.columns, *value as i128)?,
        Origin::Files(_) => {
            let file = &files[at];
            if file.rows <= MOST_INDICES {
                array_cells(alloc, &map, spec.columns, file)?
            } else {
                coordinate_cells(alloc, &map, spec.columns, file)?
            }
        }
    };
    Ok(ListOf::new(lines))
}

/// The cells of parts that the rank has. `first` is the place of the file of the first part. `Err` means that memory ran
/// out.
pub(crate) fn parts_lines(
    alloc: Global,
    job: &Job,
    spec: &PartsSpec,
    files: &[FileData],
    first: usize,
    me: u32,
) -> Result<ListOf<Line>, AllocError>
    requires valid { IsValid job.now }
    requires known { spec.now.map < length job.now.maps }
    requires file { HasFile (expected_file job.now (GivenParts spec.now) me) (map file_of files.now) (first + me) spec.now.from }
    requires rank { me < job.now.ranks }
    ensures lines { let list = list_of job.now spec.now.map me in
        IfOk result (λ lines. lines ≡ origin_lines (place_in list) list spec.now.columns spec.now.from (file_at (map file_of files.now) (first + me))) }
{
    let map = own_map(alloc, job, spec.map, me)?;
    let lines = match &spec.from {
        Origin::Fill(value) => fill_cells(alloc, &map, spec.columns, *value as i128)?,
        Origin::Files(_) => { part_cells(alloc, &map, spec.columns, &files[first + me as usize])? },
    };
    Ok(ListOf::new(lines))
}
