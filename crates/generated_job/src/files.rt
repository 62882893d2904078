//! The files of its given values.
ghost use Rattle.std.specs.Prelude.{◌≡◌, ◌<◌, ◌≤◌, ◌++◌, map, IfOk, OnOk};
ghost use Rattle.std.specs.List.{flat_map};
ghost use Rattle.tables.specs.Indices.{count_from};
ghost use Rattle.mm_text.specs.Reading.{file_of};
ghost use Rattle.generated_job.specs.Generated.{beside_lines, generated_files, matrix_file, matrix_lines, most_generated, vector_file, vector_line};

use mm_text::{FileData, Line, Mirror};
use std::alloc::{AllocError, Global};

/// The entry of `x0` at an index.
fn vector_line(index: u32) -> Line
    requires few { index < most_generated }
    ensures line { result ≡ vector_line index }
{
    Line {
        row: u64::from(index),
        col: 0,
        value: i128::from(index + 1),
    }
}

/// The entries of `x0`. `Err` means that memory ran out.
fn vector_lines(alloc: Global, size: u32) -> Result<Vec<Line>, AllocError>
    requires few { size ≤ most_generated }
    ensures lines { IfOk result (λ lines. lines.items ≡ map vector_line (count_from 0 size)) }
{
    let mut lines = Vec::new(alloc);
    for index in 0..size {
        lines.push(vector_line(index))?;
    }
    Ok(lines)
}

/// Adds the two entries of `A` between an index and the next one. `Err` means that memory ran out.
fn add_beside(lines: &mut Vec<Line>, index: u32) -> Result<(), AllocError>
    requires few { index < most_generated }
    ensures lines { OnOk result (lines.new.items ≡ lines.old.items ++ beside_lines index) }
{
    let here = u64::from(index);
    let next = u64::from(index + 1);
    lines.push(Line {
        row: here,
        col: next,
        value: -1,
    })?;
    lines.push(Line {
        row: next,
        col: here,
        value: -1,
    })?;
    Ok(())
}

/// Adds the entry of `A` on the diagonal at an index, and those between it and the next index, if there is one. `Err` means
/// that memory ran out.
fn add_index(lines: &mut Vec<Line>, size: u32, index: u32) -> Result<(), AllocError>
    requires few { size ≤ most_generated }
    requires index { index < size }
    ensures lines { OnOk result (lines.new.items ≡ lines.old.items ++ matrix_lines size index) }
{
    lines.push(Line {
        row: u64::from(index),
        col: u64::from(index),
        value: 2,
    })?;
    if index + 1 < size {
        add_beside(lines, index)?;
    }
    Ok(())
}

/// The entries of `A`. `Err` means that memory ran out.
fn matrix_lines(alloc: Global, size: u32) -> Result<Vec<Line>, AllocError>
    requires few { size ≤ most_generated }
    ensures lines { IfOk result (λ lines. lines.items ≡ flat_map (matrix_lines size) (count_from 0 size)) }
{
    let mut lines = Vec::new(alloc);
    for index in 0..size {
        add_index(&mut lines, size, index)?;
    }
    Ok(lines)
}

/// The file of `x0`. `Err` means that memory ran out.
fn vector_file(alloc: Global, size: u32) -> Result<FileData, AllocError>
    requires few { size ≤ most_generated }
    ensures file { IfOk result (λ file. file_of file ≡ vector_file size) }
{
    Ok(FileData {
        rows: u64::from(size),
        cols: 1,
        mirror: Mirror::Plain,
        lines: vector_lines(alloc, size)?,
    })
}

/// The file of `A`. `Err` means that memory ran out.
fn matrix_file(alloc: Global, size: u32) -> Result<FileData, AllocError>
    requires few { size ≤ most_generated }
    ensures file { IfOk result (λ file. file_of file ≡ matrix_file size) }
{
    Ok(FileData {
        rows: u64::from(size),
        cols: u64::from(size),
        mirror: Mirror::Plain,
        lines: matrix_lines(alloc, size)?,
    })
}

/// The files of `x0` and of `A`, as if they had been read: an array of `size` rows and one column, and a coordinate file of
/// `size` rows and columns. Rows and columns count from 0. The size is at most 1,000,000. `Err` means that memory ran out.
pub fn generated_files(alloc: Global, size: u32) -> Result<Vec<FileData>, AllocError>
    requires few { size ≤ most_generated }
    ensures files { IfOk result (λ files. map file_of files.items ≡ generated_files size) }
{
    let mut files = Vec::new(alloc);
    files.push(vector_file(alloc, size)?)?;
    files.push(matrix_file(alloc, size)?)?;
    Ok(files)
}
