//! The lines of a rank's cells.
ghost use Rattle.std.specs.Prelude.{◌≡◌, ◌<◌, ◌++◌, ℕ, [], true, All, length, filter, IfOk, OnOk};
ghost use Rattle.tables.specs.Indices.{stands};
ghost use Rattle.mm_text.specs.Reading.{file_of};
ghost use Rattle.mm_text.specs.Sound.{IsDense};
ghost use Rattle.rank_share.specs.Ascending.{ascending};
ghost use Rattle.rank_share.specs.CellLines.{at_index, index_lines, cell_lines, filled_index, filled_lines};
ghost use Rattle.rank_share.specs.Shares.{place_in};

use crate::indices::ascending_indices;
use map_core::{Gid, LocalMap};
use model_defs::{FileData, Line};
use std::alloc::{AllocError, Global};

/// No lines yet, with room for one in each column of so many indices. `Err` means that memory ran out.
fn room_for(alloc: Global, indices: usize, columns: u32) -> Result<Vec<Line>, AllocError>
    ensures empty { IfOk result (λ lines. lines.items ≡ []) }
{
    Vec::with_capacity(alloc, indices.saturating_mul(columns as usize))
}

/// Adds a line with this number for each column of an index. `Err` means that memory ran out.
fn fill_index(lines: &mut Vec<Line>, gid: Gid, columns: u32, value: i128) -> Result<(), AllocError>
    ensures lines { OnOk result (lines.new.items ≡ lines.old.items ++ filled_index value columns gid) }
{
    for col in 0..columns {
        lines.push(Line {
            row: gid,
            col: col as u64,
            value,
        })?;
    }
    Ok(())
}

/// A line with this number for each cell of the map. `Err` means that memory ran out.
pub(crate) fn fill_cells(
    alloc: Global,
    map: &LocalMap,
    columns: u32,
    value: i128,
) -> Result<Vec<Line>, AllocError>
    ensures lines { IfOk result (λ lines. lines.items ≡ filled_lines map.now columns value) }
{
    let gids = ascending_indices(alloc, map)?;
    let mut lines = room_for(alloc, gids.len(), columns)?;
    for gid in &gids {
        fill_index(&mut lines, *gid, columns, value)?;
    }
    Ok(lines)
}

/// The entry as a line of an index.
fn at_index(gid: Gid, entry: &Line) -> Line
    ensures line { result ≡ at_index gid entry.now }
{
    Line {
        row: gid,
        col: entry.col,
        value: entry.value,
    }
}

/// Adds for each column of the index `gid` the entry of an array file in this row of the file. `Err` means that memory ran
/// out.
fn take_index(
    lines: &mut Vec<Line>,
    gid: Gid,
    row: u64,
    columns: u32,
    file: &FileData,
) -> Result<(), AllocError>
    requires dense { IsDense (file_of file.now) }
    requires row { row < file.now.rows }
    requires columns { columns ≡ file.now.cols }
    ensures lines { OnOk result (lines.new.items ≡ lines.old.items ++ index_lines file.now.lines.items columns gid row) }
{
    for col in 0..columns {
        let at = col as usize * file.rows as usize + row as usize;
        lines.push(at_index(gid, &file.lines[at]))?;
    }
    Ok(())
}

/// The cells of the map from an array file that has a row for each global index. `Err` means that memory ran out.
pub(crate) fn array_cells(
    alloc: Global,
    map: &LocalMap,
    columns: u32,
    file: &FileData,
) -> Result<Vec<Line>, AllocError>
    requires dense { IsDense (file_of file.now) }
    requires rows { (g : ℕ) → stands g map.now ≡ true → g < file.now.rows }
    requires columns { columns ≡ file.now.cols }
    ensures lines { IfOk result (λ lines. lines.items ≡ cell_lines (λ g. g) map.now columns file.now.lines.items) }
{
    let gids = ascending_indices(alloc, map)?;
    let mut lines = room_for(alloc, gids.len(), columns)?;
    for gid in &gids {
        take_index(&mut lines, *gid, *gid, columns, file)?;
    }
    Ok(lines)
}

/// The cells of the map from an array file that has a row for each place of the map's list. `Err` means that memory ran
/// out.
pub(crate) fn part_cells(
    alloc: Global,
    map: &LocalMap,
    columns: u32,
    file: &FileData,
) -> Result<Vec<Line>, AllocError>
    requires dense { IsDense (file_of file.now) }
    requires rows { file.now.rows ≡ length map.now }
    requires columns { columns ≡ file.now.cols }
    ensures lines { IfOk result (λ lines. lines.items ≡ cell_lines (place_in map.now) map.now columns file.now.lines.items) }
{
    let gids = ascending_indices(alloc, map)?;
    let mut lines = room_for(alloc, gids.len(), columns)?;
    for gid in &gids {
        match map.local_of(*gid) {
            Some(lid) => take_index(&mut lines, *gid, lid as u64, columns, file)?,
            None => unreachable!(),
        }
    }
    Ok(lines)
}

/// The entries whose rows the map has, in file order. `Err` means that memory ran out.
fn kept_entries(alloc: Global, map: &LocalMap, entries: &[Line]) -> Result<Vec<Line>, AllocError>
    ensures kept { IfOk result (λ lines. lines.items ≡ filter (λ l. stands l.row map.now) entries.now) }
{
    let mut lines = Vec::new(alloc);
    for entry in entries {
        if map.local_of(entry.row).is_some() {
            lines.push(*entry)?;
        }
    }
    Ok(lines)
}

/// The cells of the map from a coordinate file, which has no entry beyond so many columns. `Err` means that memory ran
/// out.
pub(crate) fn coordinate_cells(
    alloc: Global,
    map: &LocalMap,
    columns: u32,
    file: &FileData,
) -> Result<Vec<Line>, AllocError>
    requires within { All (λ l. l.col < columns) file.now.lines.items }
    ensures lines { IfOk result (λ lines. lines.items ≡ cell_lines (λ g. g) map.now columns file.now.lines.items) }
{
    let _ = map.len();
    let mut lines = kept_entries(alloc, map, &file.lines)?;
    lines.sort_by_key(|line| (line.row, line.col))?;
    Ok(lines)
}
