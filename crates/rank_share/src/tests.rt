//! Worked shares, with lines that are written by hand.
ghost use Rattle.std.specs.Prelude.{◌≤◌, ◌<◌, IsTrue, All, unsigned_abs};
ghost use Rattle.mm_text.specs.Limits.{widest};
ghost use Rattle.mm_text.specs.Reading.{file_of};
ghost use Rattle.mm_text.specs.Sound.{IsSound};

use crate::cells::{coordinate_cells, fill_cells};
use crate::places::dealt_places;
use map_core::LocalMap;
use model_defs::{FileData, Line, Mirror};
use std::alloc::{AllocError, Global};
use std::test::Fail;

fn line(row: u64, col: u64, value: i128) -> Line {
    Line { row, col, value }
}

/// A file of these sizes with these entries.
fn file(
    alloc: Global,
    rows: u64,
    cols: u64,
    mirror: Mirror,
    entries: &[Line],
) -> Result<FileData, AllocError> {
    Ok(FileData {
        rows,
        cols,
        mirror,
        lines: Vec::from_slice(alloc, entries)?,
    })
}

fn has_columns(file: &FileData, columns: u32) -> bool
    ensures { IsTrue result → All (λ line. line.col < columns) file.now.lines.items }
{
    file.lines.iter().all(|line| line.col < columns as u64)
}

fn has_places(file: &FileData) -> bool
    ensures { IsTrue result → All (λ line. (line.row < file.now.rows) × (line.col < file.now.cols)) file.now.lines.items }
{
    file.lines
        .iter()
        .all(|line| line.row < file.rows && line.col < file.cols)
}

fn has_values(file: &FileData) -> bool
    ensures { IsTrue result → All (λ line. unsigned_abs line.value ≤ widest) file.now.lines.items }
{
    file.lines.iter().all(|line| line.value.unsigned_abs()
        <= 170141183460469231731687303715884105727)
}

fn is_sound(file: &FileData) -> bool
    ensures { IsTrue result → IsSound (file_of file.now) }
{
    file.rows == file.cols && has_places(file) && has_values(file) && file.mirror != Mirror::Negated
}

/// A list map of size 2^40: of the entries at indices 0 and 2 the first is the rank's, and the index without an entry has no
/// line.
#[test]
fn entries_on_a_large_map(rt: HostRuntime) -> Result<(), Fail> {
    let found = file(
        rt.alloc(),
        1099511627776,
        1,
        Mirror::Plain,
        &[line(0, 0, 4), line(2, 0, 9)],
    )?;
    assert!(rt; has_columns(&found, 1));
    let map = LocalMap::from_list(rt.alloc(), &[0, 1099511627775])?;
    let lines = coordinate_cells(rt.alloc(), &map, 1, &found)?;
    assert!(rt; lines.as_slice() == [line(0, 0, 4)].as_slice());
    Ok(())
}

/// Entries come by index, then column; two of one cell stay in file order.
#[test]
fn entries_are_put_in_order(rt: HostRuntime) -> Result<(), Fail> {
    let entries = [
        line(7, 1, 1),
        line(3, 0, 2),
        line(7, 0, 3),
        line(5, 0, 4),
        line(7, 0, -3),
    ];
    let found = file(rt.alloc(), 20000000, 2, Mirror::Plain, &entries)?;
    assert!(rt; has_columns(&found, 2));
    let map = LocalMap::from_list(rt.alloc(), &[7, 3])?;
    let lines = coordinate_cells(rt.alloc(), &map, 2, &found)?;
    let want = [line(3, 0, 2), line(7, 0, 3), line(7, 0, -3), line(7, 1, 1)];
    assert!(rt; lines.as_slice() == want.as_slice());
    Ok(())
}

/// Parts with 5 in each cell, on the list 1, 0.
#[test]
fn a_number_for_each_cell(rt: HostRuntime) -> Result<(), Fail> {
    let map = LocalMap::from_list(rt.alloc(), &[1, 0])?;
    let lines = fill_cells(rt.alloc(), &map, 2, 5)?;
    let want = [line(0, 0, 5), line(0, 1, 5), line(1, 0, 5), line(1, 1, 5)];
    assert!(rt; lines.as_slice() == want.as_slice());
    Ok(())
}

/// Entries 0 and 2 of a symmetric file go to rank 0 of 2, entry 1 to rank 1. The one on the diagonal has one place.
#[test]
fn places_are_dealt(rt: HostRuntime) -> Result<(), Fail> {
    let entries = [line(1, 0, 4), line(2, 2, 7), line(2, 1, 5)];
    let found = file(rt.alloc(), 3, 3, Mirror::Same, &entries)?;
    assert!(rt; is_sound(&found));
    let first = dealt_places(rt.alloc(), 2, 0, &found)?;
    let want = [line(1, 0, 4), line(0, 1, 4), line(2, 1, 5), line(1, 2, 5)];
    assert!(rt; first.as_slice() == want.as_slice());
    let second = dealt_places(rt.alloc(), 2, 1, &found)?;
    assert!(rt; second.as_slice() == [line(2, 2, 7)].as_slice());
    Ok(())
}
