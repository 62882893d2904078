//! Worked files, through the bound, at weighed numbers.
ghost use Rattle.std.specs.Prelude.{◌≢◌, ◌≤◌, ◌<◌, IsTrue, All, unsigned_abs};
ghost use Rattle.mm_text.specs.Limits.{widest};
ghost use Rattle.mm_text.specs.Reading.{file_of};
ghost use Rattle.mm_text.specs.Sound.{IsSound};

use crate::gathered_cells;
use model_defs::{Cell, FileData, Line, Mirror};
use scalar_laws::Weighed;
use std::alloc::{AllocError, Global};
use std::test::Fail;

/// A file of these sizes with these entries.
fn file(
    alloc: Global,
    size: u64,
    mirror: Mirror,
    entries: &[(u64, u64, i128)],
) -> Result<FileData, AllocError> {
    let mut lines = Vec::new(alloc);
    for (row, col, value) in entries {
        lines.push(Line {
            row: *row,
            col: *col,
            value: *value,
        })?;
    }
    Ok(FileData {
        rows: size,
        cols: size,
        mirror,
        lines,
    })
}

fn has_places(file: &FileData) -> bool
    ensures { IsTrue result → All (λ line. (line.row < file.now.rows) × (line.col < file.now.cols)) file.now.lines.items }
{
    file.lines
        .iter()
        .all(|line| line.row < file.rows && line.col < file.cols)
}

fn has_values(file: &FileData) -> bool
    ensures { IsTrue result → All (λ line. unsigned_abs line.value ≤ widest) file.now.lines.items }
{
    file.lines.iter().all(|line| line.value.unsigned_abs()
        <= 170141183460469231731687303715884105727)
}

fn has_no_diagonal(file: &FileData) -> bool
    ensures { IsTrue result → All (λ line. line.row ≢ line.col) file.now.lines.items }
{
    file.lines.iter().all(|line| line.row != line.col)
}

fn is_sound(file: &FileData) -> bool
    ensures { IsTrue result → IsSound (file_of file.now) }
{
    file.rows == file.cols
        && has_places(file)
        && has_values(file)
        && (file.mirror != Mirror::Negated || has_no_diagonal(file))
}

/// The cells by way of two ranks; None where the file is not sound.
fn by_two(alloc: Global, file: &FileData) -> Result<Option<Vec<Cell<Weighed>>>, AllocError> {
    if file.rows <= 1000000 && is_sound(file) {
        return Ok(Some(gathered_cells(alloc, 2, file)?));
    }
    Ok(None)
}

fn cell(row: u64, col: u64, value: i128, weight: u128) -> Cell<Weighed> {
    Cell {
        row,
        col,
        value: Weighed::new(value, weight),
    }
}

#[test]
fn entries_come_in_order(rt: HostRuntime) -> Result<(), Fail> {
    let found = file(
        rt.alloc(),
        3,
        Mirror::Plain,
        &[(2, 0, -1), (0, 2, 5), (1, 1, 3), (0, 0, 2)],
    )?;
    let cells = by_two(rt.alloc(), &found)?.ok_or("not sound")?;
    let want = [
        cell(0, 0, 2, 2),
        cell(0, 2, 5, 5),
        cell(1, 1, 3, 3),
        cell(2, 0, -1, 1),
    ];
    assert!(rt; cells.as_slice() == want.as_slice());
    Ok(())
}

#[test]
fn one_place_is_added(rt: HostRuntime) -> Result<(), Fail> {
    let found = file(
        rt.alloc(),
        2,
        Mirror::Plain,
        &[(1, 0, 4), (0, 1, 2), (1, 0, -3), (1, 0, -1)],
    )?;
    let cells = by_two(rt.alloc(), &found)?.ok_or("not sound")?;
    let want = [cell(0, 1, 2, 2), cell(1, 0, 0, 8)];
    assert!(rt; cells.as_slice() == want.as_slice());
    Ok(())
}

#[test]
fn no_entries_give_no_cells(rt: HostRuntime) -> Result<(), Fail> {
    let found = file(rt.alloc(), 3, Mirror::Plain, &[])?;
    let cells = by_two(rt.alloc(), &found)?.ok_or("not sound")?;
    assert_eq!(rt; cells.len(), 0);
    Ok(())
}

#[test]
fn a_symmetric_entry_has_two_places(rt: HostRuntime) -> Result<(), Fail> {
    let found = file(rt.alloc(), 2, Mirror::Same, &[(1, 0, 4), (1, 1, 7)])?;
    let cells = by_two(rt.alloc(), &found)?.ok_or("not sound")?;
    let want = [cell(0, 1, 4, 4), cell(1, 0, 4, 4), cell(1, 1, 7, 7)];
    assert!(rt; cells.as_slice() == want.as_slice());
    Ok(())
}

#[test]
fn a_skew_symmetric_entry_is_negated(rt: HostRuntime) -> Result<(), Fail> {
    let found = file(rt.alloc(), 2, Mirror::Negated, &[(1, 0, 4)])?;
    let cells = by_two(rt.alloc(), &found)?.ok_or("not sound")?;
    let want = [cell(0, 1, -4, 4), cell(1, 0, 4, 4)];
    assert!(rt; cells.as_slice() == want.as_slice());
    Ok(())
}

/// 200,000 entries that name each of 100,000 places twice: place p has row p / 400, column p % 400 and the number 2 p.
#[test]
fn many_entries(rt: HostRuntime) -> Result<(), Fail> {
    let mut lines = Vec::with_capacity(rt.alloc(), 200000)?;
    for k in 0..200000u64 {
        let place = k * 77773 % 100000;
        lines.push(Line {
            row: place / 400,
            col: place % 400,
            value: place as i128,
        })?;
    }
    let found = FileData {
        rows: 400,
        cols: 400,
        mirror: Mirror::Plain,
        lines,
    };
    let cells = by_two(rt.alloc(), &found)?.ok_or("not sound")?;
    assert_eq!(rt; cells.len(), 100000);
    for (place, found) in cells.iter().enumerate() {
        let twice = 2 * place as u64;
        assert!(rt;
            *found
                == cell(
                    place as u64 / 400,
                    place as u64 % 400,
                    twice as i128,
                    twice as u128
                )
        );
    }
    Ok(())
}
