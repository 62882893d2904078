//! What is printed of the cells of two ranks, worked out by hand.
ghost use Rattle.std.specs.Prelude.{IfOk};
ghost use Rattle.tables.specs.Tables.{AreInOrder};

use crate::cells::merged;
use crate::sheets::{array_sheet, part_sheets};
use crate::shown::shown_sum;
use model_defs::{Cell, Job, ListOf, MapForm, MapSpec, Shape, SheetKind, Shown, Sort, Text};
use scalar_laws::{Scalar, Weighed};
use std::alloc::{AllocError, Global};
use std::test::Fail;

/// Cells of these rows, columns and numbers.
fn cells(alloc: Global, places: &[(u64, u64, i128)]) -> Result<Vec<Cell<Weighed>>, AllocError>
    ensures in_order { IfOk result (λ cells. AreInOrder cells.items) }
{
    let mut cells = Vec::new(alloc);
    for (row, col, value) in places {
        if let Some(value) = Weighed::of_file(*value) {
            cells.push(Cell {
                row: *row,
                col: *col,
                value,
            })?;
        }
    }
    let pieces = [cells];
    merged(alloc, false, &pieces)
}

/// Whether these are the cells that are shown.
fn shows(shown: &[Shown], places: &[(u64, u64, i128)]) -> bool {
    if shown.len() != places.len() {
        return false;
    }
    for (cell, place) in shown.iter().zip(places) {
        if (cell.row, cell.col, cell.value) != *place {
            return false;
        }
    }
    true
}

/// A job of two ranks, with a uniform map of size 3.
fn job(alloc: Global) -> Result<Job, AllocError> {
    let mut maps = Vec::new(alloc);
    maps.push(MapSpec {
        name: Text::new(alloc, "m")?,
        size: 3,
        form: MapForm::Uniform,
    })?;
    Ok(Job {
        ranks: 2,
        maps: ListOf::new(maps),
        vectors: ListOf::new(Vec::new(alloc)),
        parts: ListOf::new(Vec::new(alloc)),
        matrices: ListOf::new(Vec::new(alloc)),
        steps: ListOf::new(Vec::new(alloc)),
    })
}

/// A vector or parts of two columns on that map.
fn shape(sort: Sort) -> Shape {
    Shape {
        sort,
        rows: 0,
        domain: 0,
        columns: 2,
        structure: 0,
    }
}

/// An array of two columns is printed column by column.
#[test]
fn arrays(rt: HostRuntime) -> Result<(), Fail> {
    let alloc = rt.alloc();
    let first = cells(alloc, &[(0, 0, 1), (0, 1, 2), (1, 0, 3), (1, 1, 4)])?;
    let second = cells(alloc, &[(2, 0, 5), (2, 1, 6)])?;
    let pieces = [first, second];
    let sheet = array_sheet(alloc, &job(alloc)?, shape(Sort::Vector), &pieces)?;
    let columns = [
        (0, 0, 1),
        (1, 0, 3),
        (2, 0, 5),
        (0, 1, 2),
        (1, 1, 4),
        (2, 1, 6),
    ];
    assert!(rt; shows(sheet.cells.as_slice(), &columns));
    assert!(rt; sheet.kind == SheetKind::Array && sheet.rows == 3 && sheet.cols == 2);
    assert!(rt; sheet.part.is_none());
    Ok(())
}

/// Cells that do not follow one another are put in order, those of one place are added, and those beyond the sizes left out.
#[test]
fn sums(rt: HostRuntime) -> Result<(), Fail> {
    let alloc = rt.alloc();
    let first = cells(alloc, &[(0, 0, 1), (2, 0, 5)])?;
    let second = cells(alloc, &[(1, 0, 7), (1, 1, 3), (2, 0, 4), (9, 0, 8)])?;
    let pieces = [first, second];
    let shown = shown_sum(alloc, false, 3, 1, &pieces)?;
    assert!(rt; shows(&shown, &[(0, 0, 1), (1, 0, 7), (2, 0, 9)]));
    Ok(())
}

/// Each rank's part is printed by itself, with its number.
#[test]
fn parts(rt: HostRuntime) -> Result<(), Fail> {
    let alloc = rt.alloc();
    let job = job(alloc)?;
    let first = cells(alloc, &[(0, 0, 1), (2, 1, 5)])?;
    let second = cells(alloc, &[(0, 0, 4)])?;
    let pieces = [first, second];
    if job.ranks != 2 {
        return Ok(());
    }
    let sheets = part_sheets(alloc, &job, shape(Sort::Parts), &pieces)?;
    let [zero, one] = sheets.as_slice() else {
        assert!(rt; false);
        return Ok(());
    };
    assert!(rt; zero.part == Some(0) && one.part == Some(1));
    assert!(rt; shows(zero.cells.as_slice(), &[(0, 0, 1), (2, 1, 5)]));
    assert!(rt; shows(one.cells.as_slice(), &[(0, 0, 4)]));
    Ok(())
}
