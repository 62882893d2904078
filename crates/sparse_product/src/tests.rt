//! Worked examples.
ghost use Rattle.std.specs.Prelude.{length, ◌<◌, ◌^◌};

use crate::{local_add, local_product};
use crs_matrix::MatrixFill;
use map_core::{Gid, LocalMap};
use scalar_laws::{Scalar, Weighed};
use std::alloc::Global;
use std::test::Fail;

fn number(value: i128) -> Weighed {
    Weighed::new(value, value.unsigned_abs())
}

/// A matrix on these rows with these numbers, each with its row and its column.
fn on_rows(
    alloc: Global,
    rows: &[Gid],
    cells: &[(Gid, Gid, i128)],
) -> Result<MatrixFill<Weighed>, Fail>
    requires few { length rows.now < 2 ^ 32 }
{
    let rows = LocalMap::from_list(alloc, rows)?;
    let mut fill = MatrixFill::new(alloc, rows)?;
    for (row, col, value) in cells {
        fill.insert(*row, *col, number(*value))?;
    }
    Ok(fill)
}

#[test]
fn two_rows_reach_one_column(rt: HostRuntime) -> Result<(), Fail> {
    let alloc = rt.alloc();
    let first = on_rows(
        alloc,
        &[0, 1],
        &[(0, 0, 1), (0, 1, 2), (1, 0, 3), (1, 1, 0)],
    )?;
    let domain = LocalMap::from_list(alloc, &[0, 1])?;
    assert_eq!(rt; first.columns()?.len(), 2);
    let a = first.fill_complete(&domain, &[0, 0])?;
    let b = on_rows(alloc, &[0, 1], &[(0, 0, 1), (1, 1, 1)])?;
    assert!(rt; b.row_map().same_list(a.graph().col_map()));
    let c = local_product(alloc, &a, &b)?;
    assert_eq!(rt; c.get(0, 0), Some(number(1)));
    assert_eq!(rt; c.get(0, 1), Some(number(2)));
    assert_eq!(rt; c.get(1, 0), Some(number(3)));
    assert_eq!(rt; c.get(1, 1), Some(number(0)));
    Ok(())
}

/// A row times a column with the sum 0: the place stays.
#[test]
fn a_zero_sum_is_stored(rt: HostRuntime) -> Result<(), Fail> {
    let alloc = rt.alloc();
    let first = on_rows(alloc, &[0], &[(0, 0, 1), (0, 1, 1)])?;
    let domain = LocalMap::from_list(alloc, &[0, 1])?;
    assert_eq!(rt; first.columns()?.len(), 2);
    let a = first.fill_complete(&domain, &[0, 0])?;
    let b = on_rows(alloc, &[0, 1], &[(0, 0, 1), (1, 0, -1)])?;
    assert!(rt; b.row_map().same_list(a.graph().col_map()));
    let c = local_product(alloc, &a, &b)?;
    assert_eq!(rt; c.get(0, 0), Some(Weighed::new(0, 2)));
    assert_eq!(rt; c.columns()?.len(), 1);
    Ok(())
}

/// Twice a matrix less the same matrix: its own numbers, with three times their weight.
#[test]
fn twice_less_once(rt: HostRuntime) -> Result<(), Fail> {
    let alloc = rt.alloc();
    let cells = [(0, 0, 2), (0, 2, 5), (1, 1, 3)];
    let first = on_rows(alloc, &[0, 1], &cells)?;
    let domain = LocalMap::from_list(alloc, &[0, 1])?;
    assert_eq!(rt; first.columns()?.len(), 3);
    let a = first.fill_complete(&domain, &[0, 0, 1])?;
    let b = on_rows(alloc, &[0, 1], &cells)?;
    assert!(rt; b.row_map().same_list(a.row_map()));
    let c = local_add(alloc, number(2), &a, number(-1), &b)?;
    assert_eq!(rt; c.get(0, 0), Some(Weighed::new(2, 6)));
    assert_eq!(rt; c.get(0, 2), Some(Weighed::new(5, 15)));
    assert_eq!(rt; c.get(1, 1), Some(Weighed::new(3, 9)));
    assert_eq!(rt; c.get(0, 1), None);
    Ok(())
}
