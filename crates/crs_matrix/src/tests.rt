//! Worked examples, and each public call once.
use crate::MatrixFill;
use combine_modes::Mode;
use crs_graph::FillFault;
use distributor::{DistSource, DistTarget};
use map_core::{Gid, LocalMap};
use scalar_laws::{Scalar, Weighed};
use std::alloc::Global;
use std::test::Fail;

fn number(value: i128) -> Weighed {
    Weighed::new(value, value.unsigned_abs())
}

/// The rows 0 and 1 with 2 at (0, 0), 5 at (0, 2) and 3 at (1, 1).
fn small(alloc: Global) -> Result<MatrixFill<Weighed>, Fail> {
    let rows = LocalMap::from_list(alloc, &[0, 1])?;
    let mut fill = MatrixFill::new(alloc, rows)?;
    for (row, col, value) in [(0, 2, 5), (0, 0, 2), (1, 1, 3)] {
        fill.insert(row, col, number(value))?;
    }
    Ok(fill)
}

#[test]
fn places_and_columns(rt: HostRuntime) -> Result<(), Fail> {
    let mut fill = small(rt.alloc())?;
    assert_eq!(rt; fill.columns()?.as_slice(), [0, 1, 2].as_slice());
    assert!(rt;
        matches!(
            fill.insert(7, 0, number(1)),
            Err(FillFault::NoSuchRow { row: 7 })
        )
    );
    assert_eq!(rt; fill.get(0, 2), Some(number(5)));
    assert_eq!(rt; fill.get(0, 1), None);
    assert_eq!(rt; fill.get(7, 0), None);
    assert_eq!(rt; fill.row_map().len(), 2);
    fill.insert(0, 2, number(-5))?;
    assert_eq!(rt; fill.get(0, 2), Some(Weighed::new(0, 10)));
    Ok(())
}

#[test]
fn compressed_rows(rt: HostRuntime) -> Result<(), Fail> {
    let alloc = rt.alloc();
    let fill = small(alloc)?;
    let domain = LocalMap::from_list(alloc, &[2, 0])?;
    assert_eq!(rt; fill.columns()?.len(), 3);
    let mut a = fill.fill_complete(&domain, &[0, 0, 0])?;
    let before = a.copy()?;
    a.scale(number(2));
    assert!(rt; a.sum_into(0, 2, number(1)).is_ok());
    assert!(rt; a.replace(1, 1, number(0)).is_ok());
    assert!(rt; a.sum_into(1, 0, number(1)).is_err());
    assert_eq!(rt; a.row_map().len(), 2);
    assert_eq!(rt; a.get(0, 0), Some(number(4)));
    assert_eq!(rt; a.get(0, 2), Some(number(11)));
    assert_eq!(rt; a.get(1, 1), Some(number(0)));
    assert_eq!(rt; a.get(1, 0), None);
    assert_eq!(rt; before.get(0, 2), Some(number(5)));
    Ok(())
}
