//! Worked examples.
use crate::local_transpose;
use crs_matrix::MatrixFill;
use map_core::LocalMap;
use scalar_laws::{Scalar, Weighed};
use std::test::Fail;

fn number(value: i128) -> Weighed {
    Weighed::new(value, value.unsigned_abs())
}

#[test]
fn rows_become_columns(rt: HostRuntime) -> Result<(), Fail> {
    let alloc = rt.alloc();
    let rows = LocalMap::from_list(alloc, &[0, 1])?;
    let mut fill = MatrixFill::new(alloc, rows)?;
    for (row, col, value) in [(0, 0, 2), (0, 2, 5), (1, 1, 3), (1, 2, 0)] {
        fill.insert(row, col, number(value))?;
    }
    let domain = LocalMap::from_list(alloc, &[1, 0])?;
    assert_eq!(rt; fill.columns()?.len(), 3);
    let a = fill.fill_complete(&domain, &[0, 0, 1])?;
    let turned = local_transpose(alloc, &a)?;
    assert_eq!(rt; turned.row_map().len(), 3);
    assert_eq!(rt; turned.row_map().global_of(0), Some(1));
    assert_eq!(rt; turned.get(0, 0), Some(number(2)));
    assert_eq!(rt; turned.get(1, 1), Some(number(3)));
    assert_eq!(rt; turned.get(2, 0), Some(number(5)));
    assert_eq!(rt; turned.get(2, 1), Some(number(0)));
    assert_eq!(rt; turned.get(0, 2), None);
    assert_eq!(rt; turned.get(1, 0), None);
    assert_eq!(rt; turned.columns()?.as_slice(), [0, 1].as_slice());
    Ok(())
}
