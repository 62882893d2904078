//! Worked examples, and each public call once.
use crate::MultiVector;
use map_core::LocalMap;
use scalar_laws::{Scalar, Weighed};
use std::alloc::Global;
use std::test::Fail;

const VALUES: [i128; 3] = [10, 1, 100];

fn pair(value: i128) -> Weighed {
    Weighed::new(value, value.unsigned_abs())
}

/// 10, 1 and 100 on the map 1, 0, 2.
fn column(alloc: Global) -> Result<MultiVector<Weighed>, Fail> {
    let map = LocalMap::from_list(alloc, &[1, 0, 2])?;
    let mut x = MultiVector::new(alloc, map, 1, Weighed::zero())?;
    for (lid, value) in VALUES.iter().enumerate() {
        if (lid as u32) < x.map().len() && 0 < x.columns() {
            x.set(lid as u32, 0, pair(*value));
        }
    }
    Ok(x)
}

#[test]
fn copy_and_update(rt: HostRuntime) -> Result<(), Fail> {
    let x = column(rt.alloc())?;
    let mut y = x.copy()?;
    assert_eq!(rt; y.columns(), 1);
    assert_eq!(rt; y.map().len(), 3);
    for (lid, value) in VALUES.iter().enumerate() {
        let lid = lid as u32;
        assert!(rt;
            lid < x.map().len() && 0 < x.columns() && lid < y.map().len() && 0 < y.columns()
        );
        assert_eq!(rt; x.cell(lid, 0), pair(*value));
        assert_eq!(rt; y.cell(lid, 0), pair(*value));
    }
    y.update(pair(2), &x, pair(-1));
    for (lid, value) in VALUES.iter().enumerate() {
        let lid = lid as u32;
        assert!(rt; lid < y.map().len() && 0 < y.columns());
        assert_eq!(rt;
            y.cell(lid, 0).parts(),
            Some((*value, 3 * value.unsigned_abs()))
        );
    }
    Ok(())
}
