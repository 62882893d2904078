//! Worked examples.
use crate::{FillFault, GraphFill, column_map};
use map_core::LocalMap;
use std::test::Fail;

#[test]
fn places_once(rt: HostRuntime) -> Result<(), Fail> {
    let rows = LocalMap::from_list(rt.alloc(), &[0, 1])?;
    let mut fill = GraphFill::new(rt.alloc(), rows)?;
    for (row, col) in [(0, 0), (0, 2), (1, 1)] {
        assert!(rt; fill.insert(row, col)?);
    }
    assert!(rt; !fill.insert(0, 2)?);
    assert!(rt; matches!(fill.insert(7, 0), Err(FillFault::NoSuchRow { row: 7 })));
    assert_eq!(rt; fill.columns()?.as_slice(), [0, 1, 2].as_slice());
    Ok(())
}

#[test]
fn compressed_rows(rt: HostRuntime) -> Result<(), Fail> {
    let rows = LocalMap::from_list(rt.alloc(), &[0, 1])?;
    let domain = LocalMap::from_list(rt.alloc(), &[1, 0])?;
    let mut fill = GraphFill::new(rt.alloc(), rows)?;
    for (row, col) in [(0, 2), (1, 1), (0, 0)] {
        fill.insert(row, col)?;
    }
    let columns = fill.columns()?;
    assert_eq!(rt; columns.len(), 3);
    let graph = fill.fill_complete(&domain, &[0, 0, 1])?;
    assert_eq!(rt; graph.row_map().len(), 2);
    assert_eq!(rt; graph.col_map().global_of(0), Some(1));
    assert_eq!(rt; graph.row(0), [1, 2].as_slice());
    assert_eq!(rt; graph.row(1), [0].as_slice());
    assert_eq!(rt; graph.row_by_index(0), [0, 1].as_slice());
    assert_eq!(rt; graph.offset(1), 2);
    assert_eq!(rt; graph.places(), 3);
    assert_eq!(rt; graph.find(0, 2), Some(1));
    assert_eq!(rt; graph.locate(1, 1), Some(2));
    assert_eq!(rt; graph.locate(0, 1), None);
    Ok(())
}

#[test]
fn domain_first(rt: HostRuntime) -> Result<(), Fail> {
    let domain = LocalMap::from_list(rt.alloc(), &[1, 0])?;
    let map = column_map(rt.alloc(), &[0, 1, 2], &domain, &[0, 0, 1])?;
    let list = [
        map.global_of(0),
        map.global_of(1),
        map.global_of(2),
        map.global_of(3),
    ];
    assert_eq!(rt; list, [Some(1), Some(0), Some(2), None]);
    Ok(())
}
