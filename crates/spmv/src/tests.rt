//! Worked examples.
use crate::{local_apply, local_apply_transposed};
use crs_matrix::{CrsMatrix, MatrixFill};
use map_core::LocalMap;
use multivector::MultiVector;
use scalar_laws::{Scalar, Weighed};
use std::alloc::Global;
use std::rc::Rc;
use std::test::Fail;

fn number(value: i128) -> Weighed {
    Weighed::new(value, value.unsigned_abs())
}

/// The rows 0 and 1 with 2 at (0, 0), 5 at (0, 2) and 3 at (1, 1), on the column map 1, 0, 2.
fn small(alloc: Global) -> Result<CrsMatrix<Weighed>, Fail> {
    let rows = LocalMap::from_list(alloc, &[0, 1])?;
    let mut fill = MatrixFill::new(alloc, rows)?;
    for (row, col, value) in [(0, 0, 2), (0, 2, 5), (1, 1, 3)] {
        fill.insert(row, col, number(value))?;
    }
    let domain = LocalMap::from_list(alloc, &[1, 0])?;
    if fill.columns()?.len() != 3 {
        return Err(Fail::new("three columns are wanted"));
    }
    Ok(fill.fill_complete(&domain, &[0, 0, 1])?)
}

/// A vector of one column with these numbers.
fn vector(alloc: Global, map: Rc<LocalMap>, values: &[i128]) -> Result<MultiVector<Weighed>, Fail> {
    let mut v = MultiVector::new(alloc, map, 1, Weighed::zero())?;
    for lid in 0..v.map().len() {
        let Some(value) = values.get(lid as usize) else {
            break;
        };
        if lid < v.map().len() && 0 < v.columns() {
            v.set(lid, 0, number(*value));
        }
    }
    Ok(v)
}

fn entry(v: &MultiVector<Weighed>, lid: u32) -> Option<Weighed> {
    if lid < v.map().len() && 0 < v.columns() {
        Some(v.cell(lid, 0))
    } else {
        None
    }
}

#[test]
fn product_with_a_vector(rt: HostRuntime) -> Result<(), Fail> {
    let a = small(rt.alloc())?;
    let x = vector(rt.alloc(), a.graph().col_map().clone()?, &[10, 1, 100])?;
    let mut y = vector(rt.alloc(), a.graph().row_map().clone()?, &[0, 0])?;
    assert!(rt; x.map().same_list(a.graph().col_map()));
    assert!(rt; y.map().same_list(a.graph().row_map()));
    assert!(rt; y.columns() == x.columns());
    local_apply(&a, &x, &mut y);
    assert_eq!(rt; entry(&y, 0), Some(number(502)));
    assert_eq!(rt; entry(&y, 1), Some(number(30)));
    assert_eq!(rt; entry(&y, 2), None);
    Ok(())
}

#[test]
fn product_of_the_transposed(rt: HostRuntime) -> Result<(), Fail> {
    let a = small(rt.alloc())?;
    let x = vector(rt.alloc(), a.graph().row_map().clone()?, &[1, 10])?;
    let mut y = vector(rt.alloc(), a.graph().col_map().clone()?, &[0, 0, 0])?;
    assert!(rt; x.map().same_list(a.graph().row_map()));
    assert!(rt; y.map().same_list(a.graph().col_map()));
    assert!(rt; y.columns() == x.columns());
    local_apply_transposed(&a, &x, &mut y);
    assert_eq!(rt; entry(&y, 0), Some(number(30)));
    assert_eq!(rt; entry(&y, 1), Some(number(2)));
    assert_eq!(rt; entry(&y, 2), Some(number(5)));
    assert_eq!(rt; entry(&y, 3), None);
    Ok(())
}

#[test]
fn what_is_there_grows(rt: HostRuntime) -> Result<(), Fail> {
    let a = small(rt.alloc())?;
    let x = vector(rt.alloc(), a.graph().col_map().clone()?, &[10, 1, 100])?;
    let mut y = vector(rt.alloc(), a.graph().row_map().clone()?, &[7, -2])?;
    assert!(rt; x.map().same_list(a.graph().col_map()));
    assert!(rt; y.map().same_list(a.graph().row_map()));
    assert!(rt; y.columns() == x.columns());
    local_apply(&a, &x, &mut y);
    assert_eq!(rt; entry(&y, 0), Some(number(509)));
    assert_eq!(rt; entry(&y, 1), Some(Weighed::new(28, 32)));
    let mut z = vector(rt.alloc(), a.graph().col_map().clone()?, &[1, 1, 1])?;
    let x = vector(rt.alloc(), a.graph().row_map().clone()?, &[1, 10])?;
    assert!(rt; x.map().same_list(a.graph().row_map()));
    assert!(rt; z.map().same_list(a.graph().col_map()));
    assert!(rt; z.columns() == x.columns());
    local_apply_transposed(&a, &x, &mut z);
    assert_eq!(rt; entry(&z, 0), Some(number(31)));
    assert_eq!(rt; entry(&z, 1), Some(number(3)));
    assert_eq!(rt; entry(&z, 2), Some(number(6)));
    Ok(())
}
