//! Vectors on a list of indices.

use crate::{global_cells, is_vector_over, scaled_vector, sum_of_vectors, vector_of_lines};
use map_core::LocalMap;
use mm_text::Line;
use multivector::MultiVector;
use scalar_laws::{Scalar, Weighed};
use std::alloc::{AllocError, Global};
use std::test::Fail;

fn line(row: u64, col: u64, value: i128) -> Line {
    Line { row, col, value }
}

/// The vector on the list 7, 2 with the cells (2, 0) 5 and (7, 0) 1 + 3. The index 4 is not on the list.
fn sample(alloc: Global) -> Result<MultiVector<Weighed>, Fail> {
    let map = LocalMap::from_list(alloc, &[7, 2])?;
    let lines = [
        line(2, 0, 5),
        line(7, 0, 1),
        line(4, 0, 9),
        line(7, 0, 3),
        line(7, 1, 8),
    ];
    Ok(vector_of_lines(alloc, map, 1, &lines)?)
}

/// Whether the vector has two cells, those of the rows 2 and 7, with these numbers.
fn shows(
    alloc: Global,
    vector: &MultiVector<Weighed>,
    two: i128,
    seven: i128,
) -> Result<bool, AllocError> {
    let cells = global_cells(alloc, vector)?;
    let [first, second] = cells.as_slice() else {
        return Ok(false);
    };
    let rows = first.row == 2 && second.row == 7;
    let columns = first.col == 0 && second.col == 0;
    Ok(rows && columns && first.value.shown() == Some(two) && second.value.shown() == Some(seven))
}

#[test]
fn lines_add_up_in_their_cells(rt: HostRuntime) -> Result<(), Fail> {
    let x = sample(rt.alloc())?;
    assert!(rt; shows(rt.alloc(), &x, 5, 4)?);
    Ok(())
}

#[test]
fn vectors_are_added_and_scaled(rt: HostRuntime) -> Result<(), Fail> {
    let x = sample(rt.alloc())?;
    let two = Weighed::one().add(Weighed::one());
    let doubled = scaled_vector(two, &x)?;
    assert!(rt; shows(rt.alloc(), &doubled, 10, 8)?);
    Ok(())
}

#[test]
fn what_is_over_is_seen(rt: HostRuntime) -> Result<(), Fail> {
    let map = LocalMap::from_list(rt.alloc(), &[0])?;
    let most = 170_141_183_460_469_231_731_687_303_715_884_105_727;
    let x = vector_of_lines::<Weighed>(rt.alloc(), map.clone()?, 1, &[line(0, 0, most)])?;
    assert!(rt; !is_vector_over(&x));
    let y = vector_of_lines::<Weighed>(rt.alloc(), map, 1, &[line(0, 0, most), line(0, 0, -1)])?;
    assert!(rt; is_vector_over(&y));
    Ok(())
}
