//! Matrices of a rank by hand.
use crate::{applied, fill_of_lines, is_matrix_over, matrix_cells, scaled_matrix, sums_of_apply};
use crs_matrix::CrsMatrix;
use map_core::LocalMap;
use mm_text::Line;
use multivector::MultiVector;
use rank_values::{global_cells, vector_of_lines};
use scalar_laws::{Scalar, Weighed};
use std::alloc::Global;
use std::rc::Rc;
use std::test::Fail;
use tables::Cell;

const MOST: i128 = 170_141_183_460_469_231_731_687_303_715_884_105_727;

fn line(row: u64, col: u64, value: i128) -> Line {
    Line { row, col, value }
}

fn number(value: i128) -> Weighed {
    Weighed::new(value, value.unsigned_abs())
}

/// The matrix of lines on the column map that begins with the domain 9, 4. They name so many columns.
fn matrix(alloc: Global, lines: &[Line], columns: usize) -> Result<CrsMatrix<Weighed>, Fail> {
    let fill = fill_of_lines(alloc, lines)?;
    let domain = LocalMap::from_list(alloc, &[9, 4])?;
    let owners = vec![in alloc; 0; fill.columns()?.len()]?;
    if columns > 100 || fill.columns()?.len() != columns {
        return Err(Fail::new("other columns are wanted"));
    }
    Ok(fill.fill_complete(&domain, &owners)?)
}

/// The rows 2 and 7: 5 at (7, 4), 1 + 2 at (7, 9), 4 - 4 at (2, 4).
fn sample(alloc: Global) -> Result<CrsMatrix<Weighed>, Fail> {
    let lines = [
        line(7, 4, 5),
        line(2, 4, 4),
        line(7, 9, 1),
        line(2, 4, -4),
        line(7, 9, 2),
    ];
    matrix(alloc, &lines, 2)
}

/// Whether the cells have these places and numbers.
fn shows(cells: &[Cell<Weighed>], want: &[(u64, u64, i128)]) -> bool {
    if cells.len() != want.len() {
        return false;
    }
    for at in 0..cells.len() {
        let cell = &cells[at];
        let (row, col, value) = want[at];
        if cell.row != row || cell.col != col || cell.value.shown() != Some(value) {
            return false;
        }
    }
    true
}

/// The vector of one column on a list of two, with these numbers.
fn vector(alloc: Global, map: &Rc<LocalMap>, lines: &[Line]) -> Result<MultiVector<Weighed>, Fail> {
    Ok(vector_of_lines(alloc, map.clone()?, 1, lines)?)
}

#[test]
fn lines_add_up_at_their_places(rt: HostRuntime) -> Result<(), Fail> {
    let alloc = rt.alloc();
    let lines = [line(7, 4, 5), line(2, 4, 4), line(7, 9, 1), line(2, 4, -4)];
    let fill = fill_of_lines::<Weighed>(alloc, &lines)?;
    assert_eq!(rt; fill.row_map().len(), 2);
    assert_eq!(rt; fill.row_map().global_of(0), Some(2));
    assert_eq!(rt; fill.get(2, 4), Some(Weighed::new(0, 8)));
    assert_eq!(rt; fill.get(2, 9), None);
    assert!(rt;
        shows(
            &matrix_cells(alloc, &sample(alloc)?)?,
            &[(2, 4, 0), (7, 4, 5), (7, 9, 3)]
        )
    );
    Ok(())
}

#[test]
fn scaled_and_over(rt: HostRuntime) -> Result<(), Fail> {
    let alloc = rt.alloc();
    let a = sample(alloc)?;
    let doubled = scaled_matrix(number(2), &a)?;
    assert!(rt;
        shows(
            &matrix_cells(alloc, &doubled)?,
            &[(2, 4, 0), (7, 4, 10), (7, 9, 6)]
        )
    );
    assert!(rt; !is_matrix_over(&doubled));
    let large = matrix(alloc, &[line(3, 0, 1), line(3, 1, MOST), line(3, 1, 1)], 2)?;
    assert!(rt; is_matrix_over(&large));
    Ok(())
}

#[test]
fn products_with_vectors(rt: HostRuntime) -> Result<(), Fail> {
    let alloc = rt.alloc();
    let a = sample(alloc)?;
    let x = vector(
        alloc,
        a.graph().col_map(),
        &[line(4, 0, 10), line(9, 0, 100)],
    )?;
    let y = vector(alloc, a.graph().row_map(), &[line(2, 0, 1), line(7, 0, 2)])?;
    assert!(rt; x.map().same_list(a.graph().col_map()));
    assert!(rt; y.map().same_list(a.graph().row_map()));
    assert!(rt; x.columns() == y.columns());
    let sums = sums_of_apply(alloc, false, &a, &x)?;
    assert!(rt; shows(&global_cells(alloc, &sums)?, &[(2, 0, 0), (7, 0, 350)]));
    let turned = sums_of_apply(alloc, true, &a, &y)?;
    assert!(rt; shows(&global_cells(alloc, &turned)?, &[(4, 0, 10), (9, 0, 6)]));
    let z = applied(alloc, number(2), &a, &x, number(-3), &y)?;
    assert!(rt; shows(&global_cells(alloc, &z)?, &[(2, 0, -3), (7, 0, 694)]));
    Ok(())
}
