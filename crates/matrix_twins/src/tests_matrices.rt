//! The fast programs beside their plain twins, on a few hundred small random matrices: structures, matrices and their changes.
//! Every place is compared.
ghost use Rattle.std.specs.Prelude.{◌<◌, length};

use crate::tests::{CASES, Case, OWNERS, SIZE, random_case, random_number};
use crate::{Sequence, number_at};
use crs_graph::{CrsGraph, GraphFill};
use crs_matrix::CrsMatrix;
use distributor::DistSource;
use map_core::{Gid, LocalMap};
use scalar_laws::{Scalar, Weighed};
use std::alloc::{AllocError, Global};
use std::rc::Rc;
use std::test::Fail;
use tables::Cell;

/// Whether a cell has the column.
fn has_column(cells: &[Cell<Weighed>], col: Gid) -> bool {
    for at in 0..cells.len() {
        if cells[at].col == col {
            return true;
        }
    }
    false
}

/// The owner of a column: columns that ascend have the owners of the table, in turn.
fn owner_of(cells: &[Cell<Weighed>], col: Gid) -> Option<u32> {
    let mut place = 0usize;
    for gid in 0..col {
        if has_column(cells, gid) {
            place = place.wrapping_add(1);
        }
    }
    OWNERS.get(place).copied()
}

/// Where a column stands among the columns of a column map: those of the domain in its order, then the others by owner, then
/// by index.
fn order_of(domain: &LocalMap, cells: &[Cell<Weighed>], col: Gid) -> (u32, Gid) {
    match (domain.local_of(col), owner_of(cells, col)) {
        (Some(lid), _) => (0, lid as Gid),
        (None, Some(owner)) => (owner.wrapping_add(1), col),
        (None, None) => (u32::MAX, col),
    }
}

/// Whether a map has the columns of the cells in their order.
fn is_column_map(map: &LocalMap, domain: &LocalMap, cells: &[Cell<Weighed>]) -> bool {
    let mut last = None;
    for lid in 0..map.len() {
        let Some(gid) = map.global_of(lid) else {
            return false;
        };
        let order = Some(order_of(domain, cells, gid));
        if !has_column(cells, gid) || last >= order {
            return false;
        }
        last = order;
    }
    for gid in 0..SIZE {
        if has_column(cells, gid) != map.local_of(gid).is_some() {
            return false;
        }
    }
    true
}

/// Whether two structures are the same.
fn is_same_graph(a: &CrsGraph, b: &CrsGraph) -> bool {
    let rows = a.row_map().len();
    if rows != b.row_map().len() || !a.col_map().same_list(b.col_map()) {
        return false;
    }
    for lid in 0..rows {
        if a.row(lid) != b.row(lid) || a.row_by_index(lid) != b.row_by_index(lid) {
            return false;
        }
        if a.offset(lid) != b.offset(lid) {
            return false;
        }
    }
    a.places() == b.places()
}

/// Whether the columns and the numbers of a row are those of the cells, in the order of the column map.
fn is_row(a: &CrsMatrix<Weighed>, lid: u32, cells: &[Cell<Weighed>]) -> bool
    requires known { lid < length a.now.graph.rows }
{
    let columns = a.graph().row(lid);
    let numbers = a.row(lid);
    let cols = a.graph().col_map();
    let row = a.row_map().global_of(lid).unwrap_or(SIZE);
    let mut at = 0usize;
    for col in 0..cols.len() {
        let number = number_at(cells, row, cols.global_of(col).unwrap_or(SIZE));
        if number.is_some() {
            if columns.get(at).copied() != Some(col) || numbers.get(at).copied() != number {
                return false;
            }
            at = at.wrapping_add(1);
        }
    }
    columns.len() == at
}

/// Whether a matrix has the numbers of the cells, row by row and place by place.
fn is_matrix(a: &CrsMatrix<Weighed>, cells: &[Cell<Weighed>]) -> bool {
    for lid in 0..a.row_map().len() {
        if !is_row(a, lid, cells) {
            return false;
        }
    }
    for row in 0..SIZE {
        for col in 0..SIZE {
            if a.get(row, col) != number_at(cells, row, col) {
                return false;
            }
        }
    }
    true
}

/// Whether the cells of an entry of a source are those of the list, ascending by column.
fn is_entry<A: DistSource<Weighed>>(source: &A, lid: u32, cells: &[Cell<Weighed>]) -> bool
    requires known { lid < length (A.entries source.now) }
{
    let row = source.gid(lid);
    let count = source.count(lid);
    let mut at = 0u64;
    for col in 0..SIZE {
        if let Some(value) = number_at(cells, row, col) {
            if at >= count || source.cell(lid, at) != (col, value) {
                return false;
            }
            at = at.wrapping_add(1);
        }
    }
    count == at
}

/// Whether the entries of a matrix are those of the cells.
fn has_entries(a: &CrsMatrix<Weighed>, cells: &[Cell<Weighed>]) -> bool {
    for lid in 0..a.row_map().len() {
        if !is_entry(a, lid, cells) {
            return false;
        }
    }
    true
}

/// The structure of the places of a case, which are inserted one by one.
fn structure(alloc: Global, case: &Case) -> Result<Rc<CrsGraph>, Fail> {
    let mut fill = GraphFill::new(alloc, case.matrix.row_map().clone()?)?;
    for at in 0..case.cells.len() {
        let cell = case.cells[at];
        let is_new = number_at(&case.cells[..at], cell.row, cell.col).is_none();
        if fill.insert(cell.row, cell.col)? != is_new {
            return Err(Fail::new("whether a place is new"));
        }
    }
    let count = fill.columns()?.len();
    if count > OWNERS.len() {
        return Err(Fail::new("too many columns"));
    }
    Ok(fill.fill_complete(&case.domain, &OWNERS[..count])?)
}

#[test]
fn structures_and_matrices(rt: HostRuntime) -> Result<(), Fail> {
    let mut sequence = Sequence::new(1);
    for _ in 0..CASES {
        let case = random_case(rt.alloc(), &mut sequence)?;
        let graph = structure(rt.alloc(), &case)?;
        assert!(rt; is_same_graph(&graph, case.matrix.graph()));
        assert!(rt; is_column_map(graph.col_map(), &case.domain, &case.cells));
        assert!(rt; is_matrix(&case.matrix, &case.cells));
        assert!(rt; has_entries(&case.matrix, &case.cells));
    }
    Ok(())
}

/// Adds a number to a random place or replaces the one that is there, in a matrix and among its cells, where it has the place.
fn change(
    a: &mut CrsMatrix<Weighed>,
    cells: &mut Vec<Cell<Weighed>>,
    sequence: &mut Sequence,
) -> Result<bool, AllocError> {
    let row = sequence.below(SIZE);
    let col = sequence.below(SIZE);
    let value = random_number(sequence);
    let is_there = number_at(cells, row, col).is_some();
    let is_changed = if sequence.below(2) == 0 {
        a.sum_into(row, col, value).is_ok()
    } else {
        for cell in cells.iter_mut() {
            if cell.row == row && cell.col == col {
                cell.value = Weighed::zero();
            }
        }
        a.replace(row, col, value).is_ok()
    };
    if is_there {
        cells.push(Cell { row, col, value })?;
    }
    Ok(is_changed == is_there)
}

/// Makes some changes to a copy of the matrix of a case, and scales it.
fn is_changed_alike(alloc: Global, sequence: &mut Sequence, case: &Case) -> Result<bool, Fail> {
    let mut a = case.matrix.copy()?;
    let mut cells = Vec::from_slice(alloc, &case.cells)?;
    for _ in 0..sequence.below(20) {
        if !change(&mut a, &mut cells, sequence)? {
            return Ok(false);
        }
    }
    let alpha = random_number(sequence);
    a.scale(alpha);
    for cell in cells.iter_mut() {
        cell.value = alpha.mul(cell.value);
    }
    Ok(is_matrix(&a, &cells) && is_matrix(&case.matrix, &case.cells))
}

#[test]
fn changes(rt: HostRuntime) -> Result<(), Fail> {
    let mut sequence = Sequence::new(2);
    for _ in 0..CASES {
        let case = random_case(rt.alloc(), &mut sequence)?;
        assert!(rt; is_changed_alike(rt.alloc(), &mut sequence, &case)?);
    }
    Ok(())
}
