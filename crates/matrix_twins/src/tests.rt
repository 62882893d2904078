//! The fast programs beside their plain twins, on a few hundred small random matrices: products and sums. Every place is
//! compared.
use crate::{Sequence, combination_at, filled, number_at, product_at, turned};
use crs_matrix::{CrsMatrix, MatrixFill};
use map_core::{Gid, LocalMap};
use multivector::MultiVector;
use scalar_laws::{Scalar, Weighed};
use sparse_product::{local_add, local_product};
use spmv::{local_apply, local_apply_transposed};
use std::alloc::{AllocError, Global};
use std::rc::Rc;
use std::test::Fail;
use tables::Cell;
use transpose::local_transpose;

/// How many random matrices each test takes.
pub const CASES: u64 = 300;

/// All global indices are below this.
pub const SIZE: Gid = 9;

/// The owners of the columns of a matrix, which ascend.
pub const OWNERS: [u32; 9] = [2, 0, 1, 0, 2, 1, 1, 0, 2];

/// Cells in the order in which they were inserted, and the matrix that they make.
#[derive(Drop)]
struct Inserted {
    cells: Vec<Cell<Weighed>>,
    fill: MatrixFill<Weighed>,
}

/// The cells of a matrix, which is completed with a domain.
#[derive(Drop)]
pub struct Case {
    pub domain: Rc<LocalMap>,
    pub cells: Vec<Cell<Weighed>>,
    pub matrix: CrsMatrix<Weighed>,
}

/// A small number of either sign, a zero, a number that weighs more than its magnitude, or Over.
pub fn random_number(sequence: &mut Sequence) -> Weighed {
    match sequence.below(12) {
        0 => Weighed::zero(),
        1 => Weighed::new(0, u128::MAX),
        2 => Weighed::new(1, 1 << 126),
        _ => {
            let value = sequence.below(19) as i128 - 9;
            Weighed::new(value, value.unsigned_abs())
        }
    }
}

/// Some of the indices, in any order.
fn random_map(alloc: Global, sequence: &mut Sequence) -> Result<Rc<LocalMap>, Fail> {
    let mut list = Vec::new(alloc);
    for gid in 0..SIZE {
        if sequence.below(4) > 0 {
            let at = sequence.below(list.len() as u64 + 1) as usize;
            list.insert(at, gid)?;
        }
    }
    if list.len() > 1000 {
        return Err(Fail::new("too many indices"));
    }
    Ok(LocalMap::from_list(alloc, &list)?)
}

/// Up to 30 cells on the rows of a map: some places come more than once, some rows have none.
fn random_cells_on(
    alloc: Global,
    sequence: &mut Sequence,
    rows: &LocalMap,
) -> Result<Vec<Cell<Weighed>>, AllocError> {
    let mut cells = Vec::new(alloc);
    for _ in 0..sequence.below(31) {
        let lid = sequence.below(SIZE) as u32;
        if let Some(row) = rows.global_of(lid) {
            let col = sequence.below(SIZE);
            let value = random_number(sequence);
            cells.push(Cell { row, col, value })?;
        }
    }
    Ok(cells)
}

/// Random cells on the rows of a map, and their matrix.
fn random_fill(
    alloc: Global,
    sequence: &mut Sequence,
    rows: &Rc<LocalMap>,
) -> Result<Inserted, Fail> {
    let cells = random_cells_on(alloc, sequence, rows)?;
    let fill = filled(alloc, rows.clone()?, &cells)?;
    Ok(Inserted { cells, fill })
}

/// The matrix, completed with a domain.
fn complete(fill: MatrixFill<Weighed>, domain: &LocalMap) -> Result<CrsMatrix<Weighed>, Fail> {
    let count = fill.columns()?.len();
    if count > OWNERS.len() {
        return Err(Fail::new("too many columns"));
    }
    Ok(fill.fill_complete(domain, &OWNERS[..count])?)
}

/// A random matrix with a random domain.
pub fn random_case(alloc: Global, sequence: &mut Sequence) -> Result<Case, Fail> {
    let rows = random_map(alloc, sequence)?;
    let domain = random_map(alloc, sequence)?;
    let inserted = random_fill(alloc, sequence, &rows)?;
    let matrix = complete(inserted.fill, &domain)?;
    Ok(Case {
        domain,
        cells: inserted.cells,
        matrix,
    })
}

/// Whether a matrix under construction has the numbers of the cells, and no other place.
fn is_fill(fill: &MatrixFill<Weighed>, cells: &[Cell<Weighed>]) -> bool {
    for row in 0..SIZE {
        for col in 0..SIZE {
            if fill.get(row, col) != number_at(cells, row, col) {
                return false;
            }
        }
    }
    true
}

/// A vector on a map with random numbers.
fn random_vector(
    alloc: Global,
    sequence: &mut Sequence,
    map: &Rc<LocalMap>,
    columns: u32,
) -> Result<MultiVector<Weighed>, AllocError> {
    let mut vector = MultiVector::new(alloc, map.clone()?, columns, Weighed::zero())?;
    for lid in 0..map.len() {
        for col in 0..columns {
            if lid < vector.map().len() && col < vector.columns() {
                vector.set(lid, col, random_number(sequence));
            }
        }
    }
    Ok(vector)
}

/// The number of an entry with a global index, or zero where the vector has none.
fn entry(vector: &MultiVector<Weighed>, gid: Gid, col: u32) -> Weighed {
    match vector.map().local_of(gid) {
        Some(lid) if col < vector.columns() => vector.cell(lid, col),
        _ => Weighed::zero(),
    }
}

/// Whether each entry of y is `first` with the sum over the cells of its row of their number times x's, where a cell has its
/// column as the row if `is_turned`.
fn is_product(
    y: &MultiVector<Weighed>,
    first: Weighed,
    cells: &[Cell<Weighed>],
    x: &MultiVector<Weighed>,
    is_turned: bool,
) -> bool {
    for lid in 0..y.map().len() {
        let row = y.map().global_of(lid).unwrap_or(SIZE);
        for col in 0..y.columns() {
            let mut sum = first;
            for at in 0..cells.len() {
                let cell = cells[at];
                let (to, from) = if is_turned {
                    (cell.col, cell.row)
                } else {
                    (cell.row, cell.col)
                };
                if to == row {
                    sum = sum.add(cell.value.mul(entry(x, from, col)));
                }
            }
            if entry(y, row, col) != sum {
                return false;
            }
        }
    }
    true
}

/// Multiplies a vector of some columns by the matrix of a case.
fn is_applied(alloc: Global, sequence: &mut Sequence, case: &Case) -> Result<bool, Fail> {
    let a = &case.matrix;
    let columns = sequence.below(4) as u32;
    let first = random_number(sequence);
    let x = random_vector(alloc, sequence, a.graph().col_map(), columns)?;
    let mut y = MultiVector::new(alloc, a.row_map().clone()?, columns, first)?;
    if x.columns() != y.columns() || !x.map().same_list(a.graph().col_map()) {
        return Ok(false);
    }
    local_apply(a, &x, &mut y);
    Ok(is_product(&y, first, &case.cells, &x, false))
}

/// Multiplies a vector of some columns by the transposed matrix of a case.
fn is_applied_transposed(
    alloc: Global,
    sequence: &mut Sequence,
    case: &Case,
) -> Result<bool, Fail> {
    let a = &case.matrix;
    let columns = sequence.below(4) as u32;
    let first = random_number(sequence);
    let x = random_vector(alloc, sequence, a.row_map(), columns)?;
    let mut y = MultiVector::new(alloc, a.graph().col_map().clone()?, columns, first)?;
    if x.columns() != y.columns() || !x.map().same_list(a.row_map()) {
        return Ok(false);
    }
    local_apply_transposed(a, &x, &mut y);
    Ok(is_product(&y, first, &case.cells, &x, true))
}

#[test]
fn products_with_vectors(rt: HostRuntime) -> Result<(), Fail> {
    let mut sequence = Sequence::new(3);
    for _ in 0..CASES {
        let case = random_case(rt.alloc(), &mut sequence)?;
        assert!(rt; is_applied(rt.alloc(), &mut sequence, &case)?);
        assert!(rt; is_applied_transposed(rt.alloc(), &mut sequence, &case)?);
    }
    Ok(())
}

/// Transposes the matrix of a case.
fn is_transposed(alloc: Global, case: &Case) -> Result<bool, Fail> {
    let fill = local_transpose(alloc, &case.matrix)?;
    let is_same = fill.row_map().same_list(case.matrix.graph().col_map());
    Ok(is_same && is_fill(&fill, &turned(alloc, &case.cells)?))
}

/// Multiplies the matrix of a case by a random one.
fn is_multiplied(alloc: Global, sequence: &mut Sequence, case: &Case) -> Result<bool, Fail> {
    let b = random_fill(alloc, sequence, case.matrix.graph().col_map())?;
    if !b.fill.row_map().same_list(case.matrix.graph().col_map()) {
        return Ok(false);
    }
    let fill = local_product(alloc, &case.matrix, &b.fill)?;
    for row in 0..SIZE {
        for col in 0..SIZE {
            if fill.get(row, col) != product_at(&case.cells, &b.cells, SIZE, row, col) {
                return Ok(false);
            }
        }
    }
    Ok(true)
}

/// Adds a random matrix to that of a case.
fn is_added(alloc: Global, sequence: &mut Sequence, case: &Case) -> Result<bool, Fail> {
    let b = random_fill(alloc, sequence, case.matrix.row_map())?;
    let alpha = random_number(sequence);
    let beta = random_number(sequence);
    if !b.fill.row_map().same_list(case.matrix.row_map()) {
        return Ok(false);
    }
    let fill = local_add(alloc, alpha, &case.matrix, beta, &b.fill)?;
    for row in 0..SIZE {
        for col in 0..SIZE {
            let number = combination_at(alpha, &case.cells, beta, &b.cells, row, col);
            if fill.get(row, col) != number {
                return Ok(false);
            }
        }
    }
    Ok(true)
}

#[test]
fn transposes_products_and_sums(rt: HostRuntime) -> Result<(), Fail> {
    let mut sequence = Sequence::new(4);
    for _ in 0..CASES {
        let case = random_case(rt.alloc(), &mut sequence)?;
        assert!(rt; is_transposed(rt.alloc(), &case)?);
        assert!(rt; is_multiplied(rt.alloc(), &mut sequence, &case)?);
        assert!(rt; is_added(rt.alloc(), &mut sequence, &case)?);
    }
    Ok(())
}
