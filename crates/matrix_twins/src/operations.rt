//! The textbook operations on lists of cells.
ghost use Rattle.std.specs.Prelude.{◌≡◌, IfOk};
ghost use Rattle.std.specs.Option.{option_map};
ghost use Rattle.tables.specs.Sums.{both_or_one};
ghost use Rattle.tables.specs.Tables.{part_at, table_of};
ghost use Rattle.model_defs.specs.Operations.{combination, product, times_there, transpose};
ghost use Rattle.matrix_twins.specs.Cells.{turned_over};

use map_core::Gid;
use scalar_laws::Scalar;
use std::alloc::{AllocError, Global};
use tables::Cell;

/// The number of a matrix at a row and a column: the sum of all that its cells give there. `None` exactly where no cell names
/// the place.
pub fn number_at<S: Scalar>(cells: &[Cell<S>], row: Gid, col: Gid) -> Option<S>
    ensures number { result ≡ table_of S.semiring cells.now row col }
{
    let mut number = None;
    for at in 0..cells.len() {
        number = sum_there(number, part_of(cells[at], row, col));
    }
    number
}

/// The number of the product of two matrices at a row and a column: the sum over the `n` columns of the first one, which are
/// rows of the second. `None` exactly where no column has both places.
pub fn product_at<S: Scalar>(a: &[Cell<S>], b: &[Cell<S>], n: Gid, row: Gid, col: Gid) -> Option<S>
    ensures number { result ≡ product S.semiring n (table_of S.semiring a.now) (table_of S.semiring b.now) row col }
{
    let mut number = None;
    for k in 0..n {
        let term = product_there(number_at(a, row, k), number_at(b, k, col));
        number = sum_there(number, term);
    }
    number
}

/// The number of the sum of two matrices, each times a factor, at a row and a column. `None` exactly where neither has the
/// place.
pub fn combination_at<S: Scalar>(
    alpha: S,
    a: &[Cell<S>],
    beta: S,
    b: &[Cell<S>],
    row: Gid,
    col: Gid,
) -> Option<S>
    ensures number { result ≡ combination S.semiring alpha (table_of S.semiring a.now) beta (table_of S.semiring b.now) row col }
{
    sum_there(
        scaled_there(alpha, number_at(a, row, col)),
        scaled_there(beta, number_at(b, row, col)),
    )
}

/// The cells of the transposed matrix. `Err` means that memory ran out.
pub fn turned<S: Scalar>(alloc: Global, cells: &[Cell<S>]) -> Result<Vec<Cell<S>>, AllocError>
    ensures transpose { IfOk result (λ turned. table_of S.semiring turned.items ≡ transpose (table_of S.semiring cells.now)) }
{
    let mut turned = Vec::new(alloc);
    for at in 0..cells.len() {
        turned.push(turned_cell(cells[at]))?;
    }
    Ok(turned)
}

/// The cell with its row as its column.
fn turned_cell<S: Scalar>(cell: Cell<S>) -> Cell<S>
    ensures { result ≡ turned_over cell }
{
    Cell {
        row: cell.col,
        col: cell.row,
        value: cell.value,
    }
}

/// What a cell gives at a place.
fn part_of<S: Scalar>(cell: Cell<S>, row: Gid, col: Gid) -> Option<S>
    ensures { result ≡ part_at row col cell }
{
    if cell.row == row && cell.col == col {
        Some(cell.value)
    } else {
        None
    }
}

/// The sum of two numbers, or the one that is there.
fn sum_there<S: Scalar>(a: Option<S>, b: Option<S>) -> Option<S>
    ensures { result ≡ both_or_one S.semiring.plus a b }
{
    match (a, b) {
        (Some(a), Some(b)) => Some(a.add(b)),
        (None, b) => b,
        (a, None) => a,
    }
}

/// The product of two numbers, there only where both are.
fn product_there<S: Scalar>(a: Option<S>, b: Option<S>) -> Option<S>
    ensures { result ≡ times_there S.semiring a b }
{
    match (a, b) {
        (Some(a), Some(b)) => Some(a.mul(b)),
        _ => None,
    }
}

/// A number times a factor, there only where the number is.
fn scaled_there<S: Scalar>(factor: S, number: Option<S>) -> Option<S>
    ensures { result ≡ option_map (λ v. S.semiring.times factor v) number }
{
    match number {
        Some(number) => Some(factor.mul(number)),
        None => None,
    }
}
