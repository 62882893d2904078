//! The matrices that are given.
ghost use Rattle.std.specs.Prelude.{◌≡◌, ◌<◌, ◌≤◌, ℕ, IfOk, length, unsigned_abs};
ghost use Rattle.scalar_laws.specs.Number.{new_number};
ghost use Rattle.scalar_laws.specs.Weighed.{num_of};
ghost use Rattle.tables.specs.Tables.{table_of, AreWithin};
ghost use Rattle.map_core.specs.Layouts.{rank_list};
ghost use Rattle.map_core.specs.Uniform.{uniform_layout};
ghost use Rattle.crs_graph.specs.Fills.{has_place};
ghost use Rattle.crs_graph.specs.Graphs.{graph_has};
ghost use Rattle.crs_matrix.specs.Matrices.{crs_table};
ghost use Rattle.crs_matrix.specs.Rows.{row_table};

use crs_graph::{CrsGraph, FillFault, GraphFill};
use crs_matrix::{CrsMatrix, MatrixFill};
use map_core::{Gid, Layout, LocalMap};
use matrix_twins::{Sequence, filled, random_cells};
use scalar_laws::{Scalar, Weighed};
use std::alloc::{AllocError, Global};
use std::rc::Rc;
use tables::Cell;

/// The indices 0, 1, .. of one rank that has all rows.
pub fn row_map(alloc: Global, rows: u32) -> Result<Rc<LocalMap>, AllocError>
    requires few { rows ≤ 4000000 }
    ensures rows { IfOk result (λ map. map.value ≡ rank_list (uniform_layout 1 rows) 0) }
{
    let layout = Layout::uniform(alloc, 1, rows as u64)?;
    Ok(layout.list(0).clone()?)
}

/// So many cells at random places of a square matrix.
pub fn scattered(alloc: Global, rows: u32, count: u32) -> Result<Vec<Cell<Weighed>>, AllocError>
    requires some { 0 < rows }
    ensures count { IfOk result (λ cells. length cells.items ≡ count) }
    ensures within { IfOk result (λ cells. AreWithin rows rows cells.items) }
{
    random_cells(
        alloc,
        &mut Sequence::new(7),
        count,
        rows as Gid,
        rows as Gid,
    )
}

/// The cells of the tridiagonal matrix with 2 on the diagonal and -1 on both sides of it.
pub fn tridiagonal(alloc: Global, rows: u32) -> Result<Vec<Cell<Weighed>>, AllocError>
    ensures within { IfOk result (λ cells. AreWithin rows rows cells.items) }
{
    let mut cells = Vec::new(alloc);
    for row in 0..rows {
        if row > 0 {
            cells.push(cell(row, row - 1, -1))?;
        }
        cells.push(cell(row, row, 2))?;
        if row + 1 < rows {
            cells.push(cell(row, row + 1, -1))?;
        }
    }
    Ok(cells)
}

/// A cell with a small number.
fn cell(row: u32, col: u32, value: i8) -> Cell<Weighed>
    ensures row { result.row ≡ row }
    ensures col { result.col ≡ col }
{
    Cell {
        row: row as Gid,
        col: col as Gid,
        value: whole(value as i128),
    }
}

/// The number of a value, which weighs its magnitude.
pub fn whole(value: i128) -> Weighed
    ensures number { num_of result ≡ new_number value (unsigned_abs value) }
{
    Weighed::new(value, value.unsigned_abs())
}

/// The matrix of cells on the rows of a map, which is its domain too, with columns of one owner. `NoMem` comes also where
/// there are more columns than a column map has.
pub fn built<S: Scalar>(
    alloc: Global,
    rows: &Rc<LocalMap>,
    cells: &[Cell<S>],
) -> Result<CrsMatrix<S>, FillFault>
    ensures rows { IfOk result (λ a. a.graph.rows ≡ rows.now.value) }
    ensures table { IfOk result (λ a. crs_table a ≡ table_of S.semiring cells.now) }
{
    let fill = filled(alloc, rows.clone()?, cells)?;
    let a = completed(alloc, rows, fill)?;
    Ok(a)
}

/// The same, once the cells are inserted.
pub fn completed<S: Scalar>(
    alloc: Global,
    domain: &LocalMap,
    fill: MatrixFill<S>,
) -> Result<CrsMatrix<S>, AllocError>
    ensures rows { IfOk result (λ a. a.graph.rows ≡ fill.rows) }
    ensures table { IfOk result (λ a. crs_table a ≡ row_table fill) }
{
    let count = fill.columns()?.len();
    if count > u32::MAX as usize {
        return Err(AllocError);
    }
    let owners = zeros(alloc, count)?;
    fill.fill_complete(domain, &owners)
}

/// The structure of a fill on the rows of a map, which is its domain too.
pub fn structured(
    alloc: Global,
    domain: &LocalMap,
    fill: GraphFill,
) -> Result<Rc<CrsGraph>, AllocError>
    ensures places { IfOk result (λ graph. (row col : ℕ) → graph_has graph.value row col ≡ has_place fill row col) }
{
    let count = fill.columns()?.len();
    if count > u32::MAX as usize {
        return Err(AllocError);
    }
    let owners = zeros(alloc, count)?;
    fill.fill_complete(domain, &owners)
}

/// So many times rank 0.
fn zeros(alloc: Global, count: usize) -> Result<Vec<u32>, AllocError>
    ensures { IfOk result (λ owners. length owners.items ≡ count) }
{
    vec![in alloc; 0; count]
}
