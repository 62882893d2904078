//! Rows that become columns.
ghost use Rattle.std.specs.Prelude.{◌≡◌, ◌<◌, Some, length, IfOk, OnOk};
ghost use Rattle.tables.specs.Indices.{AreBelow};
ghost use Rattle.map_core.specs.Layouts.{global_index, local_index};
ghost use Rattle.model_defs.specs.Operations.{transpose};
ghost use Rattle.crs_graph.specs.Ascending.{IsAscending};
ghost use Rattle.crs_matrix.specs.Matrices.{crs_table, number_at_place};
ghost use Rattle.crs_matrix.specs.Rows.{local_table, row_table};
ghost use Rattle.transpose.specs.Columns.{with_column};

use combine_modes::Mode;
use crs_matrix::{CrsMatrix, MatrixFill};
use distributor::DistTarget;
use map_core::{Gid, LocalMap};
use scalar_laws::Scalar;
use std::alloc::{AllocError, Global};

/// The transpose of the rows that a rank holds (`Tpetra::RowMatrixTransposer::createTransposeLocal`): at row j and column i,
/// global indices both, it has a's number at row i and column j, and no other place. A zero that a has is there too. Its rows
/// are those of a's column map. `Err` means that memory ran out.
pub fn local_transpose<S: Scalar>(
    alloc: Global,
    a: &CrsMatrix<S>,
) -> Result<MatrixFill<S>, AllocError>
    ensures rows { IfOk result (λ t. t.rows ≡ a.now.graph.cols) }
    ensures transpose { IfOk result (λ t. row_table t ≡ transpose (crs_table a.now)) }
{
    let rows = a.graph().row_map();
    let cols = a.graph().col_map();
    let mut turned = MatrixFill::new(alloc, cols.clone()?)?;
    for lid in 0..rows.len() {
        let gid = index_of(rows, lid);
        turn_row(&mut turned, gid, a.graph().row(lid), a.row(lid))?;
    }
    Ok(turned)
}

/// The global index of a local one.
fn index_of(map: &LocalMap, lid: u32) -> Gid
    requires known { lid < length map.now }
    ensures index { global_index map.now lid ≡ Some result }
{
    match map.global_of(lid) {
        Some(gid) => gid,
        None => unreachable!(),
    }
}

/// Adds the numbers of a row, whose columns are local rows of the target, to a column of it. `Err` means that memory ran
/// out.
fn turn_row<S: Scalar>(
    target: &mut MatrixFill<S>,
    gid: Gid,
    columns: &[u32],
    numbers: &[S],
) -> Result<(), AllocError>
    requires ascend { IsAscending columns.now }
    requires within { AreBelow (length target.old.rows) columns.now }
    requires as_many { length numbers.now ≡ length columns.now }
    ensures column { OnOk result (local_table target.new ≡ with_column S.semiring (local_table target.old) gid (λ l. number_at_place numbers.now (local_index columns.now l))) }
    ensures rows { target.new.rows ≡ target.old.rows }
{
    for at in 0..columns.len() {
        target.combine(columns[at], gid, numbers[at], Mode::Add)?;
    }
    Ok(())
}
