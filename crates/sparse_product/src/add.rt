//! Sums of rows.
ghost use Rattle.std.specs.Prelude.{◌≡◌, ◌<◌, ℕ, length, OnOk, IfOk};
ghost use Rattle.tables.specs.Indices.{stands};
ghost use Rattle.distributor.specs.Entries.{entry_at};
ghost use Rattle.model_defs.specs.Operations.{combination};
ghost use Rattle.crs_matrix.specs.Matrices.{crs_table};
ghost use Rattle.crs_matrix.specs.Rows.{local_table, row_table};
ghost use Rattle.sparse_product.specs.Rows.{scaled_at, with_row};

use combine_modes::Mode;
use crs_matrix::{CrsMatrix, MatrixFill};
use distributor::{DistSource, DistTarget};
use scalar_laws::Scalar;
use std::alloc::{AllocError, Global};

/// The sum of the rows that a rank holds of two matrices, each times a factor (`Tpetra::MatrixMatrix::add`, on one rank).
/// Their row maps have the same indices; the result is on a's. It has a place where one of them has it: an absent place
/// counts as zero. `Err` means that memory ran out.
pub fn local_add<S: Scalar>(
    alloc: Global,
    alpha: S,
    a: &CrsMatrix<S>,
    beta: S,
    b: &MatrixFill<S>,
) -> Result<MatrixFill<S>, AllocError>
    requires same_rows { (g : ℕ) → stands g a.now.graph.rows ≡ stands g b.now.rows }
    ensures rows { IfOk result (λ c. c.rows ≡ a.now.graph.rows) }
    ensures sum { IfOk result (λ c. row_table c ≡ combination S.semiring alpha (crs_table a.now) beta (row_table b.now)) }
{
    let rows = a.row_map();
    let others = b.row_map();
    let mut sum = MatrixFill::new(alloc, rows.clone()?)?;
    for lid in 0..rows.len() {
        let Some(from) = others.local_of(a.gid(lid)) else {
            unreachable!();
        };
        add_entry(&mut sum, lid, alpha, a, lid)?;
        add_entry(&mut sum, lid, beta, b, from)?;
    }
    Ok(sum)
}

/// Adds the cells of an entry of a source, each times a factor, to a row of a matrix. `Err` means that memory ran out.
pub(crate) fn add_entry<S: Scalar, A: DistSource<S>>(
    target: &mut MatrixFill<S>,
    lid: u32,
    factor: S,
    source: &A,
    from: u32,
) -> Result<(), AllocError>
    requires known { from < length (A.entries source.now) }
    requires row { lid < length target.old.rows }
    ensures row { OnOk result (local_table target.new ≡ with_row S.semiring (local_table target.old) lid (scaled_at S.semiring factor (entry_at (A.entries source.now) from).cells)) }
    ensures rows { target.new.rows ≡ target.old.rows }
{
    for at in 0..source.count(from) {
        let (col, value) = source.cell(from, at);
        target.combine(lid, col, factor.mul(value), Mode::Add)?;
    }
    Ok(())
}
