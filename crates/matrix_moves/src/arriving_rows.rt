//! A matrix to which rows come.
ghost use Rattle.std.specs.Prelude.{◌≡◌, ◌<◌, ◌≤◌, ℕ, None, nat_lt, length, IfOk, OnOk, OnErr};
ghost use Rattle.tables.specs.Indices.{AreBelow};
ghost use Rattle.tables.specs.Tables.{found};
ghost use Rattle.map_core.specs.Plans.{export_list, remote_list};
ghost use Rattle.byte_pool.specs.Leases.{leases, with_lease};
ghost use Rattle.crs_matrix.specs.Rows.{row_table};
ghost use Rattle.vector_moves.specs.Moves.{AreMoves, own_sources, own_targets};
ghost use Rattle.matrix_moves.specs.Sources.{HasWidth, IsRowSource, as_rows, own_rows, rows_letter, rows_to};
ghost use Rattle.matrix_moves.specs.Arrivals.{HasTargets, IsPartGathered, IsPlacesLetter, after_table, cells_of_letter, rows_from};

use crate::moving;
use byte_pool::{Lease, Pool};
use combine_modes::Mode;
use crs_matrix::MatrixFill;
use distributor::{DistSource, Transfer};
use map_core::Plan;
use scalar_laws::Scalar;
use std::alloc::AllocError;
use std::marker::Model;

/// A matrix in the making: the transfer by which rows come to it, and what was gathered so far.
#[derive(Drop)]
pub struct ArrivingRows<S> {
    plan: Plan,
    transfer: Transfer,
    mode: Mode,
    fill: MatrixFill<S>,
}

impl<S> Model for ArrivingRows<S> {
    ghost use Rattle.matrix_moves.specs.Arrivals.{ArrivingRowsState, IsArrivingRows};

    ghost Value = { ArrivingRowsState S };

    ghost view = { λ a. record { plan = a.plan; mode = a.mode; fill = a.fill } };

    ghost invariant = { λ a. IsArrivingRows (record { plan = a.plan; mode = a.mode; fill = a.fill }) a.transfer };
}

impl<S: Scalar> ArrivingRows<S> {
    /// Combines the rows of a source that stay on the rank into `target`: those at the plan's same and permuted positions, each
    /// with the row of its global index, place by place. `target` has no places where the statement has no old matrix. All other
    /// rows stay.
    ///
    /// The source has rows of distinct global indices, each with ascending columns, as each matrix has. The plan's same and
    /// permuted positions have equal global indices in the two, and the positions that it has for the rows of a rank are those
    /// of `target`, none of them twice. `Err` means that memory ran out, and `target` is given up.
    pub fn begin<A: DistSource<S>>(
        plan: Plan,
        source: &A,
        target: MatrixFill<S>,
        mode: Mode,
    ) -> Result<ArrivingRows<S>, AllocError>
        requires source { IsRowSource (as_rows (A.entries source.now)) }
        requires own { AreMoves (as_rows (A.entries source.now)).rows target.rows (own_sources plan) (own_targets plan) }
        requires targets { HasTargets plan target.rows }
        ensures plan { IfOk result (λ a. a.plan ≡ plan) }
        ensures mode { IfOk result (λ a. a.mode ≡ mode) }
        ensures rows { IfOk result (λ a. a.fill.rows ≡ target.rows) }
        ensures table { IfOk result (λ a. row_table a.fill ≡ after_table S.semiring mode (row_table target) (own_rows plan (as_rows (A.entries source.now)))) }
    {
        let kept = plan.share()?;
        let transfer = Transfer::for_rows(plan);
        let mut fill = target;
        moving::local(&transfer, source, &mut fill, mode)?;
        Ok(ArrivingRows {
            plan: kept,
            transfer,
            mode,
            fill,
        })
    }

    /// Whether the plan sends some row to a rank.
    pub fn has_letter_to(&self, q: u32) -> bool
        requires rank { q < self.now.plan.ranks }
        ensures rows { result ≡ nat_lt 0 (length (export_list self.now.plan q)) }
    {
        self.plan.exports_to(q).len() > 0
    }

    /// Whether the plan has a position for the rows of a rank.
    pub fn has_letter_from(&self, q: u32) -> bool
        requires rank { q < self.now.plan.ranks }
        ensures rows { result ≡ nat_lt 0 (length (remote_list self.now.plan q)) }
    {
        self.plan.remotes_from(q).len() > 0
    }

    /// The letter of the rows that the plan sends to a rank, in the order of their list, in a block of its length that the pool
    /// lends: of each row, also of one without places, its global index, the number of its places and their columns, and behind
    /// all of them the numbers. Whatever width the columns are below, it is the letter of the source's table.
    ///
    /// The plan sends some row to this rank, its positions are those of the source, whose rows have distinct global indices and
    /// ascending columns. All other leases stay. `Err` means that memory ran out, which it does for a row of 2^32 places; then
    /// all leases stay.
    pub fn pack<A: DistSource<S>>(
        &self,
        source: &A,
        to: u32,
        pool: &mut Pool,
    ) -> Result<Lease, AllocError>
        requires rank { to < self.now.plan.ranks }
        requires some_row { 1 ≤ length (export_list self.now.plan to) }
        requires source { IsRowSource (as_rows (A.entries source.now)) }
        requires sources { AreBelow (length (as_rows (A.entries source.now)).rows) (export_list self.now.plan to) }
        ensures fresh { IfOk result (λ lease. leases pool.old lease ≡ None) }
        ensures letter { IfOk result (λ lease. (width : ℕ) → HasWidth width (row_table (as_rows (A.entries source.now)))
            → leases pool.new ≡ with_lease (leases pool.old) lease
            (rows_letter S.conversions width (row_table (as_rows (A.entries source.now))) (rows_to self.now.plan (as_rows (A.entries source.now)).rows to))) }
        ensures err { OnErr result (leases pool.new ≡ leases pool.old) }
    {
        moving::pack(&self.transfer, source, self.plan.exports_to(to), to, pool)
    }

    /// Combines the cells of a letter from a rank, given as its bytes, with those of the matrix at the same global indices. All
    /// other places stay.
    ///
    /// The letter has the rows that the plan has positions for, in their order; which places they have and which numbers is
    /// not asked. `Err` means that memory ran out; then a first part of its cells was combined, and plan, mode and rows stay.
    pub fn absorb(&mut self, from: u32, bytes: &[u8]) -> Result<(), AllocError>
        requires rank { from < self.old.plan.ranks }
        requires letter { IsPlacesLetter bytes.now (rows_from self.old.plan self.old.fill.rows from) }
        ensures table { let rows = rows_from self.old.plan self.old.fill.rows from in
            (letter : IsPlacesLetter bytes.now rows) → OnOk result (row_table self.new.fill ≡ after_table S.semiring self.old.mode (row_table self.old.fill) (found (cells_of_letter S.conversions bytes.now rows letter))) }
        ensures part { let rows = rows_from self.old.plan self.old.fill.rows from in
            (letter : IsPlacesLetter bytes.now rows) → OnErr result (IsPartGathered S.semiring self.old.mode (row_table self.old.fill) (cells_of_letter S.conversions bytes.now rows letter) (row_table self.new.fill)) }
        ensures plan { self.new.plan ≡ self.old.plan }
        ensures mode { self.new.mode ≡ self.old.mode }
        ensures rows { self.new.fill.rows ≡ self.old.fill.rows }
    {
        moving::absorb(&self.transfer, bytes, from, &mut self.fill, self.mode)
    }

    /// The matrix under construction, with all that came.
    pub fn into_fill(self) -> MatrixFill<S>
        ensures fill { result ≡ self.fill }
    {
        self.fill
    }
}
