//! A vector to which rows come.
ghost use Rattle.std.specs.Prelude.{◌≡◌, ◌<◌, ◌≤◌, ◌^◌, ℕ, None, nat_lt, length, IfOk, IsOk, OnErr};
ghost use Rattle.tables.specs.Indices.{AreBelow};
ghost use Rattle.map_core.specs.Plans.{export_list, remote_list};
ghost use Rattle.byte_pool.specs.Leases.{leases, with_lease};
ghost use Rattle.multivector.specs.Vectors.{HasSameShape};
ghost use Rattle.vector_moves.specs.Moves.{AreMoves, IsRowsLetter, own_sources, own_targets};
ghost use Rattle.rank_values.specs.Vectors.{global_table};
ghost use Rattle.rank_transfers.specs.Arrivals.{HasFewRows, HasTargets, after_table, numbers_table, own_rows, rows_from, rows_to, table_letter};

use crate::room::{letter_length, make_room};
use byte_pool::{Lease, Pool};
use combine_modes::Mode;
use distributor::Transfer;
use map_core::Plan;
use multivector::MultiVector;
use scalar_laws::Scalar;
use std::alloc::AllocError;
use std::marker::Model;

/// A vector in the making: the transfer by which rows come to it, and what was gathered so far.
#[derive(Drop)]
pub struct Arriving<S> {
    plan: Plan,
    transfer: Transfer,
    mode: Mode,
    vector: MultiVector<S>,
}

impl<S> Model for Arriving<S> {
    ghost use Rattle.rank_transfers.specs.Arrivals.{ArrivingState, IsArriving};

    ghost Value = { ArrivingState S };

    ghost view = { λ a. record { plan = a.plan; mode = a.mode; vector = a.vector } };

    ghost invariant = { λ a. IsArriving (record { plan = a.plan; mode = a.mode; vector = a.vector }) a.transfer };
}

impl<S: Scalar> Arriving<S> {
    /// Combines the rows of `source` that stay on the rank into `target`: those at the plan's same and permuted positions, each
    /// with the row of its global index. `target` has zeros where the statement has no old values. All other rows stay.
    ///
    /// Both vectors have equally many columns, 1 to 16. The plan's same and permuted positions have equal global indices in
    /// the two, it sends at most 2^40 rows to a rank, and the positions that it has for the rows of a rank are those of
    /// `target`, none of them twice.
    ///
    /// `Err` means that memory ran out.
    pub fn begin(
        plan: Plan,
        source: &MultiVector<S>,
        target: MultiVector<S>,
        mode: Mode,
    ) -> Result<Arriving<S>, AllocError>
        requires columns { source.now.columns ≡ target.columns }
        requires some_column { 1 ≤ target.columns }
        requires columns_limit { target.columns ≤ 16 }
        requires few_rows { HasFewRows plan }
        requires own { AreMoves source.now.map target.map (own_sources plan) (own_targets plan) }
        requires targets { HasTargets plan target.map }
        ensures plan { IfOk result (λ a. a.plan ≡ plan) }
        ensures mode { IfOk result (λ a. a.mode ≡ mode) }
        ensures shape { IfOk result (λ a. HasSameShape target a.vector) }
        ensures rows { IfOk result (λ a. global_table a.vector ≡ after_table S.semiring mode (global_table target) (own_rows plan source.now)) }
    {
        let kept = plan.share()?;
        let transfer = vector_moves::for_vectors(source, plan);
        let mut vector = target;
        vector_moves::local(&transfer, source, &mut vector, mode);
        Ok(Arriving {
            plan: kept,
            transfer,
            mode,
            vector,
        })
    }

    /// Whether the plan sends some row to a rank.
    pub fn has_letter_to(&self, q: u32) -> bool
        requires rank { q < self.now.plan.ranks }
        ensures rows { result ≡ nat_lt 0 (length (export_list self.now.plan q)) }
    {
        self.plan.exports_to(q).len() > 0
    }

    /// Whether the plan has a position for the rows of a rank.
    pub fn has_letter_from(&self, q: u32) -> bool
        requires rank { q < self.now.plan.ranks }
        ensures rows { result ≡ nat_lt 0 (length (remote_list self.now.plan q)) }
    {
        self.plan.remotes_from(q).len() > 0
    }

    /// The letter of the rows that the plan sends to a rank, in the order of their list, in a block that the pool lends: the
    /// global indices of the rows, and behind them the numbers of `source` row after row.
    ///
    /// The plan sends some row to this rank, its positions are those of `source`, and `source` has as many columns as the
    /// vector. Where no free block has room for the letter, one is made. All other leases stay. `Err` means that memory
    /// ran out; then all leases stay.
    pub fn pack(
        &self,
        source: &MultiVector<S>,
        to: u32,
        pool: &mut Pool,
    ) -> Result<Lease, AllocError>
        requires rank { to < self.now.plan.ranks }
        requires columns { source.now.columns ≡ self.now.vector.columns }
        requires some_row { 1 ≤ length (export_list self.now.plan to) }
        requires sources { AreBelow (length source.now.map) (export_list self.now.plan to) }
        ensures fresh { IfOk result (λ lease. leases pool.old lease ≡ None) }
        ensures letter { IfOk result (λ lease. leases pool.new ≡ with_lease (leases pool.old) lease
            (table_letter S.semiring S.conversions source.now.columns (global_table source.now) (rows_to self.now.plan source.now.map to))) }
        ensures err { OnErr result (leases pool.new ≡ leases pool.old) }
    {
        let _ = source.map().len();
        let rows = self.plan.exports_to(to).len() as u64;
        make_room(letter_length(rows, source.columns()), pool)?;
        Ok(vector_moves::pack(&self.transfer, source, to, pool))
    }

    /// Combines the rows of a letter from a rank, given as its bytes, with those of the vector at the same global index. All
    /// other rows stay. It takes no memory.
    ///
    /// The letter has the rows that the plan has positions for, in their order, and as many numbers each as the vector has
    /// columns; which numbers they are is not asked.
    pub fn absorb(&mut self, from: u32, bytes: &[u8]) -> Result<(), AllocError>
        requires rank { from < self.old.plan.ranks }
        requires letter { IsRowsLetter self.old.vector.columns bytes.now (rows_from self.old.plan self.old.vector.map from) }
        ensures rows { (letter : IsRowsLetter self.old.vector.columns bytes.now (rows_from self.old.plan self.old.vector.map from))
            → global_table self.new.vector ≡ after_table S.semiring self.old.mode (global_table self.old.vector)
            (numbers_table S.conversions self.old.vector.columns (rows_from self.old.plan self.old.vector.map from) letter.numbers) }
        ensures always { IsOk result }
        ensures plan { self.new.plan ≡ self.old.plan }
        ensures mode { self.new.mode ≡ self.old.mode }
        ensures shape { HasSameShape self.old.vector self.new.vector }
    {
        match vector_moves::absorb(&self.transfer, bytes, from, &mut self.vector, self.mode) {
            Ok(()) => Ok(()),
            Err(_) => unreachable!(),
        }
    }

    /// The vector, with all that came.
    pub fn into_vector(self) -> MultiVector<S>
        ensures vector { result ≡ self.vector }
    {
        self.vector
    }
}
