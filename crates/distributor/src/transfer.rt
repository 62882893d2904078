//! Transfers by a plan.
ghost use Rattle.std.specs.Prelude.{◌≡◌, ◌<◌, ◌≤◌, ◌^◌, ◌++◌, ℕ, true, None, Some, length, map, nat_lt, ◌==◌, count_by, List, IfOk, IfErr, IsOk, OnOk, OnErr};
ghost use Rattle.std.specs.List.{list_all};
ghost use Rattle.distributor.specs.Entries.{Entry, with_cells};
ghost use Rattle.distributor.specs.Transfers.{IsPartOf, own_moves, moved_cells, nums_length, letter_lengths, IsPartReserved};
ghost use Rattle.byte_pool.specs.Blocks.{free_block, has_room};
ghost use Rattle.byte_pool.specs.Leases.{IsLeastRoom, leases, sizes, with_lease};
ghost use Rattle.distributor.specs.Packed.{kind_of, sent_entries, entries_letter, with_room};
ghost use Rattle.map_core.specs.Plans.{export_list, remote_list};
ghost use Rattle.letter_codec.specs.Parts.{AreParts};
ghost use Rattle.distributor.specs.Arrivals.{HasEntries, IsOfKind, IsFaultOf, IsNotThePlan, arrived_moves};

use crate::absorbing::{combine_nums, combine_rows};
use crate::combining::{combine_permuted, combine_same};
use crate::packing::{count_cells, count_words, lend_letter, make_room};
use crate::{AbsorbFault, DistSource, DistTarget};
use byte_pool::{Lease, Pool};
use combine_modes::Mode;
use letter_codec::{Kind, Letter, entry_count, letter_len};
use map_core::Plan;
use scalar_laws::Scalar;
use std::alloc::AllocError;
use std::marker::Model;

/// What one rank does to bring entries from a source to a target by a plan (`Tpetra::Distributor`).
#[derive(Drop)]
pub struct Transfer {
    plan: Plan,
    width: Option<u32>,
}

impl Model for Transfer {
    ghost use Rattle.distributor.specs.Transfers.{TransferState};

    ghost Value = { TransferState };

    ghost view = { λ t. record { plan = t.plan; width = t.width } };

    ghost use Rattle.distributor.specs.Transfers.{LettersFit};

    ghost invariant = { λ t. LettersFit (record { plan = t.plan; width = t.width }) };
}

impl Transfer {
    /// The transfer of entries that each have `width` numbers, 1 to 16, by a plan. In the pool it reserves, for each rank
    /// that the plan exports to, a block of the length of the letter to it. Each of these lengths is below 2^64. `Err`
    /// means that memory ran out; then the blocks that were made stay free in the pool.
    pub fn ready(plan: Plan, width: u32, pool: &mut Pool) -> Result<Transfer, AllocError>
        requires some_width { 1 ≤ width }
        requires width_limit { width ≤ 16 }
        requires letters_fit { (q : ℕ) → q < plan.ranks → nums_length (length (export_list plan q)) width < 2 ^ 64 }
        ensures transfer { IfOk result (λ t. t ≡ record { plan = plan; width = Some width }) }
        ensures reserved { OnOk result (pool.new ≡ pool.old ++ map free_block (letter_lengths width plan.exports)) }
        ensures part { OnErr result (IsPartReserved (letter_lengths width plan.exports) pool.old pool.new) }
    {
        reserve_letters(&plan, width, pool)?;
        Ok(Transfer::for_nums(plan, width))
    }

    /// The transfer of entries that each have `width` numbers, 1 to 16, by a plan. The letter to each rank has fewer than
    /// 2^64 bytes. It takes no memory, and no block is reserved: `pack` needs room in the pool that it is given.
    pub fn for_nums(plan: Plan, width: u32) -> Transfer
        requires some_width { 1 ≤ width }
        requires width_limit { width ≤ 16 }
        requires letters_fit { (q : ℕ) → q < plan.ranks → nums_length (length (export_list plan q)) width < 2 ^ 64 }
        ensures transfer { result ≡ record { plan = plan; width = Some width } }
    {
        Transfer {
            plan,
            width: Some(width),
        }
    }

    /// The transfer of rows by a plan. It takes no memory.
    pub fn for_rows(plan: Plan) -> Transfer
        ensures transfer { result ≡ record { plan = plan; width = None } }
    {
        Transfer { plan, width: None }
    }

    /// Combines the entries of the source that stay on the rank with the cells of the target: the same ones in ascending
    /// order of position, then the permuted ones in the order of their lists, the cells of each entry in their order.
    ///
    /// The plan's positions are those of the source, and the target takes every cell that comes. `Err` means that memory
    /// ran out; then a first part of the cells was combined. It does not come where the target is `FIXED`.
    pub fn local<S: Scalar, A: DistSource<S>, B: DistTarget<S>>(
        &self,
        source: &A,
        target: &mut B,
        mode: Mode,
    ) -> Result<(), AllocError>
        requires known { list_all (λ m. nat_lt m.0 (length (A.entries source.now))) (own_moves self.now.plan) ≡ true }
        requires taken { list_all (λ c. B.takes target.old c.row c.col) (moved_cells (A.entries source.now) (own_moves self.now.plan)) ≡ true }
        ensures cells { OnOk result (B.table target.new ≡ with_cells S.semiring mode B.FIXED (B.table target.old) (moved_cells (A.entries source.now) (own_moves self.now.plan))) }
        ensures part { OnErr result (IsPartOf S.semiring mode B.FIXED (B.table target.old) (moved_cells (A.entries source.now) (own_moves self.now.plan)) (B.table target.new)) }
        ensures takes { B.takes target.new ≡ B.takes target.old }
        ensures shape { B.same_shape target.old target.new }
        ensures always { B.FIXED ≡ true → IsOk result }
    {
        combine_same(source, self.plan.same(), target, mode)?;
        let froms = self.plan.permute_from();
        combine_permuted(source, froms, target, self.plan.permute_to(), mode)
    }

    /// The letter of the entries that the plan exports to a rank, in the order of their list and no others, in a block that
    /// the pool lends. The plan exports some entry to this rank, and its positions are those of the source.
    ///
    /// For entries of equally many numbers the kind is `Nums`, each entry has `width` cells, and the pool has a free block
    /// with room for the letter; the answer is `Ok`, and no memory is taken. For rows the kind is `Rows`, each entry has
    /// fewer than 2^32 cells, the letter has fewer than 2^64 bytes, and a block of its length is made first; `Err` means
    /// that memory ran out for it, and then the pool stays as it is. The block is the least that is large enough, and
    /// all other leases keep their bytes.
    pub fn pack<S: Scalar, A: DistSource<S>>(
        &self,
        kind: Kind,
        source: &A,
        to: u32,
        pool: &mut Pool,
    ) -> Result<Lease, AllocError>
        requires rank { to < self.now.plan.ranks }
        requires kind { kind ≡ kind_of self.now.width }
        requires some_entry { 1 ≤ length (export_list self.now.plan to) }
        requires known { list_all (λ p. nat_lt p (length (A.entries source.now))) (export_list self.now.plan to) ≡ true }
        requires widths { (width : ℕ) → self.now.width ≡ Some width
            → list_all (λ e. length e.cells == width) (sent_entries (A.entries source.now) (export_list self.now.plan to)) ≡ true }
        requires room { let letter = entries_letter S.conversions kind (sent_entries (A.entries source.now) (export_list self.now.plan to)) in
            kind ≡ Kind.Nums → 1 ≤ count_by (has_room (length letter)) pool.old }
        requires few { kind ≡ Kind.Rows
            → list_all (λ e. nat_lt (length e.cells) 4294967296) (sent_entries (A.entries source.now) (export_list self.now.plan to)) ≡ true }
        requires fits { let letter = entries_letter S.conversions kind (sent_entries (A.entries source.now) (export_list self.now.plan to)) in
            kind ≡ Kind.Rows → length letter < 2 ^ 64 }
        ensures always { kind ≡ Kind.Nums → IsOk result }
        ensures least { let letter = entries_letter S.conversions kind (sent_entries (A.entries source.now) (export_list self.now.plan to)) in
            IfOk result (λ lease. IsLeastRoom (length letter) (with_room kind (length letter) pool.old) lease) }
        ensures fresh { IfOk result (λ lease. leases pool.old lease ≡ None) }
        ensures letter { let letter = entries_letter S.conversions kind (sent_entries (A.entries source.now) (export_list self.now.plan to)) in
            IfOk result (λ lease. leases pool.new ≡ with_lease (leases pool.old) lease letter) }
        ensures sizes { let letter = entries_letter S.conversions kind (sent_entries (A.entries source.now) (export_list self.now.plan to)) in
            OnOk result (sizes pool.new ≡ sizes (with_room kind (length letter) pool.old)) }
        ensures err { OnErr result (pool.new ≡ pool.old) }
    {
        let list = self.plan.exports_to(to);
        let cells = count_cells(source, list);
        let words = count_words(kind, list.len() as u64, cells);
        let len = letter_len(words, cells);
        make_room(kind, len, pool)?;
        Ok(lend_letter(pool, len, kind, words, source, list))
    }

    /// Combines the entries of a letter from a rank with the cells of the target at the positions that the plan has for
    /// this rank: entry k at position k of the list, one entry after the other, the cells of each in their order.
    ///
    /// The letter is of the transfer's kind, and the target takes every cell that comes. `NotThePlan` comes exactly where
    /// the letter has another number of entries than the plan has positions, and then all stays. `NoMem` means that
    /// memory ran out; then a first part of the cells was combined. It does not come where the target is `FIXED`.
    pub fn absorb<S: Scalar, B: DistTarget<S>>(
        &self,
        letter: &Letter<'_>,
        from: u32,
        target: &mut B,
        mode: Mode,
    ) -> Result<(), AbsorbFault>
        requires known { from < self.now.plan.ranks }
        requires parts { AreParts letter.now }
        requires kind { IsOfKind self.now.width letter.now }
        requires taken { (entries : List (Entry S)) → HasEntries S.conversions self.now.width letter.now entries
            → length entries ≡ length (remote_list self.now.plan from)
            → list_all (λ c. B.takes target.old c.row c.col) (moved_cells entries (arrived_moves (remote_list self.now.plan from))) ≡ true }
        ensures entries { (entries : List (Entry S)) × HasEntries S.conversions self.now.width letter.now entries }
        ensures fault { (entries : List (Entry S)) → HasEntries S.conversions self.now.width letter.now entries
            → IfErr result (IsFaultOf (length entries) (length (remote_list self.now.plan from))) }
        ensures same_count { (entries : List (Entry S)) → HasEntries S.conversions self.now.width letter.now entries
            → OnOk result (length entries ≡ length (remote_list self.now.plan from)) }
        ensures cells { (entries : List (Entry S)) → HasEntries S.conversions self.now.width letter.now entries
            → OnOk result (B.table target.new ≡ with_cells S.semiring mode B.FIXED (B.table target.old) (moved_cells entries (arrived_moves (remote_list self.now.plan from)))) }
        ensures part { (entries : List (Entry S)) → HasEntries S.conversions self.now.width letter.now entries
            → OnErr result (IsPartOf S.semiring mode B.FIXED (B.table target.old) (moved_cells entries (arrived_moves (remote_list self.now.plan from))) (B.table target.new)) }
        ensures refused { IfErr result (λ fault. IsNotThePlan fault → B.table target.new ≡ B.table target.old) }
        ensures takes { B.takes target.new ≡ B.takes target.old }
        ensures shape { B.same_shape target.old target.new }
        ensures always { B.FIXED ≡ true → IfErr result IsNotThePlan }
    {
        let positions = self.plan.remotes_from(from);
        let have = entry_count(letter);
        let want = positions.len() as u64;
        if have != want {
            return Err(AbsorbFault::NotThePlan { have, want });
        }
        match self.width {
            Some(width) => combine_nums(letter, width, positions, target, mode)?,
            None => combine_rows(letter, positions, target, mode)?,
        }
        Ok(())
    }
}

/// The length of a letter of so many entries that each have `width` numbers.
#[inline]
fn nums_len(entries: u64, width: u32) -> u64
    requires fits { nums_length entries width < 2 ^ 64 }
    ensures length { result ≡ nums_length entries width }
{
    9 + 8 * entries + 32 * (entries * width as u64)
}

/// Reserves a block of the length of each letter.
fn reserve_letters(plan: &Plan, width: u32, pool: &mut Pool) -> Result<(), AllocError>
    requires letters_fit { (q : ℕ) → q < plan.now.ranks → nums_length (length (export_list plan.now q)) width < 2 ^ 64 }
    ensures reserved { OnOk result (pool.new ≡ pool.old ++ map free_block (letter_lengths width plan.now.exports)) }
    ensures part { OnErr result (IsPartReserved (letter_lengths width plan.now.exports) pool.old pool.new) }
{
    for rank in 0..plan.ranks() {
        let entries = plan.exports_to(rank).len() as u64;
        if entries > 0 {
            pool.reserve(1, nums_len(entries, width))?;
        }
    }
    Ok(())
}
