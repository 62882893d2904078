//! What one rank does in a transfer.
ghost use Rattle.std.specs.Prelude.{◌≡◌, ◌<◌, ◌≤◌, map, length, IfOk};
ghost use Rattle.std.specs.Rc.{rc_slice_items};
ghost use Rattle.map_core.specs.Plans.{IsPlan, export_list, remote_list, reversed};

use std::alloc::{AllocError, Global};
use std::marker::Model;
use std::rc::RcSlice;

/// What one rank sends, receives and copies when entries go from a source to a target: the leading positions at which
/// both have the same index, the permuted ones, which are copied inside the rank, and for each rank the source positions
/// that are sent to it and the target positions that it sends to (`Tpetra::Import`, `Tpetra::Export`).
///
/// All lists are of local indices, counted from 0. They never change, and several plans may share them.
#[derive(Drop)]
pub struct Plan {
    me: u32,
    ranks: u32,
    same: u32,
    permute_to: RcSlice<u32>,
    permute_from: RcSlice<u32>,
    exports: RcSlice<Vec<u32>>,
    remotes: RcSlice<Vec<u32>>,
}

impl Model for Plan {
    ghost use Rattle.std.specs.Prelude.{map};
    ghost use Rattle.std.specs.Rc.{rc_slice_items};
    ghost use Rattle.map_core.specs.Plans.{PlanLists, IsPlan};

    ghost Value = { PlanLists };

    ghost view = { λ a. record { me = a.me; ranks = a.ranks; same = a.same; permute_to = rc_slice_items a.permute_to; permute_from = rc_slice_items a.permute_from; exports = map (λ v. v.items) (rc_slice_items a.exports); remotes = map (λ v. v.items) (rc_slice_items a.remotes) } };

    ghost invariant = { λ a. IsPlan (record { me = a.me; ranks = a.ranks; same = a.same; permute_to = rc_slice_items a.permute_to; permute_from = rc_slice_items a.permute_from; exports = map (λ v. v.items) (rc_slice_items a.exports); remotes = map (λ v. v.items) (rc_slice_items a.remotes) }) };
}

impl Plan {
    /// The plan of rank `me` with these lists. There are at most 32 ranks, the two permute lists are of equal length, and
    /// there is one export list and one remote list per rank. `Err` means that memory ran out.
    pub fn new(
        alloc: Global,
        me: u32,
        ranks: u32,
        same: u32,
        permute_to: &[u32],
        permute_from: &[u32],
        exports: &[Vec<u32>],
        remotes: &[Vec<u32>],
    ) -> Result<Plan, AllocError>
        requires known { me < ranks }
        requires ranks_limit { ranks ≤ 32 }
        requires permuted { length permute_to.now ≡ length permute_from.now }
        requires exports_per_rank { length exports.now ≡ ranks }
        requires remotes_per_rank { length remotes.now ≡ ranks }
        ensures plan { IfOk result (λ plan. plan ≡ record { me = me; ranks = ranks; same = same; permute_to = permute_to.now; permute_from = permute_from.now; exports = map (λ v. v.items) exports.now; remotes = map (λ v. v.items) remotes.now }) }
    {
        let permute_to = RcSlice::from_slice(alloc, permute_to)?;
        let permute_from = RcSlice::from_slice(alloc, permute_from)?;
        let exports = shared_lists(alloc, exports)?;
        let remotes = shared_lists(alloc, remotes)?;
        Ok(Plan {
            me,
            ranks,
            same,
            permute_to,
            permute_from,
            exports,
            remotes,
        })
    }

    /// How many ranks there are: 1 to 32.
    pub fn ranks(&self) -> u32
        ensures ranks { result ≡ self.now.ranks }
        ensures is_plan { IsPlan self.now }
    {
        self.ranks
    }

    /// The rank whose plan this is.
    pub fn me(&self) -> u32
        ensures me { result ≡ self.now.me }
        ensures known { result < self.now.ranks }
    {
        self.me
    }

    /// How many leading positions have the same index in source and target.
    pub fn same(&self) -> u32
        ensures same { result ≡ self.now.same }
    {
        self.same
    }

    /// The target positions of the permuted indices.
    pub fn permute_to(&self) -> &[u32]
        ensures targets { result.now ≡ self.now.permute_to }
        ensures equal_length { length result.now ≡ length self.now.permute_from }
    {
        self.permute_to.as_slice()
    }

    /// The source positions of the permuted indices, in the order of `permute_to`.
    pub fn permute_from(&self) -> &[u32]
        ensures sources { result.now ≡ self.now.permute_from }
        ensures equal_length { length result.now ≡ length self.now.permute_to }
    {
        self.permute_from.as_slice()
    }

    /// The source positions that are sent to a rank, which is below the number of ranks, in the order of sending.
    pub fn exports_to(&self, rank: u32) -> &[u32]
        requires known { rank < self.now.ranks }
        ensures sources { result.now ≡ export_list self.now rank }
    {
        self.exports.as_slice()[rank as usize].as_slice()
    }

    /// The target positions that a rank, which is below the number of ranks, sends to, in the order of sending.
    pub fn remotes_from(&self, rank: u32) -> &[u32]
        requires known { rank < self.now.ranks }
        ensures targets { result.now ≡ remote_list self.now rank }
    {
        self.remotes.as_slice()[rank as usize].as_slice()
    }

    /// The same plan once more: the lists are shared. `Err` means that memory ran out.
    pub fn share(&self) -> Result<Plan, AllocError>
        ensures same { IfOk result (λ plan. plan ≡ self.now) }
    {
        Ok(Plan {
            me: self.me,
            ranks: self.ranks,
            same: self.same,
            permute_to: self.permute_to.clone()?,
            permute_from: self.permute_from.clone()?,
            exports: self.exports.clone()?,
            remotes: self.remotes.clone()?,
        })
    }

    /// The plan of the way back: source and target are exchanged, so what was sent to a rank comes from it, and each
    /// permuted index goes the other way. No memory is taken.
    pub fn reverse(self) -> Plan
        ensures reversed { result ≡ reversed self }
    {
        Plan {
            me: self.me,
            ranks: self.ranks,
            same: self.same,
            permute_to: self.permute_from,
            permute_from: self.permute_to,
            exports: self.remotes,
            remotes: self.exports,
        }
    }
}

/// The lists, kept so that several plans may share them.
fn shared_lists(alloc: Global, lists: &[Vec<u32>]) -> Result<RcSlice<Vec<u32>>, AllocError>
    ensures kept { IfOk result (λ kept. map (λ v. v.items) (rc_slice_items kept) ≡ map (λ v. v.items) lists.now) }
{
    let mut copies = Vec::with_capacity(alloc, lists.len())?;
    for list in lists {
        copies.push(Vec::from_slice(alloc, list.as_slice())?)?;
    }
    RcSlice::from_vec(copies)
}
