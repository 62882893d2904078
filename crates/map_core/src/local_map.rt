//! The indices of one rank.
ghost use Rattle.std.specs.Prelude.{◌≡◌, ◌+◌, ◌*◌, ◌<◌, ◌≤◌, ◌^◌, ◌↔◌, true, length, nat_eq, is_some, IsSome, IfSome, IfOk, IfErr, OnOk};
ghost use Rattle.indexmap.specs.IndexSet.{IsUnique};
ghost use Rattle.map_core.specs.Layouts.{stands, local_index, global_index, AreDistinct};
ghost use Rattle.map_core.specs.Faults.{IsFaultOf};
ghost use Rattle.map_core.specs.Strides.{stride_list};

use crate::stride::Stride;
use crate::{Gid, ListFault};
use indexmap::IndexSet;
use std::alloc::{AllocError, Global};
use std::marker::Model;
use std::rc::Rc;

/// How the indices are kept.
#[derive(Drop)]
enum Kept {
    /// A list of its own.
    Listed(IndexSet<Gid>),
    /// Indices at equal distances, known by arithmetic.
    Strided(Stride),
}

/// An ordered list of distinct global indices: those of a rank. The local index of a global index is its place,
/// counted from 0 (`Tpetra::Map`). Both directions take constant time.
#[derive(Drop)]
pub struct LocalMap {
    kept: Kept,
}

impl Model for LocalMap {
    ghost use Rattle.std.specs.Prelude.{ℕ, List};

    ghost Value = { List ℕ };

    ghost use Rattle.map_core.specs.Kept.{kept_list, IsKept};

    ghost view = { λ a. kept_list a.kept };

    ghost invariant = { λ a. IsKept a.kept };
}

impl LocalMap {
    /// The map that has the list as it stands, of fewer than 2^32 indices.
    ///
    /// `Repeated` comes exactly where an index stands twice, with the first one that stands earlier in the list. `NoMem`
    /// means that memory ran out.
    pub fn from_list(alloc: Global, gids: &[Gid]) -> Result<Rc<LocalMap>, ListFault>
        requires few { length gids.now < 2 ^ 32 }
        ensures kept { IfOk result (λ map. map.value ≡ gids.now) }
        ensures distinct { OnOk result (AreDistinct gids.now) }
        ensures refused { IfErr result (IsFaultOf gids.now) }
    {
        let mut set = IndexSet::with_capacity(alloc, gids.len())?;
        for gid in gids {
            if !set.insert(*gid)? {
                return Err(ListFault::Repeated { gid: *gid });
            }
        }
        Ok(LocalMap::listed(alloc, set)?)
    }

    /// The map of the indices of a set, fewer than 2^32, in the order in which they were inserted.
    pub(crate) fn listed(alloc: Global, gids: IndexSet<Gid>) -> Result<Rc<LocalMap>, AllocError>
        requires unique { IsUnique nat_eq gids }
        requires few { length gids.keys < 2 ^ 32 }
        ensures kept { IfOk result (λ map. map.value ≡ gids.keys) }
    {
        let kept = Kept::Listed(gids);
        Ok(Rc::new(alloc, LocalMap { kept })?)
    }

    /// The map of `count` indices from `first` on, each `step` above the one before it.
    pub(crate) fn strided(
        alloc: Global,
        first: Gid,
        step: Gid,
        count: u32,
    ) -> Result<Rc<LocalMap>, AllocError>
        requires rises { 1 ≤ step }
        requires room { first + count * step < 2 ^ 64 }
        ensures kept { IfOk result (λ map. map.value ≡ stride_list first step count) }
    {
        let kept = Kept::Strided(Stride::new(first, step, count));
        Ok(Rc::new(alloc, LocalMap { kept })?)
    }

    /// How many indices the list has.
    pub fn len(&self) -> u32
        ensures len { result ≡ length self.now }
        ensures distinct { AreDistinct self.now }
    {
        match &self.kept {
            Kept::Listed(gids) => gids.len() as u32,
            Kept::Strided(stride) => stride.len(),
        }
    }

    /// The local index of a global index: its place in the list, counted from 0. `None` exactly where it is not there.
    pub fn local_of(&self, gid: Gid) -> Option<u32>
        ensures place { result ≡ local_index self.now gid }
        ensures found { is_some result ≡ stands gid self.now }
        ensures within { IfSome result (λ lid. lid < length self.now) }
    {
        match &self.kept {
            Kept::Listed(gids) => gids.get_index_of(&gid).map(|place| place as u32),
            Kept::Strided(stride) => stride.local_of(gid),
        }
    }

    /// The global index at a local index, counted from 0. `None` exactly from the length of the list on.
    pub fn global_of(&self, lid: u32) -> Option<Gid>
        ensures index { result ≡ global_index self.now lid }
        ensures found { IsSome result ↔ (lid < length self.now) }
    {
        match &self.kept {
            Kept::Listed(gids) => gids.get_index(lid as usize).copied(),
            Kept::Strided(stride) => stride.global_of(lid),
        }
    }

    /// Whether the other map has the same indices in the same order (`Tpetra::Map::locallySameAs`). Nothing is allocated.
    pub fn same_list(&self, other: &LocalMap) -> bool
        ensures same { (result ≡ true) ↔ (self.now ≡ other.now) }
    {
        match (&self.kept, &other.kept) {
            (Kept::Strided(stride), Kept::Strided(others)) => stride.same_list(others),
            _ => self.same_places(other),
        }
    }

    /// Whether the other map has the same indices in the same order, place by place.
    fn same_places(&self, other: &LocalMap) -> bool
        ensures same { (result ≡ true) ↔ (self.now ≡ other.now) }
    {
        let count = self.len();
        if count != other.len() {
            return false;
        }
        for lid in 0..count {
            if self.global_of(lid) != other.global_of(lid) {
                return false;
            }
        }
        true
    }
}
