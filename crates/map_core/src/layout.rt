//! The indices of all ranks.
ghost use Rattle.std.specs.Prelude.{◌≡◌, ◌<◌, ◌≤◌, ◌^◌, ◌↔◌, true, length, map, sum, All, IfOk, IfErr};
ghost use Rattle.map_core.specs.Layouts.{Layout, rank_list, IsLayout, IsOneToOne, IsTotal};
ghost use Rattle.map_core.specs.Uniform.{uniform_layout};
ghost use Rattle.map_core.specs.Blocks.{blocks_layout};
ghost use Rattle.map_core.specs.Cyclic.{cyclic_layout};
ghost use Rattle.map_core.specs.Faults.{IsMapFaultOf};

use crate::lists::{checked_list, union};
use crate::uniform::uniform_len;
use crate::{Gid, LocalMap, MapFault};
use std::alloc::{AllocError, Global};
use std::marker::Model;
use std::rc::Rc;

/// Which rank has which global indices: a size, and for each of 1 to 32 ranks a list of distinct indices below it
/// (`Tpetra::Map`).
#[derive(Drop)]
pub struct Layout {
    size: Gid,
    maps: Vec<Rc<LocalMap>>,
    one_to_one: bool,
    total: bool,
}

impl Model for Layout {
    ghost use Rattle.std.specs.Prelude.{map};
    ghost use Rattle.map_core.specs.Layouts.{Layout};

    ghost Value = { Layout };

    ghost use Rattle.map_core.specs.Checked.{IsChecked};

    ghost view = { λ a. record { size = a.size; lists = map (λ m. m.value) a.maps.items } };

    ghost invariant = { λ a. IsChecked (record { size = a.size; lists = map (λ m. m.value) a.maps.items }) a.one_to_one a.total };
}

impl Layout {
    /// The contiguous uniform layout: each of 1 to 32 ranks has `size / ranks` indices in order, and each of the first
    /// `size % ranks` ranks has one more (`Tpetra::Map`). The size is at most 16,777,216. `Err` means that memory ran out.
    pub fn uniform(alloc: Global, ranks: u32, size: Gid) -> Result<Layout, AllocError>
        requires some_rank { 1 ≤ ranks }
        requires ranks_limit { ranks ≤ 32 }
        requires size_limit { size ≤ 16777216 }
        ensures uniform { IfOk result (λ layout. layout ≡ uniform_layout ranks size) }
    {
        let mut maps = Vec::with_capacity(alloc, ranks as usize)?;
        let mut first = 0;
        for rank in 0..ranks {
            let count = uniform_len(ranks, size, rank);
            maps.push(LocalMap::strided(alloc, first, 1, count)?)?;
            first += count as Gid;
        }
        Ok(Layout {
            size,
            maps,
            one_to_one: true,
            total: true,
        })
    }

    /// The layout of consecutive runs: each of 1 to 32 ranks has as many indices, in order, as its count says. The size is
    /// the sum of the counts, at most 16,777,216 (`Tpetra::Map`, contiguous). `Err` means that memory ran out.
    pub fn blocks(alloc: Global, counts: &[u32]) -> Result<Layout, AllocError>
        requires some_rank { 1 ≤ length counts.now }
        requires ranks_limit { length counts.now ≤ 32 }
        requires size_limit { sum counts.now ≤ 16777216 }
        ensures blocks { IfOk result (λ layout. layout ≡ blocks_layout counts.now) }
    {
        let mut maps = Vec::with_capacity(alloc, counts.len())?;
        let mut first = 0;
        for count in counts {
            maps.push(LocalMap::strided(alloc, first, 1, *count)?)?;
            first += *count as Gid;
        }
        Ok(Layout {
            size: first,
            maps,
            one_to_one: true,
            total: true,
        })
    }

    /// The cyclic layout: each index below the size is on rank `index % ranks`, of 1 to 32 ranks, and each rank has its
    /// indices in ascending order. The size is at most 16,777,216. `Err` means that memory ran out.
    pub fn cyclic(alloc: Global, ranks: u32, size: Gid) -> Result<Layout, AllocError>
        requires some_rank { 1 ≤ ranks }
        requires ranks_limit { ranks ≤ 32 }
        requires size_limit { size ≤ 16777216 }
        ensures cyclic { IfOk result (λ layout. layout ≡ cyclic_layout ranks size) }
    {
        let mut maps = Vec::with_capacity(alloc, ranks as usize)?;
        for rank in 0..ranks {
            let count = uniform_len(ranks, size, rank);
            maps.push(LocalMap::strided(alloc, rank as Gid, ranks as Gid, count)?)?;
        }
        Ok(Layout {
            size,
            maps,
            one_to_one: true,
            total: true,
        })
    }

    /// The layout that has these lists, one for each of 1 to 32 ranks, each of fewer than 2^32 indices. The size is at
    /// most 2^40.
    ///
    /// The lists are walked in the order of ranks and places, and the first fault is answered: `OutOfSize` exactly where
    /// an index is not below the size, and else `Repeated` exactly where it stands earlier in the list of its rank.
    /// `NoMem` means that memory ran out.
    pub fn from_lists(alloc: Global, size: Gid, lists: &[Vec<Gid>]) -> Result<Layout, MapFault>
        requires some_rank { 1 ≤ length lists.now }
        requires ranks_limit { length lists.now ≤ 32 }
        requires few { All (λ list. length list.items < 2 ^ 32) lists.now }
        requires size_limit { size ≤ 2 ^ 40 }
        ensures kept { IfOk result (λ layout. layout ≡ record { size = size; lists = map (λ list. list.items) lists.now }) }
        ensures sound { IfOk result (λ layout. IsLayout layout) }
        ensures refused { IfErr result (IsMapFaultOf size (map (λ list. list.items) lists.now)) }
    {
        let mut maps = Vec::with_capacity(alloc, lists.len())?;
        for (rank, list) in lists.iter().enumerate() {
            match checked_list(alloc, rank as u32, size, list) {
                Ok(map) => maps.push(map)?,
                Err(fault) => return Err(fault),
            }
        }
        let (all, count) = union(alloc, lists)?;
        let distinct = all.len() as u64;
        let one_to_one = distinct == count;
        let total = distinct == size;
        Ok(Layout {
            size,
            maps,
            one_to_one,
            total,
        })
    }

    /// How many ranks there are: 1 to 32.
    pub fn ranks(&self) -> u32
        ensures ranks { result ≡ length self.now.lists }
        ensures some_rank { 1 ≤ result }
        ensures ranks_limit { result ≤ 32 }
    {
        self.maps.len() as u32
    }

    /// The size: each index is below it.
    pub fn size(&self) -> Gid
        ensures size { result ≡ self.now.size }
        ensures is_layout { IsLayout self.now }
    {
        self.size
    }

    /// The indices of a rank, which is below the number of ranks.
    pub fn list(&self, rank: u32) -> &Rc<LocalMap>
        requires known { rank < length self.now.lists }
        ensures list { result.now.value ≡ rank_list self.now rank }
    {
        &self.maps[rank as usize]
    }

    /// Whether no index stands in the lists of two ranks (`Tpetra::Map::isOneToOne`). This takes constant time.
    pub fn is_one_to_one(&self) -> bool
        ensures exact { (result ≡ true) ↔ IsOneToOne self.now }
    {
        self.one_to_one
    }

    /// Whether each index below the size stands in the list of a rank. This takes constant time.
    pub fn is_total(&self) -> bool
        ensures exact { (result ≡ true) ↔ IsTotal self.now }
    {
        self.total
    }
}
