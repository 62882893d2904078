//! The positions of a list, brought into the classes of a transfer one after the other.
ghost use Rattle.std.specs.Prelude.{◌≡◌, ◌<◌, ◌≤◌, [], ℕ, List, None, Some, length, map, position, nat_eq, IfOk, OnOk};
ghost use Rattle.std.specs.List.{range_with_len, slice_index_or};
ghost use Rattle.map_core.specs.Layouts.{local_index, AreDistinct};
ghost use Rattle.map_core.specs.Classes.{index_at, owner_at, same_count};
ghost use Rattle.map_core.specs.Parts.{PartLists, lists_of, pushed_to, parts_below, with_position};

use crate::{Gid, LocalMap};
use std::alloc::{AllocError, Global};
use std::marker::Model;

/// The classes of the positions that were parted so far: the permuted ones with their places in the held list, and for each
/// rank the lacked indices that it owns, with their positions.
#[derive(Drop)]
pub(crate) struct Parts {
    pub(crate) permuted: Vec<u32>,
    pub(crate) places: Vec<u32>,
    pub(crate) lacked: Vec<Vec<Gid>>,
    pub(crate) remotes: Vec<Vec<u32>>,
}

impl Model for Parts {
    ghost use Rattle.map_core.specs.Parts.{PartLists, lists_of};

    ghost Value = { PartLists };

    ghost view = { λ a. record { permuted = a.permuted.items; places = a.places.items; lacked = lists_of a.lacked.items; remotes = lists_of a.remotes.items } };
}

impl Parts {
    /// Parts the positions of `parted` from `first` on, before which both lists agree. `Err` means that memory ran out.
    pub(crate) fn of(
        alloc: Global,
        ranks: u32,
        first: u32,
        held: &LocalMap,
        parted: &LocalMap,
        owners: &[Option<u32>],
    ) -> Result<Parts, AllocError>
        requires each { length owners.now ≡ length parted.now }
        requires below { (l q : ℕ) → owner_at owners.now l ≡ Some q → q < ranks }
        requires first { first ≡ same_count held.now parted.now }
        ensures parts { IfOk result (λ parts. parts ≡ parts_below ranks held.now parted.now owners.now (length parted.now)) }
    {
        let mut parts = Parts {
            permuted: Vec::new(alloc),
            places: Vec::new(alloc),
            lacked: empty_lists(alloc, ranks)?,
            remotes: empty_lists(alloc, ranks)?,
        };
        for lid in first..parted.len() {
            let gid = parted.global_of(lid).unwrap();
            parts.add(lid, gid, held.local_of(gid), owners[lid as usize])?;
        }
        Ok(parts)
    }

    /// Parts one more position: that of the index `gid`, by its place in the held list or else by its owner.
    fn add(
        &mut self,
        lid: u32,
        gid: Gid,
        place: Option<u32>,
        owner: Option<u32>,
    ) -> Result<(), AllocError>
        requires lacked { (q : ℕ) → owner ≡ Some q → q < length self.old.lacked }
        requires remotes { (q : ℕ) → owner ≡ Some q → q < length self.old.remotes }
        ensures added { OnOk result (self.new ≡ with_position self.old lid gid place owner) }
    {
        if let Some(place) = place {
            self.permuted.push(lid)?;
            self.places.push(place)?;
        } else if let Some(owner) = owner {
            push_to(&mut self.lacked, owner, gid)?;
            push_to(&mut self.remotes, owner, lid)?;
        }
        Ok(())
    }
}

/// An empty list for each rank. `Err` means that memory ran out.
fn empty_lists<T: Drop>(alloc: Global, ranks: u32) -> Result<Vec<Vec<T>>, AllocError>
    ensures empty { IfOk result (λ lists. lists_of lists.items ≡ map (λ q. []) (range_with_len 0 ranks)) }
{
    let mut lists = Vec::with_capacity(alloc, ranks as usize)?;
    for _ in 0..ranks {
        lists.push(Vec::new(alloc))?;
    }
    Ok(lists)
}

/// Puts an item at the end of a rank's list. `Err` means that memory ran out.
fn push_to<T: Drop>(lists: &mut [Vec<T>], rank: u32, item: T) -> Result<(), AllocError>
    requires known { rank < length lists.old }
    ensures pushed { OnOk result (lists_of lists.new ≡ pushed_to (lists_of lists.old) rank item) }
{
    lists[rank as usize].push(item)?;
    Ok(())
}

/// The number of leading positions at which both lists have the same index.
pub(crate) fn same_len(held: &LocalMap, parted: &LocalMap) -> u32
    ensures same { result ≡ same_count held.now parted.now }
    ensures held_distinct { AreDistinct held.now }
    ensures parted_distinct { AreDistinct parted.now }
{
    let most = held.len().min(parted.len());
    for lid in 0..most {
        if held.global_of(lid) != parted.global_of(lid) {
            return lid;
        }
    }
    most
}
