//! The lists of all ranks, as they are given.
ghost use Rattle.std.specs.Prelude.{◌≡◌, ◌<◌, ◌≤◌, ◌^◌, ℕ, Bool, ◌||◌, length, map, nat_eq, All, IfOk, IfErr, OnOk};
ghost use Rattle.std.specs.List.{concat};
ghost use Rattle.indexmap.specs.IndexSet.{IsUnique};
ghost use Rattle.map_core.specs.Layouts.{stands};
ghost use Rattle.map_core.specs.Faults.{IsSound, IsRankFaultOf};

use crate::{Gid, LocalMap, MapFault};
use indexmap::IndexSet;
use std::alloc::{AllocError, Global};
use std::rc::Rc;

/// The map of a rank that has the list as it stands, of fewer than 2^32 indices. The first fault is answered: an index
/// that is not below the size, or that stands earlier in the list.
pub(crate) fn checked_list(
    alloc: Global,
    rank: u32,
    size: Gid,
    gids: &[Gid],
) -> Result<Rc<LocalMap>, MapFault>
    requires few { length gids.now < 2 ^ 32 }
    ensures kept { IfOk result (λ map. map.value ≡ gids.now) }
    ensures sound { OnOk result (IsSound size gids.now) }
    ensures refused { IfErr result (IsRankFaultOf rank size gids.now) }
{
    let mut set = IndexSet::with_capacity(alloc, gids.len())?;
    for gid in gids {
        if *gid >= size {
            return Err(MapFault::OutOfSize { rank, gid: *gid });
        }
        if !set.insert(*gid)? {
            return Err(MapFault::Repeated { rank, gid: *gid });
        }
    }
    Ok(LocalMap::listed(alloc, set)?)
}

/// Every index of the lists once, and how many indices the lists have together.
pub(crate) fn union(alloc: Global, lists: &[Vec<Gid>]) -> Result<(IndexSet<Gid>, u64), AllocError>
    requires ranks_limit { length lists.now ≤ 32 }
    requires few { All (λ list. length list.items < 2 ^ 32) lists.now }
    ensures members { IfOk result (λ r. (g : ℕ) → stands g r.0.keys ≡ stands g (concat (map (λ list. list.items) lists.now))) }
    ensures unique { IfOk result (λ r. IsUnique nat_eq r.0) }
    ensures counted { IfOk result (λ r. r.1 ≡ length (concat (map (λ list. list.items) lists.now))) }
{
    let mut all = IndexSet::new(alloc);
    let mut count = 0;
    for list in lists {
        add_list(&mut all, list)?;
        count += list.len() as u64;
    }
    Ok((all, count))
}

/// Adds the indices of a list.
fn add_list(all: &mut IndexSet<Gid>, list: &[Gid]) -> Result<(), AllocError>
    requires unique { IsUnique nat_eq all.old }
    ensures members { OnOk result ((g : ℕ) → stands g all.new.keys ≡ (stands g all.old.keys || stands g list.now)) }
    ensures unique { OnOk result (IsUnique nat_eq all.new) }
{
    for gid in list {
        all.insert(*gid)?;
    }
    Ok(())
}
