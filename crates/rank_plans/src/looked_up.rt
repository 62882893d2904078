//! The owners of indices in whatever order, looked up by their indices.
ghost use Rattle.std.specs.Prelude.{◌≡◌, ◌<◌, ℕ, [], true, All, filter, length, map, IfOk};
ghost use Rattle.map_core.specs.Classes.{owns};
ghost use Rattle.map_core.specs.Layouts.{stands, AreDistinct};
ghost use Rattle.rank_plans.specs.Answers.{known_at, lacked_in, owner_by, owner_if_known};
ghost use Rattle.rank_plans.specs.Tasks.{import_of, owned_of, told_by};

use crate::task::{PlanTask, accept_all};
use import_plan::ImportPlan;
use indexmap::IndexSet;
use map_core::{Gid, LocalMap};
use std::alloc::{AllocError, Global};
use std::rc::Rc;

/// The set of distinct indices, in their order. `Err` means that memory ran out.
fn index_set(alloc: Global, gids: &[Gid]) -> Result<IndexSet<Gid>, AllocError>
    requires distinct { AreDistinct gids.now }
    ensures keys { IfOk result (λ set. set.keys ≡ gids.now) }
{
    let mut set = IndexSet::with_capacity(alloc, gids.len())?;
    for gid in gids {
        set.insert(*gid)?;
    }
    Ok(set)
}

/// The owner of an index, by the owners that stand beside the indices of a set.
fn known_owner(set: &IndexSet<Gid>, known: &[Option<u32>], gid: Gid) -> Option<u32>
    requires beside { length known.now ≡ length set.now.keys }
    ensures owner { result ≡ known_at set.now.keys known.now gid }
{
    match set.get_index_of(&gid) {
        Some(place) => known[place],
        None => None,
    }
}

/// The owner of an index: `me` where it has the index in its list, and else the one that stands beside the index in a set.
fn owner_of(
    me: u32,
    own: &LocalMap,
    set: &IndexSet<Gid>,
    known: &[Option<u32>],
    gid: Gid,
) -> Option<u32>
    requires beside { length known.now ≡ length set.now.keys }
    ensures owner { result ≡ owner_if_known me own.now (known_at set.now.keys known.now) gid }
{
    if own.local_of(gid).is_some() {
        return Some(me);
    }
    known_owner(set, known, gid)
}

/// The owners of a target's indices: `me` of those that the source has, and of the others those that stand beside these
/// indices among `gids`. `Err` means that memory ran out.
fn target_owners_by_index(
    alloc: Global,
    me: u32,
    source: &LocalMap,
    target: &LocalMap,
    gids: &[Gid],
    known: &[Option<u32>],
) -> Result<Vec<Option<u32>>, AllocError>
    requires distinct { AreDistinct gids.now }
    requires beside { length known.now ≡ length gids.now }
    ensures owners { IfOk result (λ owners. owners.items ≡ map (owner_if_known me source.now (known_at gids.now known.now)) target.now) }
{
    let set = index_set(alloc, gids)?;
    let mut owners = Vec::with_capacity(alloc, target.len() as usize)?;
    for lid in 0..target.len() {
        match target.global_of(lid) {
            Some(gid) => owners.push(owner_of(me, source, &set, known, gid))?,
            None => unreachable!(),
        }
    }
    Ok(owners)
}

/// The owners of indices: `me` of those that are in its list `own`, and of the others those that stand beside these indices
/// among `gids`, or 0. `Err` means that memory ran out.
fn owners_by_index(
    alloc: Global,
    me: u32,
    own: &LocalMap,
    asked: &[Gid],
    gids: &[Gid],
    known: &[Option<u32>],
) -> Result<Vec<u32>, AllocError>
    requires distinct { AreDistinct gids.now }
    requires beside { length known.now ≡ length gids.now }
    ensures owners { IfOk result (λ owners. owners.items ≡ map (owner_by me own.now (known_at gids.now known.now)) asked.now) }
{
    let set = index_set(alloc, gids)?;
    let mut owners = Vec::with_capacity(alloc, asked.len())?;
    for gid in asked {
        owners.push(owner_of(me, own, &set, known, *gid).unwrap_or(0))?;
    }
    Ok(owners)
}

impl PlanTask {
    /// The plan of an import whose target has the lacking indices in whatever order. `Err` means that memory ran out.
    pub(crate) fn import_plan(
        &self,
        alloc: Global,
        me: u32,
        source: &Rc<LocalMap>,
        target: &Rc<LocalMap>,
    ) -> Result<map_core::Plan, AllocError>
        requires own_rank { me < self.now.ranks }
        requires lacking { (q : ℕ) → filter (λ g. owns (known_at self.now.lacking self.now.owners g) q) (lacked_in source.now.value target.now.value) ≡ owned_of self.now q }
        requires none_of_own { owned_of self.now me ≡ [] }
        requires held { (q : ℕ) → q < self.now.ranks → All (λ g. stands g source.now.value ≡ true) (told_by self.now q) }
        ensures made { IfOk result (λ made. made ≡ import_of me self.now.ranks source.now.value target.now.value (owned_of self.now) (told_by self.now)) }
    {
        let owners = target_owners_by_index(
            alloc,
            me,
            source,
            target,
            &self.lacking,
            &self.owners,
        )?;
        let mut import = ImportPlan::start(alloc, me, self.ranks, source, target, &owners)?;
        accept_all(&mut import, &self.told)?;
        let plan = import.finish()?;
        Ok(plan)
    }

    /// The owner of each index of a list: `me` where it has the index in its list `own`, and else the one that is known, or 0.
    /// `Err` means that memory ran out.
    pub(crate) fn owners_of(
        &self,
        alloc: Global,
        me: u32,
        own: &LocalMap,
        gids: &[Gid],
    ) -> Result<Vec<u32>, AllocError>
        ensures owners { IfOk result (λ owners. owners.items ≡ map (owner_by me own.now (known_at self.now.lacking self.now.owners)) gids.now) }
    {
        let owners = owners_by_index(alloc, me, own, gids, &self.lacking, &self.owners)?;
        Ok(owners)
    }
}
