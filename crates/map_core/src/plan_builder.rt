//! Plans under construction.
ghost use Rattle.std.specs.Prelude.{◌≡◌, ◌≢◌, ◌<◌, ◌≤◌, ℕ, map, length, is_some, IsSome, None, IfOk, IfErr, OnOk, OnErr};
ghost use Rattle.map_core.specs.Classes.{AreOwners, first_lacked, places};
ghost use Rattle.std.specs.List.{range_with_len};
ghost use Rattle.map_core.specs.BuilderFields.{accepted_places};
ghost use Rattle.map_core.specs.Parts.{lists_of};
ghost use Rattle.map_core.specs.Plans.{IsWithin};
ghost use Rattle.map_core.specs.PlanBuilders.{accepted_from, lacked_by, plan_of, started, with_accepted, IsHeldFault};

use crate::parts::{Parts, same_len};
use crate::{Gid, HeldFault, LocalMap, Plan};
use std::alloc::{AllocError, Global};
use std::marker::Model;
use std::rc::Rc;

/// A plan under construction, of a rank that holds one list of indices and parts the positions of another one: an import holds
/// its source and parts its target, an export holds its target and parts its source (`Tpetra::Import`, `Tpetra::Export`).
///
/// The lacked indices go to their owners, and those that other ranks lack are accepted from them.
#[derive(Drop)]
pub struct PlanBuilder {
    alloc: Global,
    me: u32,
    ranks: u32,
    held: Rc<LocalMap>,
    parted: Rc<LocalMap>,
    same: u32,
    parts: Parts,
    accepted: Vec<Option<Vec<u32>>>,
}

impl Model for PlanBuilder {
    ghost use Rattle.std.specs.Prelude.{map};
    ghost use Rattle.map_core.specs.PlanBuilders.{PlanParts};
    ghost use Rattle.map_core.specs.BuilderFields.{accepted_indices, IsBuilder};

    ghost Value = { PlanParts };

    ghost view = { λ a. record { me = a.me; ranks = a.ranks; held = a.held.value; parted = a.parted.value; lacked = a.parts.lacked; accepted = map (accepted_indices a.held.value) a.accepted.items } };

    ghost invariant = { λ a. IsBuilder a.me a.ranks a.same a.held.value a.parted.value a.parts a.accepted.items };
}

impl PlanBuilder {
    /// Parts the positions of `parted` by whether `held` has their index. There are at most 32 ranks, and an owner or none for
    /// each position, below `ranks`; `me` owns the indices that `held` has, and no others. `Err` means that memory ran out.
    pub fn start(
        alloc: Global,
        me: u32,
        ranks: u32,
        held: &Rc<LocalMap>,
        parted: &Rc<LocalMap>,
        owners: &[Option<u32>],
    ) -> Result<PlanBuilder, AllocError>
        requires known { me < ranks }
        requires ranks_limit { ranks ≤ 32 }
        requires owners { AreOwners me ranks held.now.value parted.now.value owners.now }
        ensures started { IfOk result (λ builder. builder ≡ started me ranks held.now.value parted.now.value owners.now) }
    {
        let same = same_len(held, parted);
        let parts = Parts::of(alloc, ranks, same, held, parted, owners)?;
        let accepted = none_accepted(alloc, ranks)?;
        let held = held.clone()?;
        let parted = parted.clone()?;
        Ok(PlanBuilder {
            alloc,
            me,
            ranks,
            held,
            parted,
            same,
            parts,
            accepted,
        })
    }

    /// The indices of the parted list that are not held and that the rank `to` owns, in the order of the parted list. `to` is
    /// below the number of ranks.
    pub fn lacked(&self, to: u32) -> &[Gid]
        requires known { to < self.now.ranks }
        ensures lacked { result.now ≡ lacked_by self.now to }
    {
        self.parts.lacked[to as usize].as_slice()
    }

    /// Whether indices were accepted from the rank `from`, which is below the number of ranks.
    pub fn has_accepted(&self, from: u32) -> bool
        requires known { from < self.now.ranks }
        ensures accepted { result ≡ is_some (accepted_from self.now from) }
    {
        self.accepted[from as usize].is_some()
    }

    /// Accepts the indices that the rank `from` lacks, from which none were accepted yet. All of them are to be held.
    ///
    /// `NotHeld` comes exactly where one is not, with the first such index; `NoMem` means that memory ran out. After both of
    /// them nothing has changed.
    pub fn accept(&mut self, from: u32, gids: &[Gid]) -> Result<(), HeldFault>
        requires known { from < self.old.ranks }
        requires first { accepted_from self.old from ≡ None }
        ensures accepted { OnOk result (self.new ≡ with_accepted self.old from gids.now) }
        ensures held { OnOk result (first_lacked self.old.held gids.now ≡ None) }
        ensures refused { IfErr result (IsHeldFault self.old.held gids.now) }
        ensures unchanged { OnErr result (self.new ≡ self.old) }
    {
        let found = places_in(self.alloc, &self.held, gids)?;
        self.accepted[from as usize] = Some(found);
        Ok(())
    }

    /// The plan by which the accepted indices are sent and the lacked ones are received. Indices were accepted from every
    /// other rank. `Err` means that memory ran out, and the plan is given up.
    pub fn finish(self) -> Result<Plan, AllocError>
        requires all { (q : ℕ) → q < self.ranks → q ≢ self.me → IsSome (accepted_from self q) }
        ensures plan { IfOk result (λ plan. plan ≡ plan_of self) }
        ensures within { IfOk result (IsWithin (length self.held) (length self.parted)) }
    {
        let exports = all_accepted(self.alloc, self.accepted)?;
        let parts = self.parts;
        Plan::new(
            self.alloc,
            self.me,
            self.ranks,
            self.same,
            &parts.permuted,
            &parts.places,
            &exports,
            &parts.remotes,
        )
    }
}

/// No accepted indices for each rank. `Err` means that memory ran out.
fn none_accepted(alloc: Global, ranks: u32) -> Result<Vec<Option<Vec<u32>>>, AllocError>
    ensures none { IfOk result (λ accepted. accepted.items ≡ map (λ _. None) (range_with_len 0 ranks)) }
{
    let mut accepted = Vec::with_capacity(alloc, ranks as usize)?;
    for _ in 0..ranks {
        accepted.push(None)?;
    }
    Ok(accepted)
}

/// The places of the indices in the held list.
fn places_in(alloc: Global, held: &LocalMap, gids: &[Gid]) -> Result<Vec<u32>, HeldFault>
    ensures places { IfOk result (λ found. found.items ≡ places held.now gids.now) }
    ensures held { OnOk result (first_lacked held.now gids.now ≡ None) }
    ensures refused { IfErr result (IsHeldFault held.now gids.now) }
{
    let mut found = Vec::with_capacity(alloc, gids.len())?;
    for gid in gids {
        match held.local_of(*gid) {
            Some(lid) => found.push(lid)?,
            None => return Err(HeldFault::NotHeld { gid: *gid }),
        }
    }
    Ok(found)
}

/// The accepted places of each rank, none where none were accepted. `Err` means that memory ran out.
fn all_accepted(alloc: Global, accepted: Vec<Option<Vec<u32>>>) -> Result<Vec<Vec<u32>>, AllocError>
    ensures all { IfOk result (λ lists. lists_of lists.items ≡ map accepted_places accepted.items) }
{
    let mut lists = Vec::with_capacity(alloc, accepted.len())?;
    for places in accepted {
        lists.push(places.unwrap_or(Vec::new(alloc)))?;
    }
    Ok(lists)
}
