//! An export of one rank, until its plan is finished.
ghost use Rattle.std.specs.Prelude.{◌≡◌, ◌≢◌, ◌<◌, ◌≤◌, ℕ, length, is_some, IsSome, None, IfOk, IfErr, OnOk, OnErr};
ghost use Rattle.map_core.specs.Classes.{first_lacked, AreOwners};
ghost use Rattle.map_core.specs.Plans.{IsWithin};
ghost use Rattle.export_plan.specs.Faults.{IsOfferFault};
ghost use Rattle.export_plan.specs.Exports.{export_lists, export_start, offer_of, offered_to, with_offer};

use crate::OfferFault;
use map_core::{Gid, LocalMap, Plan, PlanBuilder};
use std::alloc::{AllocError, Global};
use std::marker::Model;
use std::rc::Rc;

/// An export of one rank, from its source list to its target list, of what it owns (`Tpetra::Export`): what it offers to the
/// other ranks, and the offers that were accepted from them.
#[derive(Drop)]
pub struct ExportPlan {
    builder: PlanBuilder,
}

impl Model for ExportPlan {
    ghost use Rattle.export_plan.specs.Exports.{Export};

    ghost Value = { Export };

    ghost view = { λ a. record { me = a.builder.me; ranks = a.builder.ranks; source = a.builder.parted; target = a.builder.held; offered = a.builder.lacked; offers = a.builder.accepted } };
}

impl ExportPlan {
    /// Starts the export of rank `me` of at most 32. `owners` has one owner or none per source local index, below `ranks`;
    /// `me` owns the indices that `target` holds, and no others. `Err` means that memory ran out.
    pub fn start(
        alloc: Global,
        me: u32,
        ranks: u32,
        source: &Rc<LocalMap>,
        target: &Rc<LocalMap>,
        owners: &[Option<u32>],
    ) -> Result<ExportPlan, AllocError>
        requires known { me < ranks }
        requires ranks_limit { ranks ≤ 32 }
        requires owners { AreOwners me ranks target.now.value source.now.value owners.now }
        ensures started { IfOk result (λ export. export ≡ export_start me ranks source.now.value target.now.value owners.now) }
    {
        let builder = PlanBuilder::start(alloc, me, ranks, target, source, owners)?;
        Ok(ExportPlan { builder })
    }

    /// The global indices that are offered to the rank `to`, which is below the number of ranks: those of the source that the
    /// target lacks and that `to` owns, in source order.
    pub fn offered(&self, to: u32) -> &[Gid]
        requires known { to < self.now.ranks }
        ensures offered { result.now ≡ offered_to self.now to }
    {
        self.builder.lacked(to)
    }

    /// Whether an offer of the rank `from`, which is below the number of ranks, was accepted.
    pub fn has_offer(&self, from: u32) -> bool
        requires known { from < self.now.ranks }
        ensures accepted { result ≡ is_some (offer_of self.now from) }
    {
        self.builder.has_accepted(from)
    }

    /// Accepts the global indices that the rank `from` offers, from which no offer was accepted yet.
    ///
    /// `NotHeld` comes exactly where the target lacks one of them, with the first such index; `NoMem` means that memory ran
    /// out. After both of them nothing has changed.
    pub fn accept_offer(&mut self, from: u32, gids: &[Gid]) -> Result<(), OfferFault>
        requires known { from < self.old.ranks }
        requires first { offer_of self.old from ≡ None }
        ensures accepted { OnOk result (self.new ≡ with_offer self.old from gids.now) }
        ensures held { OnOk result (first_lacked self.old.target gids.now ≡ None) }
        ensures refused { IfErr result (IsOfferFault self.old.target gids.now) }
        ensures unchanged { OnErr result (self.new ≡ self.old) }
    {
        self.builder.accept(from, gids)?;
        Ok(())
    }

    /// The plan. An offer of every other rank was accepted. Its positions are in the source and in the target. `Err` means
    /// that memory ran out, and the plan is given up.
    pub fn finish(self) -> Result<Plan, AllocError>
        requires all { (q : ℕ) → q < self.ranks → q ≢ self.me → IsSome (offer_of self q) }
        ensures plan { IfOk result (λ plan. plan ≡ export_lists self) }
        ensures within { IfOk result (IsWithin (length self.source) (length self.target)) }
    {
        let plan = self.builder.finish()?;
        Ok(plan.reverse())
    }
}
