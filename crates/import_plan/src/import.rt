//! An import of one rank, until its plan is finished.
ghost use Rattle.std.specs.Prelude.{◌≡◌, ◌≢◌, ◌<◌, ◌≤◌, ℕ, length, is_some, IsSome, None, IfOk, IfErr, OnOk, OnErr};
ghost use Rattle.map_core.specs.Classes.{first_lacked, AreOwners};
ghost use Rattle.map_core.specs.Plans.{IsWithin};
ghost use Rattle.import_plan.specs.Faults.{IsWantFault};
ghost use Rattle.import_plan.specs.Imports.{import_lists, import_start, want_of, wanted_from, with_want};

use crate::WantFault;
use map_core::{Gid, LocalMap, Plan, PlanBuilder};
use std::alloc::{AllocError, Global};
use std::marker::Model;
use std::rc::Rc;

/// An import of one rank, from its source list, of what it owns, to its target list (`Tpetra::Import`): what it wants of the
/// other ranks, and the wants that were accepted from them.
#[derive(Drop)]
pub struct ImportPlan {
    builder: PlanBuilder,
}

impl Model for ImportPlan {
    ghost use Rattle.import_plan.specs.Imports.{Import};

    ghost Value = { Import };

    ghost view = { λ a. record { me = a.builder.me; ranks = a.builder.ranks; source = a.builder.held; target = a.builder.parted; wanted = a.builder.lacked; wants = a.builder.accepted } };
}

impl ImportPlan {
    /// Starts the import of rank `me` of at most 32. `owners` has one owner or none per target local index, below `ranks`;
    /// `me` owns the indices that `source` holds, and no others. `Err` means that memory ran out.
    pub fn start(
        alloc: Global,
        me: u32,
        ranks: u32,
        source: &Rc<LocalMap>,
        target: &Rc<LocalMap>,
        owners: &[Option<u32>],
    ) -> Result<ImportPlan, AllocError>
        requires known { me < ranks }
        requires ranks_limit { ranks ≤ 32 }
        requires owners { AreOwners me ranks source.now.value target.now.value owners.now }
        ensures started { IfOk result (λ import. import ≡ import_start me ranks source.now.value target.now.value owners.now) }
    {
        let builder = PlanBuilder::start(alloc, me, ranks, source, target, owners)?;
        Ok(ImportPlan { builder })
    }

    /// The global indices that are wanted from the rank `to`, which is below the number of ranks: those of the target that
    /// the source lacks and that `to` owns, in target order.
    pub fn wanted(&self, to: u32) -> &[Gid]
        requires known { to < self.now.ranks }
        ensures wanted { result.now ≡ wanted_from self.now to }
    {
        self.builder.lacked(to)
    }

    /// Whether a want of the rank `from`, which is below the number of ranks, was accepted.
    pub fn has_want(&self, from: u32) -> bool
        requires known { from < self.now.ranks }
        ensures accepted { result ≡ is_some (want_of self.now from) }
    {
        self.builder.has_accepted(from)
    }

    /// Accepts the global indices that the rank `from` wants, from which no want was accepted yet.
    ///
    /// `NotHeld` comes exactly where the source lacks one of them, with the first such index; `NoMem` means that memory ran
    /// out. After both of them nothing has changed.
    pub fn accept_want(&mut self, from: u32, gids: &[Gid]) -> Result<(), WantFault>
        requires known { from < self.old.ranks }
        requires first { want_of self.old from ≡ None }
        ensures accepted { OnOk result (self.new ≡ with_want self.old from gids.now) }
        ensures held { OnOk result (first_lacked self.old.source gids.now ≡ None) }
        ensures refused { IfErr result (IsWantFault self.old.source gids.now) }
        ensures unchanged { OnErr result (self.new ≡ self.old) }
    {
        self.builder.accept(from, gids)?;
        Ok(())
    }

    /// The plan. A want of every other rank was accepted. Its positions are in the source and in the target. `Err` means that
    /// memory ran out, and the plan is given up.
    pub fn finish(self) -> Result<Plan, AllocError>
        requires all { (q : ℕ) → q < self.ranks → q ≢ self.me → IsSome (want_of self q) }
        ensures plan { IfOk result (λ plan. plan ≡ import_lists self) }
        ensures within { IfOk result (IsWithin (length self.source) (length self.target)) }
    {
        self.builder.finish()
    }
}
