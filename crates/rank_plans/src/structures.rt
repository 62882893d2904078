//! The plans of the structure of a matrix, whose lists are in whatever order.
ghost use Rattle.std.specs.Prelude.{◌≡◌, ◌<◌, ℕ, [], true, All, filter, map, IfOk};
ghost use Rattle.map_core.specs.Classes.{owns};
ghost use Rattle.map_core.specs.Layouts.{stands};
ghost use Rattle.rank_plans.specs.Answers.{lacked_in, owner_by};
ghost use Rattle.rank_plans.specs.Books.{has_plan, own_of, owners_of, told_of};
ghost use Rattle.rank_plans.specs.Tasks.{import_of};

use crate::PlanBook;
use crate::places::task_place;
use map_core::{Gid, LocalMap};
use model_defs::Plan;
use std::alloc::AllocError;
use std::rc::Rc;

impl PlanBook {
    /// The plan of an import that was begun, of what is lacked of each rank and what each rank told, from this rank's list
    /// `source` of the map of owners to its list `target`. What the source lacks of the target is, rank by rank, what the plan
    /// lacks of that rank, in the plan's order; none of it is this rank's own; and the source has all that other ranks lack. The
    /// positions are local indices of the source and of the target. The book stays as it is. `Err` means that memory ran out.
    pub fn import_plan(
        &self,
        plan: Plan,
        source: &Rc<LocalMap>,
        target: &Rc<LocalMap>,
    ) -> Result<map_core::Plan, AllocError>
        requires known_plan { has_plan self.now plan ≡ true }
        requires lacking { (q : ℕ) → filter (λ g. owns (owners_of self.now plan g) q) (lacked_in source.now.value target.now.value) ≡ own_of self.now plan q }
        requires none_of_own { own_of self.now plan self.now.me ≡ [] }
        requires held { (q : ℕ) → q < self.now.ranks → All (λ g. stands g source.now.value ≡ true) (told_of self.now plan q) }
        ensures made { IfOk result (λ made. made ≡ import_of self.now.me self.now.ranks source.now.value target.now.value (own_of self.now plan) (told_of self.now plan)) }
    {
        let task = &self.plans[task_place(&self.plans, plan)];
        let made = task.import_plan(self.alloc, self.me, source, target)?;
        Ok(made)
    }

    /// The owner of each index of a list, by a plan that was begun: this rank where it has the index in its list of the map of
    /// owners, and else the one that is known, or 0 where none is. `Err` means that memory ran out.
    pub fn owners_of(
        &self,
        plan: Plan,
        own: &LocalMap,
        gids: &[Gid],
    ) -> Result<Vec<u32>, AllocError>
        requires known_plan { has_plan self.now plan ≡ true }
        ensures owners { IfOk result (λ owners. owners.items ≡ map (owner_by self.now.me own.now (owners_of self.now plan)) gids.now) }
    {
        let task = &self.plans[task_place(&self.plans, plan)];
        let owners = task.owners_of(self.alloc, self.me, own, gids)?;
        Ok(owners)
    }
}
