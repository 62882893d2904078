//! A rank says what it lacks of each owner, keeps what others lack of it, and makes the plan.
ghost use Rattle.std.specs.Prelude.{◌≡◌, ◌<◌, ◌==◌, ◌&&◌, ℕ, [], true, false, All, Some, length, IfOk, OnOk};
ghost use Rattle.map_core.specs.Layouts.{stands};
ghost use Rattle.map_core.specs.Plans.{IsWithin};
ghost use Rattle.model_defs.specs.declared.phase.Plan.{Plan};
ghost use Rattle.model_defs.specs.Transfers.{same_plan};
ghost use Rattle.rank_plans.specs.Answers.{lacked_in};
ghost use Rattle.rank_plans.specs.Books.{has_plan, lacking_of, made_of, own_of, slices, told_of};
ghost use Rattle.rank_plans.specs.Tasks.{export_of, import_of};

use crate::PlanBook;
use crate::places::task_place;
use map_core::LocalMap;
use model_defs::Plan;
use std::alloc::AllocError;
use std::rc::Rc;

impl PlanBook {
    /// What this rank lacks by a plan that was begun and rank `to` owns, as far as owners are known, in list order.
    pub fn share_words(&self, plan: Plan, to: u32) -> Result<Vec<u64>, AllocError>
        requires known_plan { has_plan self.now plan ≡ true }
        ensures words { IfOk result (λ words. words.items ≡ own_of self.now plan to) }
    {
        let words = self.plans[task_place(&self.plans, plan)].own(self.alloc, to)?;
        Ok(words)
    }

    /// Rank `from` lacks these indices of this one, by a plan that was begun. All else stays.
    pub fn absorb_share(&mut self, plan: Plan, from: u32, words: &[u64]) -> Result<(), AllocError>
        requires known_rank { from < self.old.ranks }
        requires known_plan { has_plan self.old plan ≡ true }
        ensures told { OnOk result (told_of self.new plan from ≡ words.now) }
        ensures others { OnOk result ((other : Plan) (q : ℕ) → same_plan other plan && (q == from) ≡ false → told_of self.new other q ≡ told_of self.old other q) }
        ensures stays { OnOk result (slices self.new ≡ record (slices self.old) { told = told_of self.new }) }
    {
        let at = task_place(&self.plans, plan);
        self.plans[at].absorb_told(self.alloc, from, words)?;
        Ok(())
    }

    /// Makes the plan of an import that was begun, of what is lacked of each rank and what each rank told. `source` and `target`
    /// are this rank's lists of the two maps: the plan's lacking indices are those that the source lacks of the target, none of
    /// them is this rank's own, and the source has all that other ranks lack. The positions are local indices of the source and
    /// of the target. All else stays.
    pub fn finish_import(
        &mut self,
        plan: Plan,
        source: &Rc<LocalMap>,
        target: &Rc<LocalMap>,
    ) -> Result<(), AllocError>
        requires known_plan { has_plan self.old plan ≡ true }
        requires lacking { lacking_of self.old plan ≡ lacked_in source.now.value target.now.value }
        requires none_of_own { own_of self.old plan self.old.me ≡ [] }
        requires held { (q : ℕ) → q < self.old.ranks → All (λ g. stands g source.now.value ≡ true) (told_of self.old plan q) }
        ensures made { OnOk result (made_of self.new plan ≡ Some (import_of self.old.me self.old.ranks source.now.value target.now.value (own_of self.old plan) (told_of self.old plan))) }
        ensures within { OnOk result (IsWithin (length source.now.value) (length target.now.value) (import_of self.old.me self.old.ranks source.now.value target.now.value (own_of self.old plan) (told_of self.old plan))) }
        ensures others { OnOk result ((other : Plan) → same_plan other plan ≡ false → made_of self.new other ≡ made_of self.old other) }
        ensures stays { OnOk result (slices self.new ≡ record (slices self.old) { made = made_of self.new }) }
    {
        let at = task_place(&self.plans, plan);
        self.plans[at].finish_import(self.alloc, self.me, source, target)?;
        Ok(())
    }

    /// Makes the plan of an export that was begun, of what is given to each rank and what each rank told. `source` and `target`
    /// are this rank's lists of the two maps: the plan's lacking indices are those of the source that the target has not, none
    /// of them is this rank's own, and the target has all that other ranks give. The positions are local indices of the source
    /// and of the target. All else stays.
    pub fn finish_export(
        &mut self,
        plan: Plan,
        source: &Rc<LocalMap>,
        target: &Rc<LocalMap>,
    ) -> Result<(), AllocError>
        requires known_plan { has_plan self.old plan ≡ true }
        requires lacking { lacking_of self.old plan ≡ lacked_in target.now.value source.now.value }
        requires none_of_own { own_of self.old plan self.old.me ≡ [] }
        requires held { (q : ℕ) → q < self.old.ranks → All (λ g. stands g target.now.value ≡ true) (told_of self.old plan q) }
        ensures made { OnOk result (made_of self.new plan ≡ Some (export_of self.old.me self.old.ranks source.now.value target.now.value (own_of self.old plan) (told_of self.old plan))) }
        ensures within { OnOk result (IsWithin (length source.now.value) (length target.now.value) (export_of self.old.me self.old.ranks source.now.value target.now.value (own_of self.old plan) (told_of self.old plan))) }
        ensures others { OnOk result ((other : Plan) → same_plan other plan ≡ false → made_of self.new other ≡ made_of self.old other) }
        ensures stays { OnOk result (slices self.new ≡ record (slices self.old) { made = made_of self.new }) }
    {
        let at = task_place(&self.plans, plan);
        self.plans[at].finish_export(self.alloc, self.me, source, target)?;
        Ok(())
    }
}
