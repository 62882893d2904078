//! A rank asks for the owners of what it lacks by a plan, and answers what it is asked.
ghost use Rattle.std.specs.Prelude.{◌≡◌, ◌<◌, ◌≤◌, ◌^◌, ◌==◌, ◌&&◌, ℕ, [], true, false, not, All, None, Some, length, map, is_some, if◌then◌else◌, IfOk, OnOk};
ghost use Rattle.map_core.specs.Layouts.{owner, stands, AreDistinct};
ghost use Rattle.map_core.specs.Homes.{homed};
ghost use Rattle.map_core.specs.Uniform.{uniform_layout};
ghost use Rattle.model_defs.specs.declared.phase.Plan.{Plan};
ghost use Rattle.model_defs.specs.Transfers.{same_plan};
ghost use Rattle.rank_plans.specs.Answers.{answered, word_of};
ghost use Rattle.rank_plans.specs.Books.{asked_of, directory_of, has_map, has_plan, lacking_of, made_of, map_size_of, owners_of, size_of, slices, task_in, told_of};

use crate::PlanBook;
use crate::places::{map_place, task_place};
use crate::task::PlanTask;
use map_core::Gid;
use model_defs::Plan;
use std::alloc::AllocError;

impl PlanBook {
    /// Begins a plan that was not begun before, and whose owners are to be asked for. `size` is that of the map of owners, at
    /// most 2^40, and `lacking` are the indices that this rank lacks, distinct and below the size. What the rank asks itself is
    /// asked. All that is kept of other plans and of maps stays.
    pub fn begin_ask(&mut self, plan: Plan, size: Gid, lacking: Vec<Gid>) -> Result<(), AllocError>
        requires first { has_plan self.old plan ≡ false }
        requires size_limit { size ≤ 2 ^ 40 }
        requires below { All (λ g. g < size) lacking.items }
        requires distinct { AreDistinct lacking.items }
        ensures size { OnOk result (size_of self.new plan ≡ Some size) }
        ensures lacking { OnOk result (lacking_of self.new plan ≡ lacking.items) }
        ensures asked { OnOk result ((q : ℕ) → q < self.old.ranks → asked_of self.new plan q ≡ (if q == self.old.me then homed self.old.ranks size self.old.me lacking.items else [])) }
        ensures owners { OnOk result ((g : ℕ) → owners_of self.new plan g ≡ None) }
        ensures told { OnOk result ((q : ℕ) → told_of self.new plan q ≡ []) }
        ensures made { OnOk result (made_of self.new plan ≡ None) }
        ensures others { OnOk result ((other : Plan) → same_plan other plan ≡ false → task_in self.new.plans other ≡ task_in self.old.plans other) }
        ensures maps { OnOk result (self.new.maps ≡ self.old.maps) }
        ensures me { self.new.me ≡ self.old.me }
        ensures ranks { self.new.ranks ≡ self.old.ranks }
    {
        let task = PlanTask::asking(self.alloc, self.me, self.ranks, plan, size, lacking)?;
        self.plans.push(task)?;
        Ok(())
    }

    /// Begins a plan that was not begun before, and whose owners are those of the uniform map of `size` indices, at most 2^40.
    /// `lacking` are the indices that this rank lacks, distinct and below the size. All that is kept of other plans and of maps
    /// stays.
    pub fn begin_by_rule(
        &mut self,
        plan: Plan,
        size: Gid,
        lacking: Vec<Gid>,
    ) -> Result<(), AllocError>
        requires first { has_plan self.old plan ≡ false }
        requires size_limit { size ≤ 2 ^ 40 }
        requires below { All (λ g. g < size) lacking.items }
        requires distinct { AreDistinct lacking.items }
        ensures size { OnOk result (size_of self.new plan ≡ Some size) }
        ensures lacking { OnOk result (lacking_of self.new plan ≡ lacking.items) }
        ensures asked { OnOk result ((q : ℕ) → asked_of self.new plan q ≡ []) }
        ensures owners { OnOk result ((g : ℕ) → owners_of self.new plan g ≡ (if stands g lacking.items then owner (uniform_layout self.old.ranks size) g else None)) }
        ensures told { OnOk result ((q : ℕ) → told_of self.new plan q ≡ []) }
        ensures made { OnOk result (made_of self.new plan ≡ None) }
        ensures others { OnOk result ((other : Plan) → same_plan other plan ≡ false → task_in self.new.plans other ≡ task_in self.old.plans other) }
        ensures maps { OnOk result (self.new.maps ≡ self.old.maps) }
        ensures me { self.new.me ≡ self.old.me }
        ensures ranks { self.new.ranks ≡ self.old.ranks }
    {
        let task = PlanTask::ruled(self.alloc, self.ranks, plan, size, lacking)?;
        self.plans.push(task)?;
        Ok(())
    }

    /// What this rank asks rank `to` by a plan that was begun: those of the indices that it lacks whose home is that rank, in
    /// their order.
    pub fn ask_words(&self, plan: Plan, to: u32) -> Result<Vec<u64>, AllocError>
        requires known_rank { to < self.now.ranks }
        requires known_plan { has_plan self.now plan ≡ true }
        ensures words { IfOk result (λ words. (size : ℕ) → size_of self.now plan ≡ Some size → words.items ≡ homed self.now.ranks size to (lacking_of self.now plan)) }
    {
        let words = self.plans[task_place(&self.plans, plan)].questions(self.alloc, to)?;
        Ok(words)
    }

    /// Rank `from` asked for the owners of these indices, by a plan that was begun. All else stays.
    pub fn absorb_ask(&mut self, plan: Plan, from: u32, words: &[u64]) -> Result<(), AllocError>
        requires known_rank { from < self.old.ranks }
        requires known_plan { has_plan self.old plan ≡ true }
        ensures asked { OnOk result (asked_of self.new plan from ≡ words.now) }
        ensures others { OnOk result ((other : Plan) (q : ℕ) → same_plan other plan && (q == from) ≡ false → asked_of self.new other q ≡ asked_of self.old other q) }
        ensures stays { OnOk result (slices self.new ≡ record (slices self.old) { asked = asked_of self.new }) }
    {
        let at = task_place(&self.plans, plan);
        self.plans[at].absorb_questions(self.alloc, from, words)?;
        Ok(())
    }

    /// The answers to what rank `to` asked by a plan that was begun, whose map of owners is `owner_map`: for each index in order its
    /// owner by the directory of that map, or 4294967295 where it has none.
    pub fn tell_words(&self, plan: Plan, owner_map: u32, to: u32) -> Result<Vec<u64>, AllocError>
        requires known_rank { to < self.now.ranks }
        requires known_plan { has_plan self.now plan ≡ true }
        requires known_map { has_map self.now owner_map ≡ true }
        ensures words { IfOk result (λ words. words.items ≡ map (λ g. word_of (directory_of self.now owner_map g)) (asked_of self.now plan to)) }
    {
        let directory = &self.maps[map_place(&self.maps, owner_map)].directory;
        let words = self.plans[task_place(&self.plans, plan)].answers(self.alloc, directory, to)?;
        Ok(words)
    }

    /// This rank answers what it asks itself by a plan that was begun, by its directory of the map of owners: so it knows the
    /// owners of those indices that it lacks whose home it is. All else stays.
    pub fn begin_tell(&mut self, plan: Plan, owner_map: u32) -> Result<(), AllocError>
        requires known_plan { has_plan self.old plan ≡ true }
        requires known_map { has_map self.old owner_map ≡ true }
        requires size { map_size_of self.old owner_map ≡ size_of self.old plan }
        requires asked { (size : ℕ) → size_of self.old plan ≡ Some size → asked_of self.old plan self.old.me ≡ homed self.old.ranks size self.old.me (lacking_of self.old plan) }
        ensures owners { OnOk result ((g : ℕ) → stands g (asked_of self.old plan self.old.me) ≡ true → owners_of self.new plan g ≡ directory_of self.old owner_map g) }
        ensures others { OnOk result ((other : Plan) (g : ℕ) → same_plan other plan && stands g (asked_of self.old plan self.old.me) ≡ false → owners_of self.new other g ≡ owners_of self.old other g) }
        ensures stays { OnOk result (slices self.new ≡ record (slices self.old) { owners = owners_of self.new }) }
    {
        let me = self.me();
        let words = self.tell_words(plan, owner_map, me)?;
        self.absorb_tell(plan, me, &words)?;
        Ok(())
    }

    /// Rank `from` answered what it was asked by a plan that was begun: word k names the owner of the k-th index that this rank
    /// asked it, or none where it is no rank. All else stays.
    pub fn absorb_tell(&mut self, plan: Plan, from: u32, words: &[u64]) -> Result<(), AllocError>
        requires known_rank { from < self.old.ranks }
        requires known_plan { has_plan self.old plan ≡ true }
        requires each { (size : ℕ) → size_of self.old plan ≡ Some size → length words.now ≡ length (homed self.old.ranks size from (lacking_of self.old plan)) }
        ensures owners { OnOk result ((size g : ℕ) → size_of self.old plan ≡ Some size → stands g (homed self.old.ranks size from (lacking_of self.old plan)) ≡ true → owners_of self.new plan g ≡ answered self.old.ranks (homed self.old.ranks size from (lacking_of self.old plan)) words.now g) }
        ensures others { OnOk result ((size : ℕ) (other : Plan) (g : ℕ) → size_of self.old plan ≡ Some size → same_plan other plan && stands g (homed self.old.ranks size from (lacking_of self.old plan)) ≡ false → owners_of self.new other g ≡ owners_of self.old other g) }
        ensures stays { OnOk result (slices self.new ≡ record (slices self.old) { owners = owners_of self.new }) }
    {
        let at = task_place(&self.plans, plan);
        self.plans[at].absorb_answers(self.alloc, from, words)?;
        Ok(())
    }
}
