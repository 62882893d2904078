//! What is kept of one plan.
ghost use Rattle.std.specs.Prelude.{◌≡◌, ◌<◌, ◌≤◌, ◌^◌, ℕ, [], true, All, Some, length, is_some, map, slice_set, if◌then◌else◌, IfOk, OnOk};
ghost use Rattle.std.specs.List.{range_with_len};
ghost use Rattle.map_core.specs.Layouts.{stands, AreDistinct};
ghost use Rattle.map_core.specs.Homes.{homed, is_home};
ghost use Rattle.map_core.specs.Plans.{IsWithin};
ghost use Rattle.directory.specs.Directories.{answer_for};
ghost use Rattle.rank_plans.specs.Answers.{answered, filled, known_at, lacked_in};
ghost use Rattle.rank_plans.specs.Tasks.{asked_by, asking, export_of, import_of, owned_of, ruled, told_by};

use crate::answers::{
    answer_words, filled_owners, owned_indices, owners_by_rule, owners_of_target,
};
use directory::{Directory, questions};
use export_plan::{ExportPlan, OfferFault};
use import_plan::{ImportPlan, WantFault};
use map_core::{Gid, LocalMap};
use model_defs::Plan;
use std::alloc::{AllocError, Global};
use std::marker::Model;
use std::rc::Rc;

/// What a rank keeps of one plan: which indices it lacks and who owns them, what each rank asked it and lacks of it, and the
/// plan that was made.
#[derive(Drop)]
pub(crate) struct PlanTask {
    plan: Plan,
    pub(crate) ranks: u32,
    size: Gid,
    pub(crate) lacking: Vec<Gid>,
    pub(crate) owners: Vec<Option<u32>>,
    asked: Vec<Vec<Gid>>,
    pub(crate) told: Vec<Vec<Gid>>,
    made: Option<map_core::Plan>,
}

impl Model for PlanTask {
    ghost use Rattle.std.specs.Prelude.{map};
    ghost use Rattle.rank_plans.specs.Tasks.{Task, IsTask};

    ghost Value = { Task };

    ghost view = { λ a. record { plan = a.plan; ranks = a.ranks; size = a.size; lacking = a.lacking.items; owners = a.owners.items; asked = map (λ v. v.items) a.asked.items; told = map (λ v. v.items) a.told.items; made = a.made } };

    ghost invariant = { λ a. IsTask (record { plan = a.plan; ranks = a.ranks; size = a.size; lacking = a.lacking.items; owners = a.owners.items; asked = map (λ v. v.items) a.asked.items; told = map (λ v. v.items) a.told.items; made = a.made }) };
}

impl PlanTask {
    /// The plan whose owners are to be asked for. `Err` means that memory ran out.
    pub(crate) fn asking(
        alloc: Global,
        me: u32,
        ranks: u32,
        plan: Plan,
        size: Gid,
        lacking: Vec<Gid>,
    ) -> Result<PlanTask, AllocError>
        requires ranks_limit { ranks ≤ 32 }
        requires own_rank { me < ranks }
        requires size_limit { size ≤ 2 ^ 40 }
        requires below { All (λ g. g < size) lacking.items }
        requires distinct { AreDistinct lacking.items }
        ensures begun { IfOk result (λ task. task ≡ asking me ranks plan size lacking.items) }
    {
        let owners = unknown_owners(alloc, &lacking)?;
        let own = questions(alloc, ranks, size, &lacking, me)?;
        let mut asked = empty_lists(alloc, ranks)?;
        asked[me as usize] = own;
        let told = empty_lists(alloc, ranks)?;
        Ok(PlanTask {
            plan,
            ranks,
            size,
            lacking,
            owners,
            asked,
            told,
            made: None,
        })
    }

    /// The plan whose owners are those of the uniform map. `Err` means that memory ran out.
    pub(crate) fn ruled(
        alloc: Global,
        ranks: u32,
        plan: Plan,
        size: Gid,
        lacking: Vec<Gid>,
    ) -> Result<PlanTask, AllocError>
        requires some_rank { 1 ≤ ranks }
        requires ranks_limit { ranks ≤ 32 }
        requires size_limit { size ≤ 2 ^ 40 }
        requires below { All (λ g. g < size) lacking.items }
        requires distinct { AreDistinct lacking.items }
        ensures begun { IfOk result (λ task. task ≡ ruled ranks plan size lacking.items) }
    {
        let owners = owners_by_rule(alloc, ranks, size, &lacking)?;
        let asked = empty_lists(alloc, ranks)?;
        let told = empty_lists(alloc, ranks)?;
        Ok(PlanTask {
            plan,
            ranks,
            size,
            lacking,
            owners,
            asked,
            told,
            made: None,
        })
    }

    /// The plan that this is kept of.
    pub(crate) fn plan(&self) -> Plan
        ensures plan { result ≡ self.now.plan }
    {
        self.plan
    }

    /// The plan that was made.
    pub(crate) fn made(&self) -> &map_core::Plan
        requires made { is_some self.now.made ≡ true }
        ensures made { Some result.now ≡ self.now.made }
    {
        match &self.made {
            Some(plan) => plan,
            None => unreachable!(),
        }
    }

    /// What is asked of rank `to`. `Err` means that memory ran out.
    pub(crate) fn questions(&self, alloc: Global, to: u32) -> Result<Vec<u64>, AllocError>
        requires known_rank { to < self.now.ranks }
        ensures questions { IfOk result (λ words. words.items ≡ homed self.now.ranks self.now.size to self.now.lacking) }
    {
        questions(alloc, self.ranks, self.size, &self.lacking, to)
    }

    /// Rank `from` asks for these. `Err` means that memory ran out.
    pub(crate) fn absorb_questions(
        &mut self,
        alloc: Global,
        from: u32,
        words: &[u64],
    ) -> Result<(), AllocError>
        requires known_rank { from < self.old.ranks }
        ensures absorbed { OnOk result (self.new ≡ record self.old { asked = slice_set self.old.asked from words.now }) }
        ensures asked { OnOk result (asked_by self.new from ≡ words.now) }
        ensures ranks { self.new.ranks ≡ self.old.ranks }
    {
        self.asked[from as usize] = Vec::from_slice(alloc, words)?;
        Ok(())
    }

    /// The answers to what rank `to` asked. `Err` means that memory ran out.
    pub(crate) fn answers(
        &self,
        alloc: Global,
        directory: &Directory,
        to: u32,
    ) -> Result<Vec<u64>, AllocError>
        requires known_rank { to < self.now.ranks }
        ensures answers { IfOk result (λ words. words.items ≡ map (answer_for directory.now) (asked_by self.now to)) }
    {
        answer_words(alloc, directory, &self.asked[to as usize])
    }

    /// Rank `from` answers what it was asked. `Err` means that memory ran out.
    pub(crate) fn absorb_answers(
        &mut self,
        alloc: Global,
        from: u32,
        words: &[u64],
    ) -> Result<(), AllocError>
        requires known_rank { from < self.old.ranks }
        ensures absorbed { OnOk result (self.new ≡ record self.old { owners = filled (is_home self.old.ranks self.old.size from) self.old.ranks self.old.lacking self.old.owners words.now }) }
        ensures known { OnOk result (length words.now ≡ length (homed self.old.ranks self.old.size from self.old.lacking) → (g : ℕ) → known_at self.new.lacking self.new.owners g ≡ (if stands g (homed self.old.ranks self.old.size from self.old.lacking) then answered self.old.ranks (homed self.old.ranks self.old.size from self.old.lacking) words.now g else known_at self.old.lacking self.old.owners g)) }
        ensures ranks { self.new.ranks ≡ self.old.ranks }
    {
        self.owners = filled_owners(
            alloc,
            self.ranks,
            self.size,
            from,
            &self.lacking,
            &self.owners,
            words,
        )?;
        Ok(())
    }

    /// What is lacked of rank `to`. `Err` means that memory ran out.
    pub(crate) fn own(&self, alloc: Global, to: u32) -> Result<Vec<u64>, AllocError>
        ensures own { IfOk result (λ words. words.items ≡ owned_of self.now to) }
    {
        let words = owned_indices(alloc, to, &self.lacking, &self.owners)?;
        Ok(words)
    }

    /// Rank `from` lacks these of this one. `Err` means that memory ran out.
    pub(crate) fn absorb_told(
        &mut self,
        alloc: Global,
        from: u32,
        words: &[u64],
    ) -> Result<(), AllocError>
        requires known_rank { from < self.old.ranks }
        ensures absorbed { OnOk result (self.new ≡ record self.old { told = slice_set self.old.told from words.now }) }
        ensures told { OnOk result (told_by self.new from ≡ words.now) }
        ensures ranks { self.new.ranks ≡ self.old.ranks }
    {
        self.told[from as usize] = Vec::from_slice(alloc, words)?;
        Ok(())
    }

    /// Makes the plan of an import. `Err` means that memory ran out.
    pub(crate) fn finish_import(
        &mut self,
        alloc: Global,
        me: u32,
        source: &Rc<LocalMap>,
        target: &Rc<LocalMap>,
    ) -> Result<(), AllocError>
        requires own_rank { me < self.old.ranks }
        requires lacking { self.old.lacking ≡ lacked_in source.now.value target.now.value }
        requires none_of_own { owned_of self.old me ≡ [] }
        requires held { (q : ℕ) → q < self.old.ranks → All (λ g. stands g source.now.value ≡ true) (told_by self.old q) }
        ensures made { OnOk result (self.new ≡ record self.old { made = Some (import_of me self.old.ranks source.now.value target.now.value (owned_of self.old) (told_by self.old)) }) }
        ensures within { OnOk result (IsWithin (length source.now.value) (length target.now.value) (import_of me self.old.ranks source.now.value target.now.value (owned_of self.old) (told_by self.old))) }
        ensures ranks { self.new.ranks ≡ self.old.ranks }
    {
        let owners = owners_of_target(alloc, me, source, target, &self.owners)?;
        let mut import = ImportPlan::start(alloc, me, self.ranks, source, target, &owners)?;
        accept_all(&mut import, &self.told)?;
        self.made = Some(import.finish()?);
        Ok(())
    }

    /// Makes the plan of an export. `Err` means that memory ran out.
    pub(crate) fn finish_export(
        &mut self,
        alloc: Global,
        me: u32,
        source: &Rc<LocalMap>,
        target: &Rc<LocalMap>,
    ) -> Result<(), AllocError>
        requires own_rank { me < self.old.ranks }
        requires lacking { self.old.lacking ≡ lacked_in target.now.value source.now.value }
        requires none_of_own { owned_of self.old me ≡ [] }
        requires held { (q : ℕ) → q < self.old.ranks → All (λ g. stands g target.now.value ≡ true) (told_by self.old q) }
        ensures made { OnOk result (self.new ≡ record self.old { made = Some (export_of me self.old.ranks source.now.value target.now.value (owned_of self.old) (told_by self.old)) }) }
        ensures within { OnOk result (IsWithin (length source.now.value) (length target.now.value) (export_of me self.old.ranks source.now.value target.now.value (owned_of self.old) (told_by self.old))) }
        ensures ranks { self.new.ranks ≡ self.old.ranks }
    {
        let owners = owners_of_target(alloc, me, target, source, &self.owners)?;
        let mut export = ExportPlan::start(alloc, me, self.ranks, source, target, &owners)?;
        accept_offers(&mut export, &self.told)?;
        self.made = Some(export.finish()?);
        Ok(())
    }
}

/// Accepts what each rank lacks.
pub(crate) fn accept_all(import: &mut ImportPlan, told: &[Vec<Gid>]) -> Result<(), AllocError>
    requires of_each { length told.now ≡ import.old.ranks }
    requires ranks_limit { import.old.ranks ≤ 32 }
    requires none { import.old.wants ≡ map (λ _. None) (range_with_len 0 import.old.ranks) }
    requires held { All (λ v. All (λ g. stands g import.old.source ≡ true) v.items) told.now }
    ensures accepted { OnOk result (import.new ≡ record import.old { wants = map (λ v. Some v.items) told.now }) }
{
    for at in 0..told.len() {
        match import.accept_want(at as u32, &told[at]) {
            Ok(()) => {}
            Err(WantFault::NoMem) => return Err(AllocError),
            Err(WantFault::NotHeld { .. }) => unreachable!(),
        }
    }
    Ok(())
}

/// Accepts what each rank gives.
fn accept_offers(export: &mut ExportPlan, told: &[Vec<Gid>]) -> Result<(), AllocError>
    requires of_each { length told.now ≡ export.old.ranks }
    requires ranks_limit { export.old.ranks ≤ 32 }
    requires none { export.old.offers ≡ map (λ _. None) (range_with_len 0 export.old.ranks) }
    requires held { All (λ v. All (λ g. stands g export.old.target ≡ true) v.items) told.now }
    ensures accepted { OnOk result (export.new ≡ record export.old { offers = map (λ v. Some v.items) told.now }) }
{
    for at in 0..told.len() {
        match export.accept_offer(at as u32, &told[at]) {
            Ok(()) => {}
            Err(OfferFault::NoMem) => return Err(AllocError),
            Err(OfferFault::NotHeld { .. }) => unreachable!(),
        }
    }
    Ok(())
}

/// No owner known for each of the indices. `Err` means that memory ran out.
fn unknown_owners(alloc: Global, gids: &[Gid]) -> Result<Vec<Option<u32>>, AllocError>
    ensures unknown { IfOk result (λ owners. owners.items ≡ map (λ _. None) gids.now) }
{
    let mut owners = Vec::with_capacity(alloc, gids.len())?;
    for _ in gids {
        owners.push(None)?;
    }
    Ok(owners)
}

/// An empty list for each rank. `Err` means that memory ran out.
fn empty_lists(alloc: Global, ranks: u32) -> Result<Vec<Vec<Gid>>, AllocError>
    ensures empty { IfOk result (λ lists. map (λ v. v.items) lists.items ≡ map (λ _. []) (range_with_len 0 ranks)) }
{
    let mut lists = Vec::with_capacity(alloc, ranks as usize)?;
    for _ in 0..ranks {
        lists.push(Vec::new(alloc))?;
    }
    Ok(lists)
}
