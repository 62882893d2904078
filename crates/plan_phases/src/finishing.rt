//! A rank finishes a phase in which plans are made.
ghost use Rattle.std.specs.Prelude.{◌≡◌, ℕ, ◌<◌, List, [], All, length, true, false, Some, is_some, OnOk};
ghost use Rattle.map_core.specs.Layouts.{stands};
ghost use Rattle.mm_text.specs.Reading.{File};
ghost use Rattle.model_defs.specs.declared.phase.About.TheVariants.{SharePlan};
ghost use Rattle.model_defs.specs.declared.phase.Plan.{Plan};
ghost use Rattle.model_defs.specs.declared.phase.Plan.TheVariants.{ExportPlan, ImportPlan};
ghost use Rattle.model_defs.specs.Maps.{list_of};
ghost use Rattle.model_defs.specs.Transfers.{same_plan};
ghost use Rattle.model_defs.specs.Valid.{IsValid};
ghost use Rattle.rank_plans.specs.Answers.{lacked_in};
ghost use Rattle.rank_plans.specs.Books.{has_plan, lacking_of, made_of, own_of, slices, told_of};
ghost use Rattle.rank_plans.specs.Tasks.{export_of, import_of};
ghost use Rattle.rank_stages.specs.JobStages.{about_at};
ghost use Rattle.value_phases.specs.ValuePhases.{is_of_structure};
ghost use Rattle.plan_phases.specs.BookStages.{IsBookStage};
ghost use Rattle.plan_phases.specs.BookCalls.{IsLeavingBook};

use model_defs::{About, Job, Plan};
use rank_plans::PlanBook;
use rank_share::own_map;
use scalar_laws::Scalar;
use std::alloc::{AllocError, Global};

/// Finishes the phase that the rank is in, once all letters of it came. Where it shared a plan between two maps this is made: its
/// positions are local indices of the rank's lists of the two maps. The plan of a structure is not kept in the book (see
/// `structure_plan`). All else stays. `Err` means that memory ran out.
pub fn finish_phase<S: Scalar>(
    alloc: Global,
    book: &mut PlanBook,
    job: &Job,
    about: About,
) -> Result<(), AllocError>
    requires leaves { (files : List File) × IsLeavingBook S.semiring S.conversions job.now files book.old about }
    ensures kept { OnOk result ((files : List File) (e : IsLeavingBook S.semiring S.conversions job.now files book.old about)
        → IsBookStage S.semiring S.conversions job.now files book.new e.view e.stage) }
    ensures made { OnOk result ((files : List File) (e : IsLeavingBook S.semiring S.conversions job.now files book.old about) (n : ℕ) (plan : Plan)
        → about_at job.now n ≡ Some (SharePlan plan) → is_of_structure plan ≡ false → n < e.stage.entered → is_some (made_of book.new plan) ≡ true) }
{
    match about {
        About::SharePlan { plan } => finish_share::<S>(alloc, book, job, plan),
        _ => Ok(()),
    }
}

/// Makes the plan that was shared, where it is one of an import or of an export. `Err` means that memory ran out.
fn finish_share<S: Scalar>(
    alloc: Global,
    book: &mut PlanBook,
    job: &Job,
    plan: Plan,
) -> Result<(), AllocError>
    requires leaves { (files : List File) × IsLeavingBook S.semiring S.conversions job.now files book.old (SharePlan plan) }
    ensures kept { OnOk result ((files : List File) (e : IsLeavingBook S.semiring S.conversions job.now files book.old (SharePlan plan))
        → IsBookStage S.semiring S.conversions job.now files book.new e.view e.stage) }
    ensures made { OnOk result ((files : List File) (e : IsLeavingBook S.semiring S.conversions job.now files book.old (SharePlan plan)) (n : ℕ) (other : Plan)
        → about_at job.now n ≡ Some (SharePlan other) → is_of_structure other ≡ false → n < e.stage.entered → is_some (made_of book.new other) ≡ true) }
{
    match plan {
        Plan::ImportPlan { source, target } => make_import(alloc, book, job, source, target),
        Plan::ExportPlan { source, target } => make_export(alloc, book, job, source, target),
        Plan::ColumnPlan { .. } | Plan::RowPlan { .. } => Ok(()),
    }
}

/// Makes the plan of an import between two maps, which was begun, once each rank told what it lacks of this one. All else stays.
/// `Err` means that memory ran out.
fn make_import(
    alloc: Global,
    book: &mut PlanBook,
    job: &Job,
    source: u32,
    target: u32,
) -> Result<(), AllocError>
    requires valid { IsValid job.now }
    requires known_source { source < length job.now.maps }
    requires known_target { target < length job.now.maps }
    requires ranks { book.old.ranks ≡ job.now.ranks }
    requires known_plan { has_plan book.old (ImportPlan source target) ≡ true }
    requires lacking { lacking_of book.old (ImportPlan source target) ≡ lacked_in (list_of job.now source book.old.me) (list_of job.now target book.old.me) }
    requires none_of_own { own_of book.old (ImportPlan source target) book.old.me ≡ [] }
    requires held { (q : ℕ) → q < book.old.ranks → All (λ g. stands g (list_of job.now source book.old.me) ≡ true) (told_of book.old (ImportPlan source target) q) }
    ensures made { OnOk result (made_of book.new (ImportPlan source target)
        ≡ Some (import_of book.old.me book.old.ranks (list_of job.now source book.old.me) (list_of job.now target book.old.me)
        (own_of book.old (ImportPlan source target)) (told_of book.old (ImportPlan source target)))) }
    ensures others { OnOk result ((other : Plan) → same_plan other (ImportPlan source target) ≡ false → made_of book.new other ≡ made_of book.old other) }
    ensures stays { OnOk result (slices book.new ≡ record (slices book.old) { made = made_of book.new }) }
{
    let me = book.me();
    let from = own_map(alloc, job, source, me)?;
    let to = own_map(alloc, job, target, me)?;
    book.finish_import(Plan::ImportPlan { source, target }, &from, &to)
}

/// Makes the plan of an export between two maps, which was begun, once each rank told what it gives to this one. All else stays.
/// `Err` means that memory ran out.
fn make_export(
    alloc: Global,
    book: &mut PlanBook,
    job: &Job,
    source: u32,
    target: u32,
) -> Result<(), AllocError>
    requires valid { IsValid job.now }
    requires known_source { source < length job.now.maps }
    requires known_target { target < length job.now.maps }
    requires ranks { book.old.ranks ≡ job.now.ranks }
    requires known_plan { has_plan book.old (ExportPlan source target) ≡ true }
    requires lacking { lacking_of book.old (ExportPlan source target) ≡ lacked_in (list_of job.now target book.old.me) (list_of job.now source book.old.me) }
    requires none_of_own { own_of book.old (ExportPlan source target) book.old.me ≡ [] }
    requires held { (q : ℕ) → q < book.old.ranks → All (λ g. stands g (list_of job.now target book.old.me) ≡ true) (told_of book.old (ExportPlan source target) q) }
    ensures made { OnOk result (made_of book.new (ExportPlan source target)
        ≡ Some (export_of book.old.me book.old.ranks (list_of job.now source book.old.me) (list_of job.now target book.old.me)
        (own_of book.old (ExportPlan source target)) (told_of book.old (ExportPlan source target)))) }
    ensures others { OnOk result ((other : Plan) → same_plan other (ExportPlan source target) ≡ false → made_of book.new other ≡ made_of book.old other) }
    ensures stays { OnOk result (slices book.new ≡ record (slices book.old) { made = made_of book.new }) }
{
    let me = book.me();
    let from = own_map(alloc, job, source, me)?;
    let to = own_map(alloc, job, target, me)?;
    book.finish_export(Plan::ExportPlan { source, target }, &from, &to)
}
