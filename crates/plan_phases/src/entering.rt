//! A rank enters a phase in which plans are made.
ghost use Rattle.std.specs.Prelude.{◌≡◌, ℕ, List, Option, OnOk};
ghost use Rattle.tables.specs.Tables.{Table};
ghost use Rattle.mm_text.specs.Reading.{File};
ghost use Rattle.rank_phases.specs.Stages.{entering};
ghost use Rattle.model_defs.specs.declared.phase.About.TheVariants.{RegisterMap, AskOwners, TellOwners, SharePlan};
ghost use Rattle.model_defs.specs.ShapeLists.{at_list};
ghost use Rattle.model_defs.specs.Shapes.{shape};
ghost use Rattle.rank_stages.specs.JobStages.{HasValues};
ghost use Rattle.plan_phases.specs.BookStages.{IsBookStage, with_book};
ghost use Rattle.plan_phases.specs.BookCalls.{IsEnteringBook};

use crate::maps::{is_uniform, lacked_by, owner_map, size_of};
use map_core::Gid;
use model_defs::{About, Job, Plan, Shape};
use rank_plans::PlanBook;
use rank_share::own_map;
use scalar_laws::Scalar;
use std::alloc::{AllocError, Global};

/// Enters a phase that is about a map or a plan: begins the registration of the map with the rank's own indices; begins the plan
/// with the indices that the rank lacks and asks itself; answers itself; or, in a uniform map, begins the plan with the owners that
/// follow from the size. What is kept of other maps and plans stays. `shapes` are those of the job's values; `list` is the rank's list
/// by the plan where this is one of the structure of a matrix, ascending (its columns, or the rows of its part), and else not
/// looked at. `Err` means that memory ran out.
pub fn enter_phase<S: Scalar>(
    alloc: Global,
    book: &mut PlanBook,
    job: &Job,
    shapes: &[Shape],
    about: About,
    list: &[Gid],
) -> Result<(), AllocError>
    requires shapes { at_list shapes.now ≡ shape job.now }
    requires enters { (files : List File) × IsEnteringBook S.semiring S.conversions job.now files book.old about list.now }
    ensures entered { OnOk result ((files : List File) (e : IsEnteringBook S.semiring S.conversions job.now files book.old about list.now) (values : ℕ → Option (Table S))
        → HasValues S.semiring S.conversions job.now files values (entering e.stage)
        → IsBookStage S.semiring S.conversions job.now files book.new (record (with_book e.view book.new) { values = values }) (entering e.stage)) }
{
    match about {
        About::RegisterMap { map } => enter_register::<S>(alloc, book, job, map),
        About::AskOwners { plan } => enter_ask::<S>(alloc, book, job, shapes, plan, list),
        About::TellOwners { plan } => enter_tell::<S>(book, job, shapes, plan),
        About::SharePlan { plan } => enter_share::<S>(alloc, book, job, shapes, plan, list),
        About::SendNumbers { .. } => unreachable!(),
    }
}

/// The rank registers its own indices of the map, of which those are kept whose home it is. `Err` means that memory ran out.
fn enter_register<S: Scalar>(
    alloc: Global,
    book: &mut PlanBook,
    job: &Job,
    map: u32,
) -> Result<(), AllocError>
    requires enters { (files : List File) × (list : List ℕ) × IsEnteringBook S.semiring S.conversions job.now files book.old (RegisterMap map) list }
    ensures entered { OnOk result ((files : List File) (list : List ℕ) (e : IsEnteringBook S.semiring S.conversions job.now files book.old (RegisterMap map) list) (values : ℕ → Option (Table S))
        → HasValues S.semiring S.conversions job.now files values (entering e.stage)
        → IsBookStage S.semiring S.conversions job.now files book.new (record (with_book e.view book.new) { values = values }) (entering e.stage)) }
{
    let own = own_map(alloc, job, map, book.me())?;
    book.begin_register(map, size_of(job, map), &own)?;
    Ok(())
}

/// The rank begins the plan, and asks itself for the owners of those indices that it lacks whose home it is. `Err` means that
/// memory ran out.
fn enter_ask<S: Scalar>(
    alloc: Global,
    book: &mut PlanBook,
    job: &Job,
    shapes: &[Shape],
    plan: Plan,
    list: &[Gid],
) -> Result<(), AllocError>
    requires shapes { at_list shapes.now ≡ shape job.now }
    requires enters { (files : List File) × IsEnteringBook S.semiring S.conversions job.now files book.old (AskOwners plan) list.now }
    ensures entered { OnOk result ((files : List File) (e : IsEnteringBook S.semiring S.conversions job.now files book.old (AskOwners plan) list.now) (values : ℕ → Option (Table S))
        → HasValues S.semiring S.conversions job.now files values (entering e.stage)
        → IsBookStage S.semiring S.conversions job.now files book.new (record (with_book e.view book.new) { values = values }) (entering e.stage)) }
{
    let lacking = lacked_by(alloc, job, shapes, plan, list, book.me())?;
    book.begin_ask(plan, size_of(job, owner_map(shapes, plan)), lacking)?;
    Ok(())
}

/// The rank answers what it asks itself. `Err` means that memory ran out.
fn enter_tell<S: Scalar>(
    book: &mut PlanBook,
    job: &Job,
    shapes: &[Shape],
    plan: Plan,
) -> Result<(), AllocError>
    requires shapes { at_list shapes.now ≡ shape job.now }
    requires enters { (files : List File) × (list : List ℕ) × IsEnteringBook S.semiring S.conversions job.now files book.old (TellOwners plan) list }
    ensures entered { OnOk result ((files : List File) (list : List ℕ) (e : IsEnteringBook S.semiring S.conversions job.now files book.old (TellOwners plan) list) (values : ℕ → Option (Table S))
        → HasValues S.semiring S.conversions job.now files values (entering e.stage)
        → IsBookStage S.semiring S.conversions job.now files book.new (record (with_book e.view book.new) { values = values }) (entering e.stage)) }
{
    book.begin_tell(plan, owner_map(shapes, plan))?;
    Ok(())
}

/// The rank begins the plan where the owners follow by rule. Any other plan was begun before. `Err` means that memory ran out.
fn enter_share<S: Scalar>(
    alloc: Global,
    book: &mut PlanBook,
    job: &Job,
    shapes: &[Shape],
    plan: Plan,
    list: &[Gid],
) -> Result<(), AllocError>
    requires shapes { at_list shapes.now ≡ shape job.now }
    requires enters { (files : List File) × IsEnteringBook S.semiring S.conversions job.now files book.old (SharePlan plan) list.now }
    ensures entered { OnOk result ((files : List File) (e : IsEnteringBook S.semiring S.conversions job.now files book.old (SharePlan plan) list.now) (values : ℕ → Option (Table S))
        → HasValues S.semiring S.conversions job.now files values (entering e.stage)
        → IsBookStage S.semiring S.conversions job.now files book.new (record (with_book e.view book.new) { values = values }) (entering e.stage)) }
{
    let map = owner_map(shapes, plan);
    if !is_uniform(job, map) {
        return Ok(());
    }
    let lacking = lacked_by(alloc, job, shapes, plan, list, book.me())?;
    book.begin_by_rule(plan, size_of(job, map), lacking)?;
    Ok(())
}
