//! The phases of plans and of numbers that are sent, one after the other.
ghost use Rattle.std.specs.Prelude.{◌≡◌, ◌==◌, ◌++◌, [], ◌∷◌, OnOk, if◌then◌else◌};
ghost use Rattle.model_defs.specs.Phases.{MakePlan, Send, find_phases, is_registered, phase_for, plan_acts, plan_phases, send_kind, structure_plans, transfer_acts};
ghost use Rattle.model_defs.specs.ShapeLists.{at_list};
ghost use Rattle.model_defs.specs.Shapes.{shape};
ghost use Rattle.model_defs.specs.Transfers.{is_local};
ghost use Rattle.letter_codec.specs.declared.kind.Kind.TheVariants.{Reg};
ghost use Rattle.model_defs.specs.declared.phase.About.TheVariants.{RegisterMap};
ghost use Rattle.phase_list.specs.Walks.{Walks};

use crate::by_value::shape_at;
use crate::plans::{
    is_local, is_made, is_registered, is_uniform, owner_map, share_kind, shared_plan,
};
use letter_codec::Kind;
use model_defs::{About, Job, Phase, Plan, Shape, Sort, Transfer};
use std::alloc::AllocError;

/// The phases so far, and the plans that were made.
#[derive(Drop)]
pub(crate) struct Walk {
    pub(crate) phases: Vec<Phase>,
    pub(crate) made: Vec<Plan>,
}

/// Adds the registration of a map, unless one of these plans needed its directory.
fn push_registration(
    phases: &mut Vec<Phase>,
    job: &Job,
    shapes: &[Shape],
    made: &[Plan],
    k: usize,
    map: u32,
) -> Result<(), AllocError>
    requires shapes { at_list shapes.now ≡ shape job.now }
    ensures { OnOk result (phases.new.items ≡ phases.old.items ++ (if is_registered job.now made.now map then [] else phase_for k Reg (RegisterMap map) ∷ [])) }
{
    if is_registered(shapes, made, map) {
        return Ok(());
    }
    phases.push(Phase {
        kind: Kind::Reg,
        value: k,
        about: About::RegisterMap { map },
    })?;
    Ok(())
}

/// Adds the phases by which the owners of a plan are found.
fn push_finding(
    phases: &mut Vec<Phase>,
    job: &Job,
    shapes: &[Shape],
    made: &[Plan],
    k: usize,
    plan: Plan,
) -> Result<(), AllocError>
    requires shapes { at_list shapes.now ≡ shape job.now }
    ensures { OnOk result (phases.new.items ≡ phases.old.items ++ find_phases job.now made.now k plan) }
{
    let map = owner_map(shapes, plan);
    if is_uniform(job, map) {
        return Ok(());
    }
    push_registration(phases, job, shapes, made, k, map)?;
    phases.push(Phase {
        kind: Kind::Ask,
        value: k,
        about: About::AskOwners { plan },
    })?;
    phases.push(Phase {
        kind: Kind::Tell,
        value: k,
        about: About::TellOwners { plan },
    })?;
    Ok(())
}

/// Adds the phases in which a plan is made, unless one of these is the same.
fn push_plan(
    phases: &mut Vec<Phase>,
    job: &Job,
    shapes: &[Shape],
    made: &[Plan],
    k: usize,
    plan: Plan,
) -> Result<(), AllocError>
    requires shapes { at_list shapes.now ≡ shape job.now }
    ensures { OnOk result (phases.new.items ≡ phases.old.items ++ plan_phases job.now made.now k plan) }
{
    if is_made(shared_plan(shapes, plan), made) {
        return Ok(());
    }
    push_finding(phases, job, shapes, made, k, plan)?;
    phases.push(Phase {
        kind: share_kind(plan),
        value: k,
        about: About::SharePlan { plan },
    })?;
    Ok(())
}

/// Makes a plan for value `k`.
fn make_plan(
    walk: &mut Walk,
    job: &Job,
    shapes: &[Shape],
    k: usize,
    plan: Plan,
) -> Result<(), AllocError>
    requires shapes { at_list shapes.now ≡ shape job.now }
    ensures { OnOk result (Walks job.now walk.old walk.new (MakePlan k plan ∷ [])) }
{
    push_plan(&mut walk.phases, job, shapes, walk.made.as_slice(), k, plan)?;
    walk.made.push(shared_plan(shapes, plan))?;
    Ok(())
}

/// The kind of the letters in which the numbers of a value are sent.
fn send_kind(shapes: &[Shape], job: &Job, k: usize) -> Kind
    requires shapes { at_list shapes.now ≡ shape job.now }
    ensures { result ≡ send_kind job.now k }
{
    match shape_at(shapes, k).sort {
        Sort::Vector | Sort::Parts => Kind::Nums,
        Sort::Matrix | Sort::Split => Kind::Rows,
    }
}

/// Sends the numbers of a transfer for value `k`.
fn send(
    walk: &mut Walk,
    job: &Job,
    shapes: &[Shape],
    k: usize,
    stage: usize,
) -> Result<(), AllocError>
    requires shapes { at_list shapes.now ≡ shape job.now }
    ensures { OnOk result (Walks job.now walk.old walk.new (Send k stage ∷ [])) }
{
    walk.phases.push(Phase {
        kind: send_kind(shapes, job, k),
        value: k,
        about: About::SendNumbers { stage },
    })?;
    Ok(())
}

/// Makes the plan of a transfer for value `k`, and sends its numbers. A plan from a map to itself needs neither.
fn add_transfer(
    walk: &mut Walk,
    job: &Job,
    shapes: &[Shape],
    k: usize,
    stage: usize,
    plan: Plan,
) -> Result<(), AllocError>
    requires shapes { at_list shapes.now ≡ shape job.now }
    ensures { OnOk result (Walks job.now walk.old walk.new (if is_local plan then [] else MakePlan k plan ∷ Send k stage ∷ [])) }
{
    if is_local(plan) {
        return Ok(());
    }
    make_plan(walk, job, shapes, k, plan)?;
    send(walk, job, shapes, k, stage)?;
    Ok(())
}

/// The transfers by which value `k` is made.
pub(crate) fn add_transfers(
    walk: &mut Walk,
    job: &Job,
    shapes: &[Shape],
    k: usize,
    transfers: &[Transfer],
) -> Result<(), AllocError>
    requires shapes { at_list shapes.now ≡ shape job.now }
    ensures { OnOk result (Walks job.now walk.old walk.new (transfer_acts k 0 transfers.now)) }
{
    for (stage, transfer) in transfers.iter().enumerate() {
        add_transfer(walk, job, shapes, k, stage, transfer.plan)?;
    }
    Ok(())
}

/// Makes the plans of the structure of value `k`, where it has one of its own.
fn make_structure(
    walk: &mut Walk,
    job: &Job,
    shapes: &[Shape],
    k: usize,
    sort: Sort,
) -> Result<(), AllocError>
    requires shapes { at_list shapes.now ≡ shape job.now }
    ensures { OnOk result (Walks job.now walk.old walk.new (plan_acts k (structure_plans k sort))) }
{
    match sort {
        Sort::Vector | Sort::Parts => Ok(()),
        Sort::Matrix => make_plan(walk, job, shapes, k, Plan::ColumnPlan { value: k }),
        Sort::Split => {
            make_plan(walk, job, shapes, k, Plan::ColumnPlan { value: k })?;
            make_plan(walk, job, shapes, k, Plan::RowPlan { value: k })?;
            Ok(())
        }
    }
}

/// Makes the plans of a new structure.
pub(crate) fn add_structure(
    walk: &mut Walk,
    job: &Job,
    shapes: &[Shape],
    k: usize,
) -> Result<(), AllocError>
    requires shapes { at_list shapes.now ≡ shape job.now }
    ensures { let made = shape job.now k in
        OnOk result (Walks job.now walk.old walk.new (if made.structure == k then plan_acts k (structure_plans k made.sort) else [])) }
{
    let shape = shape_at(shapes, k);
    if shape.structure != k {
        return Ok(());
    }
    make_structure(walk, job, shapes, k, shape.sort)
}
