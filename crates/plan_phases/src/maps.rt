//! The maps of a job and of its plans, and what a rank lacks by them.
ghost use Rattle.std.specs.Prelude.{◌≡◌, ◌<◌, ◌≤◌, ◌^◌, ℕ, true, List, length, IfOk};
ghost use Rattle.tables.specs.Indices.{AreDistinct};
ghost use Rattle.mm_text.specs.Reading.{File};
ghost use Rattle.model_defs.specs.declared.job.Job.{Job};
ghost use Rattle.model_defs.specs.Maps.{is_uniform, size_of};
ghost use Rattle.model_defs.specs.Plans.{lacking, rank_list_by};
ghost use Rattle.model_defs.specs.ShapeLists.{at_list};
ghost use Rattle.model_defs.specs.Shapes.{shape};
ghost use Rattle.model_defs.specs.Transfers.{owner_map};
ghost use Rattle.model_defs.specs.Valid.{IsValid};
ghost use Rattle.rank_plans.specs.Answers.{lacked_in};
ghost use Rattle.value_phases.specs.ValuePhases.{IsPlanOf, is_of_structure};

use map_core::{Gid, LocalMap};
use model_defs::{Job, MapForm, Plan, Shape, Sort};
use rank_plans::lacked_indices;
use rank_share::own_map;
use std::alloc::{AllocError, Global};

/// The size of a map of a job, and 0 where there is no such map.
pub(crate) fn size_of(job: &Job, map: u32) -> u64
    ensures size { result ≡ size_of job.now map }
{
    match job.maps.as_slice().get(map as usize) {
        Some(spec) => spec.size,
        None => 0,
    }
}

/// Whether the owners of a map follow by rule.
pub(crate) fn is_uniform(job: &Job, map: u32) -> bool
    ensures is { result ≡ is_uniform job.now map }
{
    match job.maps.as_slice().get(map as usize) {
        Some(spec) => matches!(spec.form, MapForm::Uniform),
        None => true,
    }
}

/// The shape of the value of this number. Where there is none, that of a vector without columns.
fn shape_at(shapes: &[Shape], value: usize) -> Shape
    ensures shape { result ≡ at_list shapes.now value }
{
    match shapes.get(value) {
        Some(shape) => *shape,
        None => Shape {
            sort: Sort::Vector,
            rows: 0,
            domain: 0,
            columns: 0,
            structure: 0,
        },
    }
}

/// The map in which each index of the plan has one owner: the source of an import, the target of an export, the domain of a
/// matrix for its columns, and its row map for its rows. `shapes` are those of the job's values.
pub(crate) fn owner_map(shapes: &[Shape], plan: Plan) -> u32
    ensures map { (job : Job) → at_list shapes.now ≡ shape job → result ≡ owner_map job plan }
{
    match plan {
        Plan::ImportPlan { source, .. } => source,
        Plan::ExportPlan { target, .. } => target,
        Plan::ColumnPlan { value } => shape_at(shapes, value).domain,
        Plan::RowPlan { value } => shape_at(shapes, value).rows,
    }
}

/// The indices of a list that a map lacks, in their order: none stands twice if none does in the list. `Err` means that memory ran
/// out.
fn lacked_of_list(alloc: Global, held: &LocalMap, list: &[Gid]) -> Result<Vec<Gid>, AllocError>
    ensures lacked { IfOk result (λ gids. gids.items ≡ lacked_in held.now list.now) }
    ensures distinct { AreDistinct list.now → IfOk result (λ gids. AreDistinct gids.items) }
{
    let mut lacked = Vec::new(alloc);
    for gid in list {
        if held.local_of(*gid).is_none() {
            lacked.push(*gid)?;
        }
    }
    Ok(lacked)
}

/// The indices that rank `me` lacks by a plan: by an import, in target order, by an export, in source order, and by a plan of a
/// structure, whose list is given, in the order of this. None stands twice. `shapes` are those of the job's values. `Err` means
/// that memory ran out.
pub(crate) fn lacked_by(
    alloc: Global,
    job: &Job,
    shapes: &[Shape],
    plan: Plan,
    list: &[Gid],
    me: u32,
) -> Result<Vec<Gid>, AllocError>
    requires valid { IsValid job.now }
    requires shapes { at_list shapes.now ≡ shape job.now }
    requires of_job { (k : ℕ) × IsPlanOf job.now k plan }
    requires rank { me < job.now.ranks }
    requires distinct { is_of_structure plan ≡ true → AreDistinct list.now }
    ensures lacked { IfOk result (λ gids. (files : List File) → (is_of_structure plan ≡ true → list.now ≡ rank_list_by job.now files plan me) → gids.items ≡ lacking job.now files plan me) }
    ensures distinct { IfOk result (λ gids. AreDistinct gids.items) }
{
    match plan {
        Plan::ImportPlan { source, target } => {
            let held = own_map(alloc, job, source, me)?;
            let wanted = own_map(alloc, job, target, me)?;
            lacked_indices(alloc, &held, &wanted)
        }
        Plan::ExportPlan { source, target } => {
            let given = own_map(alloc, job, source, me)?;
            let owned = own_map(alloc, job, target, me)?;
            lacked_indices(alloc, &owned, &given)
        }
        Plan::ColumnPlan { .. } | Plan::RowPlan { .. } => {
            let held = own_map(alloc, job, owner_map(shapes, plan), me)?;
            lacked_of_list(alloc, &held, list)
        }
    }
}
