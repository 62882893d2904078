//! Plans: which are the same, in which map their owners are, and how they are shared.
ghost use Rattle.std.specs.Prelude.{◌≡◌, ◌==◌};
ghost use Rattle.std.specs.List.{list_any};
ghost use Rattle.model_defs.specs.Maps.{is_uniform};
ghost use Rattle.model_defs.specs.Phases.{share_kind};
ghost use Rattle.model_defs.specs.ShapeLists.{at_list};
ghost use Rattle.model_defs.specs.Transfers.{is_local, same_plan};
ghost use Rattle.phase_list.specs.ByShapes.{owners_by, shared_by};

use crate::by_value::shape_at;
use letter_codec::Kind;
use model_defs::{Job, MapForm, Plan, Shape};

/// Whether two plans are the same.
fn same_plan(a: Plan, b: Plan) -> bool
    ensures { result ≡ same_plan a b }
{
    match (a, b) {
        (
            Plan::ImportPlan { source, target },
            Plan::ImportPlan {
                source: from,
                target: to,
            },
        ) => source == from && target == to,
        (
            Plan::ExportPlan { source, target },
            Plan::ExportPlan {
                source: from,
                target: to,
            },
        ) => source == from && target == to,
        (Plan::ColumnPlan { value }, Plan::ColumnPlan { value: other }) => value == other,
        (Plan::RowPlan { value }, Plan::RowPlan { value: other }) => value == other,
        _ => false,
    }
}

/// Whether the plan is one of these.
pub(crate) fn is_made(plan: Plan, made: &[Plan]) -> bool
    ensures { result ≡ list_any (same_plan plan) made.now }
{
    for earlier in made {
        if same_plan(plan, *earlier) {
            return true;
        }
    }
    false
}

/// The plan of the structure of a matrix, in place of the matrix's own one.
pub(crate) fn shared_plan(shapes: &[Shape], plan: Plan) -> Plan
    ensures { result ≡ shared_by (at_list shapes.now) plan }
{
    match plan {
        Plan::ColumnPlan { value } => Plan::ColumnPlan {
            value: shape_at(shapes, value).structure,
        },
        Plan::RowPlan { value } => Plan::RowPlan {
            value: shape_at(shapes, value).structure,
        },
        Plan::ImportPlan { .. } | Plan::ExportPlan { .. } => plan,
    }
}

/// The map in which each index of the plan has one owner.
pub(crate) fn owner_map(shapes: &[Shape], plan: Plan) -> u32
    ensures { result ≡ owners_by (at_list shapes.now) plan }
{
    match plan {
        Plan::ImportPlan { source, .. } => source,
        Plan::ExportPlan { target, .. } => target,
        Plan::ColumnPlan { value } => shape_at(shapes, value).domain,
        Plan::RowPlan { value } => shape_at(shapes, value).rows,
    }
}

/// Whether one of these plans needed the directory of the map.
pub(crate) fn is_registered(shapes: &[Shape], made: &[Plan], map: u32) -> bool
    ensures { result ≡ list_any (λ plan. owners_by (at_list shapes.now) plan == map) made.now }
{
    for plan in made {
        if owner_map(shapes, *plan) == map {
            return true;
        }
    }
    false
}

/// Whether the plan is from a map to itself.
pub(crate) fn is_local(plan: Plan) -> bool
    ensures { result ≡ is_local plan }
{
    match plan {
        Plan::ImportPlan { source, target } => source == target,
        Plan::ExportPlan { source, target } => source == target,
        Plan::ColumnPlan { .. } | Plan::RowPlan { .. } => false,
    }
}

/// Whether a map of a job is uniform, as one that is not there.
pub(crate) fn is_uniform(job: &Job, map: u32) -> bool
    ensures { result ≡ is_uniform job.now map }
{
    match job.maps.as_slice().get(map as usize) {
        Some(spec) => matches!(spec.form, MapForm::Uniform),
        None => true,
    }
}

/// The kind of the letters in which a plan is shared.
pub(crate) fn share_kind(plan: Plan) -> Kind
    ensures { result ≡ share_kind plan }
{
    match plan {
        Plan::ImportPlan { .. } | Plan::ColumnPlan { .. } => Kind::Want,
        Plan::ExportPlan { .. } | Plan::RowPlan { .. } => Kind::Offer,
    }
}
