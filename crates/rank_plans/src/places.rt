//! Where a map or a plan stands among those that are kept.
ghost use Rattle.std.specs.Prelude.{◌≡◌, ◌==◌};
ghost use Rattle.std.specs.List.{position_or_len};
ghost use Rattle.model_defs.specs.Transfers.{same_plan};

use crate::registered::Registered;
use crate::task::PlanTask;
use model_defs::Plan;

/// Whether two plans are the same.
fn same_plan(a: Plan, b: Plan) -> bool
    ensures same { result ≡ same_plan a b }
{
    match (a, b) {
        (
            Plan::ImportPlan { source, target },
            Plan::ImportPlan {
                source: from,
                target: to,
            },
        ) => source == from && target == to,
        (
            Plan::ExportPlan { source, target },
            Plan::ExportPlan {
                source: from,
                target: to,
            },
        ) => source == from && target == to,
        (Plan::ColumnPlan { value }, Plan::ColumnPlan { value: other }) => value == other,
        (Plan::RowPlan { value }, Plan::RowPlan { value: other }) => value == other,
        _ => false,
    }
}

/// The place of the first entry of a map, or how many entries there are where it has none.
pub(crate) fn map_place(maps: &[Registered], map: u32) -> usize
    ensures place { result ≡ position_or_len (λ r. map == r.map) maps.now }
{
    for at in 0..maps.len() {
        if map == maps[at].map {
            return at;
        }
    }
    maps.len()
}

/// The place of the first task of a plan, or how many tasks there are where it has none.
pub(crate) fn task_place(plans: &[PlanTask], plan: Plan) -> usize
    ensures place { result ≡ position_or_len (λ t. same_plan plan t.plan) plans.now }
{
    for at in 0..plans.len() {
        if same_plan(plan, plans[at].plan()) {
            return at;
        }
    }
    plans.len()
}
