//! The lists of a rank by the plans of a structure.
ghost use Rattle.std.specs.Prelude.{◌≡◌, ◌<◌, List, true, None, Some, IfOk};
ghost use Rattle.crs_matrix.specs.Rows.{IsRowCells, all_columns};
ghost use Rattle.mm_text.specs.Reading.{File};
ghost use Rattle.model_defs.specs.declared.job.MatrixSpec.{MatrixSpec};
ghost use Rattle.model_defs.specs.declared.phase.Plan.{Plan};
ghost use Rattle.model_defs.specs.Makers.{GivenMatrix, maker_of, value_count};
ghost use Rattle.model_defs.specs.Plans.{rank_list_by, rank_rows};
ghost use Rattle.rank_stages.specs.OwnerLaws.{plan_about};
ghost use Rattle.value_phases.specs.ValuePhases.{is_of_structure};
ghost use Rattle.rank_pieces.specs.Inputs.{IsRankInput};
ghost use Rattle.rank_core.specs.declared.makings.Making.TheVariants.{Filled};
ghost use Rattle.rank_core.specs.Leaving.{CanList};

use crate::makings::Making;
use map_core::{Gid, LocalMap};
use model_defs::{About, Job, Plan};
use rank_pieces::dealt_rows;
use rank_share::Share;
use scalar_laws::Scalar;
use std::alloc::{AllocError, Global};

/// The indices of a map, in its order.
fn indices_of(alloc: Global, map: &LocalMap) -> Result<Vec<Gid>, AllocError>
    ensures list { IfOk result (λ gids. gids.items ≡ map.now) }
{
    let mut gids = Vec::with_capacity(alloc, map.len() as usize)?;
    for lid in 0..map.len() {
        match map.global_of(lid) {
            Some(gid) => gids.push(gid)?,
            None => unreachable!(),
        }
    }
    Ok(gids)
}

/// The plan that a phase is about, if it is about one.
fn plan_of(about: About) -> Option<Plan>
    ensures plan { result ≡ plan_about about }
{
    match about {
        About::AskOwners { plan } | About::TellOwners { plan } | About::SharePlan { plan } => {
            Some(plan)
        }
        About::RegisterMap { .. } | About::SendNumbers { .. } => None,
    }
}

/// The columns of a matrix under construction, ascending. `Err` means that memory ran out.
fn column_list<S: Scalar>(alloc: Global, making: &Option<Making<S>>) -> Result<Vec<Gid>, AllocError>
    ensures filled { IfOk result (λ list. (fill : _) → making.now ≡ Some (Filled fill) → IsRowCells fill × (list.items ≡ all_columns fill)) }
{
    match making {
        Some(Making::Filled(fill)) => {
            let _ = fill.row_map().len();
            fill.columns()
        }
        _ => Ok(Vec::new(alloc)),
    }
}

/// The rows of a matrix under construction, or, where nothing is in the making, those of the part of value k that was dealt to the
/// rank. `Err` means that memory ran out.
fn row_list<S: Scalar>(
    alloc: Global,
    job: &Job,
    me: u32,
    share: &Share,
    k: usize,
    making: &Option<Making<S>>,
) -> Result<Vec<Gid>, AllocError>
    requires input { (files : List File) × IsRankInput S.conversions job.now files me share.now }
    requires known { making.now ≡ None → k < value_count job.now }
    requires matrix { making.now ≡ None → (spec : MatrixSpec) × (maker_of job.now k ≡ GivenMatrix spec) }
    ensures filled { IfOk result (λ list. (fill : _) → making.now ≡ Some (Filled fill) → list.items ≡ fill.rows) }
    ensures dealt { IfOk result (λ list. making.now ≡ None → (files : List File) → IsRankInput S.conversions job.now files me share.now
        → list.items ≡ rank_rows job.now files k me) }
{
    match making {
        Some(Making::Filled(fill)) => indices_of(alloc, fill.row_map()),
        None => dealt_rows::<S>(alloc, job, me, share, k),
        _ => Ok(Vec::new(alloc)),
    }
}

/// The rank's list by the plan that a phase is about, where this is one of the structure of a matrix: the columns of the matrix under
/// construction, its rows, or the rows of the part that was dealt to the rank. Else nothing. `Err` means that memory ran out.
pub(crate) fn plan_list<S: Scalar>(
    alloc: Global,
    job: &Job,
    me: u32,
    share: &Share,
    about: About,
    making: &Option<Making<S>>,
) -> Result<Vec<Gid>, AllocError>
    requires can { (files : List File) × CanList S.semiring S.conversions job.now files me share.now about making.now }
    ensures list { IfOk result (λ list. (files : List File) (plan : Plan) → CanList S.semiring S.conversions job.now files me share.now about making.now
        → plan_about about ≡ Some plan → is_of_structure plan ≡ true → list.items ≡ rank_list_by job.now files plan me) }
{
    match plan_of(about) {
        Some(Plan::ColumnPlan { .. }) => column_list(alloc, making),
        Some(Plan::RowPlan { value }) => row_list(alloc, job, me, share, value, making),
        Some(Plan::ImportPlan { .. } | Plan::ExportPlan { .. }) | None => Ok(Vec::new(alloc)),
    }
}
