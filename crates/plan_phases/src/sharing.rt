//! The plans of the structure of a matrix.
ghost use Rattle.std.specs.Prelude.{◌≡◌, ℕ, List, map, IfOk};
ghost use Rattle.mm_text.specs.Reading.{File};
ghost use Rattle.model_defs.specs.Maps.{list_of, owner_rank};
ghost use Rattle.model_defs.specs.Plans.{rank_list_by};
ghost use Rattle.model_defs.specs.ShapeLists.{at_list};
ghost use Rattle.model_defs.specs.Shapes.{shape};
ghost use Rattle.model_defs.specs.Transfers.{owner_map};
ghost use Rattle.matrix_arrivals.specs.RowPlans.{IsFromOwners};
ghost use Rattle.plan_phases.specs.BookCalls.{IsPlanList, IsSharedBook};

use crate::maps::owner_map;
use map_core::{Gid, LocalMap};
use model_defs::{Job, Plan, Shape};
use rank_plans::PlanBook;
use rank_share::own_map;
use scalar_laws::Scalar;
use std::alloc::{AllocError, Global};
use std::rc::Rc;

/// The plan of a structure, which was shared, once all letters of its phase came: that of an import from the rank's own indices of the map
/// of owners to its list by the plan (`Tpetra::CrsGraph::getImporter`, and of rows the reverse of `getExporter`). Its positions are
/// local indices of the two lists, and what it sends and awaits are the indices of the letters, in their order. The list has the
/// indices of the plan, in whatever order, but those that another rank owns in the plan's. `shapes` are those of the job's values.
/// The book stays as it is. `Err` means that memory ran out.
pub fn structure_plan<S: Scalar>(
    alloc: Global,
    book: &PlanBook,
    job: &Job,
    shapes: &[Shape],
    plan: Plan,
    list: &Rc<LocalMap>,
) -> Result<map_core::Plan, AllocError>
    requires shapes { at_list shapes.now ≡ shape job.now }
    requires shared { (files : List File) × (IsSharedBook S.semiring S.conversions job.now files book.now plan × IsPlanList job.now files plan book.now.me list.now.value) }
    ensures made { IfOk result (λ made. (files : List File) → IsSharedBook S.semiring S.conversions job.now files book.now plan → IsPlanList job.now files plan book.now.me list.now.value
        → IsFromOwners job.now files plan book.now.me (list_of job.now (owner_map job.now plan) book.now.me) list.now.value made) }
{
    let owners = own_map(alloc, job, owner_map(shapes, plan), book.me())?;
    book.import_plan(plan, &owners, list)
}

/// The owner of each column of a rank's matrix, once its column plan was shared and all letters of that phase came: this rank where it has
/// the column in its own list of the domain, and else the one that is known. `columns` are those of the plan, ascending. `Err`
/// means that memory ran out.
pub fn column_owners<S: Scalar>(
    alloc: Global,
    book: &PlanBook,
    job: &Job,
    shapes: &[Shape],
    plan: Plan,
    columns: &[Gid],
) -> Result<Vec<u32>, AllocError>
    requires shapes { at_list shapes.now ≡ shape job.now }
    requires shared { (files : List File) × (IsSharedBook S.semiring S.conversions job.now files book.now plan × (columns.now ≡ rank_list_by job.now files plan book.now.me)) }
    ensures owners { IfOk result (λ owners. owners.items ≡ map (owner_rank job.now (owner_map job.now plan)) columns.now) }
{
    let domain = own_map(alloc, job, owner_map(shapes, plan), book.me())?;
    book.owners_of(plan, &domain, columns)
}
