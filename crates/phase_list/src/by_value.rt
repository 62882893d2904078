//! The transfers by which a value is made.
ghost use Rattle.std.specs.Prelude.{◌≡◌, [], ◌∷◌, IfOk};
ghost use Rattle.model_defs.specs.Makers.{GivenMatrix, Made};
ghost use Rattle.model_defs.specs.ShapeLists.{at_list};
ghost use Rattle.model_defs.specs.Shapes.{is_split_sort, shape};
ghost use Rattle.model_defs.specs.Transfers.{apply_transfers, from_owners, to_owners, transfers};
ghost use Rattle.phase_list.specs.ByShapes.{transfers_with};

use crate::maker::{MadeBy, maker_at};
use model_defs::{Job, MatrixSpec, Plan, Shape, Sort, Step, Transfer, Way};
use std::alloc::{AllocError, Global};

/// The shape of the value of this number. Where there is none, that of a vector without columns.
pub(crate) fn shape_at(shapes: &[Shape], value: usize) -> Shape
    ensures { result ≡ at_list shapes.now value }
{
    match shapes.get(value) {
        Some(shape) => *shape,
        None => Shape {
            sort: Sort::Vector,
            rows: 0,
            domain: 0,
            columns: 0,
            structure: 0,
        },
    }
}

/// The map of a value, or of the rows of a matrix.
fn rows_of(shapes: &[Shape], value: u32) -> u32
    ensures { result ≡ (at_list shapes.now value).rows }
{
    shape_at(shapes, value as usize).rows
}

/// Whether a sort is that of matrices that are left split.
fn is_split(sort: Sort) -> bool
    ensures { result ≡ is_split_sort sort }
{
    match sort {
        Sort::Split => true,
        Sort::Vector | Sort::Parts | Sort::Matrix => false,
    }
}

/// One transfer, from the owners.
fn from_owners(alloc: Global, plan: Plan) -> Result<Vec<Transfer>, AllocError>
    ensures { IfOk result (λ list. list.items ≡ from_owners plan ∷ []) }
{
    let mut list = Vec::new(alloc);
    list.push(Transfer {
        plan,
        way: Way::FromOwners,
    })?;
    Ok(list)
}

/// One transfer, to the owners.
fn to_owners(alloc: Global, plan: Plan) -> Result<Vec<Transfer>, AllocError>
    ensures { IfOk result (λ list. list.items ≡ to_owners plan ∷ []) }
{
    let mut list = Vec::new(alloc);
    list.push(Transfer {
        plan,
        way: Way::ToOwners,
    })?;
    Ok(list)
}

/// The transfers of an apply of a split matrix: x comes to the places, and sums go to the owners of the result.
fn two_transfers(alloc: Global, from: Plan, to: Plan) -> Result<Vec<Transfer>, AllocError>
    ensures { IfOk result (λ list. list.items ≡ from_owners from ∷ to_owners to ∷ []) }
{
    let mut list = from_owners(alloc, from)?;
    list.push(Transfer {
        plan: to,
        way: Way::ToOwners,
    })?;
    Ok(list)
}

/// The transfers of an apply.
fn apply_transfers(
    alloc: Global,
    a: usize,
    split: bool,
    transposed: bool,
) -> Result<Vec<Transfer>, AllocError>
    ensures { IfOk result (λ list. list.items ≡ apply_transfers a split transposed) }
{
    let columns = Plan::ColumnPlan { value: a };
    let rows = Plan::RowPlan { value: a };
    match (split, transposed) {
        (false, false) => from_owners(alloc, columns),
        (false, true) => to_owners(alloc, columns),
        (true, false) => two_transfers(alloc, columns, rows),
        (true, true) => two_transfers(alloc, rows, columns),
    }
}

/// The transfers of value `k`, a matrix of a file.
fn matrix_transfers(
    alloc: Global,
    shapes: &[Shape],
    k: usize,
    spec: &MatrixSpec,
) -> Result<Vec<Transfer>, AllocError>
    ensures { IfOk result (λ list. list.items ≡ transfers_with (at_list shapes.now) k (GivenMatrix spec.now)) }
{
    if spec.split {
        return Ok(Vec::new(alloc));
    }
    to_owners(alloc, Plan::RowPlan { value: k })
}

/// The transfers of value `k`, which this statement makes.
fn step_transfers(
    alloc: Global,
    shapes: &[Shape],
    k: usize,
    step: &Step,
) -> Result<Vec<Transfer>, AllocError>
    ensures { IfOk result (λ list. list.items ≡ transfers_with (at_list shapes.now) k (Made step.now)) }
{
    match step {
        Step::Move { from, map, .. } | Step::Spread { from, map, .. } => {
            let source = rows_of(shapes, *from);
            from_owners(
                alloc,
                Plan::ImportPlan {
                    source,
                    target: *map,
                },
            )
        }
        Step::Import { from, onto, .. } => {
            let source = rows_of(shapes, *from);
            let target = rows_of(shapes, *onto);
            from_owners(alloc, Plan::ImportPlan { source, target })
        }
        Step::Export { from, onto, .. } => {
            let source = rows_of(shapes, *from);
            let target = rows_of(shapes, *onto);
            to_owners(alloc, Plan::ExportPlan { source, target })
        }
        Step::Add { a, b, .. } => {
            let source = rows_of(shapes, *b);
            let target = rows_of(shapes, *a);
            from_owners(alloc, Plan::ImportPlan { source, target })
        }
        Step::Apply {
            matrix,
            transposed,
            ..
        } => {
            let a = *matrix as usize;
            let split = is_split(shape_at(shapes, a).sort);
            apply_transfers(alloc, a, split, *transposed)
        }
        Step::Transpose { matrix, .. } => to_owners(
            alloc,
            Plan::ColumnPlan {
                value: *matrix as usize,
            },
        ),
        Step::Multiply { a, .. } => from_owners(alloc, Plan::ColumnPlan { value: *a as usize }),
        Step::Assemble { from, .. } => to_owners(
            alloc,
            Plan::RowPlan {
                value: *from as usize,
            },
        ),
        Step::Update { .. } | Step::Scale { .. } | Step::Print { .. } => Ok(Vec::new(alloc)),
    }
}

/// The transfers by which the ranks make value `k` together, in order, with the plans of the statement (`Tpetra::Import`,
/// `Tpetra::Export`). Maps and values are named by their numbers, from 0; a value that is not there has none.
///
/// The condition: `shapes` are those of the job's values. `Err` means that memory ran out.
pub fn transfers(
    alloc: Global,
    job: &Job,
    shapes: &[Shape],
    k: usize,
) -> Result<Vec<Transfer>, AllocError>
    requires shapes { at_list shapes.now ≡ shape job.now }
    ensures transfers { IfOk result (λ list. list.items ≡ transfers job.now k) }
{
    match maker_at(job, k) {
        MadeBy::Matrix(spec) => matrix_transfers(alloc, shapes, k, spec),
        MadeBy::Statement(step) => step_transfers(alloc, shapes, k, step),
        MadeBy::Vector(_) | MadeBy::Parts(_) | MadeBy::Nothing => Ok(Vec::new(alloc)),
    }
}
