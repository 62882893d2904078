//! The steps in which a matrix with a structure of its own is completed.
ghost use Rattle.std.specs.Prelude.{◌≡◌, ℕ, List, IfOk};
ghost use Rattle.mm_text.specs.Reading.{File};
ghost use Rattle.peers.specs.Protocols.{Letter};
ghost use Rattle.crs_matrix.specs.Rows.{RowCells};
ghost use Rattle.model_defs.specs.Shapes.{is_split_sort, shape};
ghost use Rattle.rank_share.specs.declared.share.Share.{Share};
ghost use Rattle.rank_pieces.specs.declared.pieces.Piece.{Piece};
ghost use Rattle.rank_makings.specs.Beginnings.{CanComplete};
ghost use Rattle.rank_makings.specs.Completing.{IsOnColumns, IsRowPlan};

use crs_matrix::{CrsMatrix, MatrixFill};
use map_core::LocalMap;
use model_defs::{Job, Plan, Shape, Sort};
use plan_phases::{column_owners, structure_plan};
use rank_plans::PlanBook;
use rank_share::own_map;
use scalar_laws::Scalar;
use std::alloc::{AllocError, Global};
use std::rc::Rc;

/// Whether a matrix of this sort is split as it was dealt.
fn is_split(sort: Sort) -> bool
    ensures split { result ≡ is_split_sort sort }
{
    match sort {
        Sort::Split => true,
        Sort::Vector | Sort::Parts | Sort::Matrix => false,
    }
}

/// The matrix under construction on its column map: the columns that the rank has of the domain come first, and then the others by owner.
/// `Err` means that memory ran out.
pub(crate) fn on_columns<S: Scalar>(
    alloc: Global,
    job: &Job,
    shapes: &[Shape],
    book: &PlanBook,
    k: usize,
    fill: MatrixFill<S>,
) -> Result<CrsMatrix<S>, AllocError>
    requires can { (files : List File) × ((me : ℕ) × ((given : List Letter) × ((share : Share) × ((pieces : List (Piece S)) × CanComplete S.semiring S.conversions job.now files me share shapes.now pieces given book.now k fill)))) }
    ensures matrix { IfOk result (λ m. (files : List File) (me : ℕ) (given : List Letter) (share : Share) (pieces : List (Piece S))
        → CanComplete S.semiring S.conversions job.now files me share shapes.now pieces given book.now k fill
        → IsOnColumns job.now files me k fill m) }
{
    let _ = fill.row_map().len();
    let plan = Plan::ColumnPlan { value: k };
    let columns = fill.columns()?;
    let owners = column_owners::<S>(alloc, book, job, shapes, plan, columns.as_slice())?;
    let domain = own_map(alloc, job, shapes[k].domain, book.me())?;
    fill.fill_complete(&domain, owners.as_slice())
}

/// The plan of the rows of its part, if the matrix is split. `Err` means that memory ran out.
pub(crate) fn row_plan<S: Scalar>(
    alloc: Global,
    job: &Job,
    shapes: &[Shape],
    book: &PlanBook,
    k: usize,
    rows: &Rc<LocalMap>,
) -> Result<Option<map_core::Plan>, AllocError>
    requires can { (files : List File) × ((me : ℕ) × ((given : List Letter) × ((share : Share) × ((pieces : List (Piece S)) × ((fill : RowCells S)
        × (CanComplete S.semiring S.conversions job.now files me share shapes.now pieces given book.now k fill × (rows.now.value ≡ fill.rows))))))) }
    ensures plan { IfOk result (λ made. (files : List File) (me : ℕ) (given : List Letter) (share : Share) (pieces : List (Piece S)) (fill : RowCells S)
        → CanComplete S.semiring S.conversions job.now files me share shapes.now pieces given book.now k fill → rows.now.value ≡ fill.rows
        → IsRowPlan job.now files me k rows.now.value (is_split_sort (shape job.now k).sort) made) }
{
    if is_split(shapes[k].sort) {
        let plan = Plan::RowPlan { value: k };
        let made = structure_plan::<S>(alloc, book, job, shapes, plan, rows)?;
        return Ok(Some(made));
    }
    Ok(None)
}
