//! The apply of a matrix to a vector.
ghost use Rattle.std.specs.Prelude.{◌≡◌, ℕ, true, false, None, Some, List, IfOk};
ghost use Rattle.tables.specs.Indices.{AreBelow};
ghost use Rattle.mm_text.specs.Reading.{File};
ghost use Rattle.crs_matrix.specs.Matrices.{crs_table};
ghost use Rattle.multivector.specs.Vectors.{IsVector, VectorState};
ghost use Rattle.peers.specs.Protocols.{Letter};
ghost use Rattle.model_defs.specs.Makers.{maker_of};
ghost use Rattle.model_defs.specs.Operations.{combination, grown, product};
ghost use Rattle.rank_matrices.specs.Matrices.{source_list};
ghost use Rattle.rank_share.specs.declared.share.Share.{Share};
ghost use Rattle.rank_values.specs.Vectors.{global_table};
ghost use Rattle.value_phases.specs.ValueKinds.{IsApply};
ghost use Rattle.rank_pieces.specs.declared.pieces.Piece.TheVariants.{Matrix, Vector};
ghost use Rattle.rank_pieces.specs.declared.pieces.RankMatrix.{RankMatrix};
ghost use Rattle.rank_pieces.specs.Pieces.{IsOwnPiece};
ghost use Rattle.rank_makings.specs.declared.coming.Coming.TheVariants.{Cells};
ghost use Rattle.rank_makings.specs.Applying.{AreCopiesOf, AreOperands, AreSumsOf, ends_with_copies, is_apply, starts_with_copies};
ghost use Rattle.rank_makings.specs.Beginnings.{CanBegin, CanFinish};
ghost use Rattle.rank_makings.specs.Comings.{IsComing, first_gathered};

use crate::coming::{CellSource, CellsComing, Coming};
use crate::operands::{factor, matrix_at, plan_of, vector_at};
use combine_modes::Mode;
use map_core::LocalMap;
use model_defs::{Job, Shape, Step};
use multivector::MultiVector;
use phase_list::{MadeBy, maker_at};
use rank_matrices::{applied, sums_of_apply};
use rank_pieces::{Piece, RankMatrix};
use rank_plans::PlanBook;
use rank_share::{Share, own_map};
use rank_transfers::Arriving;
use rank_values::{sum_of_vectors, vector_of_lines};
use scalar_laws::Scalar;
use std::alloc::{AllocError, Global};
use std::rc::Rc;

/// Whether an apply makes value k.
pub(crate) fn is_applied(job: &Job, k: usize) -> bool
    ensures apply { result ≡ is_apply (maker_of job.now k) }
{
    match maker_at(job, k) {
        MadeBy::Statement(step) => matches!(step, Step::Apply { .. }),
        MadeBy::Vector(_) | MadeBy::Parts(_) | MadeBy::Matrix(_) | MadeBy::Nothing => false,
    }
}

/// What an apply says: of which matrix, to which vector, and what is added.
#[derive(Drop)]
struct Operands {
    matrix: usize,
    x: usize,
    y: Option<u32>,
    alpha: i64,
    beta: i64,
    transposed: bool,
}

/// What the apply that makes value k says.
fn operands_of(job: &Job, k: usize) -> Operands
    requires apply { IsApply job.now k }
    ensures said { (apply : IsApply job.now k) → AreOperands apply result }
{
    match maker_at(job, k) {
        MadeBy::Statement(
            Step::Apply {
                matrix,
                x,
                y,
                alpha,
                beta,
                transposed,
                ..
            },
        ) => Operands {
            matrix: *matrix as usize,
            x: *x as usize,
            y: *y,
            alpha: *alpha,
            beta: *beta,
            transposed: *transposed,
        },
        _ => unreachable!(),
    }
}

/// Whether copies of x come to the rank first.
fn starts_with_copies<S: Scalar>(m: &RankMatrix<S>, transposed: bool) -> bool
    ensures copies { result ≡ starts_with_copies m.now.rows transposed }
{
    match &m.rows {
        Some(_) => true,
        None => !transposed,
    }
}

/// Whether copies of x came at the end.
fn ends_with_copies<S: Scalar>(m: &RankMatrix<S>, transposed: bool) -> bool
    ensures copies { result ≡ ends_with_copies m.now.rows transposed }
{
    match &m.rows {
        Some(_) => false,
        None => !transposed,
    }
}

/// The rows of a matrix, or its columns.
fn list_of<S: Scalar>(m: &RankMatrix<S>, rows: bool) -> &Rc<LocalMap>
    ensures list { result.now.value ≡ source_list rows m.now.matrix.graph }
{
    if rows {
        return m.matrix.row_map();
    }
    m.matrix.graph().col_map()
}

/// Copies of x, the piece of a value, go from its owners to the columns of the matrix, or to its rows where it is transposed: what the
/// rank has of them by itself replaces zeros. `Err` means that memory ran out.
fn begin_copies<S: Scalar>(
    alloc: Global,
    m: &RankMatrix<S>,
    transposed: bool,
    value: usize,
    x: &MultiVector<S>,
) -> Result<CellsComing<S>, AllocError>
    requires copies { (job : Job) × ((files : List File) × ((me : ℕ) × ((pieces : List (Piece S)) × ((given : List Letter) × ((k : ℕ) × ((stage : ℕ)
        × AreCopiesOf S.semiring S.conversions job files me pieces given k stage value m.now x.now transposed)))))) }
    ensures begun { IfOk result (λ c. (job : Job) (files : List File) (me : ℕ) (pieces : List (Piece S)) (given : List Letter) (k stage : ℕ)
        → AreCopiesOf S.semiring S.conversions job files me pieces given k stage value m.now x.now transposed
        → IsComing S.semiring S.conversions job files me pieces given k stage (first_gathered S.semiring S.conversions job files me pieces given k stage) (Cells c)) }
{
    let plan = plan_of(m, transposed).share()?;
    let list = list_of(m, transposed).clone()?;
    let zeros = vector_of_lines(alloc, list, x.columns(), &[])?;
    let arriving = Arriving::begin(plan, x, zeros, Mode::Replace)?;
    let source = CellSource::Piece(value);
    Ok(CellsComing { source, arriving })
}

/// Sums of the matrix, or of its transpose, with the numbers of x that are near go to the owners of the result, which has this map: what
/// the rank has of them by itself is added to zeros. `Err` means that memory ran out.
fn begin_sums<S: Scalar>(
    alloc: Global,
    job: &Job,
    me: u32,
    rows: u32,
    m: &RankMatrix<S>,
    transposed: bool,
    near: &MultiVector<S>,
) -> Result<CellsComing<S>, AllocError>
    requires sums { (files : List File) × ((pieces : List (Piece S)) × ((given : List Letter) × ((k : ℕ) × ((stage : ℕ)
        × AreSumsOf S.semiring S.conversions job.now files me pieces given k stage rows m.now near.now transposed)))) }
    ensures begun { IfOk result (λ c. (files : List File) (pieces : List (Piece S)) (given : List Letter) (k stage : ℕ)
        → AreSumsOf S.semiring S.conversions job.now files me pieces given k stage rows m.now near.now transposed
        → IsComing S.semiring S.conversions job.now files me pieces given k stage (first_gathered S.semiring S.conversions job.now files me pieces given k stage) (Cells c)) }
{
    let sums = sums_of_apply(alloc, transposed, &m.matrix, near)?;
    let plan = plan_of(m, !transposed).share()?;
    let own = own_map(alloc, job, rows, me)?;
    let zeros = vector_of_lines(alloc, own, near.columns(), &[])?;
    let arriving = Arriving::begin(plan.reverse(), &sums, zeros, Mode::Add)?;
    let source = CellSource::Sums(sums);
    Ok(CellsComing { source, arriving })
}

/// Begins a stage of an apply: copies of x go to where the places of the matrix are, or sums that are made there go to the owners of the
/// result. `Err` means that memory ran out.
pub(crate) fn begin_apply<S: Scalar>(
    alloc: Global,
    job: &Job,
    me: u32,
    share: &Share,
    shapes: &[Shape],
    book: &PlanBook,
    pieces: &[Piece<S>],
    came: Option<MultiVector<S>>,
    k: usize,
    stage: usize,
) -> Result<Coming<S>, AllocError>
    requires kind { IsApply job.now k }
    requires can { (files : List File) × ((given : List Letter) × CanBegin S.semiring S.conversions job.now files me share.now shapes.now pieces.now given book.now k stage came) }
    ensures begun { IfOk result (λ c. (files : List File) (given : List Letter)
        → CanBegin S.semiring S.conversions job.now files me share.now shapes.now pieces.now given book.now k stage came
        → IsComing S.semiring S.conversions job.now files me pieces.now given k stage (first_gathered S.semiring S.conversions job.now files me pieces.now given k stage) c) }
{
    let said = operands_of(job, k);
    let m = matrix_at(pieces, said.matrix);
    let rows = shapes[k].rows;
    match came {
        Some(near) => Ok(Coming::Cells(begin_sums(
            alloc,
            job,
            me,
            rows,
            m,
            said.transposed,
            &near,
        )?)),
        None => {
            let x = vector_at(pieces, said.x);
            if starts_with_copies(m, said.transposed) {
                let copies = begin_copies(alloc, m, said.transposed, said.x, x)?;
                return Ok(Coming::Cells(copies));
            }
            let sums = begin_sums(alloc, job, me, rows, m, said.transposed, x)?;
            Ok(Coming::Cells(sums))
        }
    }
}

/// alpha times the sums of an apply, plus beta times y, cell by cell: the sums came, or are made of the copies of x that did. `Err` means
/// that memory ran out.
fn grown_sums<S: Scalar>(
    alloc: Global,
    m: &RankMatrix<S>,
    transposed: bool,
    alpha: S,
    came: &MultiVector<S>,
    beta: S,
    y: &MultiVector<S>,
) -> Result<MultiVector<S>, AllocError>
    requires copies { ends_with_copies m.now.rows transposed ≡ true → (came.now.map ≡ m.now.matrix.graph.cols) × (y.now.map ≡ m.now.matrix.graph.rows) }
    requires sums { ends_with_copies m.now.rows transposed ≡ false → came.now.map ≡ y.now.map }
    requires columns { came.now.columns ≡ y.now.columns }
    ensures came_is { IsVector came.now }
    ensures y_is { IsVector y.now }
    ensures map { IfOk result (λ v. v.map ≡ y.now.map) }
    ensures columns { IfOk result (λ v. v.columns ≡ y.now.columns) }
    ensures copies { IfOk result (λ v. ends_with_copies m.now.rows transposed ≡ true → (n : ℕ) → AreBelow n m.now.matrix.graph.cols
        → global_table v ≡ grown S.semiring alpha (product S.semiring n (crs_table m.now.matrix) (global_table came.now)) beta (global_table y.now)) }
    ensures sums { IfOk result (λ v. ends_with_copies m.now.rows transposed ≡ false
        → global_table v ≡ combination S.semiring alpha (global_table came.now) beta (global_table y.now)) }
{
    let _ = came.map().len();
    let _ = y.map().len();
    if ends_with_copies(m, transposed) {
        return applied(alloc, alpha, &m.matrix, came, beta, y);
    }
    sum_of_vectors(alpha, came, beta, y)
}

/// The rank's piece of an apply, of what came at its last stage. `Err` means that memory ran out.
pub(crate) fn finished_apply<S: Scalar>(
    alloc: Global,
    job: &Job,
    me: u32,
    shapes: &[Shape],
    pieces: &[Piece<S>],
    k: usize,
    came: &MultiVector<S>,
) -> Result<MultiVector<S>, AllocError>
    requires kind { IsApply job.now k }
    requires can { (files : List File) × ((given : List Letter) × ((share : Share) × CanFinish S.semiring S.conversions job.now files me share shapes.now pieces.now given k came.now)) }
    ensures piece { IfOk result (λ v. (files : List File) (given : List Letter) (share : Share)
        → CanFinish S.semiring S.conversions job.now files me share shapes.now pieces.now given k came.now
        → IsOwnPiece S.semiring S.conversions job.now files me given k (Vector v)) }
{
    let said = operands_of(job, k);
    let m = matrix_at(pieces, said.matrix);
    let (alpha, beta) = (factor(said.alpha), factor(said.beta));
    match said.y {
        Some(value) => {
            let y = vector_at(pieces, value as usize);
            grown_sums(alloc, m, said.transposed, alpha, came, beta, y)
        }
        None => {
            let rows = own_map(alloc, job, shapes[k].rows, me)?;
            let zeros = vector_of_lines(alloc, rows, shapes[k].columns, &[])?;
            grown_sums(alloc, m, said.transposed, alpha, came, beta, &zeros)
        }
    }
}
