//! Values that are made of the cells of another one.
ghost use Rattle.std.specs.Prelude.{◌≡◌, ◌<◌, ℕ, None, Some, List, IfOk, length, slice_get};
ghost use Rattle.mm_text.specs.Reading.{File};
ghost use Rattle.multivector.specs.Vectors.{VectorState};
ghost use Rattle.peers.specs.Protocols.{Letter};
ghost use Rattle.model_defs.specs.Makers.{Made};
ghost use Rattle.model_defs.specs.Maps.{has_index, list_of};
ghost use Rattle.model_defs.specs.Operations.{filled};
ghost use Rattle.model_defs.specs.Valid.{IsValid};
ghost use Rattle.rank_values.specs.Vectors.{global_table};
ghost use Rattle.value_phases.specs.ValuePhases.{IsCopy, onto_of};
ghost use Rattle.rank_pieces.specs.declared.pieces.Piece.TheVariants.{Matrix, Vector};
ghost use Rattle.rank_makings.specs.declared.coming.Coming.TheVariants.{Cells, Rows};
ghost use Rattle.rank_makings.specs.Beginnings.{CanBegin};
ghost use Rattle.rank_makings.specs.Comings.{IsComing, first_gathered};
ghost use Rattle.rank_makings.specs.Copying.{IsCopying};

use crate::coming::{CellSource, CellsComing, Coming, RowSource, RowsComing};
use combine_modes::Mode;
use crs_matrix::MatrixFill;
use map_core::Plan;
use matrix_moves::{ArrivingRows, matrix_is_source};
use model_defs::{Job, Shape, Step};
use multivector::MultiVector;
use rank_pieces::{Piece, RankMatrix, copying_step, mode_of, onto_of, plan_of, source_of};
use rank_plans::PlanBook;
use rank_share::{Share, own_map};
use rank_transfers::Arriving;
use rank_values::vector_of_lines;
use scalar_laws::Scalar;
use std::alloc::{AllocError, Global};

/// The vector of a piece once more. `Err` means that memory ran out.
fn same_vector<S: Scalar>(piece: &Piece<S>) -> Result<MultiVector<S>, AllocError>
    requires vector { (v : VectorState S) × (piece.now ≡ Vector v) }
    ensures same { IfOk result (λ v. piece.now ≡ Vector v) }
{
    match piece {
        Piece::Vector(vector) => vector.copy(),
        Piece::Matrix(_) => unreachable!(),
    }
}

/// What the cells are combined with of a value of this shape: the rank's piece of the value that the statement names, or zeros.
/// `Err` means that memory ran out.
fn onto_vector<S: Scalar>(
    alloc: Global,
    job: &Job,
    me: u32,
    shape: Shape,
    pieces: &[Piece<S>],
    step: &Step,
) -> Result<MultiVector<S>, AllocError>
    requires valid { IsValid job.now }
    requires rank { me < job.now.ranks }
    requires known { shape.rows < length job.now.maps }
    requires before { (onto : ℕ) → onto_of (Made step.now) ≡ Some onto → (v : VectorState S) × (slice_get pieces.now onto ≡ Some (Vector v)) }
    ensures zeros { IfOk result (λ v. onto_of (Made step.now) ≡ None → (v.map ≡ list_of job.now shape.rows me) × ((v.columns ≡ shape.columns)
        × (global_table v ≡ filled (has_index job.now shape.rows me) shape.columns S.semiring.nought))) }
    ensures piece { IfOk result (λ v. (onto : ℕ) → onto_of (Made step.now) ≡ Some onto → slice_get pieces.now onto ≡ Some (Vector v)) }
{
    match onto_of(step) {
        Some(onto) => same_vector(&pieces[onto]),
        None => {
            let map = own_map(alloc, job, shape.rows, me)?;
            vector_of_lines(alloc, map, shape.columns, &[])
        }
    }
}

/// Begins a value of this shape with the cells of a vector or of parts that stay on the rank, combined as the statement says. `Err`
/// means that memory ran out.
fn begin_cells<S: Scalar>(
    alloc: Global,
    job: &Job,
    me: u32,
    shape: Shape,
    pieces: &[Piece<S>],
    step: &Step,
    plan: Plan,
    source: usize,
    vector: &MultiVector<S>,
) -> Result<CellsComing<S>, AllocError>
    requires copying { (files : List File) × ((given : List Letter) × ((k : ℕ) × ((stage : ℕ) × IsCopying S.semiring S.conversions job.now files me pieces.now given k stage step.now shape source plan))) }
    requires piece { slice_get pieces.now source ≡ Some (Vector vector.now) }
    ensures begun { IfOk result (λ c. (files : List File) (given : List Letter) (k stage : ℕ) → IsCopying S.semiring S.conversions job.now files me pieces.now given k stage step.now shape source plan
        → IsComing S.semiring S.conversions job.now files me pieces.now given k stage (first_gathered S.semiring S.conversions job.now files me pieces.now given k stage) (Cells c)) }
{
    let onto = onto_vector(alloc, job, me, shape, pieces, step)?;
    let arriving = Arriving::begin(plan, vector, onto, mode_of(step))?;
    let source = CellSource::Piece(source);
    Ok(CellsComing { source, arriving })
}

/// Begins a matrix of this shape with the rows of a matrix that stay on the rank. `Err` means that memory ran out.
fn begin_rows<S: Scalar>(
    alloc: Global,
    job: &Job,
    me: u32,
    shape: Shape,
    pieces: &[Piece<S>],
    step: &Step,
    plan: Plan,
    source: usize,
    m: &RankMatrix<S>,
) -> Result<RowsComing<S>, AllocError>
    requires copying { (files : List File) × ((given : List Letter) × ((k : ℕ) × ((stage : ℕ) × IsCopying S.semiring S.conversions job.now files me pieces.now given k stage step.now shape source plan))) }
    requires piece { slice_get pieces.now source ≡ Some (Matrix m.now) }
    ensures begun { IfOk result (λ c. (files : List File) (given : List Letter) (k stage : ℕ) → IsCopying S.semiring S.conversions job.now files me pieces.now given k stage step.now shape source plan
        → IsComing S.semiring S.conversions job.now files me pieces.now given k stage (first_gathered S.semiring S.conversions job.now files me pieces.now given k stage) (Rows c)) }
{
    matrix_is_source(&m.matrix);
    let rows = own_map(alloc, job, shape.rows, me)?;
    let empty = MatrixFill::new(alloc, rows)?;
    let arriving = ArrivingRows::begin(plan, &m.matrix, empty, Mode::Add)?;
    let source = RowSource::Piece(source);
    Ok(RowsComing { source, arriving })
}

/// Begins a value that is made of the cells of a vector or of parts, or of the rows of a matrix, on another map. `Err` means that
/// memory ran out.
pub(crate) fn begin_copy<S: Scalar>(
    alloc: Global,
    job: &Job,
    me: u32,
    share: &Share,
    shapes: &[Shape],
    book: &PlanBook,
    pieces: &[Piece<S>],
    came: Option<MultiVector<S>>,
    k: usize,
    stage: usize,
) -> Result<Coming<S>, AllocError>
    requires kind { IsCopy job.now k }
    requires can { (files : List File) × ((given : List Letter) × CanBegin S.semiring S.conversions job.now files me share.now shapes.now pieces.now given book.now k stage came) }
    ensures begun { IfOk result (λ c. (files : List File) (given : List Letter)
        → CanBegin S.semiring S.conversions job.now files me share.now shapes.now pieces.now given book.now k stage came
        → IsComing S.semiring S.conversions job.now files me pieces.now given k stage (first_gathered S.semiring S.conversions job.now files me pieces.now given k stage) c) }
{
    let step = copying_step(job, k);
    let source = source_of(step);
    let shape = shapes[k];
    let plan = plan_of(step, shapes[source].rows, shape.rows);
    let kept = book.plan(plan).share()?;
    match &pieces[source] {
        Piece::Vector(vector) => Ok(Coming::Cells(begin_cells(
            alloc, job, me, shape, pieces, step, kept, source, vector,
        )?)),
        Piece::Matrix(m) => Ok(Coming::Rows(begin_rows(
            alloc, job, me, shape, pieces, step, kept, source, m,
        )?)),
    }
}
