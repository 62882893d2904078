//! Matrices that statements make of rows of others, as they are begun: `transpose`, `multiply`, `add` and `assemble`.
ghost use Rattle.std.specs.Prelude.{◌≡◌, ◌<◌, ℕ, None, Some, List, IfOk, length, slice_get};
ghost use Rattle.tables.specs.Tables.{nowhere};
ghost use Rattle.mm_text.specs.Reading.{File};
ghost use Rattle.crs_matrix.specs.Matrices.{crs_table};
ghost use Rattle.crs_matrix.specs.Rows.{row_table};
ghost use Rattle.peers.specs.Protocols.{Letter};
ghost use Rattle.model_defs.specs.Makers.{maker_of};
ghost use Rattle.model_defs.specs.Maps.{list_of};
ghost use Rattle.model_defs.specs.Valid.{IsValid};
ghost use Rattle.value_phases.specs.ValueKinds.{IsGathered, IsMadeMatrix, IsProduct, IsSum, IsTransposed, is_matrix_step};
ghost use Rattle.rank_pieces.specs.declared.pieces.Piece.TheVariants.{Matrix};
ghost use Rattle.rank_pieces.specs.declared.pieces.RankMatrix.{RankMatrix};
ghost use Rattle.rank_makings.specs.declared.coming.Coming.TheVariants.{Rows};
ghost use Rattle.rank_makings.specs.Beginnings.{CanBegin};
ghost use Rattle.rank_makings.specs.Comings.{IsComing, first_gathered};
ghost use Rattle.rank_makings.specs.Gathering.{AreAssembled, AreFactors, AreSummands, is_product, is_sum, is_transpose};

use crate::coming::{Coming, RowSource, RowsComing};
use crate::copied::copied_fill;
use crate::operands::{matrix_at, plan_of, rows_at};
use combine_modes::Mode;
use crs_matrix::MatrixFill;
use matrix_moves::{ArrivingRows, fill_is_source, matrix_is_source};
use model_defs::{Job, Plan, Shape, Step};
use multivector::MultiVector;
use phase_list::{MadeBy, maker_at};
use rank_pieces::Piece;
use rank_plans::PlanBook;
use rank_share::{Share, own_map};
use scalar_laws::Scalar;
use std::alloc::{AllocError, Global};
use transpose::local_transpose;

/// Whether a statement makes value k, a matrix of other places.
pub(crate) fn is_made_matrix(job: &Job, k: usize) -> bool
    ensures made { result ≡ is_matrix_step (maker_of job.now k) }
{
    match maker_at(job, k) {
        MadeBy::Statement(step) => matches!(
            step,
            Step::Transpose { .. }
                | Step::Multiply { .. }
                | Step::Add { .. }
                | Step::Assemble { .. }
        ),
        MadeBy::Vector(_) | MadeBy::Parts(_) | MadeBy::Matrix(_) | MadeBy::Nothing => false,
    }
}

/// Whether value k is a transpose.
fn is_transpose(job: &Job, k: usize) -> bool
    ensures transpose { result ≡ is_transpose (maker_of job.now k) }
{
    match maker_at(job, k) {
        MadeBy::Statement(step) => matches!(step, Step::Transpose { .. }),
        MadeBy::Vector(_) | MadeBy::Parts(_) | MadeBy::Matrix(_) | MadeBy::Nothing => false,
    }
}

/// Whether value k is a product.
pub(crate) fn is_product(job: &Job, k: usize) -> bool
    ensures product { result ≡ is_product (maker_of job.now k) }
{
    match maker_at(job, k) {
        MadeBy::Statement(step) => matches!(step, Step::Multiply { .. }),
        MadeBy::Vector(_) | MadeBy::Parts(_) | MadeBy::Matrix(_) | MadeBy::Nothing => false,
    }
}

/// Whether value k is a sum of matrices.
pub(crate) fn is_sum(job: &Job, k: usize) -> bool
    ensures sum { result ≡ is_sum (maker_of job.now k) }
{
    match maker_at(job, k) {
        MadeBy::Statement(step) => matches!(step, Step::Add { .. }),
        MadeBy::Vector(_) | MadeBy::Parts(_) | MadeBy::Matrix(_) | MadeBy::Nothing => false,
    }
}

/// The matrix of which value k is the transpose.
fn transposed_of(job: &Job, k: usize) -> usize
    requires transposed { IsTransposed job.now k }
    ensures matrix { (is : IsTransposed job.now k) → result ≡ is.a }
{
    match maker_at(job, k) {
        MadeBy::Statement(Step::Transpose { matrix, .. }) => *matrix as usize,
        _ => unreachable!(),
    }
}

/// What a product says: of which two matrices.
#[derive(Drop)]
pub(crate) struct Factors {
    pub(crate) a: usize,
    pub(crate) b: usize,
}

/// What the product that makes value k says.
pub(crate) fn factors_of(job: &Job, k: usize) -> Factors
    requires product { IsProduct job.now k }
    ensures said { (is : IsProduct job.now k) → AreFactors is result }
{
    match maker_at(job, k) {
        MadeBy::Statement(Step::Multiply { a, b, .. }) => Factors {
            a: *a as usize,
            b: *b as usize,
        },
        _ => unreachable!(),
    }
}

/// What a sum says: of which two matrices, and by which factors.
#[derive(Drop)]
pub(crate) struct Summands {
    pub(crate) a: usize,
    pub(crate) b: usize,
    pub(crate) alpha: i64,
    pub(crate) beta: i64,
}

/// What the sum that makes value k says.
pub(crate) fn summands_of(job: &Job, k: usize) -> Summands
    requires sum { IsSum job.now k }
    ensures said { (is : IsSum job.now k) → AreSummands is result }
{
    match maker_at(job, k) {
        MadeBy::Statement(
            Step::Add {
                a,
                b,
                alpha,
                beta,
                ..
            },
        ) => Summands {
            a: *a as usize,
            b: *b as usize,
            alpha: *alpha,
            beta: *beta,
        },
        _ => unreachable!(),
    }
}

/// What an assembly says: of which split matrix, onto which one, and how their places are combined.
#[derive(Drop)]
struct Assembly {
    source: usize,
    base: Option<u32>,
    mode: Mode,
}

/// What the assembly that makes value k says.
fn assembly_of(job: &Job, k: usize) -> Assembly
    requires gathered { IsGathered job.now k }
    ensures said { (is : IsGathered job.now k) → AreAssembled is result }
{
    match maker_at(job, k) {
        MadeBy::Statement(
            Step::Assemble {
                from,
                onto,
                mode,
                ..
            },
        ) => Assembly {
            source: *from as usize,
            base: *onto,
            mode: *mode,
        },
        _ => unreachable!(),
    }
}

/// Begins the transpose of a matrix: the rank's rows are turned, and those of them that it owns are there. `Err` means that memory ran
/// out.
fn begin_transposed<S: Scalar>(
    alloc: Global,
    job: &Job,
    me: u32,
    share: &Share,
    shapes: &[Shape],
    book: &PlanBook,
    pieces: &[Piece<S>],
    came: &Option<MultiVector<S>>,
    k: usize,
    stage: usize,
) -> Result<RowsComing<S>, AllocError>
    requires kind { IsTransposed job.now k }
    requires can { (files : List File) × ((given : List Letter) × CanBegin S.semiring S.conversions job.now files me share.now shapes.now pieces.now given book.now k stage came.now) }
    ensures begun { IfOk result (λ c. (files : List File) (given : List Letter)
        → CanBegin S.semiring S.conversions job.now files me share.now shapes.now pieces.now given book.now k stage came.now
        → IsComing S.semiring S.conversions job.now files me pieces.now given k stage (first_gathered S.semiring S.conversions job.now files me pieces.now given k stage) (Rows c)) }
{
    let m = matrix_at(pieces, transposed_of(job, k));
    let turned = local_transpose(alloc, &m.matrix)?;
    fill_is_source(&turned);
    let plan = m.columns.share()?;
    let rows = own_map(alloc, job, shapes[k].rows, me)?;
    let empty = MatrixFill::new(alloc, rows)?;
    let arriving = ArrivingRows::begin(plan.reverse(), &turned, empty, Mode::Add)?;
    let source = RowSource::Own(turned);
    Ok(RowsComing { source, arriving })
}

/// Begins a product with the rows of b that belong to the columns of the rank's rows of a: those that the rank has itself are there.
/// `Err` means that memory ran out.
fn begin_product<S: Scalar>(
    alloc: Global,
    job: &Job,
    me: u32,
    share: &Share,
    shapes: &[Shape],
    book: &PlanBook,
    pieces: &[Piece<S>],
    came: &Option<MultiVector<S>>,
    k: usize,
    stage: usize,
) -> Result<RowsComing<S>, AllocError>
    requires kind { IsProduct job.now k }
    requires can { (files : List File) × ((given : List Letter) × CanBegin S.semiring S.conversions job.now files me share.now shapes.now pieces.now given book.now k stage came.now) }
    ensures begun { IfOk result (λ c. (files : List File) (given : List Letter)
        → CanBegin S.semiring S.conversions job.now files me share.now shapes.now pieces.now given book.now k stage came.now
        → IsComing S.semiring S.conversions job.now files me pieces.now given k stage (first_gathered S.semiring S.conversions job.now files me pieces.now given k stage) (Rows c)) }
{
    let said = factors_of(job, k);
    let a = matrix_at(pieces, said.a);
    let b = matrix_at(pieces, said.b);
    matrix_is_source(&b.matrix);
    let plan = a.columns.share()?;
    let empty = MatrixFill::new(alloc, a.matrix.graph().col_map().clone()?)?;
    let arriving = ArrivingRows::begin(plan, &b.matrix, empty, Mode::Add)?;
    let source = RowSource::Piece(said.b);
    Ok(RowsComing { source, arriving })
}

/// Begins a sum with the rows of b that are on the map of a: those that the rank has itself are there. `Err` means that memory ran out.
fn begin_sum<S: Scalar>(
    alloc: Global,
    job: &Job,
    me: u32,
    share: &Share,
    shapes: &[Shape],
    book: &PlanBook,
    pieces: &[Piece<S>],
    came: &Option<MultiVector<S>>,
    k: usize,
    stage: usize,
) -> Result<RowsComing<S>, AllocError>
    requires kind { IsSum job.now k }
    requires can { (files : List File) × ((given : List Letter) × CanBegin S.semiring S.conversions job.now files me share.now shapes.now pieces.now given book.now k stage came.now) }
    ensures begun { IfOk result (λ c. (files : List File) (given : List Letter)
        → CanBegin S.semiring S.conversions job.now files me share.now shapes.now pieces.now given book.now k stage came.now
        → IsComing S.semiring S.conversions job.now files me pieces.now given k stage (first_gathered S.semiring S.conversions job.now files me pieces.now given k stage) (Rows c)) }
{
    let from = summands_of(job, k).b;
    let b = matrix_at(pieces, from);
    matrix_is_source(&b.matrix);
    let plan = Plan::ImportPlan {
        source: rows_at(shapes, from),
        target: shapes[k].rows,
    };
    let kept = book.plan(plan).share()?;
    let rows = own_map(alloc, job, shapes[k].rows, me)?;
    let empty = MatrixFill::new(alloc, rows)?;
    let arriving = ArrivingRows::begin(kept, &b.matrix, empty, Mode::Add)?;
    let source = RowSource::Piece(from);
    Ok(RowsComing { source, arriving })
}

/// What a split matrix is assembled onto: the rank's rows of a matrix, or rows of this map without places. `Err` means that memory ran
/// out.
fn base_fill<S: Scalar>(
    alloc: Global,
    job: &Job,
    me: u32,
    rows: u32,
    pieces: &[Piece<S>],
    base: Option<u32>,
) -> Result<MatrixFill<S>, AllocError>
    requires valid { IsValid job.now }
    requires rank { me < job.now.ranks }
    requires known { rows < length job.now.maps }
    requires base { (o : ℕ) → base ≡ Some o → (m : RankMatrix S) × ((slice_get pieces.now o ≡ Some (Matrix m)) × (m.matrix.graph.rows ≡ list_of job.now rows me)) }
    ensures rows { IfOk result (λ fill. fill.rows ≡ list_of job.now rows me) }
    ensures none { IfOk result (λ fill. base ≡ None → row_table fill ≡ nowhere) }
    ensures some { IfOk result (λ fill. (o : ℕ) (m : RankMatrix S) → base ≡ Some o → slice_get pieces.now o ≡ Some (Matrix m) → row_table fill ≡ crs_table m.matrix) }
{
    match base {
        Some(onto) => copied_fill(alloc, &matrix_at(pieces, onto as usize).matrix),
        None => {
            let map = own_map(alloc, job, rows, me)?;
            MatrixFill::new(alloc, map)
        }
    }
}

/// Begins a matrix that is assembled of a split one: the rows of the rank's part that it owns are combined with the places that it is
/// assembled onto. `Err` means that memory ran out.
fn begin_gathered<S: Scalar>(
    alloc: Global,
    job: &Job,
    me: u32,
    share: &Share,
    shapes: &[Shape],
    book: &PlanBook,
    pieces: &[Piece<S>],
    came: &Option<MultiVector<S>>,
    k: usize,
    stage: usize,
) -> Result<RowsComing<S>, AllocError>
    requires kind { IsGathered job.now k }
    requires can { (files : List File) × ((given : List Letter) × CanBegin S.semiring S.conversions job.now files me share.now shapes.now pieces.now given book.now k stage came.now) }
    ensures begun { IfOk result (λ c. (files : List File) (given : List Letter)
        → CanBegin S.semiring S.conversions job.now files me share.now shapes.now pieces.now given book.now k stage came.now
        → IsComing S.semiring S.conversions job.now files me pieces.now given k stage (first_gathered S.semiring S.conversions job.now files me pieces.now given k stage) (Rows c)) }
{
    let said = assembly_of(job, k);
    let m = matrix_at(pieces, said.source);
    matrix_is_source(&m.matrix);
    let plan = plan_of(m, true).share()?;
    let base = base_fill(alloc, job, me, shapes[k].rows, pieces, said.base)?;
    let arriving = ArrivingRows::begin(plan.reverse(), &m.matrix, base, said.mode)?;
    let source = RowSource::Piece(said.source);
    Ok(RowsComing { source, arriving })
}

/// Begins a matrix that a statement makes of rows of others. `Err` means that memory ran out.
pub(crate) fn begin_made<S: Scalar>(
    alloc: Global,
    job: &Job,
    me: u32,
    share: &Share,
    shapes: &[Shape],
    book: &PlanBook,
    pieces: &[Piece<S>],
    came: &Option<MultiVector<S>>,
    k: usize,
    stage: usize,
) -> Result<RowsComing<S>, AllocError>
    requires kind { IsMadeMatrix job.now k }
    requires can { (files : List File) × ((given : List Letter) × CanBegin S.semiring S.conversions job.now files me share.now shapes.now pieces.now given book.now k stage came.now) }
    ensures begun { IfOk result (λ c. (files : List File) (given : List Letter)
        → CanBegin S.semiring S.conversions job.now files me share.now shapes.now pieces.now given book.now k stage came.now
        → IsComing S.semiring S.conversions job.now files me pieces.now given k stage (first_gathered S.semiring S.conversions job.now files me pieces.now given k stage) (Rows c)) }
{
    if is_transpose(job, k) {
        return begin_transposed(alloc, job, me, share, shapes, book, pieces, came, k, stage);
    }
    if is_product(job, k) {
        return begin_product(alloc, job, me, share, shapes, book, pieces, came, k, stage);
    }
    if is_sum(job, k) {
        return begin_sum(alloc, job, me, share, shapes, book, pieces, came, k, stage);
    }
    begin_gathered(alloc, job, me, share, shapes, book, pieces, came, k, stage)
}
