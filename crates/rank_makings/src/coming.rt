//! A value whose numbers come from other ranks.
ghost use Rattle.std.specs.Prelude.{◌≡◌, ◌<◌, None, nat_lt, length, IfOk, OnOk, OnErr};
ghost use Rattle.byte_pool.specs.Leases.{leases, with_lease};
ghost use Rattle.outside.specs.declared.name.Name.{Name};
ghost use Rattle.rank_makings.specs.declared.coming.Coming.TheVariants.{Cells, Rows};
ghost use Rattle.rank_makings.specs.Comings.{HasLetterTo, IsComingIn, IsLetterFor, Scene, came_of, letter_to, rows_between, with_letter};

use byte_pool::{Lease, Pool};
use crs_matrix::MatrixFill;
use matrix_moves::{ArrivingRows, fill_is_source, matrix_is_source};
use multivector::MultiVector;
use rank_pieces::Piece;
use rank_transfers::Arriving;
use scalar_laws::Scalar;
use std::alloc::AllocError;

/// Whose cells are sent: those of the piece of a value, or sums that the rank made for others.
#[derive(Drop)]
pub enum CellSource<S> {
    Piece(usize),
    Sums(MultiVector<S>),
}

/// Whose rows are sent: those of the piece of a value, or rows of the rank's own: the part of a matrix that was dealt to it, or the
/// transpose of the rows that it holds.
#[derive(Drop)]
pub enum RowSource<S> {
    Piece(usize),
    Own(MatrixFill<S>),
}

/// Cells of a vector or of parts that come.
#[derive(Drop)]
pub struct CellsComing<S> {
    pub(crate) source: CellSource<S>,
    pub(crate) arriving: Arriving<S>,
}

/// Rows of a matrix that come.
#[derive(Drop)]
pub struct RowsComing<S> {
    pub(crate) source: RowSource<S>,
    pub(crate) arriving: ArrivingRows<S>,
}

/// A value in the making, whose numbers come in a phase.
#[derive(Drop)]
pub enum Coming<S> {
    Cells(CellsComing<S>),
    Rows(RowsComing<S>),
}

/// What came.
#[derive(Drop)]
pub enum Came<S> {
    Cells(MultiVector<S>),
    Rows(MatrixFill<S>),
}

/// The letter of the cells that are sent to a rank.
fn pack_cells<S: Scalar>(
    coming: &CellsComing<S>,
    pieces: &[Piece<S>],
    to: u32,
    pool: &mut Pool,
) -> Result<Lease, AllocError>
    requires coming { (e : Scene S) × (IsComingIn S.semiring S.conversions e (Cells coming.now) × ((e.pieces ≡ pieces.now) × HasLetterTo e to)) }
    ensures fresh { IfOk result (λ lease. leases pool.old lease ≡ None) }
    ensures letter { IfOk result (λ lease. (e : Scene S) → IsComingIn S.semiring S.conversions e (Cells coming.now) → e.pieces ≡ pieces.now → HasLetterTo e to
        → leases pool.new ≡ with_lease (leases pool.old) lease (letter_to S.semiring S.conversions e to)) }
    ensures err { OnErr result (leases pool.new ≡ leases pool.old) }
{
    match &coming.source {
        CellSource::Piece(value) => match &pieces[*value] {
            Piece::Vector(vector) => coming.arriving.pack(vector, to, pool),
            Piece::Matrix(_) => unreachable!(),
        },
        CellSource::Sums(sums) => coming.arriving.pack(sums, to, pool),
    }
}

/// The letter of the rows that are sent to a rank.
fn pack_rows<S: Scalar>(
    coming: &RowsComing<S>,
    pieces: &[Piece<S>],
    to: u32,
    pool: &mut Pool,
) -> Result<Lease, AllocError>
    requires coming { (e : Scene S) × (IsComingIn S.semiring S.conversions e (Rows coming.now) × ((e.pieces ≡ pieces.now) × HasLetterTo e to)) }
    ensures fresh { IfOk result (λ lease. leases pool.old lease ≡ None) }
    ensures letter { IfOk result (λ lease. (e : Scene S) → IsComingIn S.semiring S.conversions e (Rows coming.now) → e.pieces ≡ pieces.now → HasLetterTo e to
        → leases pool.new ≡ with_lease (leases pool.old) lease (letter_to S.semiring S.conversions e to)) }
    ensures err { OnErr result (leases pool.new ≡ leases pool.old) }
{
    match &coming.source {
        RowSource::Piece(value) => match &pieces[*value] {
            Piece::Matrix(m) => {
                matrix_is_source(&m.matrix);
                coming.arriving.pack(&m.matrix, to, pool)
            }
            Piece::Vector(_) => unreachable!(),
        },
        RowSource::Own(fill) => {
            fill_is_source(fill);
            coming.arriving.pack(fill, to, pool)
        }
    }
}

impl<S: Scalar> Coming<S> {
    /// Whether some row is sent to a rank.
    pub fn has_letter_to(&self, q: u32) -> bool
        requires coming { (e : Scene S) × (IsComingIn S.semiring S.conversions e self.now × (q < e.job.ranks)) }
        ensures rows { (e : Scene S) → IsComingIn S.semiring S.conversions e self.now → q < e.job.ranks → result ≡ nat_lt 0 (length (rows_between e e.me q)) }
    {
        match self {
            Coming::Cells(c) => c.arriving.has_letter_to(q),
            Coming::Rows(c) => c.arriving.has_letter_to(q),
        }
    }

    /// Whether some row comes from a rank.
    pub fn has_letter_from(&self, q: u32) -> bool
        requires coming { (e : Scene S) × (IsComingIn S.semiring S.conversions e self.now × (q < e.job.ranks)) }
        ensures rows { (e : Scene S) → IsComingIn S.semiring S.conversions e self.now → q < e.job.ranks → result ≡ nat_lt 0 (length (rows_between e q e.me)) }
    {
        match self {
            Coming::Cells(c) => c.arriving.has_letter_from(q),
            Coming::Rows(c) => c.arriving.has_letter_from(q),
        }
    }

    /// The letter of the rows that are sent to a rank, which are some, in a block that the pool lends: the job's letter, with the
    /// numbers of this rank. `pieces` are its pieces of the values before. All other leases stay. `Err` means that memory ran out; then
    /// all leases stay.
    pub fn pack(&self, pieces: &[Piece<S>], to: u32, pool: &mut Pool) -> Result<Lease, AllocError>
        requires coming { (e : Scene S) × (IsComingIn S.semiring S.conversions e self.now × ((e.pieces ≡ pieces.now) × HasLetterTo e to)) }
        ensures fresh { IfOk result (λ lease. leases pool.old lease ≡ None) }
        ensures letter { IfOk result (λ lease. (e : Scene S) → IsComingIn S.semiring S.conversions e self.now → e.pieces ≡ pieces.now → HasLetterTo e to
            → leases pool.new ≡ with_lease (leases pool.old) lease (letter_to S.semiring S.conversions e to)) }
        ensures err { OnErr result (leases pool.new ≡ leases pool.old) }
    {
        match self {
            Coming::Cells(c) => pack_cells(c, pieces, to, pool),
            Coming::Rows(c) => pack_rows(c, pieces, to, pool),
        }
    }

    /// Combines the numbers of a letter, given as its bytes: those that came, whatever they are, at the rows of the job's letter. `Err`
    /// means that memory ran out.
    pub fn absorb(&mut self, from: u32, bytes: &[u8]) -> Result<(), AllocError>
        requires letter { (e : Scene S) × ((name : Name) × (IsComingIn S.semiring S.conversions e self.old × ((name.from ≡ from) × IsLetterFor S.semiring S.conversions e name bytes.now))) }
        ensures absorbed { OnOk result ((e : Scene S) (name : Name) → IsComingIn S.semiring S.conversions e self.old → name.from ≡ from → IsLetterFor S.semiring S.conversions e name bytes.now
            → IsComingIn S.semiring S.conversions (with_letter S.semiring S.conversions e name bytes.now) self.new) }
    {
        match self {
            Coming::Cells(c) => c.arriving.absorb(from, bytes),
            Coming::Rows(c) => c.arriving.absorb(from, bytes),
        }
    }

    /// What came.
    pub fn into_came(self) -> Came<S>
        ensures came { result ≡ came_of self }
    {
        match self {
            Coming::Cells(c) => Came::Cells(c.arriving.into_vector()),
            Coming::Rows(c) => Came::Rows(c.arriving.into_fill()),
        }
    }
}
