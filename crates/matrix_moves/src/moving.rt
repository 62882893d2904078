//! What one rank does to move the rows of a matrix.
ghost use Rattle.std.specs.Prelude.{◌≡◌, ◌<◌, ◌≤◌, ℕ, None, length, IfOk, OnOk, OnErr};
ghost use Rattle.tables.specs.Indices.{AreBelow, AreDistinct};
ghost use Rattle.tables.specs.Tables.{found};
ghost use Rattle.map_core.specs.Classes.{indices_at};
ghost use Rattle.map_core.specs.Plans.{export_list, remote_list};
ghost use Rattle.byte_pool.specs.Leases.{leases, with_lease};
ghost use Rattle.crs_matrix.specs.Rows.{row_table};
ghost use Rattle.vector_moves.specs.Moves.{AreMoves, own_sources, own_targets};
ghost use Rattle.matrix_moves.specs.Sources.{HasWidth, IsRowSource, as_rows, own_rows, rows_letter, rows_to};
ghost use Rattle.matrix_moves.specs.Arrivals.{IsPartGathered, IsPlacesLetter, after_table, cells_of_letter};

use crate::room::is_short;
use byte_pool::{Lease, Pool};
use combine_modes::Mode;
use crs_matrix::MatrixFill;
use distributor::{AbsorbFault, DistSource, Transfer};
use letter_codec::{Kind, read_letter};
use scalar_laws::Scalar;
use std::alloc::AllocError;

/// Combines the rows of a source that stay on their rank with those of the target at the same global index. All other rows stay.
/// `Err` means that memory ran out; then a part of them was combined.
pub(crate) fn local<S: Scalar, A: DistSource<S>>(
    transfer: &Transfer,
    source: &A,
    target: &mut MatrixFill<S>,
    mode: Mode,
) -> Result<(), AllocError>
    requires source { IsRowSource (as_rows (A.entries source.now)) }
    requires moves { AreMoves (as_rows (A.entries source.now)).rows target.old.rows (own_sources transfer.now.plan) (own_targets transfer.now.plan) }
    ensures table { OnOk result (row_table target.new ≡ after_table S.semiring mode (row_table target.old) (own_rows transfer.now.plan (as_rows (A.entries source.now)))) }
    ensures rows { target.new.rows ≡ target.old.rows }
{
    let _ = target.row_map().len();
    transfer.local(source, target, mode)
}

/// The letter of the rows that the plan exports to a rank, which are those of the list, in their order, in a block that is made
/// for it. All other leases stay. `Err` means that memory ran out; then the pool stays as it is.
pub(crate) fn pack<S: Scalar, A: DistSource<S>>(
    transfer: &Transfer,
    source: &A,
    list: &[u32],
    to: u32,
    pool: &mut Pool,
) -> Result<Lease, AllocError>
    requires rank { to < transfer.now.plan.ranks }
    requires list { list.now ≡ export_list transfer.now.plan to }
    requires of_rows { transfer.now.width ≡ None }
    requires some_row { 1 ≤ length (export_list transfer.now.plan to) }
    requires source { IsRowSource (as_rows (A.entries source.now)) }
    requires sources { AreBelow (length (as_rows (A.entries source.now)).rows) (export_list transfer.now.plan to) }
    ensures fresh { IfOk result (λ lease. leases pool.old lease ≡ None) }
    ensures letter { IfOk result (λ lease. (width : ℕ) → HasWidth width (row_table (as_rows (A.entries source.now)))
        → leases pool.new ≡ with_lease (leases pool.old) lease
        (rows_letter S.conversions width (row_table (as_rows (A.entries source.now))) (rows_to transfer.now.plan (as_rows (A.entries source.now)).rows to))) }
    ensures err { OnErr result (leases pool.new ≡ leases pool.old) }
{
    if !is_short(source, list) {
        return Err(AllocError);
    }
    transfer.pack(Kind::Rows, source, to, pool)
}

/// Combines the cells of a letter of rows from a rank with those of the target at the same global index. All other places stay.
/// `Err` means that memory ran out; then a first part of the cells was combined.
pub(crate) fn absorb<S: Scalar>(
    transfer: &Transfer,
    bytes: &[u8],
    from: u32,
    target: &mut MatrixFill<S>,
    mode: Mode,
) -> Result<(), AllocError>
    requires rank { from < transfer.now.plan.ranks }
    requires of_rows { transfer.now.width ≡ None }
    requires targets { AreBelow (length target.old.rows) (remote_list transfer.now.plan from) }
    requires once { AreDistinct (remote_list transfer.now.plan from) }
    requires letter { IsPlacesLetter bytes.now (indices_at target.old.rows (remote_list transfer.now.plan from)) }
    ensures table { let rows = indices_at target.old.rows (remote_list transfer.now.plan from) in
        (letter : IsPlacesLetter bytes.now rows) → OnOk result (row_table target.new ≡ after_table S.semiring mode (row_table target.old) (found (cells_of_letter S.conversions bytes.now rows letter))) }
    ensures part { let rows = indices_at target.old.rows (remote_list transfer.now.plan from) in
        (letter : IsPlacesLetter bytes.now rows) → OnErr result (IsPartGathered S.semiring mode (row_table target.old) (cells_of_letter S.conversions bytes.now rows letter) (row_table target.new)) }
    ensures rows { target.new.rows ≡ target.old.rows }
{
    let _ = target.row_map().len();
    let Some(letter) = read_letter(bytes) else {
        unreachable!()
    };
    match transfer.absorb(&letter, from, target, mode) {
        Ok(()) => Ok(()),
        Err(AbsorbFault::NoMem) => Err(AllocError),
        Err(AbsorbFault::NotThePlan { .. }) => unreachable!(),
    }
}
