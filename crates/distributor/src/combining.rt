//! Entries of a source that come for a target.
ghost use Rattle.std.specs.Prelude.{◌≡◌, ◌<◌, true, length, nat_lt, IsOk, OnOk, OnErr};
ghost use Rattle.std.specs.List.{list_all, zip};
ghost use Rattle.distributor.specs.Entries.{entry_at, with_cells, cells_for};
ghost use Rattle.distributor.specs.Transfers.{IsPartOf, same_moves, moved_cells};

use crate::{DistSource, DistTarget};
use combine_modes::Mode;
use scalar_laws::Scalar;
use std::alloc::AllocError;

/// The cells of one entry come for local index `to`, in their order.
pub(crate) fn combine_entry<S: Scalar, A: DistSource<S>, B: DistTarget<S>>(
    source: &A,
    from: u32,
    target: &mut B,
    to: u32,
    mode: Mode,
) -> Result<(), AllocError>
    requires known { from < length (A.entries source.now) }
    requires taken { list_all (λ c. B.takes target.old c.row c.col) (cells_for to (entry_at (A.entries source.now) from)) ≡ true }
    ensures cells { OnOk result (B.table target.new ≡ with_cells S.semiring mode B.FIXED (B.table target.old) (cells_for to (entry_at (A.entries source.now) from))) }
    ensures part { OnErr result (IsPartOf S.semiring mode B.FIXED (B.table target.old) (cells_for to (entry_at (A.entries source.now) from)) (B.table target.new)) }
    ensures takes { B.takes target.new ≡ B.takes target.old }
    ensures shape { B.same_shape target.old target.new }
    ensures always { B.FIXED ≡ true → IsOk result }
{
    for at in 0..source.count(from) {
        let (col, value) = source.cell(from, at);
        target.combine(to, col, value, mode)?;
    }
    Ok(())
}

/// The first `same` entries come for the same local indices, ascending.
pub(crate) fn combine_same<S: Scalar, A: DistSource<S>, B: DistTarget<S>>(
    source: &A,
    same: u32,
    target: &mut B,
    mode: Mode,
) -> Result<(), AllocError>
    requires known { list_all (λ m. nat_lt m.0 (length (A.entries source.now))) (same_moves same) ≡ true }
    requires taken { list_all (λ c. B.takes target.old c.row c.col) (moved_cells (A.entries source.now) (same_moves same)) ≡ true }
    ensures cells { OnOk result (B.table target.new ≡ with_cells S.semiring mode B.FIXED (B.table target.old) (moved_cells (A.entries source.now) (same_moves same))) }
    ensures part { OnErr result (IsPartOf S.semiring mode B.FIXED (B.table target.old) (moved_cells (A.entries source.now) (same_moves same)) (B.table target.new)) }
    ensures takes { B.takes target.new ≡ B.takes target.old }
    ensures shape { B.same_shape target.old target.new }
    ensures always { B.FIXED ≡ true → IsOk result }
{
    for lid in 0..same {
        combine_entry(source, lid, target, lid, mode)?;
    }
    Ok(())
}

/// The entries at these source positions come for these target positions, in the order of the lists.
pub(crate) fn combine_permuted<S: Scalar, A: DistSource<S>, B: DistTarget<S>>(
    source: &A,
    froms: &[u32],
    target: &mut B,
    tos: &[u32],
    mode: Mode,
) -> Result<(), AllocError>
    requires pairs { length froms.now ≡ length tos.now }
    requires known { list_all (λ m. nat_lt m.0 (length (A.entries source.now))) (zip froms.now tos.now) ≡ true }
    requires taken { list_all (λ c. B.takes target.old c.row c.col) (moved_cells (A.entries source.now) (zip froms.now tos.now)) ≡ true }
    ensures cells { OnOk result (B.table target.new ≡ with_cells S.semiring mode B.FIXED (B.table target.old) (moved_cells (A.entries source.now) (zip froms.now tos.now))) }
    ensures part { OnErr result (IsPartOf S.semiring mode B.FIXED (B.table target.old) (moved_cells (A.entries source.now) (zip froms.now tos.now)) (B.table target.new)) }
    ensures takes { B.takes target.new ≡ B.takes target.old }
    ensures shape { B.same_shape target.old target.new }
    ensures always { B.FIXED ≡ true → IsOk result }
{
    for i in 0..froms.len() {
        combine_entry(source, froms[i], target, tos[i], mode)?;
    }
    Ok(())
}
