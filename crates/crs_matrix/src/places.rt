//! The places of one row under construction.
ghost use Rattle.std.specs.Prelude.{◌≡◌, ◌<◌, ◌≤◌, ◌++◌, ◌∷◌, [], ℕ, List, false, length, Some, IfOk, IfErr, OnOk, OnErr};
ghost use Rattle.std.specs.List.{insert, slice_index_or};
ghost use Rattle.combine_modes.specs.Modes.{after_one};
ghost use Rattle.crs_graph.specs.Ascending.{IsAscending};
ghost use Rattle.crs_matrix.specs.Rows.{number_at};
ghost use Rattle.crs_matrix.specs.Stored.{cells_at, columns_at, no_place, AreWithin, IsGap};

use combine_modes::{Mode, place};
use map_core::Gid;
use scalar_laws::Scalar;
use smallvec::SmallVec;
use std::alloc::AllocError;

/// A column, and which of the numbers stands there.
#[derive(Clone, Copy, Default)]
pub(crate) struct Place {
    pub(crate) col: Gid,
    pub(crate) at: usize,
}

/// The index of a column among places that ascend; where it is not there, the index at which it would stand.
pub(crate) fn find_place(places: &[Place], col: Gid) -> Result<usize, usize>
    requires ascending { IsAscending (columns_at places.now) }
    ensures found { IfOk result (λ i. (i < length places.now) × ((slice_index_or places.now i no_place).col ≡ col)) }
    ensures gap { IfErr result (λ i. (i ≤ length places.now) × IsGap places.now i col) }
{
    places.binary_search_by_key(&col, |p| p.col)
}

/// The number at a column of one row, or none.
pub(crate) fn number_of<S: Scalar>(places: &[Place], values: &[S], col: Gid) -> Option<S>
    requires ascending { IsAscending (columns_at places.now) }
    requires within { AreWithin (length values.now) places.now }
    ensures number { result ≡ number_at (cells_at values.now places.now) col }
{
    match find_place(places, col) {
        Ok(i) => Some(values[places[i].at]),
        Err(_) => None,
    }
}

/// The same; the column is first looked for at index i.
#[inline]
pub(crate) fn number_near<S: Scalar>(
    places: &[Place],
    values: &[S],
    i: usize,
    col: Gid,
) -> Option<S>
    requires ascending { IsAscending (columns_at places.now) }
    requires within { AreWithin (length values.now) places.now }
    ensures number { result ≡ number_at (cells_at values.now places.now) col }
{
    if i < places.len() && places[i].col == col {
        return Some(values[places[i].at]);
    }
    number_of(places, values, col)
}

/// The number of a place that is there, after `value` came for it. It takes no memory.
pub(crate) fn changed<S: Scalar>(old: S, value: S, mode: Mode) -> S
    ensures number { Some result ≡ after_one S.semiring mode false (Some old) (Some value) }
{
    match place(Some(old), value, mode) {
        Some(number) => number,
        None => old,
    }
}

/// Makes the place of a column, at an index of its row, with a number. `Err` means that memory ran out, and then nothing
/// has changed.
pub(crate) fn make_place<S: Scalar>(
    places: &mut SmallVec<Place, 8>,
    values: &mut Vec<S>,
    i: usize,
    col: Gid,
    number: S,
) -> Result<(), AllocError>
    requires within { i ≤ length places.old.items }
    ensures places { OnOk result (places.new.items ≡ insert places.old.items i (record { col = col; at = length values.old.items })) }
    ensures values { OnOk result (values.new.items ≡ values.old.items ++ number ∷ []) }
    ensures same_places { OnErr result (places.new.items ≡ places.old.items) }
    ensures same_values { OnErr result (values.new.items ≡ values.old.items) }
{
    let at = values.len();
    values.reserve(1)?;
    places.insert(i, Place { col, at })?;
    values.push_reserved(number);
    Ok(())
}

/// Puts the columns of one row at the end of a list. `Err` means that memory ran out.
pub(crate) fn push_columns(list: &mut Vec<Gid>, places: &[Place]) -> Result<(), AllocError>
    ensures pushed { OnOk result (list.new.items ≡ list.old.items ++ columns_at places.now) }
{
    for p in places {
        list.push(p.col)?;
    }
    Ok(())
}
