//! From rows of columns to compressed rows.
ghost use Rattle.std.specs.Prelude.{◌≡◌, ◌+◌, ◌<◌, ◌≤◌, ◌^◌, ◌++◌, [], ℕ, true, length, map, slice_range, IfOk, OnOk};
ghost use Rattle.std.specs.List.{slice_index_or};
ghost use Rattle.map_core.specs.Classes.{index_at, place, places};
ghost use Rattle.map_core.specs.Layouts.{stands, AreDistinct};
ghost use Rattle.crs_graph.specs.Ascending.{ascending, IsAscending};
ghost use Rattle.crs_graph.specs.Packed.{joined, slices, IsPacked};
ghost use Rattle.crs_graph.specs.Spans.{IsSpan};

use crate::spans::narrow_span;
use map_core::{Gid, LocalMap};
use std::alloc::{AllocError, Global};

/// One of the rows that stand one after the other in a list.
#[inline]
pub(crate) fn row_of<'a>(offsets: &[usize], list: &'a [u32], row: usize) -> &'a [u32]
    requires packed { IsPacked offsets.now list.now }
    requires known { row + 1 < length offsets.now }
    ensures row { result.now ≡ slice_index_or (slices offsets.now list.now) row [] }
{
    part(list, offsets[row], offsets[row + 1])
}

/// The part of a list between two places.
#[inline]
fn part(list: &[u32], start: usize, end: usize) -> &[u32]
    requires ordered { start ≤ end }
    requires within { end ≤ length list.now }
    ensures part { result.now ≡ slice_range list.now start end }
{
    &list[start..end]
}

/// The local index of each column, all of which the map has. `Err` means that memory ran out.
pub(crate) fn local_places(
    alloc: Global,
    cols: &LocalMap,
    gids: &[Gid],
) -> Result<Vec<u32>, AllocError>
    requires known { (g : ℕ) → stands g gids.now ≡ true → stands g cols.now ≡ true }
    ensures places { IfOk result (λ found. found.items ≡ places cols.now gids.now) }
{
    match narrow_span(gids) {
        Some((first, count)) => listed_places(alloc, cols, gids, first, count),
        None => searched_places(alloc, cols, gids),
    }
}

/// The same by a list of the local indices of `count` columns from `first` on.
fn listed_places(
    alloc: Global,
    cols: &LocalMap,
    gids: &[Gid],
    first: Gid,
    count: usize,
) -> Result<Vec<u32>, AllocError>
    requires known { (g : ℕ) → stands g gids.now ≡ true → stands g cols.now ≡ true }
    requires span { IsSpan first count gids.now }
    ensures places { IfOk result (λ found. found.items ≡ places cols.now gids.now) }
{
    let list = place_list(alloc, cols, first, count)?;
    let mut found = Vec::with_capacity(alloc, gids.len())?;
    for gid in gids {
        found.push(list[(*gid - first) as usize])?;
    }
    Ok(found)
}

/// For each of `count` columns from `first` on its local index, where the map has it. `Err` means that memory ran out.
fn place_list(
    alloc: Global,
    cols: &LocalMap,
    first: Gid,
    count: usize,
) -> Result<Vec<u32>, AllocError>
    ensures each { IfOk result (λ list. length list.items ≡ count) }
    ensures places { IfOk result (λ list. (k : ℕ) → k < count → stands (first + k) cols.now ≡ true → index_at list.items k ≡ place cols.now (first + k)) }
{
    let mut list = vec![in alloc; 0; count]?;
    for lid in 0..cols.len() {
        let Some(gid) = cols.global_of(lid) else {
            unreachable!();
        };
        if first <= gid && gid - first < count as Gid {
            list[(gid - first) as usize] = lid;
        }
    }
    Ok(list)
}

/// The same by a search for each.
fn searched_places(alloc: Global, cols: &LocalMap, gids: &[Gid]) -> Result<Vec<u32>, AllocError>
    requires known { (g : ℕ) → stands g gids.now ≡ true → stands g cols.now ≡ true }
    ensures places { IfOk result (λ found. found.items ≡ places cols.now gids.now) }
{
    let mut found = Vec::with_capacity(alloc, gids.len())?;
    for gid in gids {
        match cols.local_of(*gid) {
            Some(lid) => found.push(lid)?,
            None => unreachable!(),
        }
    }
    Ok(found)
}

/// The rows, each ascending. `Err` means that memory ran out.
pub(crate) fn sorted_rows(
    alloc: Global,
    offsets: &[usize],
    locals: &[u32],
) -> Result<Vec<u32>, AllocError>
    requires packed { IsPacked offsets.now locals.now }
    requires distinct { (l : ℕ) → AreDistinct (slice_index_or (slices offsets.now locals.now) l []) }
    ensures rows { IfOk result (λ columns. columns.items ≡ joined (map ascending (slices offsets.now locals.now))) }
{
    let mut columns = Vec::with_capacity(alloc, locals.len())?;
    let mut scratch = Vec::new(alloc);
    for row in 1..offsets.len() {
        push_sorted(&mut columns, &mut scratch, row_of(offsets, locals, row - 1))?;
    }
    Ok(columns)
}

/// Puts a row at the end, ascending, by way of a list that is written over.
fn push_sorted(
    columns: &mut Vec<u32>,
    scratch: &mut Vec<u32>,
    row: &[u32],
) -> Result<(), AllocError>
    requires distinct { AreDistinct row.now }
    ensures pushed { OnOk result (columns.new.items ≡ columns.old.items ++ ascending row.now) }
{
    scratch.clear();
    scratch.extend_from_slice(row)?;
    scratch.sort_unstable();
    columns.extend_from_slice(scratch)?;
    Ok(())
}

/// For each row, the places in the ascending row of its columns as they stood. `Err` means that memory ran out.
pub(crate) fn orders_of(
    alloc: Global,
    offsets: &[usize],
    columns: &[u32],
    locals: &[u32],
) -> Result<Vec<u32>, AllocError>
    requires packed { IsPacked offsets.now locals.now }
    requires packed_columns { IsPacked offsets.now columns.now }
    requires sorted { slices offsets.now columns.now ≡ map ascending (slices offsets.now locals.now) }
    requires few { (l : ℕ) → length (slice_index_or (slices offsets.now columns.now) l []) < 2 ^ 32 }
    ensures orders { IfOk result (λ order. order.items ≡ joined (map (λ row. places (ascending row) row) (slices offsets.now locals.now))) }
{
    let mut order = Vec::with_capacity(alloc, locals.len())?;
    for row in 1..offsets.len() {
        push_places(
            &mut order,
            row_of(offsets, columns, row - 1),
            row_of(offsets, locals, row - 1),
        )?;
    }
    Ok(order)
}

/// Puts the places in an ascending row of columns at the end, which all stand there.
fn push_places(order: &mut Vec<u32>, row: &[u32], locals: &[u32]) -> Result<(), AllocError>
    requires ascend { IsAscending row.now }
    requires few { length row.now < 2 ^ 32 }
    requires known { (c : ℕ) → stands c locals.now ≡ true → stands c row.now ≡ true }
    ensures pushed { OnOk result (order.new.items ≡ order.old.items ++ places row.now locals.now) }
{
    for local in locals {
        match row.binary_search(local) {
            Ok(place) => order.push(place as u32)?,
            Err(_) => unreachable!(),
        }
    }
    Ok(())
}
