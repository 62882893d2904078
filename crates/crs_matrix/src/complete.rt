//! From rows under construction to the numbers of compressed rows.
ghost use Rattle.std.specs.Prelude.{◌≡◌, ◌<◌, ◌++◌, [], ℕ, true, length, map, Some, IfOk, OnOk};
ghost use Rattle.std.specs.List.{slice_index_or};
ghost use Rattle.map_core.specs.Classes.{index_at};
ghost use Rattle.map_core.specs.Layouts.{stands};
ghost use Rattle.crs_graph.specs.Ascending.{IsAscending};
ghost use Rattle.crs_graph.specs.Graphs.{graph_row, IsGraph};
ghost use Rattle.crs_graph.specs.Packed.{joined};
ghost use Rattle.crs_matrix.specs.Completed.{row_numbers, stored_rows, AreKnown};
ghost use Rattle.crs_matrix.specs.Stored.{cells_at, columns_at, AreWithin};

use crate::packed_places::PackedPlaces;
use crate::places::{Place, number_near, push_columns};
use crs_graph::{CrsGraph, PackedRows};
use map_core::LocalMap;
use scalar_laws::Scalar;
use std::alloc::{AllocError, Global};

/// The columns of the rows, of which there are `count`. `Err` means that memory ran out.
pub(crate) fn packed_columns(
    alloc: Global,
    count: u32,
    rows: &PackedPlaces,
) -> Result<PackedRows, AllocError>
    requires each { length rows.now ≡ count }
    ensures rows { IfOk result (λ packed. packed ≡ map columns_at rows.now) }
{
    let mut packed = PackedRows::with_capacity(alloc, count)?;
    let mut scratch = Vec::new(alloc);
    for lid in 0..count {
        scratch.clear();
        push_columns(&mut scratch, rows.row_at(lid))?;
        packed.push_row(&scratch)?;
    }
    Ok(packed)
}

/// The numbers of all places of a structure, row after row, in the order of its columns. `Err` means that memory ran out.
pub(crate) fn stored_numbers<S: Scalar>(
    alloc: Global,
    graph: &CrsGraph,
    places: &PackedPlaces,
    values: &[S],
) -> Result<Vec<S>, AllocError>
    requires each { length places.now ≡ length graph.now.rows }
    requires ascend { (l : ℕ) → IsAscending (columns_at (slice_index_or places.now l [])) }
    requires within { (l : ℕ) → AreWithin (length values.now) (slice_index_or places.now l []) }
    requires known { (l c : ℕ) → c < length graph.now.cols → stands c (graph_row graph.now l) ≡ stands (index_at graph.now.cols c) (columns_at (slice_index_or places.now l [])) }
    ensures numbers { IfOk result (λ stored. map Some stored.items ≡ joined (stored_rows graph.now.cols graph.now.columns (map (cells_at values.now) places.now))) }
    ensures is_graph { IsGraph graph.now }
{
    let rows = graph.row_map().len();
    let mut stored = Vec::with_capacity(alloc, graph.places())?;
    for lid in 0..rows {
        push_numbers(
            &mut stored,
            graph.row(lid),
            graph.col_map(),
            places.row_at(lid),
            values,
        )?;
    }
    Ok(stored)
}

/// Puts the number of each column of a row at the end.
fn push_numbers<S: Scalar>(
    stored: &mut Vec<S>,
    row: &[u32],
    cols: &LocalMap,
    places: &[Place],
    values: &[S],
) -> Result<(), AllocError>
    requires ascend { IsAscending (columns_at places.now) }
    requires within { AreWithin (length values.now) places.now }
    requires known { AreKnown cols.now row.now (columns_at places.now) }
    ensures pushed { OnOk result (map Some stored.new.items ≡ map Some stored.old.items ++ row_numbers cols.now row.now (cells_at values.now places.now)) }
{
    for at in 0..row.len() {
        let Some(gid) = cols.global_of(row[at]) else {
            unreachable!();
        };
        let Some(number) = number_near(places, values, at, gid) else {
            unreachable!();
        };
        stored.push(number)?;
    }
    Ok(())
}
