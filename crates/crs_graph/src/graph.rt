//! The structure of a sparse matrix.
ghost use Rattle.std.specs.Prelude.{◌≡◌, ◌+◌, ◌<◌, ◌≤◌, ◌^◌, [], ℕ, true, length, map, is_some, nat_eq, position, slice_index, IfOk, IfSome};
ghost use Rattle.std.specs.List.{concat, slice_index_or};
ghost use Rattle.map_core.specs.Layouts.{stands, AreDistinct};
ghost use Rattle.crs_graph.specs.Ascending.{ascending, IsAscending};
ghost use Rattle.crs_graph.specs.Graphs.{by_index, graph_has, graph_row, local_columns, IsAt, IsCompleted, IsGraph};
ghost use Rattle.crs_graph.specs.Packed.{joined, offsets_of};

use crate::PackedRows;
use crate::column_order::column_map;
use crate::columns::distinct_columns;
use crate::compress::{local_places, orders_of, row_of, sorted_rows};
use map_core::{Gid, LocalMap};
use std::alloc::{AllocError, Global};
use std::marker::Model;
use std::rc::{Rc, RcSlice};

/// The places of the rows that a rank holds (`Tpetra::CrsGraph` after its `fillComplete`), in compressed rows over a column
/// map. It never changes, and several matrices may share it.
///
/// Rows and columns are local indices of the row map and of the column map, counted from 0. The columns of each row ascend;
/// a place of a row is counted from 0.
#[derive(Drop)]
pub struct CrsGraph {
    rows: Rc<LocalMap>,
    cols: Rc<LocalMap>,
    offsets: RcSlice<usize>,
    columns: RcSlice<u32>,
    order: RcSlice<u32>,
}

impl Model for CrsGraph {
    ghost use Rattle.std.specs.Rc.{rc_slice_items};
    ghost use Rattle.crs_graph.specs.Graphs.{Graph};
    ghost use Rattle.crs_graph.specs.Kept.{graph_of, IsKept};

    ghost Value = { Graph };

    ghost view = { λ a. graph_of a.rows.value a.cols.value (rc_slice_items a.offsets) (rc_slice_items a.columns) };

    ghost invariant = { λ a. IsKept a.rows.value a.cols.value (rc_slice_items a.offsets) (rc_slice_items a.columns) (rc_slice_items a.order) };
}

impl CrsGraph {
    /// The structure that has the rows of global columns, one for each row of the row map, ascending. The column map lists
    /// the columns as `column_map` does, with one owner for each distinct column. `Err` means that memory ran out.
    pub fn from_rows(
        alloc: Global,
        rows: Rc<LocalMap>,
        columns: PackedRows,
        domain: &LocalMap,
        owners: &[u32],
    ) -> Result<Rc<CrsGraph>, AllocError>
        requires each_row { length columns ≡ length rows.value }
        requires ascend { (l : ℕ) → IsAscending (slice_index_or columns l []) }
        requires few { length (ascending (concat columns)) < 2 ^ 32 }
        requires each { length owners.now ≡ length (ascending (concat columns)) }
        ensures graph { IfOk result (λ graph. IsCompleted rows.value columns domain.now owners.now graph.value) }
    {
        let distinct = distinct_columns(alloc, columns.all())?;
        let cols = column_map(alloc, &distinct, domain, owners)?;
        let graph = CrsGraph::on_columns(alloc, rows, cols, columns)?;
        Ok(graph)
    }

    /// The same on a column map that has all columns of the rows.
    fn on_columns(
        alloc: Global,
        rows: Rc<LocalMap>,
        cols: Rc<LocalMap>,
        columns: PackedRows,
    ) -> Result<Rc<CrsGraph>, AllocError>
        requires each_row { length columns ≡ length rows.value }
        requires ascend { (l : ℕ) → IsAscending (slice_index_or columns l []) }
        requires known { (g : ℕ) → stands g (concat columns) ≡ true → stands g cols.value ≡ true }
        requires distinct { AreDistinct cols.value }
        requires few { length cols.value < 2 ^ 32 }
        ensures graph { IfOk result (λ graph. graph.value ≡ record { rows = rows.value; cols = cols.value; columns = map (local_columns cols.value) columns }) }
    {
        let (offsets, gids) = columns.into_parts();
        let locals = local_places(alloc, &cols, &gids)?;
        let columns = sorted_rows(alloc, &offsets, &locals)?;
        let order = orders_of(alloc, &offsets, &columns, &locals)?;
        let graph = CrsGraph {
            rows,
            cols,
            offsets: RcSlice::from_vec(offsets)?,
            columns: RcSlice::from_vec(columns)?,
            order: RcSlice::from_vec(order)?,
        };
        Ok(Rc::new(alloc, graph)?)
    }

    /// The map of its rows.
    pub fn row_map(&self) -> &Rc<LocalMap>
        ensures rows { result.now.value ≡ self.now.rows }
        ensures is_graph { IsGraph self.now }
    {
        &self.rows
    }

    /// The map of its columns: each stands there once.
    pub fn col_map(&self) -> &Rc<LocalMap>
        ensures cols { result.now.value ≡ self.now.cols }
        ensures is_graph { IsGraph self.now }
    {
        &self.cols
    }

    /// The columns of a row, as local indices, ascending. The row is a local index of the row map.
    #[inline]
    pub fn row(&self, lid: u32) -> &[u32]
        requires known { lid < length self.now.rows }
        ensures columns { result.now ≡ graph_row self.now lid }
        ensures is_graph { IsGraph self.now }
    {
        row_of(
            self.offsets.as_slice(),
            self.columns.as_slice(),
            lid as usize,
        )
    }

    /// The places of a row, counted from 0, in ascending order of their global columns. The row is a local index of the row
    /// map.
    #[inline]
    pub fn row_by_index(&self, lid: u32) -> &[u32]
        requires known { lid < length self.now.rows }
        ensures order { result.now ≡ by_index self.now.cols (graph_row self.now lid) }
        ensures is_graph { IsGraph self.now }
    {
        row_of(self.offsets.as_slice(), self.order.as_slice(), lid as usize)
    }

    /// How many places the rows before this one have: where the numbers of a row begin that stand row after row, in the
    /// order of its columns. The row is a local index of the row map.
    #[inline]
    pub fn offset(&self, lid: u32) -> usize
        requires known { lid < length self.now.rows }
        ensures offset { result ≡ slice_index (offsets_of self.now.columns) lid }
        ensures within { result + length (graph_row self.now lid) ≤ length (joined self.now.columns) }
        ensures small { result + length (graph_row self.now lid) < 2 ^ 64 }
    {
        let _ = self.columns.len();
        self.offsets.as_slice()[lid as usize]
    }

    /// How many places all rows have.
    pub fn places(&self) -> usize
        ensures places { result ≡ length (joined self.now.columns) }
    {
        self.columns.len()
    }

    /// The place of a column in a row, both local indices; `None` exactly where the row lacks it.
    #[inline]
    pub fn find(&self, lid: u32, col: u32) -> Option<usize>
        requires known { lid < length self.now.rows }
        ensures place { result ≡ position (nat_eq col) (graph_row self.now lid) }
        ensures within { IfSome result (λ at. at < length (graph_row self.now lid)) }
    {
        self.row(lid).binary_search(&col).ok()
    }

    /// Which of all places, counted row after row, a row and a column have, both global indices; `None` exactly where the
    /// structure lacks the place.
    pub fn locate(&self, row: Gid, col: Gid) -> Option<usize>
        ensures found { IfSome result (IsAt self.now row col) }
        ensures within { IfSome result (λ at. at < length (joined self.now.columns)) }
        ensures there { is_some result ≡ graph_has self.now row col }
        ensures is_graph { IsGraph self.now }
    {
        let Some(lid) = self.rows.local_of(row) else {
            return None;
        };
        let Some(col_lid) = self.cols.local_of(col) else {
            return None;
        };
        let Some(at) = self.find(lid, col_lid) else {
            return None;
        };
        Some(self.offset(lid) + at)
    }
}
