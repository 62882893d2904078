//! A matrix in compressed rows.
ghost use Rattle.std.specs.Prelude.{◌≡◌, ◌<◌, ◌≤◌, ◌+◌, true, length, map, slice_range, is_some, Some, OnOk, OnErr, IfOk, IfErr};
ghost use Rattle.tables.specs.Sums.{both_or_one};
ghost use Rattle.tables.specs.Tables.{with_place};
ghost use Rattle.crs_graph.specs.Graphs.{graph_has, graph_row};
ghost use Rattle.crs_graph.specs.Packed.{joined};
ghost use Rattle.crs_matrix.specs.ByRow.{by_row};
ghost use Rattle.crs_matrix.specs.Matrices.{crs_table, number_rows, numbers, scaled, IsCrs};
ghost use Rattle.crs_matrix.specs.RowFaults.{IsRowFault};
ghost use Rattle.crs_matrix.specs.Rows.{row_entries, row_table, IsRowCells};

use crate::RowFault;
use crs_graph::CrsGraph;
use distributor::DistSource;
use map_core::{Gid, LocalMap};
use scalar_laws::Scalar;
use std::alloc::{AllocError, Global};
use std::marker::Model;
use std::rc::Rc;

/// A sparse matrix on the rows that a rank holds (`Tpetra::CrsMatrix` after its `fillComplete`): a structure, which several
/// matrices may share, and a number for each of its places, in the order of the columns. The structure never changes.
///
/// Rows and columns are global indices where nothing else is said. No call but `copy` takes memory. As a source of transfers
/// it has an entry for each row, whose cells carry global columns in ascending order.
#[derive(Drop)]
pub struct CrsMatrix<S> {
    alloc: Global,
    graph: Rc<CrsGraph>,
    values: Vec<S>,
}

impl<S> Model for CrsMatrix<S> {
    ghost use Rattle.std.specs.Prelude.{◌≡◌, length};
    ghost use Rattle.crs_graph.specs.Packed.{joined};
    ghost use Rattle.crs_matrix.specs.Matrices.{number_rows, Crs};

    ghost Value = { Crs S };

    ghost view = { λ a. record { graph = a.graph.value; values = number_rows a.graph.value.columns a.values.items } };

    ghost invariant = { λ a. length a.values.items ≡ length (joined a.graph.value.columns) };
}

impl<S: Scalar> CrsMatrix<S> {
    /// The matrix of a structure with these numbers, row after row.
    pub(crate) fn on_graph(alloc: Global, graph: Rc<CrsGraph>, values: Vec<S>) -> CrsMatrix<S>
        requires each { length values.items ≡ length (joined graph.value.columns) }
        ensures matrix { result ≡ record { graph = graph.value; values = number_rows graph.value.columns values.items } }
    {
        CrsMatrix {
            alloc,
            graph,
            values,
        }
    }

    /// Its structure.
    pub fn graph(&self) -> &Rc<CrsGraph>
        ensures graph { result.now.value ≡ self.now.graph }
        ensures is_crs { IsCrs self.now }
    {
        let _ = self.graph.row_map();
        &self.graph
    }

    /// The map of its rows. By row, with global columns, the matrix is the same table.
    pub fn row_map(&self) -> &Rc<LocalMap>
        ensures rows { result.now.value ≡ self.now.graph.rows }
        ensures is_matrix { IsRowCells (by_row self.now) }
        ensures table { row_table (by_row self.now) ≡ crs_table self.now }
    {
        self.graph.row_map()
    }

    /// The numbers of a row, which is a local index of the row map, in the order of its columns.
    #[inline]
    pub fn row(&self, lid: u32) -> &[S]
        requires known { lid < length self.now.graph.rows }
        ensures numbers { result.now ≡ numbers self.now lid }
        ensures as_many { length result.now ≡ length (graph_row self.now.graph lid) }
    {
        let start = self.graph.offset(lid);
        let count = self.graph.row(lid).len();
        part(&self.values, start, start + count)
    }

    /// The number at a row and a column. `None` exactly where the structure lacks the place.
    pub fn get(&self, row: Gid, col: Gid) -> Option<S>
        ensures number { result ≡ crs_table self.now row col }
        ensures found { is_some result ≡ graph_has self.now.graph row col }
    {
        let Some(at) = self.graph.locate(row, col) else {
            return None;
        };
        Some(self.values[at])
    }

    /// Adds a number at a row and a column (`Tpetra::CrsMatrix::sumIntoGlobalValues`). All other numbers stay.
    ///
    /// `NoSuchPlace` comes exactly where the structure lacks the place; then nothing has changed.
    pub fn sum_into(&mut self, row: Gid, col: Gid, value: S) -> Result<(), RowFault>
        ensures number { OnOk result (crs_table self.new ≡ with_place (crs_table self.old) row col (both_or_one S.semiring.plus (crs_table self.old row col) (Some value))) }
        ensures graph { self.new.graph ≡ self.old.graph }
        ensures there { OnOk result (graph_has self.old.graph row col ≡ true) }
        ensures refused { IfErr result (IsRowFault self.old.graph row col) }
        ensures unchanged { OnErr result (self.new ≡ self.old) }
    {
        match self.graph.locate(row, col) {
            Some(at) => {
                self.values[at] = self.values[at].add(value);
                Ok(())
            }
            None => Err(RowFault::NoSuchPlace { row, col }),
        }
    }

    /// Gives a row and a column another number (`Tpetra::CrsMatrix::replaceGlobalValues`). All other numbers stay.
    ///
    /// `NoSuchPlace` comes exactly where the structure lacks the place; then nothing has changed.
    pub fn replace(&mut self, row: Gid, col: Gid, value: S) -> Result<(), RowFault>
        ensures number { OnOk result (crs_table self.new ≡ with_place (crs_table self.old) row col (Some value)) }
        ensures graph { self.new.graph ≡ self.old.graph }
        ensures there { OnOk result (graph_has self.old.graph row col ≡ true) }
        ensures refused { IfErr result (IsRowFault self.old.graph row col) }
        ensures unchanged { OnErr result (self.new ≡ self.old) }
    {
        let Some(at) = self.graph.locate(row, col) else {
            return Err(RowFault::NoSuchPlace { row, col });
        };
        self.values[at] = value;
        Ok(())
    }

    /// Multiplies each number by `alpha`, which is the first factor (`Tpetra::CrsMatrix::scale`).
    pub fn scale(&mut self, alpha: S)
        ensures numbers { crs_table self.new ≡ scaled S.semiring alpha (crs_table self.old) }
        ensures graph { self.new.graph ≡ self.old.graph }
    {
        multiply(&mut self.values, alpha);
    }

    /// The same matrix once more: it has numbers of its own, and shares the structure. `Err` means that memory ran out.
    pub fn copy(&self) -> Result<CrsMatrix<S>, AllocError>
        ensures same { IfOk result (λ copy. copy ≡ self.now) }
    {
        let values = Vec::from_slice(self.alloc, &self.values)?;
        Ok(CrsMatrix {
            alloc: self.alloc,
            graph: self.graph.clone()?,
            values,
        })
    }
}

impl<S: Scalar> DistSource<S> for CrsMatrix<S> {
    ghost entries = { λ matrix. row_entries (by_row matrix) };

    #[inline]
    fn gid(&self, lid: u32) -> Gid {
        match self.row_map().global_of(lid) {
            Some(gid) => gid,
            None => unreachable!(),
        }
    }

    #[inline]
    fn count(&self, lid: u32) -> u64 {
        self.graph().row(lid).len() as u64
    }

    #[inline]
    fn cell(&self, lid: u32, at: u64) -> (Gid, S) {
        let graph = self.graph();
        let place = graph.row_by_index(lid)[at as usize] as usize;
        let col = graph.row(lid)[place];
        let value = self.row(lid)[place];
        match graph.col_map().global_of(col) {
            Some(gid) => (gid, value),
            None => unreachable!(),
        }
    }
}

/// The part of a list between two places.
#[inline]
pub(crate) fn part<S>(list: &[S], start: usize, end: usize) -> &[S]
    requires ordered { start ≤ end }
    requires within { end ≤ length list.now }
    ensures part { result.now ≡ slice_range list.now start end }
{
    &list[start..end]
}

/// Multiplies each number by `alpha`.
fn multiply<S: Scalar>(values: &mut [S], alpha: S)
    ensures multiplied { values.new ≡ map (λ v. S.semiring.times alpha v) values.old }
{
    for value in values.iter_mut() {
        *value = alpha.mul(*value);
    }
}
