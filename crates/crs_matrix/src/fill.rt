//! A matrix under construction.
ghost use Rattle.std.specs.Prelude.{◌≡◌, ◌<◌, ◌^◌, ◌++◌, [], ℕ, false, length, map, is_some, true, Some, OnOk, OnErr, IfOk, IfErr};
ghost use Rattle.std.specs.List.{concat};
ghost use Rattle.tables.specs.Sums.{both_or_one};
ghost use Rattle.tables.specs.Tables.{with_place};
ghost use Rattle.map_core.specs.Layouts.{local_index};
ghost use Rattle.distributor.specs.Entries.{with_cell};
ghost use Rattle.crs_graph.specs.Faults.{IsFillFault};
ghost use Rattle.crs_graph.specs.Graphs.{IsCompleted};
ghost use Rattle.crs_matrix.specs.Matrices.{crs_table};
ghost use Rattle.crs_matrix.specs.Rows.{all_columns, columns_in, has_row, local_table, row_entries, row_table, HasSameRows, IsRowCells};
ghost use Rattle.crs_matrix.specs.Stored.{columns_at, places_of};

use crate::CrsMatrix;
use crate::complete::{packed_columns, stored_numbers};
use crate::packed_places::packed_places;
use crate::places::{Place, changed, find_place, make_place, number_of, push_columns};
use combine_modes::{Mode, place};
use crs_graph::{CrsGraph, FillFault, distinct_columns};
use distributor::{DistSource, DistTarget};
use map_core::{Gid, LocalMap};
use scalar_laws::Scalar;
use smallvec::SmallVec;
use std::alloc::{AllocError, Global};
use std::marker::Model;
use std::rc::Rc;

/// A matrix under construction on the rows that a rank holds (`Tpetra::CrsMatrix` before its `fillComplete`): a finite map
/// from places to numbers. A place that was given a number stays, also where the number is zero.
#[derive(Drop)]
pub struct MatrixFill<S> {
    alloc: Global,
    rows: Rc<LocalMap>,
    places: Vec<SmallVec<Place, 8>>,
    values: Vec<S>,
}

impl<S> Model for MatrixFill<S> {
    ghost use Rattle.std.specs.Prelude.{length};
    ghost use Rattle.crs_matrix.specs.Rows.{RowCells};

    ghost Value = { RowCells S };

    ghost use Rattle.crs_matrix.specs.Stored.{places_of, stored, IsStored};

    ghost view = { λ a. stored a.rows.value (places_of a.places.items) a.values.items };

    ghost invariant = { λ a. IsStored a.rows.value (places_of a.places.items) (length a.values.items) };
}

impl<S: Scalar> MatrixFill<S> {
    /// No places, on the rows of a map. `Err` means that memory ran out.
    pub fn new(alloc: Global, rows: Rc<LocalMap>) -> Result<MatrixFill<S>, AllocError>
        ensures empty { IfOk result (λ fill. fill ≡ record { rows = rows.value; cells = map (λ _. []) rows.value }) }
    {
        let mut places = Vec::with_capacity(alloc, rows.len() as usize)?;
        for _ in 0..rows.len() {
            places.push(SmallVec::new(alloc))?;
        }
        Ok(MatrixFill {
            alloc,
            rows,
            places,
            values: Vec::new(alloc),
        })
    }

    /// Adds a number at a row and a column, global indices both; where the place is absent it is made.
    ///
    /// `NoSuchRow` comes exactly where the row map lacks the row; `NoMem` means that memory ran out. After both of them
    /// nothing has changed.
    pub fn insert(&mut self, row: Gid, col: Gid, value: S) -> Result<(), FillFault>
        ensures place { OnOk result (row_table self.new ≡ with_place (row_table self.old) row col (both_or_one S.semiring.plus (row_table self.old row col) (Some value))) }
        ensures rows { self.new.rows ≡ self.old.rows }
        ensures row { OnOk result (is_some (local_index self.old.rows row) ≡ true) }
        ensures refused { IfErr result (IsFillFault self.old.rows row) }
        ensures unchanged { OnErr result (self.new ≡ self.old) }
    {
        let Some(lid) = self.rows.local_of(row) else {
            return Err(FillFault::NoSuchRow { row });
        };
        self.put(lid, col, value, Mode::Add)?;
        Ok(())
    }

    /// The number at a row and a column, global indices both. `None` exactly where the place is absent. It takes no memory.
    pub fn get(&self, row: Gid, col: Gid) -> Option<S>
        ensures number { result ≡ row_table self.now row col }
    {
        let lid = self.rows.local_of(row)?;
        number_of(self.places[lid as usize].as_slice(), &self.values, col)
    }

    /// The distinct columns of all rows, ascending: global indices. `Err` means that memory ran out.
    pub fn columns(&self) -> Result<Vec<Gid>, AllocError>
        ensures columns { IfOk result (λ columns. columns.items ≡ all_columns self.now) }
    {
        let all = joined_columns(self.alloc, &self.places, self.values.len())?;
        let columns = distinct_columns(self.alloc, &all)?;
        Ok(columns)
    }

    /// The matrix with these places and numbers, and no others (`Tpetra::CrsMatrix::fillComplete`). Its column map lists first
    /// the columns that `domain` has, in its order, then the others by owner, then by index. There is one owner for each of
    /// `columns`, of which there are fewer than 2^32. `Err` means that memory ran out, and the fill is given up.
    pub fn fill_complete(
        self,
        domain: &LocalMap,
        owners: &[u32],
    ) -> Result<CrsMatrix<S>, AllocError>
        requires few { length (all_columns self) < 2 ^ 32 }
        requires each { length owners.now ≡ length (all_columns self) }
        ensures graph { IfOk result (λ matrix. IsCompleted self.rows (map columns_in self.cells) domain.now owners.now matrix.graph) }
        ensures table { IfOk result (λ matrix. crs_table matrix ≡ row_table self) }
    {
        let count = self.rows.len();
        let places = packed_places(self.alloc, count, self.places, self.values.len())?;
        let packed = packed_columns(self.alloc, count, &places)?;
        let graph = CrsGraph::from_rows(self.alloc, self.rows, packed, domain, owners)?;
        let values = stored_numbers(self.alloc, &graph, &places, &self.values)?;
        Ok(CrsMatrix::on_graph(self.alloc, graph, values))
    }

    /// The map on whose indices its rows are.
    pub fn row_map(&self) -> &Rc<LocalMap>
        ensures rows { result.now.value ≡ self.now.rows }
        ensures is_matrix { IsRowCells self.now }
    {
        &self.rows
    }

    /// Combines a number with the place of a local index of a row and a column. `Err` means that memory ran out, and then
    /// nothing has changed.
    fn put(&mut self, lid: u32, col: Gid, value: S, mode: Mode) -> Result<(), AllocError>
        requires row { lid < length self.old.rows }
        ensures place { OnOk result (local_table self.new ≡ with_cell S.semiring mode false (local_table self.old) lid col value) }
        ensures rows { self.new.rows ≡ self.old.rows }
        ensures unchanged { OnErr result (self.new ≡ self.old) }
    {
        match find_place(self.places[lid as usize].as_slice(), col) {
            Ok(i) => {
                let at = self.places[lid as usize][i].at;
                self.values[at] = changed(self.values[at], value, mode);
                Ok(())
            }
            Err(i) => {
                let Some(number) = place(None, value, mode) else {
                    return Ok(());
                };
                let row = &mut self.places[lid as usize];
                make_place(row, &mut self.values, i, col, number)?;
                Ok(())
            }
        }
    }
}

impl<S: Scalar> DistSource<S> for MatrixFill<S> {
    ghost entries = { λ fill. row_entries fill };

    #[inline]
    fn gid(&self, lid: u32) -> Gid {
        match self.rows.global_of(lid) {
            Some(gid) => gid,
            None => unreachable!(),
        }
    }

    #[inline]
    fn count(&self, lid: u32) -> u64 {
        self.places[lid as usize].len() as u64
    }

    #[inline]
    fn cell(&self, lid: u32, at: u64) -> (Gid, S) {
        let place = self.places[lid as usize][at as usize];
        (place.col, self.values[place.at])
    }
}

impl<S: Scalar> DistTarget<S> for MatrixFill<S> {
    ghost use Rattle.std.specs.Prelude.{false, refl};
    ghost use Rattle.std.proofs.Common.{◌∙◌};

    ghost table = { λ fill. local_table fill };

    ghost takes = { λ fill. has_row fill };

    ghost same_shape = { HasSameRows };

    ghost FIXED = { false };

    const FIXED: bool = false;

    #[inline]
    fn combine(&mut self, lid: u32, col: Gid, value: S, mode: Mode) -> Result<(), AllocError> {
        self.put(lid, col, value, mode)
    }

    ghost shape_refl = { λ a. refl };

    ghost shape_trans = { λ a b c first second. second ∙ first };
}

/// The columns of all rows, one row after the other, where there are about so many. `Err` means that memory ran out.
fn joined_columns(
    alloc: Global,
    rows: &[SmallVec<Place, 8>],
    count: usize,
) -> Result<Vec<Gid>, AllocError>
    ensures all { IfOk result (λ all. all.items ≡ concat (map columns_at (places_of rows.now))) }
{
    let mut all = Vec::with_capacity(alloc, count)?;
    for row in rows {
        push_columns(&mut all, row.as_slice())?;
    }
    Ok(all)
}
