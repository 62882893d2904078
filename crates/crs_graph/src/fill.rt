//! A structure under construction.
ghost use Rattle.std.specs.Prelude.{◌≡◌, ◌<◌, ◌^◌, [], ℕ, length, map, not, is_some, true, OnOk, OnErr, IfOk, IfErr};
ghost use Rattle.std.specs.List.{range_with_len};
ghost use Rattle.map_core.specs.Layouts.{local_index};
ghost use Rattle.crs_graph.specs.Faults.{IsFillFault};
ghost use Rattle.crs_graph.specs.Fills.{all_columns, columns_of, has_place, with_place};
ghost use Rattle.crs_graph.specs.Graphs.{graph_has, IsCompleted};

use crate::columns::{distinct_columns, insert_column};
use crate::{CrsGraph, FillFault, PackedRows};
use map_core::{Gid, LocalMap};
use smallvec::SmallVec;
use std::alloc::{AllocError, Global};
use std::marker::Model;
use std::rc::Rc;

/// The places of the rows that a rank holds, under construction (`Tpetra::CrsGraph` before its `fillComplete`). Rows and
/// columns are global indices.
#[derive(Drop)]
pub struct GraphFill {
    alloc: Global,
    rows: Rc<LocalMap>,
    columns: Vec<SmallVec<Gid, 8>>,
}

impl Model for GraphFill {
    ghost use Rattle.crs_graph.specs.Fills.{columns_of, Fill, IsFill};

    ghost Value = { Fill };

    ghost view = { λ a. record { rows = a.rows.value; columns = columns_of a.columns.items } };

    ghost invariant = { λ a. IsFill (record { rows = a.rows.value; columns = columns_of a.columns.items }) };
}

impl GraphFill {
    /// No places, on the rows of a map. `Err` means that memory ran out.
    pub fn new(alloc: Global, rows: Rc<LocalMap>) -> Result<GraphFill, AllocError>
        ensures empty { IfOk result (λ fill. fill ≡ record { rows = rows.value; columns = map (λ _. []) rows.value }) }
    {
        let mut columns = Vec::with_capacity(alloc, rows.len() as usize)?;
        for _ in 0..rows.len() {
            columns.push(SmallVec::new(alloc))?;
        }
        Ok(GraphFill {
            alloc,
            rows,
            columns,
        })
    }

    /// Inserts the place of a row and a column, and answers whether it is new.
    ///
    /// `NoSuchRow` comes exactly where the row map lacks the row; `NoMem` means that memory ran out. After both of them
    /// nothing has changed.
    pub fn insert(&mut self, row: Gid, col: Gid) -> Result<bool, FillFault>
        ensures place { OnOk result (self.new ≡ with_place self.old row col) }
        ensures is_new { IfOk result (λ is_new. is_new ≡ not (has_place self.old row col)) }
        ensures row { OnOk result (is_some (local_index self.old.rows row) ≡ true) }
        ensures refused { IfErr result (IsFillFault self.old.rows row) }
        ensures unchanged { OnErr result (self.new ≡ self.old) }
    {
        let Some(lid) = self.rows.local_of(row) else {
            return Err(FillFault::NoSuchRow { row });
        };
        let is_new = insert_column(&mut self.columns[lid as usize], col)?;
        Ok(is_new)
    }

    /// The distinct columns of all rows, ascending. `Err` means that memory ran out.
    pub fn columns(&self) -> Result<Vec<Gid>, AllocError>
        ensures columns { IfOk result (λ columns. columns.items ≡ all_columns self.now) }
    {
        let packed = packed_rows(self.alloc, self.rows.len(), &self.columns)?;
        let columns = distinct_columns(self.alloc, packed.all())?;
        Ok(columns)
    }

    /// The structure with these places, and no others. Its column map lists first the columns that `domain` has, in its
    /// order, then the others by owner, then by index (`Tpetra::CrsGraph::fillComplete`). There is one owner for each of
    /// `columns`, of which there are fewer than 2^32. `Err` means that memory ran out, and the fill is given up.
    pub fn fill_complete(
        self,
        domain: &LocalMap,
        owners: &[u32],
    ) -> Result<Rc<CrsGraph>, AllocError>
        requires few { length (all_columns self) < 2 ^ 32 }
        requires each { length owners.now ≡ length (all_columns self) }
        ensures graph { IfOk result (λ graph. IsCompleted self.rows self.columns domain.now owners.now graph.value) }
        ensures places { IfOk result (λ graph. (row col : ℕ) → graph_has graph.value row col ≡ has_place self row col) }
    {
        let packed = packed_rows(self.alloc, self.rows.len(), &self.columns)?;
        let graph = CrsGraph::from_rows(self.alloc, self.rows, packed, domain, owners)?;
        Ok(graph)
    }
}

/// The rows, of which there are `count`, one after the other. `Err` means that memory ran out.
fn packed_rows(
    alloc: Global,
    count: u32,
    rows: &[SmallVec<Gid, 8>],
) -> Result<PackedRows, AllocError>
    ensures rows { IfOk result (λ packed. packed ≡ columns_of rows.now) }
{
    let mut packed = PackedRows::with_capacity(alloc, count)?;
    for row in rows {
        packed.push_row(row.as_slice())?;
    }
    Ok(packed)
}
