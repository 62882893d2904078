//! The rows of a matrix with the places of their columns in a list.
ghost use Rattle.std.specs.Prelude.{◌≡◌, ◌<◌, ◌++◌, ◌∷◌, [], ℕ, Some, true, length, map, slice_get, slice_index, OnOk, IfOk};
ghost use Rattle.std.specs.List.{slice_index_or};
ghost use Rattle.tables.specs.Indices.{stands};
ghost use Rattle.crs_graph.specs.Ascending.{IsAscending};
ghost use Rattle.crs_matrix.specs.Rows.{all_columns, IsRowCells};
ghost use Rattle.sparse_product.specs.Rows.{linked_cells, AreLinks};

use crs_matrix::MatrixFill;
use distributor::DistSource;
use map_core::Gid;
use scalar_laws::Scalar;
use std::alloc::{AllocError, Global};
use std::marker::Model;

/// Rows in one list, each with pairs of the place of a column and a number. Contracts see the list of the rows.
#[derive(Drop)]
pub(crate) struct LinkedRows<S> {
    offsets: Vec<usize>,
    links: Vec<(usize, S)>,
}

impl<S> Model for LinkedRows<S> {
    ghost use Rattle.std.specs.Prelude.{ℕ, List};

    ghost Value = { List (List (ℕ × S)) };

    ghost use Rattle.crs_graph.specs.Packed.{slices, IsPacked};

    ghost view = { λ a. slices a.offsets.items a.links.items };

    ghost invariant = { λ a. IsPacked a.offsets.items a.links.items };
}

impl<S: Scalar> LinkedRows<S> {
    /// No rows. `Err` means that memory ran out.
    pub(crate) fn new(alloc: Global) -> Result<LinkedRows<S>, AllocError>
        ensures empty { IfOk result (λ rows. rows ≡ []) }
    {
        let mut offsets = Vec::new(alloc);
        offsets.push(0)?;
        Ok(LinkedRows {
            offsets,
            links: Vec::new(alloc),
        })
    }

    /// Puts a row at the end. `Err` means that memory ran out; then nothing has changed.
    fn push_row(&mut self, row: &[(usize, S)]) -> Result<(), AllocError>
        ensures row { OnOk result (self.new ≡ self.old ++ row.now ∷ []) }
    {
        let before = self.links.len();
        self.links.extend_from_slice(row)?;
        if self.offsets.push(self.links.len()).is_err() {
            self.links.truncate(before);
            return Err(AllocError);
        }
        Ok(())
    }

    /// How many links a row has. Rows are counted from 0.
    #[inline]
    pub(crate) fn count(&self, k: u32) -> usize
        requires known { k < length self.now }
        ensures count { result ≡ length (slice_index_or self.now k []) }
    {
        self.offsets[k as usize + 1] - self.offsets[k as usize]
    }

    /// Link `at` of a row, counted from 0.
    #[inline]
    pub(crate) fn link(&self, k: u32, at: usize) -> (usize, S)
        requires known { k < length self.now }
        requires within { at < length (slice_index_or self.now k []) }
        ensures link { slice_get (slice_index_or self.now k []) at ≡ Some result }
    {
        self.links[self.offsets[k as usize] + at]
    }
}

/// The place of a column in a list of columns that ascends and has it.
#[inline]
fn place_of(columns: &[Gid], col: Gid) -> usize
    requires ascend { IsAscending columns.now }
    requires there { stands col columns.now ≡ true }
    ensures within { result < length columns.now }
    ensures column { slice_index columns.now result ≡ col }
{
    let near = col.wrapping_sub(columns[0]) as usize;
    if near < columns.len() && columns[near] == col {
        return near;
    }
    match columns.binary_search(&col) {
        Ok(at) => at,
        Err(_) => unreachable!(),
    }
}

/// The rows of a matrix, with the places of their columns in the list of all its columns. `Err` means that memory ran out.
pub(crate) fn link_rows<S: Scalar>(
    alloc: Global,
    b: &MatrixFill<S>,
    columns: &[Gid],
) -> Result<LinkedRows<S>, AllocError>
    requires columns { columns.now ≡ all_columns b.now }
    ensures rows { IfOk result (λ rows. map (linked_cells columns.now) rows ≡ b.now.cells) }
    ensures within { IfOk result (λ rows. (k : ℕ) → AreLinks (length columns.now) (slice_index_or rows k [])) }
{
    let mut rows = LinkedRows::new(alloc)?;
    let mut row = Vec::new(alloc);
    for k in 0..b.row_map().len() {
        row.clear();
        link_row(&mut row, b, k, columns)?;
        rows.push_row(&row)?;
    }
    Ok(rows)
}

/// The links of one row, behind none. `Err` means that memory ran out.
fn link_row<S: Scalar>(
    row: &mut Vec<(usize, S)>,
    b: &MatrixFill<S>,
    k: u32,
    columns: &[Gid],
) -> Result<(), AllocError>
    requires empty { row.old.items ≡ [] }
    requires is_matrix { IsRowCells b.now }
    requires known { k < length b.now.rows }
    requires columns { columns.now ≡ all_columns b.now }
    ensures cells { OnOk result (linked_cells columns.now row.new.items ≡ slice_index_or b.now.cells k []) }
    ensures within { OnOk result (AreLinks (length columns.now) row.new.items) }
{
    for at in 0..b.count(k) {
        let (col, number) = b.cell(k, at);
        row.push((place_of(columns, col), number))?;
    }
    Ok(())
}
