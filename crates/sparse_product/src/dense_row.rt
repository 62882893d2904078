//! One row that is gathered.
ghost use Rattle.std.specs.Prelude.{◌≡◌, ◌<◌, ℕ, length, None, Some, is_some, true, replicate, slice_set, OnOk, IfOk};
ghost use Rattle.std.specs.List.{slice_index_or};
ghost use Rattle.tables.specs.Indices.{stands, AreBelow};
ghost use Rattle.tables.specs.Sums.{both_or_one};
ghost use Rattle.crs_graph.specs.Ascending.{IsAscending};
ghost use Rattle.crs_matrix.specs.Rows.{local_table};
ghost use Rattle.sparse_product.specs.Dense.{number_under, IsReached};
ghost use Rattle.sparse_product.specs.Rows.{with_row};

use combine_modes::Mode;
use crs_matrix::MatrixFill;
use distributor::DistTarget;
use map_core::Gid;
use scalar_laws::Scalar;
use std::alloc::{AllocError, Global};
use std::marker::Model;

/// A number, or none, for each of some columns, with the list of those that have one. Contracts see the numbers.
#[derive(Drop)]
pub(crate) struct DenseRow<S> {
    numbers: Vec<Option<S>>,
    reached: Vec<usize>,
}

impl<S> Model for DenseRow<S> {
    ghost use Rattle.std.specs.Prelude.{List, Option};
    ghost use Rattle.sparse_product.specs.Dense.{IsReached};

    ghost Value = { List (Option S) };

    ghost view = { λ a. a.numbers.items };

    ghost invariant = { λ a. IsReached a.reached.items a.numbers.items };
}

impl<S: Scalar> DenseRow<S> {
    /// No numbers, for so many columns. `Err` means that memory ran out.
    pub(crate) fn new(alloc: Global, columns: usize) -> Result<DenseRow<S>, AllocError>
        ensures empty { IfOk result (λ row. row ≡ replicate columns None) }
    {
        let mut numbers = Vec::new(alloc);
        numbers.resize(columns, None)?;
        Ok(DenseRow {
            numbers,
            reached: Vec::new(alloc),
        })
    }

    /// Adds a number at a column, which is given by its place. `Err` means that memory ran out.
    #[inline]
    pub(crate) fn add(&mut self, at: usize, number: S) -> Result<(), AllocError>
        requires known { at < length self.old }
        ensures sum { OnOk result (self.new ≡ slice_set self.old at (both_or_one S.semiring.plus (slice_index_or self.old at None) (Some number))) }
    {
        match self.numbers[at] {
            Some(sum) => {
                self.numbers[at] = Some(sum.add(number));
                Ok(())
            }
            None => {
                self.reached.push(at)?;
                self.numbers[at] = Some(number);
                Ok(())
            }
        }
    }

    /// Adds the row to a row of a matrix, with these columns, which ascend, and leaves no number. `Err` means that memory
    /// ran out.
    pub(crate) fn spill(
        &mut self,
        columns: &[Gid],
        target: &mut MatrixFill<S>,
        lid: u32,
    ) -> Result<(), AllocError>
        requires each { length columns.now ≡ length self.old }
        requires ascend { IsAscending columns.now }
        requires row { lid < length target.old.rows }
        ensures row { OnOk result (local_table target.new ≡ with_row S.semiring (local_table target.old) lid (number_under columns.now self.old)) }
        ensures rows { target.new.rows ≡ target.old.rows }
        ensures empty { OnOk result (self.new ≡ replicate (length self.old) None) }
    {
        self.reached.sort_unstable();
        take_numbers(&self.reached, &mut self.numbers, columns, target, lid)?;
        self.reached.clear();
        Ok(())
    }
}

/// Adds the numbers at these places, which are all that there are, to a row of a matrix, and leaves none.
fn take_numbers<S: Scalar>(
    reached: &[usize],
    numbers: &mut Vec<Option<S>>,
    columns: &[Gid],
    target: &mut MatrixFill<S>,
    lid: u32,
) -> Result<(), AllocError>
    requires reached { IsReached reached.now numbers.old.items }
    requires each { length columns.now ≡ length numbers.old.items }
    requires ascend { IsAscending columns.now }
    requires row { lid < length target.old.rows }
    ensures row { OnOk result (local_table target.new ≡ with_row S.semiring (local_table target.old) lid (number_under columns.now numbers.old.items)) }
    ensures rows { target.new.rows ≡ target.old.rows }
    ensures empty { OnOk result (numbers.new.items ≡ replicate (length numbers.old.items) None) }
    ensures within { IsReached reached.now numbers.new.items }
{
    for place in reached {
        let at = *place;
        let Some(number) = numbers[at] else {
            continue;
        };
        target.combine(lid, columns[at], number, Mode::Add)?;
        numbers[at] = None;
    }
    Ok(())
}
