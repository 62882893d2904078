//! Cells put in order, with the numbers at one place added.
ghost use Rattle.std.specs.Prelude.{◌≡◌, true, IfOk, OnOk, [], ◌∷◌, ◌++◌};
ghost use Rattle.std.specs.List.Sorted.{IsPermutation};
ghost use Rattle.tables.specs.Tables.{AreInOrder};
ghost use Rattle.gathered_rows.specs.Sorting.{none_after, AreSorted, AreSums};
ghost use Rattle.gathered_rows.specs.Blocks.{cells_in, rows_before, AreAscending};

use scalar_laws::Scalar;
use std::alloc::{AllocError, Global};
use tables::Cell;

/// Sorts cells by row, then column. `Err` means that memory ran out.
fn sort_cells<S: Scalar>(cells: &mut Vec<Cell<S>>) -> Result<(), AllocError>
    ensures permutation { IsPermutation cells.old.items cells.new.items }
    ensures sorted { OnOk result (AreSorted cells.new.items) }
{
    cells.sort_by_key(|cell| (cell.row, cell.col))
}

/// Adds a cell to the last of the sums where both are of one place, or puts it at their end. `Err` means that memory
/// ran out.
fn add_cell<S: Scalar>(sums: &mut Vec<Cell<S>>, cell: Cell<S>) -> Result<(), AllocError>
    requires order { AreInOrder sums.old.items }
    requires last { none_after cell sums.old.items ≡ true }
    ensures { OnOk result (AreSums S.semiring (sums.old.items ++ cell ∷ []) sums.new.items) }
{
    let Some(last) = sums.last_mut() else {
        sums.push(cell)?;
        return Ok(());
    };
    if last.row == cell.row && last.col == cell.col {
        last.value = last.value.add(cell.value);
        return Ok(());
    }
    sums.push(cell)?;
    Ok(())
}

/// Adds sorted cells, of which none stands before a sum. `Err` means that memory ran out.
fn add_sorted<S: Scalar>(sums: &mut Vec<Cell<S>>, sorted: &[Cell<S>]) -> Result<(), AllocError>
    requires order { AreInOrder sums.old.items }
    requires ascending { AreSorted (sums.old.items ++ sorted.now) }
    ensures { OnOk result (AreSums S.semiring (sums.old.items ++ sorted.now) sums.new.items) }
{
    for cell in sorted {
        add_cell(sums, *cell)?;
    }
    Ok(())
}

/// Adds the cells of a block, whose rows are all after those of the sums. `Err` means that memory ran out.
fn add_block<S: Scalar>(sums: &mut Vec<Cell<S>>, mut block: Vec<Cell<S>>) -> Result<(), AllocError>
    requires order { AreInOrder sums.old.items }
    requires later { rows_before sums.old.items block.items ≡ true }
    ensures { OnOk result (AreSums S.semiring (sums.old.items ++ block.items) sums.new.items) }
{
    sort_cells(&mut block)?;
    sums.reserve(block.len())?;
    add_sorted(sums, &block)
}

/// The sums of the cells of blocks whose rows ascend. Each block is sorted and added up, and then dropped. `Err` means
/// that memory ran out.
pub fn sums_of<S: Scalar>(
    alloc: Global,
    blocks: Vec<Vec<Cell<S>>>,
) -> Result<Vec<Cell<S>>, AllocError>
    requires { AreAscending blocks.items }
    ensures { IfOk result (λ sums. AreSums S.semiring (cells_in blocks.items) sums.items) }
{
    let mut sums = Vec::new(alloc);
    for block in blocks {
        add_block(&mut sums, block)?;
    }
    Ok(sums)
}
