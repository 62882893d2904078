//! The rows of a file's matrix, gathered by the ranks that own them.
//!
//! The entries of a Matrix Market file are dealt to ranks by their number. Each rank turns its entries into cells and
//! brings them to the ranks that own their rows in the contiguous uniform map of the rows (`Tpetra::Map`). An owner
//! sorts its cells by row, then column, and adds those of one place, as `fillComplete` of `Tpetra::CrsMatrix` does. Since
//! the rows of the owners ascend, their cells, one rank after the other, are the cells of the whole matrix in order.
//!
//! The crate stands on `scalar_laws`, `map_core`, `tables`, `mm_text` and `model_defs`; the command `tpx show` stands
//! on it.
#![tactic(auto)]

mod dealing;
mod sums;
#[cfg(test)]
mod tests;

ghost use Rattle.std.specs.Prelude.{◌≡◌, ◌≤◌, IfOk};
ghost use Rattle.tables.specs.Tables.{cells_of};
ghost use Rattle.mm_text.specs.Reading.{file_of};
ghost use Rattle.model_defs.specs.FileMatrix.{file_matrix};
ghost use Rattle.gathered_rows.specs.Conditions.{CanBeGathered};

use crate::dealing::{bring_dealt, new_blocks};
use model_defs::{Cell, FileData, Mirror};
use scalar_laws::Scalar;
use std::alloc::{AllocError, Global};
pub use sums::sums_of;

/// The cells of a file's matrix by row, then column, as `ranks` ranks gather them: entry k, counted from 0 in file
/// order, is dealt to rank k mod `ranks`, both of its places together; each row is brought to its owner in the
/// contiguous uniform map of the rows (`Tpetra::Map`); and what names one place is added there.
///
/// There are 1 to 32 ranks. The file is sound, as one that `read_matrix` of `mm_text` answers, with at most 2^40 rows, and
/// each value of its places, mirrored ones too, has a number of the kind. Rows and columns are global indices, counted
/// from 0. A place is there where an entry names it, also where its sum is zero. `Err` means that memory ran out. The
/// file stays as it is. Its matrix is that of the NIST Matrix Market exchange formats, "coordinate".
pub fn gathered_cells<S: Scalar>(
    alloc: Global,
    ranks: u32,
    file: &FileData,
) -> Result<Vec<Cell<S>>, AllocError>
    requires some_rank { 1 ≤ ranks }
    requires ranks_limit { ranks ≤ 32 }
    requires file { CanBeGathered S.conversions (file_of file.now) }
    ensures cells { let matrix = file_matrix S.semiring S.conversions file.now.mirror file.now.lines.items in
        IfOk result (λ cells. cells.items ≡ cells_of file.now.rows file.now.cols matrix) }
{
    let mut blocks = new_blocks(alloc, ranks)?;
    for rank in 0..ranks {
        bring_dealt(&mut blocks, ranks, rank, file)?;
    }
    sums_of(alloc, blocks)
}
