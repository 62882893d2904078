//! The share itself.

use model_defs::{Line, ListOf};

/// What a rank is given of the files of a job. `cells` has for each vector, then for each parts, the rank's cells as
/// lines, ascending by index, then column; a cell is the sum of its lines, or zero where it has none. `places` has for
/// each matrix the places of the entries that are dealt to the rank, in file order, an entry's own place before its
/// mirrored one. Rows are global indices, and columns too; both count from 0.
#[derive(Debug, Drop)]
pub struct Share {
    pub cells: ListOf<ListOf<Line>>,
    pub places: ListOf<ListOf<Line>>,
}
