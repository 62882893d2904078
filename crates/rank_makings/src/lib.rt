//! Values of a job that a rank makes with letters.
//!
//! A value whose numbers come from other ranks is begun with what stays on the rank (`begin_coming`); letters to others are packed,
//! and those that come are absorbed (`Coming`), each when it comes. Cells of vectors and of parts come for `move`, `import`, `export`,
//! `spread` and `apply`, whose sums go to their owners; rows of matrices come for a matrix that is assembled of its entries or of a
//! split one, for one that is moved or transposed, and for the second operand of a product or of a sum. In the end the value is made of
//! what came (`finished_cells`, `filled_rows`, `completed_matrix`).
//!
//! Contracts say that letters, what is gathered and what is made are those of the job's machine (`model_defs`), by the letters that
//! were given to this rank, whatever numbers these had.
//!
//! It stands on `rank_pieces`, `plan_phases`, `rank_transfers`, `matrix_moves`, the operations of `transpose` and
//! `sparse_product`, and the laws of `dense_arrivals` and `matrix_arrivals`. The worker of a rank stands on it.
#![tactic(auto)]

mod applying;
mod assembling;
mod coming;
mod completing;
mod copied;
mod copies;
mod filling;
mod gathering;
pub mod laws;
mod making;
mod operands;

pub use coming::{Came, CellSource, CellsComing, Coming, RowSource, RowsComing};
pub use filling::{filled_rows, has_own_rows, own_rows};
pub use making::{begin_coming, completed_matrix, finished_cells};
