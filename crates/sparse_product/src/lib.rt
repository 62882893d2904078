//! Products and sums of sparse matrices on one rank (`TpetraExt::MatrixMatrix`).
//!
//! A row of a product is gathered in one dense row over all columns of the result, together with a list of what this row
//! reached; only that is cleared before the next row. So the cost is linear in the multiplications, whatever the number
//! of columns. A place of a product is there where a column with both places is, also where the sum is zero.
//!
//! A sum is made row after row; it has the places of both matrices.
//!
//! The crate stands on `crs_matrix` and on the definitions of `model_defs`; ranks stand on it.
#![tactic(auto)]

mod add;
mod dense_row;
mod gather;
mod linked_rows;
mod product;
#[cfg(test)]
mod tests;

pub use add::local_add;
pub use product::local_product;
