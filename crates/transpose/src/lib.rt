//! The transpose of the sparse matrix of one rank, as `Tpetra::RowMatrixTransposer::createTransposeLocal` makes it.
//!
//! A place at row i and column j becomes one at row j and column i, with the same number. The rows of the result are the
//! columns that the rank's rows name, which other ranks may name too; so it is a matrix under construction, that goes to
//! the owners of these rows. Contracts speak of tables by global row and column.
//!
//! ```text
//! let fill = local_transpose(alloc, &a)?;
//! ```
//!
//! It stands on `crs_matrix` and on the definitions of `model_defs`.
#![tactic(auto)]

#[cfg(test)]
mod tests;
mod turned;

pub use turned::local_transpose;
