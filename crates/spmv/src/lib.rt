//! Products of the sparse matrix of one rank with vectors, as `Tpetra::CrsMatrix::localApply` computes them.
//!
//! Both products walk the compressed rows and take no memory. Contracts speak of local indices: of tables by row and column
//! of the matrix, and by index and column of the vectors. What they add is the textbook's sum of products, which stands in
//! `model_defs`.
//!
//! ```text
//! local_apply(&a, &x, &mut y);              // y += A x
//! local_apply_transposed(&a, &y, &mut x);   // x += A^T y
//! ```
//!
//! It stands on `crs_matrix` and `multivector`.
#![tactic(auto)]

mod apply;
#[cfg(test)]
mod tests;
mod transposed;

pub use apply::local_apply;
pub use transposed::local_apply_transposed;
