//! The combine modes: what a cell has after values came for it, by the names of `Tpetra::CombineMode`.
//!
//! Where several ranks send a value for one cell, the mode says what becomes of them. A cell of a vector is always
//! there, a place of a matrix may be absent. `Mode` has the five modes, `vector_cell` takes one more value into the
//! cell of a vector, `place` into a place of a matrix.
//!
//! The definition `combine` in `specs/Modes` is a table for all values that come for a cell at once, with one of them
//! picked; it depends on their order by the pick alone. The module `laws` proves that taking one value after the other
//! gives this table, and which value is then the picked one.
//!
//! The crate stands on `scalar_laws` and `tables`; what moves cells between ranks stands on it.
//!
//! ```text
//! let cell = vector_cell(cell, arrived, Mode::Add);
//! let stored = place(stored, arrived, Mode::Insert);
//! ```
#![tactic(auto)]

pub mod laws;
mod mode;
#[cfg(test)]
mod tests;

pub use mode::{Mode, place, vector_cell};
