//! What a sparse matrix or vector is: for each row and column a number, or no place.
//!
//! A table gives the number at a place, or nothing where the place is absent. So the structure is part of the value: a
//! place with the number zero differs from an absent one, and two matrices with the same structure and numbers are
//! equal. A vector is a table with its index as the row and the number of its column as the column.
//!
//! Files, containers and letters hold lists of `Cell`s. The definitions say which table a list of cells is: `table_of`
//! adds the numbers that are given for one place, as in an assembled coordinate file, and `found` looks a place up in a
//! list with no place twice. `cells_of` lists the cells of a table by row and then column.
//!
//! The definitions stand in `specs/`: sums of any kind in `Sums`, tables and their cells in `Tables`, lists of indices
//! and what is dealt to ranks in `Indices`. `Laws` has what holds of them for every commutative semiring of
//! `scalar_laws`, and the module `laws` proves it. Every crate that speaks of values stands on these.
#![tactic(auto)]

pub mod laws;

/// A number at a place of a vector or a matrix. `row` and `col` are global indices, counted from 0.
#[derive(Clone, Copy, Debug, Drop, PartialEq, Eq)]
pub struct Cell<S> {
    pub row: u64,
    pub col: u64,
    pub value: S,
}
