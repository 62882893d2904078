//! How many entries the letters of a job have: laws alone. The letters of phases that make plans have their entries as words; those
//! that send numbers have an entry for each row, whose words are the row alone, or, of a matrix, the row with its columns.
//!
//! It stands on `dense_arrivals` and `matrix_arrivals`. What lists the letters of a run stands on it.
#![tactic(auto)]

pub mod laws;
