//! The phases of jobs, by the values for which they are.
//!
//! In the phases of a value the ranks make the plans of its transfers, send its numbers, and, where it is a matrix with a structure
//! of its own, make the plans of its structure (the importer and the exporter of a `Tpetra::CrsGraph`). The crate says which plans these
//! are, that the numbers of two transfers of a value are sent in turn, and that the phases go value by value. A copy, an apply,
//! the matrices of files and those that statements make are told apart, with what they are made of.
//!
//! It has definitions and laws alone, and no code that runs. It stands on `model_defs` and `rank_stages`; the ranks of a job, and
//! what reads jobs, stand on it.
#![tactic(auto)]

pub mod laws;
