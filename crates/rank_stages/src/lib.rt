//! Where a rank of any valid job stands: what it keeps, by the letters that were given to it.
//!
//! A rank goes through the phases of its job. It learns the owners of indices from directories (`Tpetra::Directory`), makes
//! plans (`Tpetra::Import`, `Tpetra::Export`), sends and gathers numbers by them, and makes its pieces of the values. What
//! contracts see of what it keeps is a `View`, and `IsJobStage` says which view a rank has after which letters
//! (`specs/JobStages`). The laws are for every job, every kind of number and any bytes that a wire may give.
//!
//! The crate has definitions and laws alone, and no code that runs. It stands on `model_defs`, `rank_phases` and `job_phases`;
//! the worker of a rank stands on it.
#![tactic(auto)]

pub mod laws;
