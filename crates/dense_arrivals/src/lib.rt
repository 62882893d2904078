//! Vectors and parts between the ranks of a job, however they are made: laws alone. What `rank_transfers` packs and absorbs by a plan
//! that serves a job's transfer are the job's letters, and what is begun of a rank's own rows is what the rank of the job brings to
//! itself. And the apply of a matrix at one rank, stage by stage.
//!
//! It stands on `rank_transfers`, `matrix_arrivals` and `rank_matrices`, and on the definitions of `model_defs` and `value_phases`. The
//! ranks of a job stand on it.
#![tactic(auto)]

pub mod laws;
