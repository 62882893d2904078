//! Rows of matrices between the ranks of a job: laws alone. What `matrix_moves` packs and absorbs by a plan whose lists are those
//! of a job's transfer are the job's letters, and what stays on a rank is what the rank of the job brings to itself.
//!
//! They are stated for any plan and any two lists with the indices of the job, in whatever order: of imports and exports between
//! maps, of column plans and of row plans, forward and in reverse.
//!
//! It stands on `matrix_moves`, and on the definitions of `model_defs` and `rank_stages`. The ranks of a job stand on it.
#![tactic(auto)]

pub mod laws;
