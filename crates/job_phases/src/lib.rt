//! The letters of a job, seen as a rank sees them that goes through its phases.
//!
//! A job of `model_defs` is a protocol. Here it is shown to go phase by phase (`rank_phases`), for every kind of number, and
//! which letters a rank posts and awaits in each phase. The crate has laws alone, and no code that runs. It stands on
//! `model_defs` and `rank_phases`; the ranks of a job stand on it.
#![tactic(auto)]

pub mod laws;
