//! The transfers and the phases of a job, as lists.
//!
//! Ranks make a value by transfers: numbers go by a plan from the owners of indices to those that want them, or the other
//! way. The phases of a job are what all ranks do together: they register maps, ask for owners and are told them, share
//! plans and send numbers. `model_defs/specs/Transfers` and `model_defs/specs/Phases` say which a job has; here they are
//! computed, each in the order of the definition.
//!
//! ```text
//! let phases = phases(alloc, &job)?;
//! phases.as_slice()[0].kind;                // Kind::Reg: the first map with a directory is registered
//! let lines = phase_lines(alloc, &job)?;    // what a listing of the traffic says of each
//! ```
//!
//! The crate stands on `model_defs`. The ranks of a job, and the listing of its traffic, stand on it.
#![tactic(auto)]

mod all_phases;
mod by_value;
mod lines;
mod maker;
mod plans;
#[cfg(test)]
mod tests;
mod walk;

pub use all_phases::phases;
pub use by_value::transfers;
pub use lines::phase_lines;
pub use maker::{MadeBy, maker_at};
