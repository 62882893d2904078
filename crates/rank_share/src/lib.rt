//! What each rank is given of the files of a job: its own share, and nothing else.
//!
//! A rank is given the cells of a vector or of parts that its list of the map has, as lines in ascending order of index,
//! and the places of a matrix's entries that are dealt to it, entry k of the file to rank k mod P. Rows of lines are
//! global indices, counted from 0. `share` in specs/ says exactly what a share is; `laws` says what it stands for: the
//! rank's piece of each given value.
//!
//! The crate stands on `map_core`, `mm_text` and `model_defs`. What makes the values of a rank stands on it.
//!
//! ```text
//! let share = share_of(alloc, &job, &files, 0)?;
//! share.cells.as_slice()[0].as_slice();    // the rank's cells of the first vector
//! ```
#![tactic(auto)]

mod cells;
mod files;
mod indices;
pub mod laws;
mod own_maps;
mod places;
mod share;
mod sharing;
#[cfg(test)]
mod tests;
mod values;

pub use own_maps::own_map;
pub use share::Share;
pub use sharing::share_of;
