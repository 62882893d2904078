//! What files and jobs mean: the definitions that span several crates, over any kind of number.
//!
//! A file's entries stand for cells, its cells for a matrix, and a matrix for the text that shows it. A matrix is seen
//! as a table: the number at each place, if that place is there. A vector is a table too, with its index as the row.
//!
//! A job ([`Job`]) has maps, given values and statements. Its values on the global data are `eval` of `specs/Eval`. Ranks
//! compute them phase by phase: `specs/Phases` says which phases a job has, `specs/Letters` which letters, and
//! `specs/Machine` what each letter holds and what a rank makes of the letters given to it. The module `laws` has what is
//! proved of these definitions, above all that the ranks' pieces together are `eval`, whatever the order of the letters.
//!
//! The crate stands on `map_core`, `combine_modes`, `letter_codec`, `schedule` and `mm_text`; `gathered_rows` and `tpx`
//! stand on it.
#![tactic(auto)]

mod job;
pub mod laws;
mod lists;
mod phase;
mod shape;
mod shape_list;
mod sheets;
#[cfg(test)]
mod tests;

pub use job::{Job, MapForm, MapSpec, MatrixSpec, Origin, PartsSpec, Step, VectorSpec};
pub use lists::{ListOf, Text};
pub use mm_text::{FileData, Form, Line, Mirror, Shown};
pub use phase::{About, Phase, Plan, Transfer, Way};
pub use shape::{Shape, Sort};
pub use shape_list::shapes;
pub use sheets::{LetterLine, PhaseLine, Sheet, SheetKind};
pub use tables::Cell;
