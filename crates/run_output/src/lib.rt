//! The result of a run on its way to a sink: the printed values as Matrix Market text, the traffic listing, and for the job
//! that is made of a size a summary in their place.
//!
//! [`pages_of`] takes all memory that the writing needs; [`write_pages`] and [`write_traffic`] take none, so that nothing
//! is written where memory does not suffice for all of it. Contracts cite the texts of `model_defs`, `sheet_text` and
//! `traffic_text`, and say that a sink took them whole, or a prefix where a write failed.
//!
//! ```text
//! let pages = pages_of(alloc, sheets)?;
//! write_pages(&mut out, &pages)?;
//! write_traffic(&mut out, &phases, &letters)?;
//! ```
//!
//! The crate stands on `model_defs`, `mm_text`, `letter_codec`, `outside` and, for sums, `scalar_laws`. The program `tpx` stands on it.
#![tactic(auto)]

mod held;
mod lines;
mod listing;
mod page;
mod summary;
#[cfg(test)]
mod tests;

pub use listing::write_traffic;
pub use page::{Page, pages_of, write_pages};
pub use summary::{Summary, summary_of, write_summary};
