//! What one rank does in a transfer that sends the numbers of vectors: a vector is begun with the rank's own rows, the letters
//! to other ranks are packed, the letters that come are absorbed, and in the end the vector is there. It is the way of
//! `Tpetra::MultiVector::doImport` and `doExport`, where each letter comes when it comes.
//!
//! Contracts see vectors by global index and letters as `model_defs` has them: their rows are global indices, and their numbers
//! are those of a table at the places of these rows. Of a letter that comes only its rows are known; its numbers may be any.
//!
//! ```text
//! let mut arriving = Arriving::begin(plan, &x, zeros, Mode::Replace)?;
//! for q in 0..ranks {
//!     if arriving.has_letter_to(q) {
//!         send(q, arriving.pack(&x, q, &mut pool)?);
//!     }
//! }
//! arriving.absorb(from, &bytes)?;         // each letter that comes
//! let y = arriving.into_vector();
//! ```
//!
//! It stands on `vector_moves`, and on the definitions of `model_defs` and `rank_stages`. The ranks of a job stand on it.
#![tactic(auto)]

mod arriving;
pub mod laws;
mod room;

pub use arriving::Arriving;
