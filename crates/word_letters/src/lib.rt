//! Letters of words alone, as bytes: laid out in a block of a pool, and read.
//!
//! In the phases in which plans are made ranks send each other lists of words, and no numbers. Here such a list becomes a
//! letter of `letter_codec` in a block of `byte_pool`, and the letter becomes a list again. What any letter has of entries
//! is counted here too. Contracts see letters as `letter_codec` has them.
//!
//! ```text
//! let lease = lease_words(Kind::Want, &words, &mut pool)?;
//! let again = words_of_letter(alloc, pool.bytes(&lease))?;
//! ```
//!
//! The crate stands on `letter_codec`, `byte_pool` and `rank_phases`. The worker of a rank stands on it.
#![tactic(auto)]

mod reading;
mod writing;

pub use reading::{entries_of_letter, words_of_letter};
pub use writing::lease_words;
