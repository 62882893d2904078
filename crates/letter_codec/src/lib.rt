//! Letters between ranks as bytes: lengths, writing, and reading without a copy.
//!
//! A letter has a kind, words of 64 bits and numbers of 32 bytes; its bytes are this project's own. Contracts see it as
//! its kind, the list of its words and the bytes of its numbers, from which each kind of number is read. What was
//! written is read as its parts, and bytes are read exactly where they are a letter.
//!
//! ```text
//! let mut bytes = [0; 49];
//! write_head(Kind::Nums, 1, &mut bytes);
//! put_word(&mut bytes, 0, 7);
//! put_number(&mut bytes, 1, 0, Weighed::one());
//! let letter = read_letter(&bytes)?;
//! ```
//!
//! It stands on `scalar_laws`, whose numbers it writes, and on `outside`, which says when letters are alike. The
//! transfers between ranks stand on it.
#![tactic(auto)]

mod kind;
pub mod laws;
mod letter;
mod reading;
mod rows;
#[cfg(test)]
mod tests;
mod words;
mod writing;

pub use kind::Kind;
pub use letter::{Letter, entry_count, number, word, word_count};
pub use reading::read_letter;
pub use writing::{letter_len, put_number, put_word, write_head};
