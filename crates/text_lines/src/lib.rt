//! Lines, words and numbers of texts that people write: one record a line, comments and blank lines between.
//!
//! A line ends at a newline, or with the text. Its words are the longest runs of bytes that are neither spaces, tabs nor
//! one carriage return at its end. A line without words is skipped, and so is a comment, which begins with a mark of the
//! text's own. Contracts see a text as a list of bytes, and cite the definitions on whole lists in `specs/Lines` and
//! `specs/Numerals`.
//!
//! ```text
//! let mut rest = bytes;
//! let mut first = 1;
//! while let Some(kept) = next_kept(b'#', rest, first, true) {
//!     let words = three_words(without_return(kept.line));
//!     rest = kept.rest;
//!     first = kept.number + 1;
//! }
//! ```
//!
//! The crate stands on std alone. The text of schedules stands on it.
#![tactic(auto)]

mod lines;
mod numerals;
#[cfg(test)]
mod tests;
mod words;

pub use lines::{Kept, next_kept, next_line};
pub use numerals::digits;
pub use words::{
    four_words, is_skipped, next_word, one_word, three_words, two_words, without_return,
};
