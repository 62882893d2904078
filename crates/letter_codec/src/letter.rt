//! The parts of a letter.
ghost use Rattle.std.specs.Prelude.{◌≡◌, ◌+◌, ◌*◌, ◌<◌, ◌≤◌, length, slice_index};
ghost use Rattle.letter_codec.specs.Parts.{words_of, number_at};

use crate::Kind;
use crate::rows::row_count;
use crate::words::word_at;
use scalar_laws::Scalar;

/// A letter that was read: its kind, the bytes of its words, 8 each, and the bytes of its numbers, 32 each. They are
/// borrowed from the bytes that were read.
#[derive(Clone, Copy, Drop)]
pub struct Letter<'a> {
    pub kind: Kind,
    pub words: &'a [u8],
    pub numbers: &'a [u8],
}

ghost use Rattle.letter_codec.specs.Parts.{AreParts, IsEntryCount};

/// How many words a letter has.
#[inline]
pub fn word_count(letter: &Letter<'_>) -> u64
    ensures { result ≡ length (words_of letter.now.words.now) }
{
    (letter.words.len() / 8) as u64
}

/// How many entries the words of a letter are: each word is one, but in `Rows`, where a row with the number of its
/// places and their columns is one.
pub fn entry_count(letter: &Letter<'_>) -> u64
    requires { AreParts letter.now }
    ensures { IsEntryCount letter.now.kind (words_of letter.now.words.now) result }
{
    match letter.kind {
        Kind::Rows => row_count(letter.words),
        _ => word_count(letter),
    }
}

/// A word of a letter, counted from 0.
#[inline]
pub fn word(letter: &Letter<'_>, at: u64) -> u64
    requires { at < length (words_of letter.now.words.now) }
    ensures { result ≡ slice_index (words_of letter.now.words.now) at }
{
    word_at(letter.words, 8 * at as usize)
}

/// A number of a letter, counted from 0, as this kind of number.
#[inline]
pub fn number<S: Scalar>(letter: &Letter<'_>, at: u64) -> S
    requires { 32 * at + 32 ≤ length letter.now.numbers.now }
    ensures { result ≡ number_at S.conversions letter.now.numbers.now at }
{
    let place = 32 * at as usize;
    let mut bytes = [0; 32];
    bytes.copy_from_slice(&letter.numbers[place..place + 32]);
    S::of_wire(bytes)
}
