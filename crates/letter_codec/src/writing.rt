//! Writing of letters.
ghost use Rattle.std.specs.Prelude.{◌≡◌, ◌+◌, ◌*◌, ◌^◌, ◌<◌, ◌≤◌, ◌++◌, List, ℕ, length};
ghost use Rattle.letter_codec.specs.Letters.{bytes_of_word, head_bytes};
ghost use Rattle.letter_codec.specs.Writing.{splice, StartsWith};

use crate::Kind;
use scalar_laws::Scalar;

/// The length of a letter with so many words and numbers.
pub fn letter_len(words: u64, numbers: u64) -> u64
    requires { 9 + 8 * words + 32 * numbers < 2 ^ 64 }
    ensures { result ≡ 9 + 8 * words + 32 * numbers }
{
    9 + 8 * words + 32 * numbers
}

/// Writes the first 9 bytes of a letter.
#[tactic(auto, unfolding(crate::specs::Letters::head_bytes, crate::specs::Letters::bytes_of_word))]
fn put_head(out: &mut [u8], kind: Kind, words: u64)
    requires { 9 ≤ length out.old }
    ensures { out.new ≡ splice out.old 0 (head_bytes kind words) }
{
    out[0] = kind.byte();
    out[1..9].copy_from_slice(&words.to_le_bytes());
}

/// Writes the kind and the number of words, which are the first 9 bytes of a letter. All other bytes stay.
pub fn write_head(kind: Kind, words: u64, out: &mut [u8])
    requires { 9 ≤ length out.old }
    ensures bytes { out.new ≡ splice out.old 0 (head_bytes kind words) }
    ensures first { StartsWith (head_bytes kind words) out.new }
{
    put_head(out, kind, words);
}

/// Writes a word of a letter, counted from 0. All other bytes stay.
#[inline]
#[tactic(auto, unfolding(crate::specs::Letters::bytes_of_word))]
pub fn put_word(out: &mut [u8], at: u64, word: u64)
    requires { 17 + 8 * at ≤ length out.old }
    ensures bytes { out.new ≡ splice out.old (9 + 8 * at) (bytes_of_word word) }
    ensures next { (before : List ℕ) → length before ≡ 9 + 8 * at → StartsWith before out.old → StartsWith (before ++ bytes_of_word word) out.new }
{
    let place = 9 + 8 * at as usize;
    out[place..place + 8].copy_from_slice(&word.to_le_bytes());
}

/// Writes a number of a letter with so many words, counted from 0. All other bytes stay.
#[inline]
pub fn put_number<S: Scalar>(out: &mut [u8], words: u64, at: u64, number: S)
    requires { 41 + 8 * words + 32 * at ≤ length out.old }
    ensures bytes { out.new ≡ splice out.old (9 + 8 * words + 32 * at) (S.conversions.to_wire number) }
    ensures next { (before : List ℕ) → length before ≡ 9 + 8 * words + 32 * at → StartsWith before out.old → StartsWith (before ++ S.conversions.to_wire number) out.new }
{
    let place = 9 + 8 * words as usize + 32 * at as usize;
    out[place..place + 32].copy_from_slice(&number.to_wire());
}
