//! Letters whose numbers are changed.
ghost use Rattle.std.specs.Prelude.{◌≡◌, ◌++◌, length, min, OnOk};
ghost use Rattle.outside.specs.Letters.{index_end};
ghost use Rattle.outside.specs.TwistWire.{all_moved, is_data, moved_word, twisted};

use std::alloc::AllocError;

/// Whether the letter is of the kind DATA.
fn is_data(letter: &[u8]) -> bool
    ensures { result ≡ is_data letter.now }
{
    match letter {
        [kind, ..] => *kind == 22,
        [] => false,
    }
}

/// How many bytes stand before the numbers: the letter's index part, or all of the letter where that is longer.
fn index_len(letter: &[u8]) -> usize
    ensures { result ≡ min (index_end letter.now) (length letter.now) }
{
    if letter.len() < 9 {
        return letter.len();
    }
    let mut word = [0u8; 8];
    word.copy_from_slice(&letter[1..9]);
    let words = u64::from_le_bytes(word);
    let most = (letter.len() - 9) as u64;
    if words > most / 8 {
        letter.len()
    } else {
        9 + 8 * words as usize
    }
}

/// The word with `by` added modulo 2^128.
fn moved_word(by: u64, word: [u8; 16]) -> [u8; 16]
    ensures { result ≡ moved_word by word }
{
    u128::from_le_bytes(word)
        .wrapping_add(u128::from(by))
        .to_le_bytes()
}

/// Appends the word of 16 bytes with `by` added.
fn push_moved(by: u64, bytes: &[u8], into: &mut Vec<u8>) -> Result<(), AllocError>
    requires { length bytes.now ≡ 16 }
    ensures { OnOk result (into.new.items ≡ into.old.items ++ moved_word by bytes.now) }
{
    let mut word = [0u8; 16];
    word.copy_from_slice(bytes);
    into.extend_from_slice(&moved_word(by, word))
}

/// Appends the bytes with `by` added to the value and to the weight of each number.
fn extend_moved(by: u64, bytes: &[u8], into: &mut Vec<u8>) -> Result<(), AllocError>
    ensures { OnOk result (into.new.items ≡ into.old.items ++ all_moved by bytes.now) }
{
    let mut rest = bytes;
    while rest.len() >= 32 {
        push_moved(by, &rest[..16], into)?;
        push_moved(by, &rest[16..32], into)?;
        rest = &rest[32..];
    }
    into.extend_from_slice(rest)
}

/// Appends what is given for the letter.
pub(crate) fn extend_twisted(by: u64, letter: &[u8], into: &mut Vec<u8>) -> Result<(), AllocError>
    ensures { OnOk result (into.new.items ≡ into.old.items ++ twisted by letter.now) }
{
    if !is_data(letter) {
        return into.extend_from_slice(letter);
    }
    let (front, numbers) = letter.split_at(index_len(letter));
    into.extend_from_slice(front)?;
    extend_moved(by, numbers, into)
}
