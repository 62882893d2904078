//! A letter as words.
ghost use Rattle.std.specs.Prelude.{◌≡◌, ℕ, List, [], IfOk};
ghost use Rattle.letter_codec.specs.Letters.{IsLetter, letter_bytes};
ghost use Rattle.letter_codec.specs.Parts.{IsEntryCount, words_of};
ghost use Rattle.letter_codec.specs.declared.kind.Kind.{Kind};

use letter_codec::{Letter, entry_count, read_letter, word, word_count};
use std::alloc::{AllocError, Global};

/// The words of a letter. `Err` means that memory ran out.
fn all_words(alloc: Global, letter: &Letter<'_>) -> Result<Vec<u64>, AllocError>
    ensures words { IfOk result (λ words. words.items ≡ words_of letter.now.words.now) }
{
    let mut words = Vec::new(alloc);
    for at in 0..word_count(letter) {
        words.push(word(letter, at))?;
    }
    Ok(words)
}

/// The words of a letter without numbers, given as its bytes. `Err` means that memory ran out.
pub fn words_of_letter(alloc: Global, bytes: &[u8]) -> Result<Vec<u64>, AllocError>
    requires letter { (kind : Kind) × ((words : List ℕ) × (IsLetter kind words [] × (bytes.now ≡ letter_bytes kind words []))) }
    ensures words { IfOk result (λ read. (kind : Kind) (words : List ℕ) → IsLetter kind words [] → bytes.now ≡ letter_bytes kind words []
        → read.items ≡ words) }
{
    match read_letter(bytes) {
        Some(letter) => all_words(alloc, &letter),
        None => unreachable!(),
    }
}

/// How many entries a letter has, given as its bytes: each word is one, but in `Rows`, where a row with its columns is one. It
/// takes no memory.
pub fn entries_of_letter(bytes: &[u8]) -> u64
    requires letter { (kind : Kind) × ((words : List ℕ) × ((numbers : List ℕ) × (IsLetter kind words numbers × (bytes.now ≡ letter_bytes kind words numbers)))) }
    ensures count { (kind : Kind) (words numbers : List ℕ) → IsLetter kind words numbers → bytes.now ≡ letter_bytes kind words numbers
        → IsEntryCount kind words result }
{
    match read_letter(bytes) {
        Some(letter) => entry_count(&letter),
        None => unreachable!(),
    }
}
