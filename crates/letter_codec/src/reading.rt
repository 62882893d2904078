//! Reading of letters.
ghost use Rattle.std.specs.Prelude.{◌≡◌, ◌+◌, ◌*◌, ◌/◌, ◌≤◌, ◌<◌, ◌^◌, ◌↔◌, IsTrue, List, ℕ, IfSome, IfNone, IsSomeAnd, length, take, nat_lt};
ghost use Rattle.std.specs.List.{list_all};
ghost use Rattle.letter_codec.specs.Letters.{IsLetter, HasForm, head_bytes, letter_bytes};
ghost use Rattle.letter_codec.specs.Parts.{AreParts, words_of};

use crate::rows::place_count;
use crate::words::word_at;
use crate::{Kind, Letter};

/// The kind and the number of words of bytes that begin like a letter and have room for its words.
fn read_head(bytes: &[u8]) -> Option<(Kind, usize)>
    ensures some { IfSome result (λ head. (9 + 8 * head.1 ≤ length bytes.now) × (take 9 bytes.now ≡ head_bytes head.0 head.1)) }
    ensures none { IfNone result ((kind : Kind) (words numbers : List ℕ) → length words < 2 ^ 64 → bytes.now ≡ letter_bytes kind words numbers → ⊥) }
{
    if bytes.len() < 9 {
        return None;
    }
    let kind = Kind::of_byte(bytes[0])?;
    let count = word_at(bytes, 1);
    if count <= ((bytes.len() - 9) / 8) as u64 {
        Some((kind, count as usize))
    } else {
        None
    }
}

/// Whether each word is a rank or says that there is no owner.
fn are_owners(words: &[u8]) -> bool
    ensures { result ≡ list_all (λ w. nat_lt w 4294967296) (words_of words.now) }
{
    for at in 0..words.len() / 8 {
        if word_at(words, 8 * at) > 4294967295 {
            return false;
        }
    }
    true
}

/// Whether so many entries can have equally many of these numbers.
fn are_equal_rows(entries: u64, numbers: u64) -> bool
    ensures { IsTrue result ↔ ((each : ℕ) × (numbers ≡ each * entries)) }
{
    if entries == 0 {
        numbers == 0
    } else {
        numbers % entries == 0
    }
}

/// Whether a letter of this kind may have these words with so many numbers.
fn has_form(kind: Kind, words: &[u8], numbers: u64) -> bool
    ensures { IsTrue result ↔ HasForm kind (words_of words.now) numbers }
{
    match kind {
        Kind::Reg | Kind::Ask | Kind::Want | Kind::Offer => numbers == 0,
        Kind::Tell => numbers == 0 && are_owners(words),
        Kind::Nums => are_equal_rows((words.len() / 8) as u64, numbers),
        Kind::Rows => match place_count(words) {
            Some(places) => places == numbers,
            None => false,
        },
    }
}

/// The letter that these bytes are, with its parts borrowed; None exactly where they are none. It takes no memory.
pub fn read_letter(bytes: &[u8]) -> Option<Letter<'_>>
    ensures some { IfSome result (λ l. AreParts l × (bytes.now ≡ letter_bytes l.kind (words_of l.words.now) l.numbers.now)) }
    ensures read { (kind : Kind) (words numbers : List ℕ) → IsLetter kind words numbers → bytes.now ≡ letter_bytes kind words numbers
        → IsSomeAnd result (λ l. (l.kind ≡ kind) × (words_of l.words.now ≡ words) × (l.numbers.now ≡ numbers)) }
{
    let (kind, count) = read_head(bytes)?;
    let (words, numbers) = bytes[9..].split_at(8 * count);
    if numbers.len() % 32 != 0 {
        return None;
    }
    if !has_form(kind, words, (numbers.len() / 32) as u64) {
        return None;
    }
    Some(Letter {
        kind,
        words,
        numbers,
    })
}
