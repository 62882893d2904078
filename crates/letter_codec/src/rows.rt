//! The words of `Rows`.
ghost use Rattle.std.specs.Prelude.{◌≡◌, ◌*◌, ◌<◌, ◌≤◌, List, Some, IfSome, IsTrue, Option, ◌↔◌, length};
ghost use Rattle.letter_codec.specs.Letters.{RowEntry, AreRows, is_above};
ghost use Rattle.letter_codec.specs.Parts.{words_of};

use crate::words::word_at;

/// What the next word is: a row, the number of its places, or one of so many columns that are left, with the column
/// before it.
#[derive(Clone, Copy, Drop)]
pub(crate) enum Awaited {
    Row,
    Count,
    Column(u64, Option<u64>),
}

/// Whether a column is above the one before, if there is one.
#[inline]
fn is_above(before: Option<u64>, column: u64) -> bool
    ensures { result ≡ is_above before column }
{
    match before {
        Some(last) => last < column,
        None => true,
    }
}

ghost use Rattle.letter_codec.specs.RowWalk.{behind, columns_left, numbers_of, walk};

/// So many columns are left.
#[inline]
fn columns_left(left: u64, before: Option<u64>) -> Awaited
    ensures { result ≡ columns_left left before }
{
    if left == 0 {
        Awaited::Row
    } else {
        Awaited::Column(left, before)
    }
}

/// What comes behind a word; None where the word cannot stand there.
#[inline]
fn behind(awaited: Awaited, word: u64) -> Option<Awaited>
    ensures { result ≡ behind awaited word }
{
    match awaited {
        Awaited::Row => Some(Awaited::Count),
        Awaited::Count => Some(columns_left(word, None)),
        Awaited::Column(left, before) => {
            if left == 0 || !is_above(before, word) {
                return None;
            }
            Some(columns_left(left - 1, Some(word)))
        }
    }
}

/// How many numbers a word has.
#[inline]
fn numbers_of(awaited: Awaited) -> u64
    ensures value { result ≡ numbers_of awaited }
    ensures most { result ≤ 1 }
{
    match awaited {
        Awaited::Column(_, _) => 1,
        _ => 0,
    }
}

/// How many numbers the words have; None where they are not the words of `Rows`.
pub(crate) fn place_count(words: &[u8]) -> Option<u64>
    ensures { result ≡ walk (Some Awaited.Row) 0 (words_of words.now) }
{
    let mut awaited = Awaited::Row;
    let mut places = 0;
    for at in 0..words.len() / 8 {
        let more = numbers_of(awaited);
        awaited = behind(awaited, word_at(words, 8 * at))?;
        places += more;
    }
    match awaited {
        Awaited::Row => Some(places),
        _ => None,
    }
}

/// How many rows the words of `Rows` have.
pub(crate) fn row_count(words: &[u8]) -> u64
    requires { (entries : List RowEntry) × AreRows (words_of words.now) entries }
    ensures { (entries : List RowEntry) → AreRows (words_of words.now) entries → result ≡ length entries }
{
    let mut rows = 0;
    let mut at = 0;
    while at < words.len() / 8 {
        let columns = word_at(words, 8 * (at + 1)) as usize;
        at += 2 + columns;
        rows += 1;
    }
    rows
}
