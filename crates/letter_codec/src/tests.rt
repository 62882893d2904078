//! Letters by hand, as bytes in hexadecimal, two digits each.

use crate::{
    Kind, entry_count, letter_len, number, put_number, put_word, read_letter, word, word_count,
    write_head,
};
use scalar_laws::{Mod1000, Residue, Scalar, Weighed};
use std::alloc::Global;
use std::test::Fail;

/// A digit's value; that of any other character is 0.
fn digit(character: u8) -> u8 {
    match character {
        b'0'..=b'9' => character - b'0',
        b'a'..=b'f' => character - b'a' + 10,
        _ => 0,
    }
}

/// The bytes of a text: two digits are a byte, `z` is seven bytes 0, so that `02z` is the word 2, `m` is the greatest
/// word, and `n` is a number of 32 bytes. Blanks are left out.
fn bytes_of(alloc: Global, text: &str) -> Result<Vec<u8>, Fail> {
    let mut bytes = Vec::new(alloc);
    let mut high = None;
    for character in text.bytes() {
        match (character, high) {
            (b' ', _) => {}
            (b'z', _) => bytes.extend_from_slice(&[0; 7])?,
            (b'm', _) => bytes.extend_from_slice(&[255; 8])?,
            (b'n', _) => bytes.extend_from_slice(&[1; 32])?,
            (_, None) => high = Some(digit(character) & 15),
            (_, Some(first)) => {
                bytes.push((first & 15) << 4 | digit(character) & 15)?;
                high = None;
            }
        }
    }
    Ok(bytes)
}

/// A rank wants the index 2, and a rank sends the number 1 of the index 0.
#[test]
fn written_letters(rt: HostRuntime) -> Result<(), Fail> {
    let mut want = [0; 17];
    write_head(Kind::Want, 1, &mut want);
    put_word(&mut want, 0, 2);
    let wanted = bytes_of(rt.alloc(), "14 0100000000000000 0200000000000000")?;
    assert_eq!(&rt; wanted.as_slice(), want.as_slice());
    assert_eq!(&rt; letter_len(1, 0), 17);

    let mut sent = [7; 49];
    write_head(Kind::Nums, 1, &mut sent);
    put_word(&mut sent, 0, 0);
    put_number(&mut sent, 1, 0, Weighed::one());
    let text = "16 0100000000000000 0000000000000000 01zz00 01zz00";
    let owned = bytes_of(rt.alloc(), text)?;
    assert_eq!(&rt; owned.as_slice(), sent.as_slice());
    assert_eq!(&rt; letter_len(1, 1), 49);
    Ok(())
}

/// Each row: the bytes, the kind, the numbers of words, of entries and of bytes of numbers.
#[test]
fn letters(rt: HostRuntime) -> Result<(), Fail> {
    let rows = [
        ("11 00z", Kind::Reg, 0, 0, 0),
        ("12 02z m m", Kind::Ask, 2, 2, 0),
        ("13 02z 01z ffffffff00000000", Kind::Tell, 2, 2, 0),
        ("14 01z 02z", Kind::Want, 1, 1, 0),
        ("15 01z 02z", Kind::Offer, 1, 1, 0),
        ("16 00z", Kind::Nums, 0, 0, 0),
        ("16 01z 02z", Kind::Nums, 1, 1, 0),
        ("16 01z 02z nn", Kind::Nums, 1, 1, 64),
        ("16 02z 01z02z nn", Kind::Nums, 2, 2, 64),
        ("17 00z", Kind::Rows, 0, 0, 0),
        ("17 02z m00z", Kind::Rows, 2, 1, 0),
        ("17 06z m00z 01z02z00zm nn", Kind::Rows, 6, 2, 64),
    ];
    for (text, kind, words, entries, numbers) in rows.iter() {
        let bytes = bytes_of(rt.alloc(), text)?;
        let Some(letter) = read_letter(&bytes) else {
            panic!(&rt; "{text}")
        };
        assert!(&rt; letter.kind == *kind, "{text}");
        assert_eq!(&rt; word_count(&letter), *words, "{text}");
        assert_eq!(&rt; entry_count(&letter), *entries, "{text}");
        assert_eq!(&rt; letter.numbers.len(), *numbers, "{text}");
    }
    Ok(())
}

/// Bytes that break one rule each: the kind and the count are whole, the kind is known, the words are whole, the
/// numbers are whole, only DATA and ROWS have numbers, owners have 32 bits, each entry of DATA has equally many numbers,
/// and the words of ROWS are rows with ascending columns, each of which has a number.
#[test]
fn no_letters(rt: HostRuntime) -> Result<(), Fail> {
    let rows = [
        "",
        "11",
        "11 z",
        "01 00z",
        "07 00z",
        "10 00z",
        "18 00z",
        "14 01z",
        "14 01z z",
        "14 02z 02z",
        "14 m",
        "14 0000000000000020",
        "14 00z 00",
        "14 01z 02z 00",
        "16 01z 02z 01",
        "16 01z 02z n z",
        "11 01z 02z n",
        "12 01z 02z n",
        "13 01z 02z n",
        "14 01z 02z n",
        "15 01z 02z n",
        "13 01z 0000000001000000",
        "16 00z n",
        "16 02z 01z02z n",
        "17 01z 02z",
        "17 02z 02z01z n",
        "17 02z 02zm",
        "17 03z 02z01z00z",
        "17 03z 02z01z00z nn",
        "17 03z 02z00z01z",
        "17 04z 02z02z01z01z nn",
        "17 04z 02z02z02z01z nn",
    ];
    for text in rows.iter() {
        let bytes = bytes_of(rt.alloc(), text)?;
        assert!(&rt; read_letter(&bytes).is_none(), "{text}");
    }
    Ok(())
}

/// The last number of a letter, by the bound.
fn last<S: Scalar>(bytes: &[u8]) -> Option<S> {
    let letter = read_letter(bytes)?;
    let count = (letter.numbers.len() / 32) as u64;
    if count == 0 {
        return None;
    }
    Some(number(&letter, count - 1))
}

/// Words and numbers are read where they were written, as each kind of number.
#[test]
fn parts_are_read(rt: HostRuntime) -> Result<(), Fail> {
    let mut bytes = [0; 89];
    write_head(Kind::Nums, 2, &mut bytes);
    put_word(&mut bytes, 0, 5);
    put_word(&mut bytes, 1, u64::MAX);
    put_number(&mut bytes, 2, 0, Weighed::new(-2, 7));
    put_number(&mut bytes, 2, 1, Weighed::new(1002, 1002));
    let Some(letter) = read_letter(&bytes) else {
        panic!(&rt; "no letter")
    };
    assert_eq!(&rt; word_count(&letter), 2);
    assert_eq!(&rt; (word(&letter, 0), word(&letter, 1)), (5, u64::MAX));
    assert_eq!(&rt; letter.numbers.len(), 64);
    let first: Weighed = number(&letter, 0);
    assert_eq!(&rt; first, Weighed::new(-2, 7));
    let seen: Option<Weighed> = last(&bytes);
    assert_eq!(&rt; seen, Some(Weighed::new(1002, 1002)));
    let reduced: Option<Residue<Mod1000>> = last(&bytes);
    assert_eq!(&rt; reduced, Some(Residue::new(2)));
    assert_eq!(&rt; letter.kind.name(), "DATA");
    Ok(())
}
