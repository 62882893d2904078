//! Counts and values in decimal digits.
ghost use Rattle.std.specs.Prelude.{◌≡◌, ◌-◌, ◌^◌, pos, neg_ℤ, min, option_map, true, if◌then◌else◌};
ghost use Rattle.std.specs.Str.{all_ascii_digits};
ghost use Rattle.std.specs.Str.Parse.{digits_value, starts_with_minus, without_leading_plus, without_leading_sign};
ghost use Rattle.mm_text.specs.Numerals.{count_of, digits_of, in_width, value_of};

use crate::profile::WIDEST;
use text_lines::digits;

/// The number of decimal digits, or `u128::MAX` where it is greater.
fn wide_digits(word: &[u8]) -> u128
    requires { all_ascii_digits word.now ≡ true }
    ensures { result ≡ min (digits_value 10 word.now) (2 ^ 128 - 1) }
{
    let mut number = 0u128;
    for byte in word {
        number = number
            .saturating_mul(10)
            .saturating_add(u128::from(*byte - b'0'));
    }
    number
}

/// The number of decimal digits, or `u128::MAX` where it is greater.
fn magnitude(word: &[u8]) -> Option<u128>
    ensures { result ≡ option_map (λ n. min n (2 ^ 128 - 1)) (digits_of word.now) }
{
    let number = digits(word)?;
    if number < u64::MAX {
        Some(u128::from(number))
    } else {
        Some(wide_digits(word))
    }
}

/// The word without a plus in front.
fn without_plus(word: &[u8]) -> &[u8]
    ensures { result.now ≡ without_leading_plus word.now }
{
    match word {
        [b'+', rest @ ..] => rest,
        _ => word,
    }
}

/// A count, or `u64::MAX` where it is greater: decimal digits behind a plus or nothing.
pub fn count(word: &[u8]) -> Option<u64>
    ensures { result ≡ option_map (λ n. min n (2 ^ 64 - 1)) (count_of word.now) }
{
    digits(without_plus(word))
}

/// Whether the word begins with a minus.
fn is_negative(word: &[u8]) -> bool
    ensures { result ≡ starts_with_minus word.now }
{
    match word {
        [b'-', ..] => true,
        _ => false,
    }
}

/// The word without a minus or a plus in front.
fn without_sign(word: &[u8]) -> &[u8]
    ensures { result.now ≡ without_leading_sign word.now }
{
    match word {
        [b'-', rest @ ..] => rest,
        _ => without_plus(word),
    }
}

/// What a word of digits stands for.
#[derive(Clone, Copy)]
pub enum Number {
    Value(i128),
    /// Its magnitude is above the greatest.
    TooWide,
}

/// The number of a sign and a magnitude.
fn signed_number(negative: bool, magnitude: u128) -> Number
    ensures { result ≡ in_width (if negative then neg_ℤ (pos magnitude) else pos magnitude) }
{
    if magnitude > WIDEST {
        return Number::TooWide;
    }
    let value = magnitude as i128;
    Number::Value(if negative { -value } else { value })
}

/// A number: decimal digits behind a plus, a minus or nothing.
pub fn number_of(word: &[u8]) -> Option<Number>
    ensures { result ≡ option_map in_width (value_of word.now) }
{
    let magnitude = magnitude(without_sign(word))?;
    Some(signed_number(is_negative(word), magnitude))
}
