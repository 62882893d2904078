//! Numbers in decimal digits.
ghost use Rattle.std.specs.Prelude.{◌≡◌, ◌-◌, ◌^◌, min, option_map};
ghost use Rattle.text_lines.specs.Numerals.{digits_of};

/// The number of decimal digits, or `u64::MAX` where it is greater.
pub fn digits(word: &[u8]) -> Option<u64>
    ensures { result ≡ option_map (λ n. min n (2 ^ 64 - 1)) (digits_of word.now) }
{
    if word.is_empty() {
        return None;
    }
    let mut number = 0u64;
    for byte in word {
        if !byte.is_ascii_digit() {
            return None;
        }
        number = number
            .saturating_mul(10)
            .saturating_add(u64::from(*byte - b'0'));
    }
    Some(number)
}
