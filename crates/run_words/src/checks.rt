//! The tests of single words and values.
ghost use Rattle.std.specs.Prelude.{◌≡◌, map, option_map, string_bytes};
ghost use Rattle.std.specs.List.{list_all};
ghost use Rattle.std.specs.Str.{all_ascii_digits};
ghost use Rattle.run_words.specs.Given.{assembled, is_fit, is_value, is_value_if_given, ordered, order_of, seed_number};
ghost use Rattle.run_words.specs.Seen.{order_view, words_view};

use crate::RunWords;

/// Which letter in flight is delivered next: the one posted first, the one posted last, one drawn from a seed, or that of the
/// next line of a file.
#[derive(Clone, Copy, Debug)]
pub enum OrderWord<'a> {
    Fifo,
    Lifo,
    Seed(u64),
    Listed(&'a str),
}

/// Whether a word is neither empty nor `-` nor `--` nor a short form.
fn is_fit(word: &str) -> bool
    ensures { result ≡ is_fit word.now }
{
    match word.as_bytes() {
        [] => false,
        [b'-', b'-', _, ..] => true,
        [b'-', ..] => false,
        _ => true,
    }
}

/// Whether all words are fit.
pub(crate) fn all_fit(words: &[String]) -> bool
    ensures { result ≡ list_all is_fit (map string_bytes words.now) }
{
    for word in words {
        if !is_fit(word.as_str()) {
            return false;
        }
    }
    true
}

/// Whether a value is not empty and begins with no hyphen.
fn is_value(text: &str) -> bool
    ensures { result ≡ is_value text.now }
{
    match text.as_bytes() {
        [] => false,
        [b'-', ..] => false,
        _ => true,
    }
}

/// Whether a value is one, if it is given.
fn is_value_if_given(text: Option<&str>) -> bool
    ensures { result ≡ is_value_if_given (option_map (λ s. s.now) text.entry) }
{
    match text {
        Some(text) => is_value(text),
        None => true,
    }
}

/// Whether each byte is a decimal digit.
fn all_digits(text: &str) -> bool
    ensures { result ≡ all_ascii_digits text.now }
{
    for byte in text.as_bytes() {
        if !byte.is_ascii_digit() {
            return false;
        }
    }
    true
}

/// The number of a seed.
fn seed_number(text: &str) -> Option<u64>
    ensures { result ≡ seed_number text.now }
{
    if text.is_empty() || text.len() > 20 || !all_digits(text) {
        return None;
    }
    match text.parse::<u64>() {
        Ok(seed) => Some(seed),
        Err(_) => None,
    }
}

/// The order that is named.
fn ordered<'a>(name: &str, digits: Option<&str>) -> Option<OrderWord<'a>>
    ensures { option_map order_view result ≡ ordered name.now (option_map (λ s. s.now) digits.entry) }
{
    match digits {
        Some(digits) => {
            if name != "seed" {
                return None;
            }
            match seed_number(digits) {
                Some(seed) => Some(OrderWord::Seed(seed)),
                None => None,
            }
        }
        None => {
            if name == "fifo" {
                Some(OrderWord::Fifo)
            } else if name == "lifo" {
                Some(OrderWord::Lifo)
            } else {
                None
            }
        }
    }
}

/// The order of these options.
fn order_of<'a>(
    schedule: Option<&'a str>,
    order: Option<&'a str>,
    seed: Option<&'a str>,
) -> Option<OrderWord<'a>>
    ensures { option_map order_view result ≡ order_of (option_map (λ s. s.now) schedule.entry) (option_map (λ s. s.now) order.entry) (option_map (λ s. s.now) seed.entry) }
{
    match (schedule, order, seed) {
        (Some(file), None, None) => Some(OrderWord::Listed(file)),
        (None, None, None) => Some(OrderWord::Fifo),
        (None, Some(name), digits) => ordered(name, digits),
        _ => None,
    }
}

/// The command of these texts.
pub(crate) fn assembled<'a>(
    job: Option<&'a str>,
    schedule: Option<&'a str>,
    order: Option<&'a str>,
    seed: Option<&'a str>,
    traffic: bool,
) -> Option<RunWords<'a>>
    ensures { option_map words_view result ≡ assembled (option_map (λ s. s.now) job.entry) (option_map (λ s. s.now) schedule.entry) (option_map (λ s. s.now) order.entry) (option_map (λ s. s.now) seed.entry) traffic }
{
    match job {
        None => None,
        Some(job) => {
            if is_value(job)
                && is_value_if_given(schedule)
                && is_value_if_given(order)
                && is_value_if_given(seed)
            {
                match order_of(schedule, order, seed) {
                    Some(order) => Some(RunWords {
                        job,
                        order,
                        traffic,
                    }),
                    None => None,
                }
            } else {
                None
            }
        }
    }
}
