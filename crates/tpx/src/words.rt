//! The words of the command line.
ghost use Rattle.std.specs.Prelude.{◌≡◌, ◌≤◌, IfOk, IfSome, OnErr, map, string_bytes, true};
ghost use Rattle.std.specs.Option.{option_map};
ghost use Rattle.generated_job.specs.Generated.{most_generated};
ghost use Rattle.tpx.specs.Asked.{IsWithinBounds, asked};
ghost use Rattle.tpx.specs.Endings.{command_of};
ghost use Rattle.tpx.specs.Words.{begins_run, gen, gen_command, ranks_of, show, show_command, size_of};

use run_words::{RunWords, run_words};
use std::alloc::{AllocError, Global};
use text_lines::digits;

/// The words of `show`: a number of ranks, from 1 to 32, and the name of a file.
#[derive(Clone, Copy)]
pub struct ShowCommand<'a> {
    pub ranks: u32,
    pub file: &'a str,
}

/// A number of ranks from 1 to 32, without sign and without leading zero.
fn parse_ranks(word: &[u8]) -> Option<u32>
    ensures value { result ≡ ranks_of word.now }
    ensures from { IfSome result (λ n. 1 ≤ n) }
    ensures to { IfSome result (λ n. n ≤ 32) }
{
    let count = match word {
        [units @ b'1'..=b'9'] => u32::from(*units - b'0'),
        [tens @ b'1'..=b'9', units @ b'0'..=b'9'] => {
            10 * u32::from(*tens - b'0') + u32::from(*units - b'0')
        }
        _ => return None,
    };
    if count <= 32 { Some(count) } else { None }
}

/// A size from 1 to 1,000,000, without sign and without leading zero.
fn parse_size(word: &[u8]) -> Option<u32>
    ensures value { result ≡ size_of word.now }
    ensures from { IfSome result (λ n. 1 ≤ n) }
    ensures to { IfSome result (λ n. n ≤ most_generated) }
{
    if let [b'0', ..] = word {
        return None;
    }
    let size = digits(word)?;
    if size < 1 || size > 1_000_000 {
        return None;
    }
    Some(size as u32)
}

/// The size of the words after `gen`; None where they are none.
fn read_size(words: &[String]) -> Option<u32>
    ensures asked { option_map gen result ≡ gen_command (map string_bytes words.now) }
    ensures from { IfSome result (λ n. 1 ≤ n) }
    ensures to { IfSome result (λ n. n ≤ most_generated) }
{
    match words {
        [size] => parse_size(size.as_bytes()),
        _ => None,
    }
}

impl<'a> ShowCommand<'a> {
    /// The command of the words after `show`; None where they are none.
    fn read(words: &'a [String]) -> Option<ShowCommand<'a>>
        ensures asked { option_map (λ c. show c.ranks c.file.now) result ≡ show_command (map string_bytes words.now) }
        ensures ranks { IfSome result (λ c. (1 ≤ c.ranks) × (c.ranks ≤ 32)) }
    {
        match words {
            [ranks, file] => {
                let ranks = parse_ranks(ranks.as_bytes())?;
                let file = file.as_str();
                Some(ShowCommand { ranks, file })
            }
            _ => None,
        }
    }
}

/// What the words ask for.
#[derive(Clone, Copy)]
pub enum Asked<'a> {
    Show(ShowCommand<'a>),
    Run(RunWords<'a>),
    /// `gen` of this size.
    Gen(u32),
}

impl<'a> Asked<'a> {
    /// The command of the words after the program's name; None where they are no command. The words of `run` take memory,
    /// and `Err` means that it ran out.
    pub fn read(alloc: Global, words: &'a [String]) -> Result<Option<Asked<'a>>, AllocError>
        ensures asked { IfOk result (λ r. option_map asked r ≡ command_of words.now) }
        ensures bounds { IfOk result (λ r. IfSome r IsWithinBounds) }
        ensures err { OnErr result (begins_run (map string_bytes words.now) ≡ true) }
    {
        match words {
            [verb, rest @ ..] if verb.as_str() == "show" => match ShowCommand::read(rest) {
                Some(command) => Ok(Some(Asked::Show(command))),
                None => Ok(None),
            },
            [verb, rest @ ..] if verb.as_str() == "run" => match run_words(alloc, rest)? {
                Some(command) => Ok(Some(Asked::Run(command))),
                None => Ok(None),
            },
            [verb, rest @ ..] if verb.as_str() == "gen" => match read_size(rest) {
                Some(size) => Ok(Some(Asked::Gen(size))),
                None => Ok(None),
            },
            _ => Ok(None),
        }
    }
}
