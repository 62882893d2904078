//! The words of `run`.
ghost use Rattle.std.specs.Prelude.{◌≡◌, IfOk, map, option_map, string_bytes};
ghost use Rattle.run_words.specs.Given.{command};
ghost use Rattle.run_words.specs.Seen.{words_view};
ghost use Rattle.clap.specs.Words.{first_of, found_of, rows_of};

use crate::OrderWord;
use crate::app::run_command;
use crate::checks::{all_fit, assembled};
use clap::ArgMatches;
use clap::error::ErrorKind;
use std::alloc::{AllocError, Global};

/// What the words of `run` ask for: the name of the job file, the order of deliveries, and whether the traffic is listed.
#[derive(Clone, Copy, Debug)]
pub struct RunWords<'a> {
    pub job: &'a str,
    pub order: OrderWord<'a>,
    pub traffic: bool,
}

/// The text of a name in the matches.
fn text<'a>(matches: &ArgMatches<'a>, id: &str) -> Option<&'a str>
    ensures { option_map (λ s. s.now) result ≡ first_of id.now (rows_of (found_of matches.now)) }
{
    matches.get_str(id)
}

/// Reads the words after `run`: `JOB [--schedule FILE] [--order fifo|lifo|seed] [--seed N] [--traffic]`, in any order.
///
/// Each option has its value in the next word or behind `=`; a value is not empty and does not begin with `-`. Each stands
/// at most once, `--schedule` and `--order` not both, and `--seed`, 1 to 20 decimal digits of a number below 2^64, exactly where
/// the order is `seed`. There are no short forms, no abbreviations and no `--help`. `None` exactly where the words are no
/// such command; `Err` means that memory ran out.
pub fn run_words<'a>(alloc: Global, words: &'a [String]) -> Result<Option<RunWords<'a>>, AllocError>
    ensures command { IfOk result (λ r. option_map words_view r ≡ command (map string_bytes words.entry.now)) }
{
    if !all_fit(words) {
        return Ok(None);
    }
    let command = run_command(alloc)?;
    match command.try_get_matches_from(words) {
        Ok(matches) => Ok(assembled(
            text(&matches, "job"),
            text(&matches, "schedule"),
            text(&matches, "order"),
            text(&matches, "seed"),
            matches.get_flag("traffic"),
        )),
        Err(error) => match error.kind() {
            ErrorKind::OutOfMemory => Err(AllocError),
            _ => Ok(None),
        },
    }
}
