//! The command `run` as `clap` sees it.
ghost use Rattle.std.specs.Prelude.{◌≡◌, IfOk, false};
ghost use Rattle.run_words.specs.App.{bare_app, flag_rule, option_rule, positional_rule, run_app};
ghost use Rattle.clap.specs.Words.{app_of, rule_of};

use clap::{Arg, ArgAction, Command};
use std::alloc::{AllocError, Global};

/// A word without a name, which must stand.
fn positional<'a>(alloc: Global, name: &'a str) -> Arg<'a>
    ensures rule { rule_of result ≡ positional_rule name.entry.now }
    ensures local { result.global ≡ false }
{
    Arg::new(alloc, name).required(true)
}

/// An option with one value.
fn option<'a>(alloc: Global, name: &'a str) -> Arg<'a>
    ensures rule { rule_of result ≡ option_rule name.entry.now }
    ensures local { result.global ≡ false }
{
    Arg::new(alloc, name).long(name)
}

/// An option without a value.
fn flag<'a>(alloc: Global, name: &'a str) -> Arg<'a>
    ensures rule { rule_of result ≡ flag_rule name.entry.now }
    ensures local { result.global ≡ false }
{
    Arg::new(alloc, name).long(name).action(ArgAction::SetTrue)
}

/// The command without its arguments.
fn bare<'a>(alloc: Global) -> Command<'a>
    ensures app { app_of result ≡ bare_app }
{
    Command::new(alloc, "run")
        .no_binary_name(true)
        .disable_help_flag(true)
}

/// The command `run`.
pub(crate) fn run_command<'a>(alloc: Global) -> Result<Command<'a>, AllocError>
    ensures app { IfOk result (λ c. app_of c ≡ run_app) }
{
    let command = bare(alloc)
        .arg(positional(alloc, "job"))?
        .arg(option(alloc, "schedule"))?
        .arg(option(alloc, "order"))?
        .arg(option(alloc, "seed"))?
        .arg(flag(alloc, "traffic"))?;
    Ok(command)
}
