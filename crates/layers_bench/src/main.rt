//! Times the layers below a rank: `lookups`, `plan`, `transfer` or `update`, how many rounds, and how many indices. bench/layers.sh
//! runs it beside the same work in C++.
#![tactic(auto)]

mod look_ups;
mod plans;
mod transfers;
mod updates;

use look_ups::look_up;
use plans::plan;
use std::{env, io};
use transfers::transfer;
use updates::update;

/// A number of the command line below a limit, or another one where it is missing.
fn number_or(word: Option<&str>, limit: u32, missing: u32) -> u32 {
    match word.map(|word| word.parse::<u32>()) {
        Some(Ok(number)) if number <= limit => number,
        _ => missing,
    }
}

fn main(rt: HostRuntime) -> io::Result<()> {
    let word = env::args(&rt)?.nth(1);
    let rounds = env::args(&rt)?.nth(2);
    let rounds = number_or(rounds.as_ref().map(|word| word.as_str()), 1_000_000, 2);
    let count = env::args(&rt)?.nth(3);
    let count = number_or(count.as_ref().map(|word| word.as_str()), 16_777_216, 1_000);
    match word.as_ref().map(|word| word.as_str()) {
        Some("update") => match update(rt.alloc(), rounds, count)? {
            Some((value, weight)) => println!(rt; "{value} {weight}"),
            None => println!(rt; "over"),
        },
        Some("plan") => match plan(rt.alloc(), rounds, count) {
            Ok(sum) => println!(rt; "{sum}"),
            Err(fault) => println!(rt; "{fault}"),
        },
        Some("transfer") => match transfer(rt.alloc(), rounds, count) {
            Ok(Some((value, weight))) => println!(rt; "{value} {weight}"),
            Ok(None) => println!(rt; "over"),
            Err(fault) => println!(rt; "{fault}"),
        },
        _ => match look_up(rt.alloc(), rounds, count) {
            Ok(sum) => println!(rt; "{sum}"),
            Err(fault) => println!(rt; "{fault}"),
        },
    }
}
