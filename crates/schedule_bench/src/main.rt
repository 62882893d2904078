//! Makes the text of a schedule with so many lines, 4 without words: with the word `text` it prints how many bytes it has,
//! and else it reads it and prints how many entries it has. bench/schedule.sh runs it.
#![tactic(auto)]

use schedule::read_schedule;
use std::alloc::{AllocError, Global};
use std::{env, io};

/// The text of a schedule with so many lines, 8 bytes each.
fn text(alloc: Global, lines: u32) -> Result<Vec<u8>, AllocError> {
    let mut text = Vec::new(alloc);
    for _ in 0..lines {
        text.extend_from_slice(b"12 30 7\n")?;
    }
    Ok(text)
}

/// How many entries a schedule with so many lines has, where it is read, and else how many bytes.
fn read(alloc: Global, lines: u32, is_read: bool) -> Result<usize, AllocError> {
    let text = text(alloc, lines)?;
    if !is_read {
        return Ok(text.len());
    }
    match read_schedule(alloc, &text) {
        Ok(entries) => Ok(entries.len()),
        Err(_) => Ok(0),
    }
}

fn main(rt: HostRuntime) -> io::Result<()> {
    let word = env::args(&rt)?.nth(1);
    let count = env::args(&rt)?.nth(2);
    let is_read = match word.as_ref().map(|word| word.as_str()) {
        Some("text") => false,
        _ => true,
    };
    let lines = match count.as_ref().map(|count| count.as_str().parse::<u32>()) {
        Some(Ok(lines)) if lines < 10_000_000 => lines,
        _ => 4,
    };
    let number = read(rt.alloc(), lines, is_read)?;
    println!(rt; "{number}")?;
    Ok(())
}
