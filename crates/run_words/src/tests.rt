//! Words that are a command, and words that are none.
use crate::run_words;
use std::alloc::{AllocError, Global};
use std::test::Fail;

/// Whether the words are a command.
fn is_command(alloc: Global, words: &[&str]) -> Result<bool, AllocError> {
    let mut list: Vec<String> = Vec::new(alloc);
    for word in words {
        list.push(String::from_str(alloc, word)?)?;
    }
    let found = run_words(alloc, list.as_slice())?;
    Ok(found.is_some())
}

#[test]
fn taken(rt: HostRuntime) -> Result<(), Fail> {
    let alloc = rt.alloc();
    let given = [
        "job.toml",
        "--traffic",
        "--order=seed",
        "--seed",
        "18446744073709551615",
    ];
    assert!(rt; is_command(alloc, given.as_slice())?);
    let given = ["--schedule", "s", "j"];
    assert!(rt; is_command(alloc, given.as_slice())?);
    Ok(())
}

#[test]
fn refused(rt: HostRuntime) -> Result<(), Fail> {
    let alloc = rt.alloc();
    let given = ["j", "--order=seed", "--seed", "18446744073709551616"];
    assert!(rt; !is_command(alloc, given.as_slice())?);
    let given = ["j", "--help"];
    assert!(rt; !is_command(alloc, given.as_slice())?);
    let given = ["j", "--traffic", "--traffic"];
    assert!(rt; !is_command(alloc, given.as_slice())?);
    let given = ["--", "j"];
    assert!(rt; !is_command(alloc, given.as_slice())?);
    let given = ["j", "--schedule="];
    assert!(rt; !is_command(alloc, given.as_slice())?);
    Ok(())
}
