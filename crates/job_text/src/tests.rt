mod keys;
mod operands;
mod transfers;

use crate::{JobFault, read_job};
use std::alloc::{AllocError, Global};
use std::process::Abort;
use std::test::Fail;

/// A fault as the tests write it: its name and its field.
fn shown(alloc: Global, fault: &JobFault) -> Result<String, AllocError> {
    match fault {
        JobFault::NotToml => String::from_str(alloc, "NotToml"),
        JobFault::Missing { key } => with_field(alloc, "Missing", key.as_str()),
        JobFault::WrongKind { key } => with_field(alloc, "WrongKind", key.as_str()),
        JobFault::UnknownKey { key } => with_field(alloc, "UnknownKey", key.as_str()),
        JobFault::UnknownName { name } => with_field(alloc, "UnknownName", name.as_str()),
        JobFault::Limit { key } => with_field(alloc, "Limit", key.as_str()),
        JobFault::BadMap { name } => with_field(alloc, "BadMap", name.as_str()),
        JobFault::NameTaken { name } => with_field(alloc, "NameTaken", name.as_str()),
        JobFault::NoMem => String::from_str(alloc, "NoMem"),
        other => of_statement(alloc, other),
    }
}

fn with_field(alloc: Global, name: &str, field: &str) -> Result<String, AllocError> {
    format!(in alloc; "{name} {field}")
}

fn of_statement(alloc: Global, fault: &JobFault) -> Result<String, AllocError> {
    match fault {
        JobFault::MapMismatch { statement } => format!(in alloc; "MapMismatch {statement}"),
        JobFault::NotCovered { statement } => format!(in alloc; "NotCovered {statement}"),
        JobFault::WrongSort { statement } => format!(in alloc; "WrongSort {statement}"),
        _ => String::from_str(alloc, "?"),
    }
}

/// What is answered of a text: `Ok`, or its fault.
fn answer(alloc: Global, text: &[u8]) -> Result<String, AllocError> {
    match read_job(alloc, text) {
        Ok(_) => String::from_str(alloc, "Ok"),
        Err(fault) => shown(alloc, &fault),
    }
}

/// The text has this answer.
fn is(rt: &impl Abort, alloc: Global, text: &str, wanted: &str) -> Result<(), Fail> {
    let found = answer(alloc, text.as_bytes())?;
    assert_eq!(rt; found.as_str(), wanted);
    Ok(())
}

/// Each text after the head has the answer that stands beside it.
pub fn each_after(
    rt: &impl Abort,
    alloc: Global,
    head: &str,
    cases: &[(&str, &str)],
) -> Result<(), Fail> {
    for (text, wanted) in cases {
        let whole = format!(in alloc; "{head}{text}")?;
        let found = answer(alloc, whole.as_bytes())?;
        assert_eq!(rt; found.as_str(), *wanted, "after {text}");
    }
    Ok(())
}

/// Kinds and statements are known by their words.
#[test]
fn each_word(rt: HostRuntime) -> Result<(), Fail> {
    let alloc = rt.alloc();
    let cases = [
        ("[[matrix]]\nkind = \"split\"", "Missing matrix.0.name"),
        ("[[map]]\nkind = \"cyclic\"", "Missing map.0.name"),
        ("[[do]]\nop = \"move\"", "Missing do.0.name"),
        ("[[do]]\nop = \"import\"", "Missing do.0.name"),
        ("[[do]]\nop = \"export\"", "Missing do.0.name"),
        ("[[do]]\nop = \"spread\"", "Missing do.0.name"),
        ("[[do]]\nop = \"update\"", "Missing do.0.name"),
        ("[[do]]\nop = \"scale\"", "Missing do.0.name"),
        ("[[do]]\nop = \"print\"", "Missing do.0.value"),
        ("[[do]]\nop = \"apply\"", "Missing do.0.name"),
        ("[[do]]\nop = \"transpose\"", "Missing do.0.name"),
        ("[[do]]\nop = \"multiply\"", "Missing do.0.name"),
        ("[[do]]\nop = \"add\"", "Missing do.0.name"),
        ("[[do]]\nop = \"assemble\"", "Missing do.0.name"),
    ];
    each_after(&rt, alloc, "ranks = 2\n", &cases)?;
    match read_job(alloc, b"ranks = 2") {
        Ok(job) => assert_eq!(rt; job.ranks, 2),
        Err(fault) => assert_eq!(rt; shown(alloc, &fault)?.as_str(), "Ok"),
    }
    Ok(())
}

/// A text of so many bytes: `ranks = 1`, and a comment.
fn long_text(alloc: Global, bytes: usize) -> Result<Vec<u8>, AllocError> {
    let mut text = Vec::from_slice(alloc, b"ranks = 1 #")?;
    for _ in 0..bytes {
        if text.len() >= bytes {
            return Ok(text);
        }
        text.push(b'x')?;
    }
    Ok(text)
}

#[test]
fn lengths(rt: HostRuntime) -> Result<(), Fail> {
    let alloc = rt.alloc();
    let text = long_text(alloc, 1048576)?;
    assert_eq!(rt; text.len(), 1048576);
    assert_eq!(rt; answer(alloc, &text)?.as_str(), "Ok");
    let text = long_text(alloc, 1048577)?;
    assert_eq!(rt; text.len(), 1048577);
    assert_eq!(rt; answer(alloc, &text)?.as_str(), "Limit job");
    Ok(())
}

/// A text with so many times the same table after its head.
fn repeated(alloc: Global, head: &str, table: &str, count: u32) -> Result<String, AllocError> {
    let mut text = String::from_str(alloc, head)?;
    for _ in 0..count {
        text.push_str(table)?;
    }
    Ok(text)
}

#[test]
fn numbers_of_tables(rt: HostRuntime) -> Result<(), Fail> {
    let alloc = rt.alloc();
    let head =
        "ranks = 1\n[[map]]\nkind = \"uniform\"\nname = \"u\"\nsize = 2\n[[vector]]\nname = \"x\"\nmap = \"u\"\nfill = 1\n";
    let print = "[[do]]\nop = \"print\"\nvalue = \"x\"\n";
    let text = repeated(alloc, head, print, 200)?;
    is(&rt, alloc, text.as_str(), "Ok")?;
    let text = repeated(alloc, head, print, 201)?;
    is(&rt, alloc, text.as_str(), "Limit do")?;
    let text = repeated(alloc, "ranks = 1\n", "[[map]]\n", 65)?;
    is(&rt, alloc, text.as_str(), "Limit map")?;
    let text = repeated(alloc, "ranks = 1\n", "[[map]]\n", 64)?;
    is(&rt, alloc, text.as_str(), "Missing map.0.kind")?;
    let text = repeated(alloc, "ranks = 1\n", "[[vector]]\n", 65)?;
    is(&rt, alloc, text.as_str(), "Limit vector")?;
    let text = repeated(alloc, head, "[[parts]]\n", 64)?;
    is(&rt, alloc, text.as_str(), "Limit parts")?;
    let text = repeated(alloc, head, "[[matrix]]\n", 64)?;
    is(&rt, alloc, text.as_str(), "Limit matrix")?;
    Ok(())
}
