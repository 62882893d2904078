//! Listings that reach a sink.
use crate::{Summary, summary_of, write_summary, write_traffic};
use letter_codec::Kind;
use mm_text::Shown;
use model_defs::{LetterLine, ListOf, PhaseLine, Sheet, SheetKind, Text};
use outside::{MemSink, Name};
use std::alloc::{AllocError, Global};
use std::test::Fail;

fn phase(alloc: Global, phase: u32, kind: Kind, name: &str) -> Result<PhaseLine, AllocError> {
    Ok(PhaseLine {
        phase,
        kind,
        name: Text::new(alloc, name)?,
    })
}

fn letter(phase: u32, from: u32, to: u32, entries: u64) -> LetterLine {
    LetterLine {
        name: Name { phase, from, to },
        entries,
    }
}

#[test]
fn letters_follow_their_phase(rt: HostRuntime) -> Result<(), Fail> {
    let mut phases = Vec::new(rt.alloc());
    phases.push(phase(rt.alloc(), 0, Kind::Want, "y")?)?;
    phases.push(phase(rt.alloc(), 1, Kind::Rows, "A")?)?;
    phases.push(phase(rt.alloc(), 2, Kind::Nums, "y")?)?;
    let letters = [
        letter(0, 0, 1, 1),
        letter(0, 1, 0, 20),
        letter(2, 10, 31, 300),
    ];
    let mut sink = MemSink::new(rt.alloc(), 1000)?;
    write_traffic(&mut sink, &phases, &letters).expect(&rt, "room");
    assert_eq!(rt;
        sink.bytes(),
        b"traffic 3 3\nphase 0 WANT y\nletter 0 0 1 1\nletter 0 1 0 20\nphase 1 ROWS A\nphase 2 DATA y\nletter 2 10 31 300\n".as_slice()
    );
    Ok(())
}

#[test]
fn a_listing_may_be_longer_than_what_is_held_back(rt: HostRuntime) -> Result<(), Fail> {
    let mut name = String::new(rt.alloc());
    for _ in 0..100_000u32 {
        name.push_str("v")?;
    }
    let mut phases = Vec::new(rt.alloc());
    phases.push(phase(rt.alloc(), 0, Kind::Reg, &name)?)?;
    let mut letters = Vec::new(rt.alloc());
    for _ in 0..10_000u32 {
        letters.push(letter(0, 0, 1, 7))?;
    }
    let mut sink = MemSink::new(rt.alloc(), 1_000_000)?;
    write_traffic(&mut sink, &phases, &letters).expect(&rt, "room");
    let mut text = format!(in rt.alloc(); "traffic 1 10000\nphase 0 REG {name}\n")?;
    for _ in 0..10_000u32 {
        text.push_str("letter 0 0 1 7\n")?;
    }
    assert_eq!(rt; sink.bytes(), text.as_bytes());
    Ok(())
}

#[test]
fn a_failed_write_leaves_a_prefix(rt: HostRuntime) -> Result<(), Fail> {
    let mut phases = Vec::new(rt.alloc());
    phases.push(phase(rt.alloc(), 0, Kind::Reg, "y")?)?;
    let mut sink = MemSink::new(rt.alloc(), 15)?;
    assert!(rt; write_traffic(&mut sink, &phases, &[]).is_err());
    assert_eq!(rt; sink.bytes(), b"traffic 1 0\npha".as_slice());
    Ok(())
}

/// A sheet of one column with these values.
fn sheet(alloc: Global, values: &[i128]) -> Result<Sheet, AllocError> {
    let mut cells = Vec::new(alloc);
    for value in values {
        cells.push(Shown {
            row: 0,
            col: 0,
            value: *value,
        })?;
    }
    Ok(Sheet {
        kind: SheetKind::Array,
        rows: 1,
        cols: 1,
        part: None,
        cells: ListOf::new(cells),
    })
}

/// The summary of three sheets of these values, with two letters.
fn summary(
    alloc: Global,
    y: &[i128],
    s: &[i128],
    z: &[i128],
) -> Result<Option<Summary>, AllocError> {
    let mut sheets = Vec::new(alloc);
    sheets.push(sheet(alloc, y)?)?;
    sheets.push(sheet(alloc, s)?)?;
    sheets.push(sheet(alloc, z)?)?;
    let letters = [letter(0, 0, 1, 1), letter(0, 1, 0, 20)];
    Ok(summary_of(7, &sheets, &letters))
}

#[test]
fn a_summary_has_its_sums(rt: HostRuntime) -> Result<(), Fail> {
    let found = summary(rt.alloc(), &[5, -8], &[1, 1, 1], &[40, 2, 0])?;
    let found = found.expect(&rt, "no sum is over");
    let mut sink = MemSink::new(rt.alloc(), 1000)?;
    write_summary(&mut sink, &found).expect(&rt, "room");
    assert_eq!(rt;
        sink.bytes(),
        b"gen 7\nentries 3\nsum -3 42\nletters 2\n".as_slice()
    );
    let mut small = MemSink::new(rt.alloc(), 0)?;
    assert!(rt; write_summary(&mut small, &found).is_err());
    Ok(())
}

#[test]
fn magnitudes_may_exceed_the_limit(rt: HostRuntime) -> Result<(), Fail> {
    let most = i128::MAX;
    assert!(rt; summary(rt.alloc(), &[most], &[], &[-most])?.is_some());
    assert!(rt; summary(rt.alloc(), &[most, -1], &[], &[0])?.is_none());
    assert!(rt; summary(rt.alloc(), &[0], &[], &[1, -most])?.is_none());
    assert!(rt; summary(rt.alloc(), &[0], &[], &[i128::MIN])?.is_none());
    Ok(())
}
