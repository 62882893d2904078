//! Worked examples, each public call once, and a long text.

use crate::{Chooser, Entry, Flow, ScheduleFault, read_schedule};
use outside::Name;
use std::alloc::{AllocError, Global};
use std::test::Fail;

fn name(phase: u32, from: u32, to: u32) -> Name {
    Name { phase, from, to }
}

/// Puts a letter in flight that was not posted before.
fn post(flow: &mut Flow, name: Name) -> Result<(), AllocError> {
    if !flow.is_in_flight(name) && !flow.was_delivered(name) {
        flow.post(name)?;
    }
    Ok(())
}

/// The phases of the letters in the order in which a seed draws them from seven that are in flight.
fn drawn(alloc: Global, seed: u64) -> Result<(Vec<u32>, Chooser), AllocError> {
    let mut flow = Flow::new(alloc);
    for phase in 0..7 {
        post(&mut flow, name(phase, 0, 1))?;
    }
    let mut chooser = Chooser::Seed(seed);
    let mut phases = Vec::new(alloc);
    for _ in 0..7 {
        if let Some(letter) = flow.choose(&mut chooser) {
            phases.push(letter.phase)?;
            flow.deliver(letter);
        }
    }
    Ok((phases, chooser))
}

#[test]
fn two_letters_in_flight(rt: HostRuntime) -> Result<(), Fail> {
    let mut flow = Flow::new(rt.alloc());
    assert_eq!(rt; flow.choose(&mut Chooser::Fifo), None);
    post(&mut flow, name(0, 1, 0))?;
    post(&mut flow, name(0, 0, 1))?;
    assert_eq!(rt; flow.choose(&mut Chooser::Fifo), Some(name(0, 1, 0)));
    assert_eq!(rt; flow.choose(&mut Chooser::Lifo), Some(name(0, 0, 1)));
    let mut seed = Chooser::Seed(1);
    assert_eq!(rt; flow.choose(&mut seed), Some(name(0, 1, 0)));
    assert_eq!(rt; seed, Chooser::Seed(7806831264735756412));
    let names = flow.undelivered()?;
    assert!(rt; names.as_slice() == [name(0, 0, 1), name(0, 1, 0)].as_slice());
    assert!(rt; flow.deliver(name(0, 0, 1)));
    assert!(rt; !flow.deliver(name(0, 0, 1)));
    assert!(rt; flow.was_delivered(name(0, 0, 1)));
    assert!(rt; !flow.is_in_flight(name(0, 0, 1)));
    assert!(rt; flow.is_in_flight(name(0, 1, 0)));
    Ok(())
}

#[test]
fn letters_are_drawn_by_seed(rt: HostRuntime) -> Result<(), Fail> {
    let (phases, chooser) = drawn(rt.alloc(), 0)?;
    assert!(rt; phases.as_slice() == [2, 0, 4, 1, 6, 5, 3].as_slice());
    assert_eq!(rt; chooser, Chooser::Seed(1459328389850446429));
    let (phases, chooser) = drawn(rt.alloc(), 1)?;
    assert!(rt; phases.as_slice() == [1, 4, 2, 5, 0, 6, 3].as_slice());
    assert_eq!(rt; chooser, Chooser::Seed(10218303843513747618));
    let (phases, chooser) = drawn(rt.alloc(), u64::MAX)?;
    assert!(rt; phases.as_slice() == [5, 6, 2, 3, 0, 4, 1].as_slice());
    assert_eq!(rt; chooser, Chooser::Seed(11147097009896696856));
    Ok(())
}

/// Posts so many letters, three before each delivery, and delivers all: a number made of their phases in order of
/// delivery, and the chooser.
fn played(alloc: Global, count: u32, from: Chooser) -> Result<(u32, Chooser), AllocError> {
    let mut flow = Flow::new(alloc);
    let mut chooser = from;
    let mut mixed = 0u32;
    for turn in 0..count {
        for phase in turn.saturating_mul(3)..turn.saturating_mul(3).saturating_add(3).min(count) {
            post(&mut flow, name(phase, 0, 1))?;
        }
        if let Some(letter) = flow.choose(&mut chooser) {
            mixed = mixed.wrapping_mul(31).wrapping_add(letter.phase);
            flow.deliver(letter);
        }
    }
    Ok((mixed, chooser))
}

#[test]
fn letters_are_drawn_while_others_are_posted(rt: HostRuntime) -> Result<(), Fail> {
    let (mixed, chooser) = played(rt.alloc(), 3000, Chooser::Seed(7))?;
    assert_eq!(rt; mixed, 2755695674);
    assert_eq!(rt; chooser, Chooser::Seed(6124869563400047167));
    Ok(())
}

#[test]
fn small_schedules_are_read(rt: HostRuntime) -> Result<(), Fail> {
    let entries = read_schedule(rt.alloc(), b"# a\n\n0 1 0\n")?;
    assert!(rt;
        entries.as_slice()
            == [Entry {
                line: 3,
                name: name(0, 1, 0)
            }]
            .as_slice()
    );
    let entries = read_schedule(rt.alloc(), b"")?;
    assert!(rt; entries.is_empty());
    let entries = read_schedule(
        rt.alloc(),
        b"\t1  0000000000002\t4294967295 \r\n \t#7 8\n5 6 7",
    )?;
    let first = Entry {
        line: 1,
        name: name(1, 2, u32::MAX),
    };
    assert!(rt;
        entries.as_slice()
            == [
                first,
                Entry {
                    line: 3,
                    name: name(5, 6, 7)
                }
            ]
            .as_slice()
    );
    Ok(())
}

#[test]
fn bad_lines_are_refused(rt: HostRuntime) -> Result<(), Fail> {
    let alloc = rt.alloc();
    let fault = read_schedule(alloc, b"0 1");
    assert!(rt; matches!(fault, Err(ScheduleFault::BadLine { line: 1 })));
    let fault = read_schedule(alloc, b"0 1 0\n\n1 2 3 4\n0 x 1\n");
    assert!(rt; matches!(fault, Err(ScheduleFault::BadLine { line: 3 })));
    let fault = read_schedule(alloc, b"0 1 4294967296");
    assert!(rt; matches!(fault, Err(ScheduleFault::BadLine { line: 1 })));
    let fault = read_schedule(alloc, b"0 +1 0");
    assert!(rt; matches!(fault, Err(ScheduleFault::BadLine { line: 1 })));
    let words = format!(in alloc; "{}", ScheduleFault::BadLine { line: 7 })?;
    assert_eq!(rt; words.as_str(), "BadLine");
    Ok(())
}

#[test]
fn a_long_schedule_is_read(rt: HostRuntime) -> Result<(), Fail> {
    let mut text = Vec::new(rt.alloc());
    for _ in 0..100_000 {
        text.extend_from_slice(b"12 30 7\n# 1 2 3\n")?;
    }
    let entries = read_schedule(rt.alloc(), &text)?;
    assert_eq!(rt; entries.len(), 100_000);
    let last = Entry {
        line: 199_999,
        name: name(12, 30, 7),
    };
    assert_eq!(rt; entries.last(), Some(&last));
    Ok(())
}
