//! Runs of the job that is made of a size.

ghost use Rattle.std.specs.Prelude.{◌≡◌, None};
ghost use Rattle.outside.specs.declared.name.Name.{Name};

use crate::test_runs::{Ran, USAGE, expect, run_on};
use outside::{MailRoom, MemFiles, TwistWire, Wire};
use std::alloc::{AllocError, Global};
use std::process::Abort;
use std::test::Fail;

/// Runs `gen` of a size over no files and this wire.
fn gen_over<W: Wire>(alloc: Global, size: &str, wire: &mut W) -> Result<Ran, AllocError>
    requires nothing_pending { (name : Name) → W.pending wire.old name ≡ None }
{
    run_on(alloc, &["gen", size], &mut MemFiles::new(alloc), wire, 1000)
}

/// What `gen` writes.
fn writes(rt: &impl Abort, alloc: Global, size: &str, text: &str) -> Result<(), Fail> {
    let ran = gen_over(alloc, size, &mut MailRoom::new(alloc))?;
    expect(rt, &ran, 0, text.as_bytes(), b"", size);
    Ok(())
}

#[test]
fn a_summary_has_four_lines(rt: HostRuntime) -> Result<(), Fail> {
    let alloc = rt.alloc();
    writes(&rt, alloc, "1", "gen 1\nentries 1\nsum 2 4\nletters 84\n")?;
    writes(&rt, alloc, "3", "gen 3\nentries 9\nsum 4 4\nletters 103\n")
}

#[test]
fn an_ordinary_size_is_run(rt: HostRuntime) -> Result<(), Fail> {
    let text = "gen 10000\nentries 49994\nsum 10001 10001\nletters 126\n";
    writes(&rt, rt.alloc(), "10000", text)
}

#[test]
fn what_arrives_is_summed(rt: HostRuntime) -> Result<(), Fail> {
    let mut wire = TwistWire::new(rt.alloc(), 1);
    let ran = gen_over(rt.alloc(), "3", &mut wire)?;
    let text = b"gen 3\nentries 9\nsum 0 -10\nletters 103\n";
    expect(&rt, &ran, 0, text, b"", "twisted");
    Ok(())
}

#[test]
fn a_wire_that_fails_is_told(rt: HostRuntime) -> Result<(), Fail> {
    let mut wire = MailRoom::new(rt.alloc());
    wire.fail_at(&[100])?;
    let ran = gen_over(rt.alloc(), "3", &mut wire)?;
    expect(&rt, &ran, 9, b"", b"tpx: wire failed\n", "failing");
    Ok(())
}

/// Words that are no size.
const OTHER_SIZES: [&str; 8] = [
    "0",
    "01",
    "1000001",
    "+3",
    "-3",
    "3x",
    "",
    "18446744073709551619",
];

#[test]
fn other_sizes_are_no_command(rt: HostRuntime) -> Result<(), Fail> {
    for size in OTHER_SIZES {
        let ran = gen_over(rt.alloc(), size, &mut MailRoom::new(rt.alloc()))?;
        expect(&rt, &ran, 2, b"", USAGE.as_bytes(), size);
    }
    Ok(())
}
