//! Whole runs of jobs, over files, a wire and sinks in memory.
use crate::test_runs::{BY_SCHEDULE, CASE, COORDINATE, Case, USAGE, X, each, expect, run_on};
use outside::{MailRoom, MemFiles};
use std::alloc::Global;
use std::process::Abort;
use std::test::Fail;

/// A job that takes x from itself, twice x less x.
const JOB: &str =
    "ranks = 2\n[[map]]\nname = \"u\"\nkind = \"uniform\"\nsize = 3\n[[vector]]\nname = \"x\"\nmap = \"u\"\nfile = \"x.mtx\"\n[[do]]\nop = \"update\"\nname = \"z\"\nx = \"x\"\ny = \"x\"\nalpha = 2\nbeta = -1\n[[do]]\nop = \"print\"\nvalue = \"z\"\n";

/// A vector is updated with itself.
const UPDATED: Case = Case {
    job: &[JOB],
    schedule: &["# no line\n"],
    text: &[X],
    ..CASE
};

const IN_EVERY_ORDER: [Case; 5] = [
    Case {
        name: "no order",
        ..UPDATED
    },
    Case {
        name: "fifo",
        words: &["run", "--order", "fifo", "j.toml"],
        ..UPDATED
    },
    Case {
        name: "lifo",
        words: &["run", "j.toml", "--order=lifo"],
        ..UPDATED
    },
    Case {
        name: "a seed",
        words: &["run", "j.toml", "--order", "seed", "--seed", "7"],
        ..UPDATED
    },
    Case {
        name: "a schedule",
        words: BY_SCHEDULE,
        ..UPDATED
    },
];

const PRINTED: [Case; 2] = [
    Case {
        name: "the traffic follows the values",
        words: &["run", "--traffic", "j.toml"],
        job: &[JOB],
        text: &[X, "traffic 0 0\n"],
        ..CASE
    },
    Case {
        name: "parts are printed for each rank",
        job: &[
            "ranks = 2\n[[map]]\nname = \"u\"\nkind = \"uniform\"\nsize = 3\n[[parts]]\nname = \"p\"\nmap = \"u\"\nfill = 5\n[[do]]\nop = \"scale\"\nname = \"q\"\nvalue = \"p\"\nalpha = -2\n[[do]]\nop = \"print\"\nvalue = \"q\"\n",
        ],
        text: &[
            COORDINATE,
            "% part 0\n3 1 2\n1 1 -10\n2 1 -10\n",
            COORDINATE,
            "% part 1\n3 1 1\n3 1 -10\n",
        ],
        ..CASE
    },
];

/// A file is refused.
const REFUSED: Case = Case {
    job: &[JOB],
    status: 5,
    ..CASE
};

const FAULTS: [Case; 6] = [
    Case {
        name: "a job with no ranks",
        job: &[],
        message: "tpx: j.toml: Missing ranks\n",
        ..REFUSED
    },
    Case {
        name: "a short x",
        x: "%%MatrixMarket matrix array integer general\n2 1\n1\n10\n",
        message: "tpx: j.toml: SizeMismatch x\n",
        ..REFUSED
    },
    Case {
        name: "a cut x",
        x: "%%MatrixMarket matrix array integer general\n3 1\n1\n10\n",
        message: "tpx: x.mtx: TooFew 2\n",
        ..REFUSED
    },
    Case {
        name: "a bad line of the schedule",
        words: BY_SCHEDULE,
        schedule: &["0 1\n"],
        message: "tpx: s: BadLine 1\n",
        ..REFUSED
    },
    Case {
        name: "a line that names no letter in flight",
        words: BY_SCHEDULE,
        schedule: &["# a\n\n3 0 1\n0 0 1\n"],
        status: 8,
        message: "tpx: line 3: 3 0 1 is not in flight\n",
        ..REFUSED
    },
    Case {
        name: "a cell that is over",
        x: "%%MatrixMarket matrix array integer general\n3 1\n1\n10\n170141183460469231731687303715884105727\n",
        status: 7,
        message: "tpx: overflow\n",
        ..REFUSED
    },
];

/// The words are no command.
const NO_COMMAND: Case = Case {
    name: "no command",
    job: &[JOB],
    status: 2,
    message: USAGE,
    ..CASE
};

const OTHER_WORDS: [Case; 5] = [
    Case {
        words: &["run"],
        ..NO_COMMAND
    },
    Case {
        words: &["run", "j.toml", "j.toml"],
        ..NO_COMMAND
    },
    Case {
        words: &["run", "j.toml", "--order", "lifo", "--schedule", "s"],
        ..NO_COMMAND
    },
    Case {
        words: &["run", "j.toml", "--seed", "4"],
        ..NO_COMMAND
    },
    Case {
        words: &["run", "j.toml", "--help"],
        ..NO_COMMAND
    },
];

#[test]
fn runs_leave_what_stands_in_the_tables(rt: HostRuntime) -> Result<(), Fail> {
    let alloc = rt.alloc();
    each(&rt, alloc, &IN_EVERY_ORDER)?;
    each(&rt, alloc, &PRINTED)?;
    each(&rt, alloc, &FAULTS)?;
    each(&rt, alloc, &OTHER_WORDS)
}

/// The words over these files and this room for the output end with this status, text and message.
fn ends(
    rt: &impl Abort,
    alloc: Global,
    words: &[&str],
    files: &mut MemFiles,
    room: u64,
    status: u8,
    text: &[u8],
    message: &[u8],
) -> Result<(), Fail> {
    let ran = run_on(alloc, words, files, &mut MailRoom::new(alloc), room)?;
    expect(rt, &ran, status, text, message, "reads and writes");
    Ok(())
}

#[test]
fn reads_and_writes_may_fail(rt: HostRuntime) -> Result<(), Fail> {
    let alloc = rt.alloc();
    let words = CASE.words;
    let mut files = MemFiles::new(alloc);
    files.put("j.toml", JOB.as_bytes())?;
    let message = b"tpx: cannot read x.mtx\n";
    ends(&rt, alloc, words, &mut files, 1000, 3, b"", message)?;
    files.put("x.mtx", X.as_bytes())?;
    let absent = ["run", "j.toml", "--schedule", "none"];
    let message = b"tpx: cannot read none\n";
    ends(&rt, alloc, &absent, &mut files, 1000, 3, b"", message)?;
    let prefix = &X.as_bytes()[..10];
    let message = b"tpx: cannot write\n";
    ends(&rt, alloc, words, &mut files, 10, 4, prefix, message)
}
