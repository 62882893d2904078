//! Runs of commands over files, a wire and sinks in memory, for the tests: one by one, and tables of them.
ghost use Rattle.std.specs.Prelude.{◌≡◌, None};
ghost use Rattle.outside.specs.declared.name.Name.{Name};

use crate::top_call::top;
use outside::{MailRoom, MemFiles, MemSink, TwistWire, Wire};
use std::alloc::{AllocError, Global};
use std::process::Abort;
use std::test::Fail;

/// The file of a vector x on a map of 3 indices.
pub const X: &str = "%%MatrixMarket matrix array integer general\n3 1\n1\n10\n100\n";

/// The first line of the text of an array.
pub const ARRAY: &str = "%%MatrixMarket matrix array integer general\n";

/// The first line of the text of a coordinate file.
pub const COORDINATE: &str = "%%MatrixMarket matrix coordinate integer general\n";

/// A matrix.
pub const A: &str =
    "%%MatrixMarket matrix coordinate integer general\n3 3 4\n1 1 2\n1 3 5\n3 1 -1\n2 2 3\n";

/// What is printed of it.
pub const A_SHOWN: &str =
    "%%MatrixMarket matrix coordinate integer general\n3 3 4\n1 1 2\n1 3 5\n2 2 3\n3 1 -1\n";

/// What is said of words that are no command.
pub const USAGE: &str =
    "tpx: usage: tpx show RANKS FILE; tpx run JOB [--schedule FILE] [--order fifo, lifo or seed] [--seed N] [--traffic]; tpx gen N\n";

/// What a run left.
#[derive(Drop)]
pub struct Ran {
    pub status: u8,
    pub out: MemSink,
    pub err: MemSink,
}

/// Runs the words over these files, this wire and these sinks.
pub fn run_over<W: Wire>(
    alloc: Global,
    texts: &[&str],
    files: &mut MemFiles,
    wire: &mut W,
    mut out: MemSink,
    mut err: MemSink,
) -> Result<Ran, AllocError>
    requires nothing_pending { (name : Name) → W.pending wire.old name ≡ None }
{
    let mut words = Vec::new(alloc);
    for text in texts {
        words.push(String::from_str(alloc, text)?)?;
    }
    let status = top(alloc, &words, files, wire, &mut out, &mut err);
    Ok(Ran { status, out, err })
}

/// Runs the words over these files, this wire, and this room for the output.
pub fn run_on<W: Wire>(
    alloc: Global,
    texts: &[&str],
    files: &mut MemFiles,
    wire: &mut W,
    room: u64,
) -> Result<Ran, AllocError>
    requires nothing_pending { (name : Name) → W.pending wire.old name ≡ None }
{
    let out = MemSink::new(alloc, room)?;
    let err = MemSink::new(alloc, 1000)?;
    run_over(alloc, texts, files, wire, out, err)
}

/// Runs `show` over one file.
pub fn show(alloc: Global, ranks: &str, name: &str, text: &[u8]) -> Result<Ran, AllocError> {
    let mut files = MemFiles::new(alloc);
    files.put(name, text)?;
    let mut wire = MailRoom::new(alloc);
    let room = 10_000_000;
    run_on(alloc, &["show", ranks, name], &mut files, &mut wire, room)
}

/// The run ended with this status, this text and this message.
pub fn expect(rt: &impl Abort, ran: &Ran, status: u8, text: &[u8], message: &[u8], name: &str) {
    assert_eq!(rt; ran.status, status, "{name}");
    assert_eq!(rt; ran.out.bytes(), text, "{name}");
    assert_eq!(rt; ran.err.bytes(), message, "{name}");
}

/// A run of a job, and what it leaves. Longer texts are given in pieces.
#[derive(Clone, Copy)]
pub struct Case {
    /// What the run shows.
    pub name: &'static str,
    pub words: &'static [&'static str],
    /// The text of `j.toml`.
    pub job: &'static [&'static str],
    /// The text of `x.mtx`.
    pub x: &'static str,
    /// The text of `a.mtx`.
    pub a: &'static str,
    /// The array texts of `p0`, `p1`, .., without their first lines.
    pub parts: &'static [&'static str],
    /// The text of `s`.
    pub schedule: &'static [&'static str],
    pub status: u8,
    /// What is on standard output.
    pub text: &'static [&'static str],
    /// What is on standard error.
    pub message: &'static str,
}

/// The words `run j.toml` over x, the matrix and an empty schedule, which succeed and print nothing.
pub const CASE: Case = Case {
    name: "",
    words: &["run", "j.toml"],
    job: &[],
    x: X,
    a: A,
    parts: &[],
    schedule: &[],
    status: 0,
    text: &[],
    message: "",
};

/// The words that name the schedule.
pub const BY_SCHEDULE: &[&str] = &["run", "j.toml", "--schedule", "s"];

/// The words that ask for the traffic.
pub const WITH_TRAFFIC: &[&str] = &["run", "j.toml", "--traffic"];

/// The pieces as one text.
pub fn joined(alloc: Global, pieces: &[&str]) -> Result<String, AllocError> {
    let mut text = String::new(alloc);
    for piece in pieces {
        text.push_str(piece)?;
    }
    Ok(text)
}

/// Puts the array texts of these lines as `p0`, `p1`, .. .
fn put_parts(alloc: Global, parts: &[&str], files: &mut MemFiles) -> Result<(), AllocError> {
    let mut rank = 0u32;
    for lines in parts {
        let name = format!(in alloc; "p{rank}")?;
        let text = format!(in alloc; "{ARRAY}{lines}")?;
        files.put(&name, text.as_bytes())?;
        rank = rank.wrapping_add(1);
    }
    Ok(())
}

/// The files of a case.
pub fn files_of(alloc: Global, case: &Case) -> Result<MemFiles, AllocError> {
    let mut files = MemFiles::new(alloc);
    files.put("j.toml", joined(alloc, case.job)?.as_bytes())?;
    files.put("x.mtx", case.x.as_bytes())?;
    files.put("a.mtx", case.a.as_bytes())?;
    files.put("s", joined(alloc, case.schedule)?.as_bytes())?;
    put_parts(alloc, case.parts, &mut files)?;
    Ok(files)
}

/// Runs a case over this wire.
pub fn run_case<W: Wire>(alloc: Global, case: &Case, wire: &mut W) -> Result<Ran, AllocError>
    requires nothing_pending { (name : Name) → W.pending wire.old name ≡ None }
{
    let mut files = files_of(alloc, case)?;
    run_on(alloc, case.words, &mut files, wire, 1000)
}

/// The run left what stands in the case.
fn expect_case(rt: &impl Abort, alloc: Global, ran: &Ran, case: &Case) -> Result<(), Fail> {
    let text = joined(alloc, case.text)?;
    expect(
        rt,
        ran,
        case.status,
        text.as_bytes(),
        case.message.as_bytes(),
        case.name,
    );
    Ok(())
}

/// Each case leaves what stands in it.
pub fn each(rt: &impl Abort, alloc: Global, cases: &[Case]) -> Result<(), Fail> {
    for case in cases {
        let ran = run_case(alloc, case, &mut MailRoom::new(alloc))?;
        expect_case(rt, alloc, &ran, case)?;
    }
    Ok(())
}

/// The words of four orders in which every letter is delivered.
const ORDERS: [&[&str]; 4] = [
    &["run", "j.toml", "--order", "fifo"],
    &["run", "j.toml", "--order", "lifo"],
    &["run", "j.toml", "--order=seed", "--seed=1"],
    &["run", "j.toml", "--order=seed", "--seed=2"],
];

/// Each case leaves what stands in it where these are the words.
fn each_by(
    rt: &impl Abort,
    alloc: Global,
    words: &'static [&'static str],
    cases: &[Case],
) -> Result<(), Fail> {
    for case in cases {
        let mut case = *case;
        case.words = words;
        let ran = run_case(alloc, &case, &mut MailRoom::new(alloc))?;
        expect_case(rt, alloc, &ran, &case)?;
    }
    Ok(())
}

/// Each case leaves what stands in it in every order.
pub fn each_in_every_order(rt: &impl Abort, alloc: Global, cases: &[Case]) -> Result<(), Fail> {
    for words in ORDERS {
        each_by(rt, alloc, words, cases)?;
    }
    Ok(())
}

/// The run ends with status 9 where the wire fails at this call.
fn fails_at(rt: &impl Abort, alloc: Global, case: &Case, call: u64) -> Result<(), Fail> {
    let mut wire = MailRoom::new(alloc);
    wire.fail_at(&[call])?;
    let ran = run_case(alloc, case, &mut wire)?;
    expect(rt, &ran, 9, b"", b"tpx: wire failed\n", case.name);
    Ok(())
}

/// The run makes this many calls on its wire: it ends with status 9 where one of them fails, and leaves what stands in the case
/// where a later one would.
pub fn each_fault(rt: &impl Abort, alloc: Global, case: &Case, calls: u64) -> Result<(), Fail> {
    for call in 0..calls {
        fails_at(rt, alloc, case, call)?;
    }
    let mut wire = MailRoom::new(alloc);
    wire.fail_at(&[calls])?;
    let ran = run_case(alloc, case, &mut wire)?;
    expect_case(rt, alloc, &ran, case)
}

/// Each case leaves what stands in it where the wire adds this to the numbers that it gives.
pub fn each_twisted(rt: &impl Abort, alloc: Global, by: u64, cases: &[Case]) -> Result<(), Fail> {
    for case in cases {
        let ran = run_case(alloc, case, &mut TwistWire::new(alloc, by))?;
        expect_case(rt, alloc, &ran, case)?;
    }
    Ok(())
}
