//! Whole commands, over files and sinks in memory.
use crate::fault::Fault;
use crate::messages::report;
use crate::test_runs::{
    A, A_SHOWN, COORDINATE, Ran, USAGE, expect, joined, run_on, run_over, show,
};
use mm_text::MmFault;
use outside::{MailRoom, MemFiles, MemSink};
use run_input::{FileName, TextFault};
use std::alloc::{AllocError, Global};
use std::process::Abort;
use std::test::Fail;

/// The files with `a.mtx` alone.
fn files_with_a(alloc: Global) -> Result<MemFiles, AllocError> {
    let mut files = MemFiles::new(alloc);
    files.put("a.mtx", A.as_bytes())?;
    Ok(files)
}

/// The words over these files and this room for the output end with this status, text and message.
fn ends(
    rt: &impl Abort,
    alloc: Global,
    words: &[&str],
    files: &mut MemFiles,
    room: u64,
    status: u8,
    text: &[u8],
    message: &str,
) -> Result<(), Fail> {
    let ran = run_on(alloc, words, files, &mut MailRoom::new(alloc), room)?;
    expect(rt, &ran, status, text, message.as_bytes(), "ends");
    Ok(())
}

const OTHER_WORDS: [&[&str]; 10] = [
    &[],
    &["show"],
    &["show", "2"],
    &["show", "0", "a.mtx"],
    &["show", "33", "a.mtx"],
    &["show", "02", "a.mtx"],
    &["show", "+2", "a.mtx"],
    &["show", "100", "a.mtx"],
    &["show", "2", "a.mtx", "a.mtx"],
    &["SHOW", "2", "a.mtx"],
];

#[test]
fn other_words_are_no_command(rt: HostRuntime) -> Result<(), Fail> {
    let mut files = files_with_a(rt.alloc())?;
    for words in &OTHER_WORDS {
        ends(&rt, rt.alloc(), words, &mut files, 100, 2, b"", USAGE)?;
    }
    Ok(())
}

/// The words that show `a.mtx`.
const SHOW_A: [&str; 3] = ["show", "2", "a.mtx"];

#[test]
fn reads_that_fail_are_named(rt: HostRuntime) -> Result<(), Fail> {
    let alloc = rt.alloc();
    let mut files = files_with_a(alloc)?;
    let words = ["show", "2", "none.mtx"];
    let message = "tpx: cannot read none.mtx\n";
    ends(&rt, alloc, &words, &mut files, 100, 3, b"", message)?;
    files.fail_at(&[1])?;
    let message = "tpx: cannot read a.mtx\n";
    ends(&rt, alloc, &SHOW_A, &mut files, 100, 3, b"", message)
}

/// Shows `a.mtx` where the first write fails.
fn run_unwritten(alloc: Global) -> Result<Ran, AllocError> {
    let mut files = files_with_a(alloc)?;
    let mut wire = MailRoom::new(alloc);
    let mut out = MemSink::new(alloc, 100)?;
    out.fail_at(&[0])?;
    let err = MemSink::new(alloc, 1000)?;
    run_over(alloc, &SHOW_A, &mut files, &mut wire, out, err)
}

#[test]
fn writes_that_fail_leave_a_prefix(rt: HostRuntime) -> Result<(), Fail> {
    let alloc = rt.alloc();
    let message = "tpx: cannot write\n";
    let ran = run_unwritten(alloc)?;
    expect(&rt, &ran, 4, b"", message.as_bytes(), "the first write");
    let mut files = files_with_a(alloc)?;
    let prefix = &A_SHOWN.as_bytes()[..60];
    ends(&rt, alloc, &SHOW_A, &mut files, 60, 4, prefix, message)
}

/// The fault of the first `n` bytes of `A`, if they have one.
fn fault_of_cut(n: usize) -> Option<&'static str> {
    match n {
        0..=13 => Some("NoBanner"),
        14..=47 => Some("BadBanner"),
        48..=53 => Some("BadSize"),
        54..=55 => Some("TooFew 0"),
        56..=59 => Some("BadLine 3"),
        60..=61 => Some("TooFew 1"),
        62..=65 => Some("BadLine 4"),
        66..=67 => Some("TooFew 2"),
        68..=72 => Some("BadLine 5"),
        73..=74 => Some("TooFew 3"),
        75..=78 => Some("BadLine 6"),
        _ => None,
    }
}

/// What a run of the first `n` bytes of `A` leaves.
fn is_cut(rt: &impl Abort, alloc: Global, n: usize, cut: &[u8]) -> Result<(), Fail> {
    let ran = show(alloc, "2", "a.mtx", cut)?;
    let Some(fault) = fault_of_cut(n) else {
        expect(rt, &ran, 0, A_SHOWN.as_bytes(), b"", "whole");
        return Ok(());
    };
    let message = format!(in alloc; "tpx: a.mtx: {fault}\n")?;
    expect(rt, &ran, 5, b"", message.as_bytes(), fault);
    Ok(())
}

#[test]
fn a_cut_file_is_refused_where_it_ends(rt: HostRuntime) -> Result<(), Fail> {
    let whole = A.as_bytes();
    assert_eq!(rt; whole.len(), 80);
    for n in 0..81 {
        is_cut(&rt, rt.alloc(), n, &whole[..n])?;
    }
    Ok(())
}

/// The faults of a text, and how they are named.
const FAULTS_OF_TEXTS: [(MmFault, &str); 15] = [
    (MmFault::NoBanner, "tpx: f: NoBanner\n"),
    (MmFault::BadBanner, "tpx: f: BadBanner\n"),
    (MmFault::UnsupportedField, "tpx: f: UnsupportedField\n"),
    (
        MmFault::UnsupportedSymmetry,
        "tpx: f: UnsupportedSymmetry\n",
    ),
    (MmFault::WrongForm, "tpx: f: WrongForm\n"),
    (MmFault::BadSize, "tpx: f: BadSize\n"),
    (MmFault::BadLine { line: 1 }, "tpx: f: BadLine 1\n"),
    (MmFault::OutOfRange { line: 20 }, "tpx: f: OutOfRange 20\n"),
    (MmFault::NotSquare, "tpx: f: NotSquare\n"),
    (
        MmFault::SkewDiagonal { line: 3 },
        "tpx: f: SkewDiagonal 3\n",
    ),
    (MmFault::TooFew { have: 0 }, "tpx: f: TooFew 0\n"),
    (
        MmFault::Extra { line: 4294967295 },
        "tpx: f: Extra 4294967295\n",
    ),
    (
        MmFault::NumberTooWide { line: 4 },
        "tpx: f: NumberTooWide 4\n",
    ),
    (MmFault::TooManyEntries, "tpx: f: TooManyEntries\n"),
    (MmFault::TooLong, "tpx: f: TooLong\n"),
];

/// The report of a text that is refused for this.
fn reported(alloc: Global, fault: MmFault) -> Result<(u8, MemSink), AllocError> {
    let mut err = MemSink::new(alloc, 100)?;
    let fault = TextFault::Matrix(fault);
    let file = FileName::Word("f");
    let ended = Err(Fault::Refused { file, fault });
    let status = report(&mut err, &ended);
    Ok((status, err))
}

#[test]
fn each_fault_of_a_text_has_its_name(rt: HostRuntime) -> Result<(), Fail> {
    for (fault, message) in FAULTS_OF_TEXTS {
        let (status, err) = reported(rt.alloc(), fault)?;
        assert_eq!(rt; status, 5, "{message}");
        assert_eq!(rt; err.bytes(), message.as_bytes());
    }
    Ok(())
}

/// A matrix of 200000 rows with an entry each.
fn large(alloc: Global) -> Result<String, AllocError> {
    let mut text = format!(in alloc; "{COORDINATE}200000 7 200000\n")?;
    for row in 1..200001u32 {
        let line = format!(in alloc; "{row} {} -{row}\n", row % 7 + 1)?;
        text.push_str(&line)?;
    }
    Ok(text)
}

#[test]
fn a_large_matrix_goes_through(rt: HostRuntime) -> Result<(), Fail> {
    let text = large(rt.alloc())?;
    let ran = show(rt.alloc(), "3", "large.mtx", text.as_bytes())?;
    expect(&rt, &ran, 0, text.as_bytes(), b"", "large");
    Ok(())
}

/// So many times this piece behind the text.
fn push_often(text: &mut String, piece: &str) -> Result<(), AllocError> {
    for _ in 0..200000u32 {
        text.push_str(piece)?;
    }
    Ok(())
}

/// A matrix with long lines.
fn long(alloc: Global) -> Result<String, AllocError> {
    let mut text = format!(in alloc; "{COORDINATE}%")?;
    push_often(&mut text, "c")?;
    text.push_str("\n1 1 1\n1 1 ")?;
    push_often(&mut text, "0")?;
    text.push_str("7\n")?;
    Ok(text)
}

#[test]
fn long_lines_are_read(rt: HostRuntime) -> Result<(), Fail> {
    let text = long(rt.alloc())?;
    let ran = show(rt.alloc(), "1", "long.mtx", text.as_bytes())?;
    let shown = b"%%MatrixMarket matrix coordinate integer general\n1 1 1\n1 1 7\n";
    expect(&rt, &ran, 0, shown, b"", "long lines");
    Ok(())
}

/// A run of `show` whose message is not written whole.
#[derive(Clone, Copy)]
struct Unsaid {
    ranks: &'static str,
    file: &'static str,
    /// The text of `a.mtx`, in pieces.
    matrix: &'static [&'static str],
    /// The room for the output.
    room: u64,
    status: u8,
    /// What is written of the message where there is room for 5 bytes.
    prefix: &'static str,
}

/// The words `show 2 a.mtx` over `A`, of whose message a prefix is written.
const UNSAID: Unsaid = Unsaid {
    ranks: "2",
    file: "a.mtx",
    matrix: &[A],
    room: 1000,
    status: 0,
    prefix: "tpx: ",
};

const UNSAIDS: [Unsaid; 6] = [
    Unsaid {
        prefix: "",
        ..UNSAID
    },
    Unsaid {
        ranks: "0",
        status: 2,
        ..UNSAID
    },
    Unsaid {
        file: "none.mtx",
        status: 3,
        ..UNSAID
    },
    Unsaid {
        room: 60,
        status: 4,
        ..UNSAID
    },
    Unsaid {
        matrix: &[COORDINATE, "1 1 1\n1 1 5\n1 1 1\n"],
        status: 5,
        ..UNSAID
    },
    Unsaid {
        matrix: &[
            COORDINATE,
            "1 1 2\n1 1 170141183460469231731687303715884105727\n1 1 1\n",
        ],
        status: 7,
        ..UNSAID
    },
];

/// Makes such a run with this standard error.
fn run_unsaid(alloc: Global, case: &Unsaid, err: MemSink) -> Result<Ran, AllocError> {
    let mut files = MemFiles::new(alloc);
    files.put("a.mtx", joined(alloc, case.matrix)?.as_bytes())?;
    let mut wire = MailRoom::new(alloc);
    let out = MemSink::new(alloc, case.room)?;
    let words = &["show", case.ranks, case.file];
    run_over(alloc, words, &mut files, &mut wire, out, err)
}

/// A standard error whose first write fails.
fn failing(alloc: Global) -> Result<MemSink, AllocError> {
    let mut err = MemSink::new(alloc, 1000)?;
    err.fail_at(&[0])?;
    Ok(err)
}

/// The run ended with this status, and wrote this on standard error.
fn expect_error(rt: &impl Abort, ran: &Ran, status: u8, message: &str) {
    assert_eq!(rt; ran.status, status);
    assert_eq!(rt; ran.err.bytes(), message.as_bytes());
}

#[test]
fn a_failing_standard_error_changes_no_status(rt: HostRuntime) -> Result<(), Fail> {
    for case in &UNSAIDS {
        let ran = run_unsaid(rt.alloc(), case, failing(rt.alloc())?)?;
        expect_error(&rt, &ran, case.status, "");
    }
    Ok(())
}

#[test]
fn a_full_standard_error_changes_no_status(rt: HostRuntime) -> Result<(), Fail> {
    for case in &UNSAIDS {
        let ran = run_unsaid(rt.alloc(), case, MemSink::new(rt.alloc(), 5)?)?;
        expect_error(&rt, &ran, case.status, case.prefix);
    }
    Ok(())
}
