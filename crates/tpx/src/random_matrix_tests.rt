//! Transposes, products, sums and assembled matrices, on small random jobs, beside plain sums over lists of entries.

use crate::plain_matrices::{
    all_turned, assembled, combined, entries_of, number_at, parts_of, product_of, sheet_text,
    sum_of,
};
use crate::random_jobs::{
    Draw, Entry, Given, Owned, files_of, head_text, lines_text, map_text, print_text, random_given,
    random_lines, random_map, run_in_some_order,
};
use crate::test_runs::{COORDINATE, expect};
use combine_modes::Mode;
use std::alloc::{AllocError, Global};
use std::process::Abort;
use std::test::Fail;

/// How many jobs are run: with each pair of factors six or seven.
const JOBS: usize = 100;

/// What `alpha` and `beta` are.
const FACTORS: [i64; 4] = [0, 1, -1, 3];

/// The modes, those first in which the order of the letters does not matter.
const MODES: [Mode; 5] = [
    Mode::Add,
    Mode::AbsMax,
    Mode::Zero,
    Mode::Insert,
    Mode::Replace,
];

/// The word of a mode.
fn mode_word(mode: Mode) -> &'static str {
    match mode {
        Mode::Add => "add",
        Mode::AbsMax => "absmax",
        Mode::Zero => "zero",
        Mode::Insert => "insert",
        Mode::Replace => "replace",
    }
}

/// One of the modes. With more than two ranks, two letters may have one place, and then not all modes leave the same in every
/// order.
fn random_mode(draw: &mut Draw, ranks: usize) -> Mode {
    let count = if ranks > 2 { 3 } else { 5 };
    MODES.get(draw.below(count)).copied().unwrap_or(Mode::Add)
}

/// The maps of a job: the domain and the rows of A, another one of each size, and the domain of B.
#[derive(Drop)]
struct Maps {
    domain: Owned,
    rows: Owned,
    other_domain: Owned,
    other_rows: Owned,
    of_b: Owned,
}

/// What a job is made of: a matrix A, and vectors that are not used here; a matrix B, whose rows are on the domain of A; a matrix C
/// of the sizes of A, on other maps; two factors, and a mode.
#[derive(Drop)]
struct Job {
    given: Given,
    b: Vec<Entry>,
    c: Vec<Entry>,
    width: usize,
    alpha: i64,
    beta: i64,
    mode: Mode,
}

fn random_job(alloc: Global, draw: &mut Draw, number: usize) -> Result<Job, AllocError> {
    let given = random_given(alloc, draw)?;
    let (rows, cols, ranks) = (given.t.rows, given.x.rows, given.ranks);
    let width = draw.below(7);
    Ok(Job {
        given,
        b: random_lines(alloc, draw, cols, width)?,
        c: random_lines(alloc, draw, rows, cols)?,
        width,
        alpha: FACTORS.get(number & 3).copied().unwrap_or(0),
        beta: FACTORS.get((number >> 2) & 3).copied().unwrap_or(0),
        mode: random_mode(draw, ranks),
    })
}

fn random_maps(alloc: Global, draw: &mut Draw, job: &Job) -> Result<Maps, AllocError> {
    let ranks = job.given.ranks;
    Ok(Maps {
        domain: random_map(alloc, draw, ranks, job.given.x.rows)?,
        rows: random_map(alloc, draw, ranks, job.given.t.rows)?,
        other_domain: random_map(alloc, draw, ranks, job.given.x.rows)?,
        other_rows: random_map(alloc, draw, ranks, job.given.t.rows)?,
        of_b: random_map(alloc, draw, ranks, job.width)?,
    })
}

/// The tables of the maps.
fn maps_text(alloc: Global, maps: &Maps) -> Result<String, AllocError> {
    let mut text = map_text(alloc, "d", &maps.domain)?;
    text.push_str(&map_text(alloc, "r", &maps.rows)?)?;
    text.push_str(&map_text(alloc, "od", &maps.other_domain)?)?;
    text.push_str(&map_text(alloc, "or", &maps.other_rows)?)?;
    text.push_str(&map_text(alloc, "bd", &maps.of_b)?)?;
    Ok(text)
}

/// The matrices B and C, and the statements up to those with factors and a mode.
const PRODUCTS: &str =
    "[[matrix]]\nname = \"B\"\nkind = \"assembled\"\nrows = \"d\"\ndomain = \"bd\"\nfile = \"b.mtx\"\n[[matrix]]\nname = \"C\"\nkind = \"assembled\"\nrows = \"or\"\ndomain = \"od\"\nfile = \"c.mtx\"\n[[do]]\nop = \"transpose\"\nname = \"T\"\nmatrix = \"A\"\n[[do]]\nop = \"multiply\"\nname = \"P\"\na = \"A\"\nb = \"B\"\n[[do]]\nop = \"multiply\"\nname = \"Q\"\na = \"T\"\nb = \"A\"\n";

/// What the job prints.
const PRINTED: [&str; 7] = ["T", "P", "Q", "D", "E", "F", "G"];

/// The statements with factors and a mode: sums of matrices on two row maps and on one, and the split matrix that is assembled, onto
/// no places and onto the first sum.
fn combined_text(alloc: Global, job: &Job) -> Result<String, AllocError> {
    let (alpha, beta, mode) = (job.alpha, job.beta, mode_word(job.mode));
    format!(in alloc;
        "[[do]]\nop = \"add\"\nname = \"D\"\na = \"A\"\nb = \"C\"\nalpha = {alpha}\nbeta = {beta}\n[[do]]\nop = \"add\"\nname = \"E\"\na = \"D\"\nb = \"A\"\nalpha = {beta}\n[[do]]\nop = \"assemble\"\nname = \"F\"\nfrom = \"S\"\nmode = \"{mode}\"\n[[do]]\nop = \"assemble\"\nname = \"G\"\nfrom = \"S\"\nonto = \"D\"\nmode = \"{mode}\"\n"
    )
}

/// The whole job.
fn job_text(alloc: Global, job: &Job, maps: &Maps) -> Result<String, AllocError> {
    let mut text = head_text(alloc, &job.given, &maps_text(alloc, maps)?)?;
    text.push_str(PRODUCTS)?;
    text.push_str(&combined_text(alloc, job)?)?;
    for name in PRINTED {
        text.push_str(&print_text(alloc, name)?)?;
    }
    Ok(text)
}

/// The transpose and the products.
fn printed_products(alloc: Global, job: &Job, a: &[Entry]) -> Result<String, AllocError> {
    let (rows, cols) = (job.given.t.rows, job.given.x.rows);
    let t = all_turned(alloc, a)?;
    let mut text = sheet_text(alloc, &t, cols, rows)?;
    let p = product_of(alloc, a, &job.b)?;
    text.push_str(&sheet_text(alloc, &p, rows, job.width)?)?;
    let q = product_of(alloc, &t, a)?;
    text.push_str(&sheet_text(alloc, &q, cols, cols)?)?;
    Ok(text)
}

/// The sums, and the split matrix as it is assembled.
fn printed_sums(
    alloc: Global,
    job: &Job,
    a: &[Entry],
    owners: &[usize],
) -> Result<String, AllocError> {
    let (rows, cols) = (job.given.t.rows, job.given.x.rows);
    let d = sum_of(alloc, a, &job.c, job.alpha, job.beta)?;
    let mut text = sheet_text(alloc, &d, rows, cols)?;
    let e = sum_of(alloc, &d, a, job.beta, 1)?;
    text.push_str(&sheet_text(alloc, &e, rows, cols)?)?;
    let parts = parts_of(alloc, &job.given)?;
    let f = assembled(alloc, &parts, owners, cols, &[], job.mode)?;
    text.push_str(&sheet_text(alloc, &f, rows, cols)?)?;
    let g = assembled(alloc, &parts, owners, cols, &d, job.mode)?;
    text.push_str(&sheet_text(alloc, &g, rows, cols)?)?;
    Ok(text)
}

/// The file of B or C.
fn file_text(
    alloc: Global,
    rows: usize,
    cols: usize,
    entries: &[Entry],
) -> Result<String, AllocError> {
    let lines = lines_text(alloc, rows, cols, entries)?;
    format!(in alloc; "{COORDINATE}{lines}")
}

/// A random job prints what the plain sums are.
fn is_plain(rt: &impl Abort, alloc: Global, draw: &mut Draw, number: usize) -> Result<(), Fail> {
    let job = random_job(alloc, draw, number)?;
    let maps = random_maps(alloc, draw, &job)?;
    let (rows, cols) = (job.given.t.rows, job.given.x.rows);
    let text = job_text(alloc, &job, &maps)?;
    let a = entries_of(alloc, &job.given)?;
    let mut wanted = printed_products(alloc, &job, &a)?;
    wanted.push_str(&printed_sums(alloc, &job, &a, &maps.rows.owners)?)?;
    let mut files = files_of(alloc, &job.given, &text)?;
    let b = file_text(alloc, cols, job.width, &job.b)?;
    files.put("b.mtx", b.as_bytes())?;
    let c = file_text(alloc, rows, cols, &job.c)?;
    files.put("c.mtx", c.as_bytes())?;
    let ran = run_in_some_order(alloc, draw, &mut files)?;
    expect(rt, &ran, 0, wanted.as_bytes(), b"", &text);
    Ok(())
}

/// The random jobs of a seed print what the plain sums are.
fn all_are_plain(rt: &impl Abort, alloc: Global, seed: usize) -> Result<(), Fail> {
    let mut draw = Draw { state: seed };
    for number in 0..JOBS {
        is_plain(rt, alloc, &mut draw, number)?;
    }
    Ok(())
}

#[test]
fn every_statement_on_matrices_is_the_plain_sum(rt: HostRuntime) -> Result<(), Fail> {
    all_are_plain(&rt, rt.alloc(), 2)
}

#[test]
fn from_another_seed_too(rt: HostRuntime) -> Result<(), Fail> {
    all_are_plain(&rt, rt.alloc(), 3)
}

/// A matrix with the rows 1 2 and 3 0, the 0 being stored.
const SMALL: [Entry; 4] = [
    Entry {
        row: 0,
        col: 0,
        value: 1,
    },
    Entry {
        row: 0,
        col: 1,
        value: 2,
    },
    Entry {
        row: 1,
        col: 0,
        value: 3,
    },
    Entry {
        row: 1,
        col: 1,
        value: 0,
    },
];

/// A matrix with the one place (1, 0).
const LONE: [Entry; 1] = [Entry {
    row: 1,
    col: 0,
    value: -4,
}];

#[test]
fn the_plain_sums_are_as_worked_by_hand(rt: HostRuntime) -> Result<(), Fail> {
    let alloc = rt.alloc();
    let product = product_of(alloc, &SMALL, &LONE)?;
    assert_eq!(rt; number_at(&product, 0, 0), Some(-8));
    assert_eq!(rt; number_at(&product, 1, 0), Some(0));
    assert_eq!(rt; number_at(&product, 0, 1), None);
    let sum = sum_of(alloc, &SMALL, &LONE, 2, -1)?;
    let text = sheet_text(alloc, &sum, 2, 2)?;
    let wanted =
        "%%MatrixMarket matrix coordinate integer general\n2 2 4\n1 1 2\n1 2 4\n2 1 10\n2 2 0\n";
    assert_eq!(rt; text.as_str(), wanted);
    let turned = all_turned(alloc, &LONE)?;
    assert_eq!(rt; number_at(&turned, 0, 1), Some(-4));
    Ok(())
}

/// A mode, the number that was there, and what a place has after 5 and -7 came for it, and after none came.
const COMBINED: [(Mode, Option<i64>, Option<i64>); 10] = [
    (Mode::Add, None, Some(-2)),
    (Mode::Add, Some(1), Some(-1)),
    (Mode::AbsMax, None, Some(7)),
    (Mode::AbsMax, Some(-9), Some(9)),
    (Mode::Zero, None, None),
    (Mode::Zero, Some(1), Some(0)),
    (Mode::Insert, None, Some(5)),
    (Mode::Insert, Some(1), Some(1)),
    (Mode::Replace, None, None),
    (Mode::Replace, Some(1), Some(-7)),
];

#[test]
fn plain_modes_are_as_in_their_table(rt: HostRuntime) -> Result<(), Fail> {
    for (mode, old, wanted) in COMBINED {
        assert_eq!(rt; combined(mode, old, &[5, -7]), wanted);
        assert_eq!(rt; combined(mode, old, &[]), old);
    }
    Ok(())
}
