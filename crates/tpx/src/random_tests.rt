//! Every form of `apply`, on small random jobs, beside a plain evaluation of its sums.

use crate::plain_matrices::{all_turned, entries_of, sheet_text};
use crate::random_jobs::{
    Dense, Draw, Entry, Given, array_text, files_of, head_text, map_text, print_text, random_given,
    random_map, run_in_some_order,
};
use crate::test_runs::expect;
use std::alloc::{AllocError, Global};
use std::process::Abort;
use std::test::Fail;

/// How many jobs are run: each form has each pair of factors six times.
const JOBS: usize = 96;

/// What `alpha` and `beta` are.
const FACTORS: [i64; 4] = [0, 1, -1, 3];

/// The product of a matrix with a vector, at one row and one column of the vector.
fn product_at(entries: &[Entry], x: &Dense, row: usize, column: usize) -> i64 {
    let mut sum = 0i64;
    for entry in entries {
        if entry.row == row {
            sum = sum.wrapping_add(entry.value.wrapping_mul(x.at(entry.col, column)));
        }
    }
    sum
}

/// `alpha A x + beta y`, A being the matrix of the entries.
fn applied(
    alloc: Global,
    entries: &[Entry],
    x: &Dense,
    y: &Dense,
    alpha: i64,
    beta: i64,
) -> Result<Dense, AllocError> {
    let (rows, columns) = (y.rows, y.columns);
    let mut numbers = Vec::new(alloc);
    for column in 0..columns {
        for row in 0..rows {
            let product = alpha.wrapping_mul(product_at(entries, x, row, column));
            numbers.push(product.wrapping_add(beta.wrapping_mul(y.at(row, column))))?;
        }
    }
    Ok(Dense {
        rows,
        columns,
        numbers,
    })
}

/// A form of a product: of a split matrix or of an assembled one, of its transpose or of itself, with or without y.
#[derive(Clone, Copy)]
struct Form {
    is_split: bool,
    is_transposed: bool,
    has_y: bool,
}

/// How many forms there are.
const FORMS: usize = 8;

/// The form of this number.
fn form_of(number: usize) -> Form {
    Form {
        is_split: number & 4 == 4,
        is_transposed: number & 2 == 2,
        has_y: number & 1 == 1,
    }
}

/// The statements of a form: the product, and that it is printed.
fn form_text(alloc: Global, number: usize, alpha: i64, beta: i64) -> Result<String, AllocError> {
    let form = form_of(number);
    let matrix = if form.is_split { "S" } else { "A" };
    let (x, y) = if form.is_transposed {
        ("t", "x")
    } else {
        ("x", "t")
    };
    let mut added = String::new(alloc);
    if form.has_y {
        added = format!(in alloc; "y = \"{y}\"\n")?;
    }
    let is_transposed = form.is_transposed;
    format!(in alloc;
        "[[do]]\nop = \"apply\"\nname = \"v{number}\"\nmatrix = \"{matrix}\"\nx = \"{x}\"\n{added}alpha = {alpha}\nbeta = {beta}\ntransposed = {is_transposed}\n[[do]]\nop = \"print\"\nvalue = \"v{number}\"\n"
    )
}

/// The whole job.
fn job_text(
    alloc: Global,
    draw: &mut Draw,
    given: &Given,
    alpha: i64,
    beta: i64,
) -> Result<String, AllocError> {
    let domain = random_map(alloc, draw, given.ranks, given.x.rows)?;
    let rows = random_map(alloc, draw, given.ranks, given.t.rows)?;
    let mut maps = map_text(alloc, "d", &domain)?;
    maps.push_str(&map_text(alloc, "r", &rows)?)?;
    let mut text = head_text(alloc, given, &maps)?;
    text.push_str(&print_text(alloc, "A")?)?;
    for number in 0..FORMS {
        text.push_str(&form_text(alloc, number, alpha, beta)?)?;
    }
    Ok(text)
}

/// The vector of a form. Without y, `beta` is a factor of zeros.
fn vector_of(
    alloc: Global,
    given: &Given,
    form: Form,
    alpha: i64,
    beta: i64,
) -> Result<Dense, AllocError> {
    let entries = entries_of(alloc, given)?;
    let beta = if form.has_y { beta } else { 0 };
    if form.is_transposed {
        let entries = all_turned(alloc, &entries)?;
        return applied(alloc, &entries, &given.t, &given.x, alpha, beta);
    }
    applied(alloc, &entries, &given.x, &given.t, alpha, beta)
}

/// What the job prints.
fn printed(alloc: Global, given: &Given, alpha: i64, beta: i64) -> Result<String, AllocError> {
    let entries = entries_of(alloc, given)?;
    let mut text = sheet_text(alloc, &entries, given.t.rows, given.x.rows)?;
    for number in 0..FORMS {
        let vector = vector_of(alloc, given, form_of(number), alpha, beta)?;
        text.push_str(&array_text(alloc, &vector)?)?;
    }
    Ok(text)
}

/// A random job prints what the plain evaluation says.
fn is_plain(rt: &impl Abort, alloc: Global, draw: &mut Draw, job: usize) -> Result<(), Fail> {
    let alpha = FACTORS.get(job & 3).copied().unwrap_or(0);
    let beta = FACTORS.get((job >> 2) & 3).copied().unwrap_or(0);
    let given = random_given(alloc, draw)?;
    let text = job_text(alloc, draw, &given, alpha, beta)?;
    let wanted = printed(alloc, &given, alpha, beta)?;
    let mut files = files_of(alloc, &given, &text)?;
    let ran = run_in_some_order(alloc, draw, &mut files)?;
    expect(rt, &ran, 0, wanted.as_bytes(), b"", &text);
    Ok(())
}

#[test]
fn every_form_of_apply_is_the_plain_sum(rt: HostRuntime) -> Result<(), Fail> {
    let mut draw = Draw { state: 1 };
    for job in 0..JOBS {
        is_plain(&rt, rt.alloc(), &mut draw, job)?;
    }
    Ok(())
}

/// The entries of a matrix with the rows 2 0 5, 0 3 0 and -1 0 0, one of them in two pieces.
const BY_HAND: [Entry; 5] = [
    Entry {
        row: 0,
        col: 0,
        value: 2,
    },
    Entry {
        row: 0,
        col: 2,
        value: 4,
    },
    Entry {
        row: 1,
        col: 1,
        value: 3,
    },
    Entry {
        row: 0,
        col: 2,
        value: 1,
    },
    Entry {
        row: 2,
        col: 0,
        value: -1,
    },
];

#[test]
fn the_plain_sum_is_as_worked_by_hand(rt: HostRuntime) -> Result<(), Fail> {
    let alloc = rt.alloc();
    let x = Dense {
        rows: 3,
        columns: 1,
        numbers: vec![in alloc; 1i64, 10, 100]?,
    };
    let y = applied(alloc, &BY_HAND, &x, &x, 1, 0)?;
    assert_eq!(rt; y.numbers.as_slice(), [502, 30, -1].as_slice());
    let turned = all_turned(alloc, &BY_HAND)?;
    let z = applied(alloc, &turned, &x, &y, 3, -1)?;
    assert_eq!(rt; z.numbers.as_slice(), [-796, 60, 16].as_slice());
    Ok(())
}
