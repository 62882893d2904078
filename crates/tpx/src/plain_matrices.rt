//! The operations on matrices as plain sums over lists of entries, for the tests beside them.

use crate::random_jobs::{Entry, Given, lines_text};
use crate::test_runs::COORDINATE;
use combine_modes::Mode;
use std::alloc::{AllocError, Global};

/// The entries for which a line stands.
fn push_line(entries: &mut Vec<Entry>, line: &Entry, is_symmetric: bool) -> Result<(), AllocError> {
    entries.push(*line)?;
    if is_symmetric && line.row != line.col {
        entries.push(line.turned())?;
    }
    Ok(())
}

/// The entries for which the lines of the matrix stand.
pub fn entries_of(alloc: Global, given: &Given) -> Result<Vec<Entry>, AllocError> {
    let mut entries = Vec::new(alloc);
    for line in &given.lines {
        push_line(&mut entries, line, given.is_symmetric)?;
    }
    Ok(entries)
}

/// Those of the lines that are dealt to a rank: every so many of them one.
fn part_of(alloc: Global, given: &Given, rank: usize) -> Result<Vec<Entry>, AllocError> {
    let mut entries = Vec::new(alloc);
    let mut turn = 0usize;
    for line in &given.lines {
        if turn == rank {
            push_line(&mut entries, line, given.is_symmetric)?;
        }
        turn = turn.wrapping_add(1);
        if turn == given.ranks {
            turn = 0;
        }
    }
    Ok(entries)
}

/// The parts of all ranks.
pub fn parts_of(alloc: Global, given: &Given) -> Result<Vec<Vec<Entry>>, AllocError> {
    let mut parts = Vec::new(alloc);
    for rank in 0..given.ranks {
        parts.push(part_of(alloc, given, rank)?)?;
    }
    Ok(parts)
}

/// The entries of the transpose.
pub fn all_turned(alloc: Global, entries: &[Entry]) -> Result<Vec<Entry>, AllocError> {
    let mut all = Vec::new(alloc);
    for entry in entries {
        all.push(entry.turned())?;
    }
    Ok(all)
}

/// The entries of the product: one for each two of which the column of the first is the row of the second.
pub fn product_of(alloc: Global, a: &[Entry], b: &[Entry]) -> Result<Vec<Entry>, AllocError> {
    let mut all = Vec::new(alloc);
    for left in a {
        for right in b {
            if left.col == right.row {
                all.push(Entry {
                    row: left.row,
                    col: right.col,
                    value: left.value.wrapping_mul(right.value),
                })?;
            }
        }
    }
    Ok(all)
}

/// Puts the entries behind others, with their numbers times the factor.
fn push_scaled(all: &mut Vec<Entry>, entries: &[Entry], factor: i64) -> Result<(), AllocError> {
    for entry in entries {
        all.push(Entry {
            row: entry.row,
            col: entry.col,
            value: entry.value.wrapping_mul(factor),
        })?;
    }
    Ok(())
}

/// The entries of `alpha A + beta B`.
pub fn sum_of(
    alloc: Global,
    a: &[Entry],
    b: &[Entry],
    alpha: i64,
    beta: i64,
) -> Result<Vec<Entry>, AllocError> {
    let mut all = Vec::new(alloc);
    push_scaled(&mut all, a, alpha)?;
    push_scaled(&mut all, b, beta)?;
    Ok(all)
}

/// The number at a place, if an entry names it.
pub fn number_at(entries: &[Entry], row: usize, col: usize) -> Option<i64> {
    let mut number = None;
    for entry in entries {
        if entry.row == row && entry.col == col {
            number = Some(number.unwrap_or(0i64).wrapping_add(entry.value));
        }
    }
    number
}

/// Each place that an entry names, by row, then column, with its number.
fn places_of(
    alloc: Global,
    entries: &[Entry],
    rows: usize,
    cols: usize,
) -> Result<Vec<Entry>, AllocError> {
    let mut places = Vec::new(alloc);
    for row in 0..rows {
        for col in 0..cols {
            if let Some(value) = number_at(entries, row, col) {
                places.push(Entry { row, col, value })?;
            }
        }
    }
    Ok(places)
}

/// What is printed of the matrix of these entries.
pub fn sheet_text(
    alloc: Global,
    entries: &[Entry],
    rows: usize,
    cols: usize,
) -> Result<String, AllocError> {
    let places = places_of(alloc, entries, rows, cols)?;
    let lines = lines_text(alloc, rows, cols, &places)?;
    format!(in alloc; "{COORDINATE}{lines}")
}

/// The numbers that the parts have at a place: that of the owner of the row first.
fn sources_at(
    alloc: Global,
    parts: &[Vec<Entry>],
    owner: usize,
    row: usize,
    col: usize,
) -> Result<Vec<i64>, AllocError> {
    let mut sources = Vec::new(alloc);
    if let Some(own) = parts.get(owner) {
        if let Some(number) = number_at(own, row, col) {
            sources.push(number)?;
        }
    }
    let mut rank = 0usize;
    for part in parts {
        let number = number_at(part, row, col);
        if rank != owner {
            if let Some(number) = number {
                sources.push(number)?;
            }
        }
        rank = rank.wrapping_add(1);
    }
    Ok(sources)
}

/// The sum of a number and of others.
fn total(first: i64, numbers: &[i64]) -> i64 {
    let mut sum = first;
    for number in numbers {
        sum = sum.wrapping_add(*number);
    }
    sum
}

/// The greatest magnitude of a number and of others.
fn greatest(first: i64, numbers: &[i64]) -> i64 {
    let mut most = first.wrapping_abs();
    for number in numbers {
        let magnitude = number.wrapping_abs();
        if magnitude > most {
            most = magnitude;
        }
    }
    most
}

/// What a place has after these numbers came for it, one after the other.
pub fn combined(mode: Mode, old: Option<i64>, sources: &[i64]) -> Option<i64> {
    let (Some(first), Some(last)) = (sources.first(), sources.last()) else {
        return old;
    };
    match (mode, old) {
        (Mode::Add, old) => Some(total(old.unwrap_or(0), sources)),
        (Mode::AbsMax, old) => Some(greatest(old.unwrap_or(0), sources)),
        (Mode::Insert, old) => Some(old.unwrap_or(*first)),
        (Mode::Replace, Some(_)) => Some(*last),
        (Mode::Zero, Some(_)) => Some(0),
        (_, None) => None,
    }
}

/// A split matrix that is assembled onto the matrix of the entries of `onto`. Of its rows the owners are known.
pub fn assembled(
    alloc: Global,
    parts: &[Vec<Entry>],
    owners: &[usize],
    cols: usize,
    onto: &[Entry],
    mode: Mode,
) -> Result<Vec<Entry>, AllocError> {
    let mut places = Vec::new(alloc);
    let mut row = 0usize;
    for owner in owners {
        for col in 0..cols {
            let sources = sources_at(alloc, parts, *owner, row, col)?;
            if let Some(value) = combined(mode, number_at(onto, row, col), &sources) {
                places.push(Entry { row, col, value })?;
            }
        }
        row = row.wrapping_add(1);
    }
    Ok(places)
}
