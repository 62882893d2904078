//! Times the matrices of one rank: a word of `WORDS`, how many rounds, how many rows, and how many cells there are. Without a word
//! it does all of them in turn, with 300,000 cells on 100,000 rows. bench/matrices.sh runs it beside the same work in C++, which
//! prints the same totals.
#![tactic(auto)]

ghost use Rattle.std.specs.Prelude.{◌≡◌, ◌<◌, ◌≤◌, IfOk, length};

mod given;

use crs_graph::{CrsGraph, FillFault, GraphFill};
use crs_matrix::{CrsMatrix, MatrixFill, RowFault};
use distributor::DistSource;
use given::{built, completed, row_map, scattered, structured, tridiagonal, whole};
use map_core::LocalMap;
use matrix_twins::filled;
use multivector::MultiVector;
use scalar_laws::{Scalar, Weighed};
use sparse_product::{local_add, local_product};
use spmv::{local_apply, local_apply_transposed};
use std::alloc::{AllocError, Global};
use std::rc::Rc;
use std::{env, io};
use tables::Cell;
use transpose::local_transpose;

/// A number of the command line from a least to a greatest one, or another one where it is missing.
fn number_or(word: Option<&str>, least: u32, greatest: u32, missing: u32) -> u32
    requires above { least ≤ missing }
    requires below { missing ≤ greatest }
    ensures above { least ≤ result }
    ensures below { result ≤ greatest }
{
    match word.map(|word| word.parse::<u32>()) {
        Some(Ok(number)) if least <= number && number <= greatest => number,
        _ => missing,
    }
}

/// The sum of numbers, each times its place modulo 7, which is counted from 0 over all of them.
#[derive(Clone, Copy)]
struct Total {
    sum: Weighed,
    place: u64,
}

/// No numbers yet.
fn nothing() -> Total {
    Total {
        sum: Weighed::zero(),
        place: 0,
    }
}

/// The total with one more number.
fn with_number(total: Total, number: Weighed) -> Total {
    let factor = (total.place % 7) as i128;
    Total {
        sum: total.sum.add(whole(factor).mul(number)),
        place: total.place.wrapping_add(1),
    }
}

/// The total with the numbers of a row.
fn with_numbers(total: Total, numbers: &[Weighed]) -> Total {
    let mut total = total;
    for number in numbers {
        total = with_number(total, *number);
    }
    total
}

/// The total of a matrix, row after row, in the order of its columns.
fn total_of_rows(a: &CrsMatrix<Weighed>) -> Weighed {
    let mut total = nothing();
    for lid in 0..a.row_map().len() {
        total = with_numbers(total, a.row(lid));
    }
    total.sum
}

/// The total with the numbers of an entry.
fn with_entry<A: DistSource<Weighed>>(total: Total, source: &A, lid: u32) -> Total
    requires known { lid < length (A.entries source.now) }
{
    let mut total = total;
    for at in 0..source.count(lid) {
        total = with_number(total, source.cell(lid, at).1);
    }
    total
}

/// The total of a matrix under construction, row after row, in ascending order of the columns.
fn total_of_fill(fill: &MatrixFill<Weighed>) -> Weighed {
    let mut total = nothing();
    for lid in 0..fill.row_map().len() {
        total = with_entry(total, fill, lid);
    }
    total.sum
}

/// The sum of the numbers of a vector, each times its global index modulo 7.
fn total_of_vector(y: &MultiVector<Weighed>) -> Weighed
    requires { 0 < y.now.columns }
{
    let mut sum = Weighed::zero();
    for lid in 0..y.map().len() {
        let factor = y.map().global_of(lid).unwrap_or(0) % 7;
        sum = sum.add(whole(factor as i128).mul(y.cell(lid, 0)));
    }
    sum
}

/// The vector on a map with the last digit of each global index.
fn digits(alloc: Global, map: &Rc<LocalMap>) -> Result<MultiVector<Weighed>, AllocError>
    ensures map { IfOk result (λ v. v.map ≡ map.now.value) }
    ensures columns { IfOk result (λ v. v.columns ≡ 1) }
{
    let mut vector = MultiVector::new(alloc, map.clone()?, 1, Weighed::zero())?;
    for lid in 0..map.len() {
        let digit = map.global_of(lid).unwrap_or(0) % 10;
        vector.set(lid, 0, whole(digit as i128));
    }
    Ok(vector)
}

/// The vector of zeros on a map.
fn zeros(alloc: Global, map: &Rc<LocalMap>) -> Result<MultiVector<Weighed>, AllocError>
    ensures map { IfOk result (λ v. v.map ≡ map.now.value) }
    ensures columns { IfOk result (λ v. v.columns ≡ 1) }
{
    MultiVector::new(alloc, map.clone()?, 1, Weighed::zero())
}

/// The matrix of cells, which are let go when all of them are inserted.
fn last_built(
    alloc: Global,
    rows: &Rc<LocalMap>,
    cells: Vec<Cell<Weighed>>,
) -> Result<CrsMatrix<Weighed>, FillFault> {
    let fill = last_filled(alloc, rows, cells)?;
    let a = completed(alloc, rows, fill)?;
    Ok(a)
}

/// The matrix under construction of cells, which are let go.
fn last_filled(
    alloc: Global,
    rows: &Rc<LocalMap>,
    cells: Vec<Cell<Weighed>>,
) -> Result<MatrixFill<Weighed>, FillFault> {
    filled(alloc, rows.clone()?, &cells)
}

/// Builds the matrix of cells so many times. The last round lets them go before it lays the rows out.
fn fill(
    alloc: Global,
    rows: &Rc<LocalMap>,
    cells: Vec<Cell<Weighed>>,
    rounds: u32,
) -> Result<Weighed, FillFault> {
    if rounds == 0 {
        return Ok(Weighed::zero());
    }
    for _ in 1..rounds {
        let _ = built(alloc, rows, &cells)?;
    }
    let a = last_built(alloc, rows, cells)?;
    Ok(total_of_rows(&a))
}

/// Inserts the places of cells.
fn inserted(
    alloc: Global,
    rows: &Rc<LocalMap>,
    cells: &[Cell<Weighed>],
) -> Result<GraphFill, FillFault> {
    let mut fill = GraphFill::new(alloc, rows.clone()?)?;
    for cell in cells {
        let _ = fill.insert(cell.row, cell.col)?;
    }
    Ok(fill)
}

/// The total of the columns of a structure, which are local indices.
fn total_of_columns(graph: &CrsGraph) -> Weighed {
    let mut total = nothing();
    for lid in 0..graph.row_map().len() {
        for col in graph.row(lid) {
            total = with_number(total, whole(*col as i128));
        }
    }
    total.sum
}

/// Builds the structure of cells so many times.
fn structure(
    alloc: Global,
    rows: &Rc<LocalMap>,
    cells: &[Cell<Weighed>],
    rounds: u32,
) -> Result<Weighed, FillFault> {
    let mut total = Weighed::zero();
    for round in 0..rounds {
        let fill = inserted(alloc, rows, cells)?;
        let graph = structured(alloc, rows, fill)?;
        if round + 1 == rounds {
            total = total_of_columns(&graph);
        }
    }
    Ok(total)
}

/// Adds each cell once more, multiplies all numbers by 3, and puts every other cell in place of what is there.
fn change_all(a: &mut CrsMatrix<Weighed>, cells: &[Cell<Weighed>]) -> Result<(), RowFault> {
    for cell in cells {
        a.sum_into(cell.row, cell.col, cell.value)?;
    }
    a.scale(whole(3));
    for at in 0..cells.len() {
        if at % 2 == 0 {
            a.replace(cells[at].row, cells[at].col, cells[at].value)?;
        }
    }
    Ok(())
}

/// Changes copies of the matrix of cells.
fn change(
    alloc: Global,
    rows: &Rc<LocalMap>,
    cells: &[Cell<Weighed>],
    rounds: u32,
) -> Result<Weighed, FillFault> {
    let a = built(alloc, rows, cells)?;
    let mut total = Weighed::zero();
    for round in 0..rounds {
        let mut b = a.copy()?;
        if change_all(&mut b, cells).is_ok() && round + 1 == rounds {
            total = total_of_rows(&b);
        }
    }
    Ok(total)
}

/// Adds the product of a matrix with a vector to another one so many times.
fn apply_rounds(
    a: &CrsMatrix<Weighed>,
    x: &MultiVector<Weighed>,
    y: &mut MultiVector<Weighed>,
    rounds: u32,
)
    requires domain { x.now.map ≡ a.now.graph.cols }
    requires range { y.old.map ≡ a.now.graph.rows }
    requires columns { y.old.columns ≡ x.now.columns }
    ensures columns { y.new.columns ≡ y.old.columns }
{
    for _ in 0..rounds {
        local_apply(a, x, y);
    }
}

/// Multiplies the matrix of cells by a vector.
fn apply(
    alloc: Global,
    rows: &Rc<LocalMap>,
    cells: &[Cell<Weighed>],
    rounds: u32,
) -> Result<Weighed, FillFault> {
    let a = built(alloc, rows, cells)?;
    let x = digits(alloc, a.graph().col_map())?;
    let mut y = zeros(alloc, a.graph().row_map())?;
    apply_rounds(&a, &x, &mut y, rounds);
    Ok(total_of_vector(&y))
}

/// Adds the product of a transposed matrix with a vector to another one so many times.
fn transposed_rounds(
    a: &CrsMatrix<Weighed>,
    x: &MultiVector<Weighed>,
    y: &mut MultiVector<Weighed>,
    rounds: u32,
)
    requires range { x.now.map ≡ a.now.graph.rows }
    requires domain { y.old.map ≡ a.now.graph.cols }
    requires columns { y.old.columns ≡ x.now.columns }
    ensures columns { y.new.columns ≡ y.old.columns }
{
    for _ in 0..rounds {
        local_apply_transposed(a, x, y);
    }
}

/// Multiplies the transposed matrix of cells by a vector.
fn transposed(
    alloc: Global,
    rows: &Rc<LocalMap>,
    cells: &[Cell<Weighed>],
    rounds: u32,
) -> Result<Weighed, FillFault> {
    let a = built(alloc, rows, cells)?;
    let x = digits(alloc, a.graph().row_map())?;
    let mut y = zeros(alloc, a.graph().col_map())?;
    transposed_rounds(&a, &x, &mut y, rounds);
    Ok(total_of_vector(&y))
}

/// Transposes the matrix of cells.
fn transpose(
    alloc: Global,
    rows: &Rc<LocalMap>,
    cells: &[Cell<Weighed>],
    rounds: u32,
) -> Result<Weighed, FillFault> {
    let a = built(alloc, rows, cells)?;
    let mut total = Weighed::zero();
    for round in 0..rounds {
        let turned = local_transpose(alloc, &a)?;
        if round + 1 == rounds {
            total = total_of_fill(&turned);
        }
    }
    Ok(total)
}

/// Multiplies the matrix of cells by itself.
fn product(
    alloc: Global,
    rows: &Rc<LocalMap>,
    cells: &[Cell<Weighed>],
    rounds: u32,
) -> Result<Weighed, FillFault> {
    let a = built(alloc, rows, cells)?;
    let b = filled(alloc, a.graph().col_map().clone()?, cells)?;
    let mut total = Weighed::zero();
    for round in 0..rounds {
        let c = local_product(alloc, &a, &b)?;
        if round + 1 == rounds {
            total = total_of_fill(&c);
        }
    }
    Ok(total)
}

/// Twice the matrix of cells less the same matrix.
fn sum(
    alloc: Global,
    rows: &Rc<LocalMap>,
    cells: &[Cell<Weighed>],
    rounds: u32,
) -> Result<Weighed, FillFault> {
    let a = built(alloc, rows, cells)?;
    let b = filled(alloc, rows.clone()?, cells)?;
    let mut total = Weighed::zero();
    for round in 0..rounds {
        let c = local_add(alloc, whole(2), &a, whole(-1), &b)?;
        if round + 1 == rounds {
            total = total_of_fill(&c);
        }
    }
    Ok(total)
}

/// What is measured.
const WORDS: [&str; 8] = [
    "fill",
    "structure",
    "change",
    "apply",
    "transposed",
    "transpose",
    "product",
    "sum",
];

/// The total of what a word asks for.
fn measured(
    alloc: Global,
    word: &str,
    rounds: u32,
    rows: u32,
    count: u32,
) -> Result<Weighed, FillFault>
    requires some { 0 < rows }
    requires few { rows ≤ 4000000 }
{
    let map = row_map(alloc, rows)?;
    if word == "product" {
        return product(alloc, &map, &tridiagonal(alloc, rows)?, rounds);
    }
    let cells = scattered(alloc, rows, count)?;
    match word {
        "structure" => structure(alloc, &map, &cells, rounds),
        "change" => change(alloc, &map, &cells, rounds),
        "apply" => apply(alloc, &map, &cells, rounds),
        "transposed" => transposed(alloc, &map, &cells, rounds),
        "transpose" => transpose(alloc, &map, &cells, rounds),
        "sum" => sum(alloc, &map, &cells, rounds),
        _ => fill(alloc, &map, cells, rounds),
    }
}

/// Prints the total of what a word asks for.
fn print_total(rt: &HostRuntime, word: &str, rounds: u32, rows: u32, count: u32) -> io::Result<()>
    requires some { 0 < rows }
    requires few { rows ≤ 4000000 }
{
    match measured(rt.alloc(), word, rounds, rows, count).map(|total| total.parts()) {
        Ok(Some((value, weight))) => println!(rt; "{word} {value} {weight}"),
        Ok(None) => println!(rt; "{word} over"),
        Err(fault) => println!(rt; "{word} {fault}"),
    }
}

/// Argument number `at` of the command line, where it is a number between two limits, or another number.
fn number_at(
    rt: &HostRuntime,
    at: usize,
    least: u32,
    greatest: u32,
    missing: u32,
) -> io::Result<u32>
    requires above { least ≤ missing }
    requires below { missing ≤ greatest }
    ensures above { IfOk result (λ number. least ≤ number) }
    ensures below { IfOk result (λ number. number ≤ greatest) }
{
    let word = env::args(rt)?.nth(at);
    Ok(number_or(
        word.as_ref().map(|word| word.as_str()),
        least,
        greatest,
        missing,
    ))
}

fn main(rt: HostRuntime) -> io::Result<()> {
    let rounds = number_at(&rt, 2, 0, 1_000_000, 1)?;
    let rows = number_at(&rt, 3, 1, 4_000_000, 100_000)?;
    let count = number_at(&rt, 4, 0, 100_000_000, 300_000)?;
    if let Some(word) = env::args(&rt)?.nth(1) {
        return print_total(&rt, word.as_str(), rounds, rows, count);
    }
    for word in WORDS {
        print_total(&rt, word, rounds, rows, count)?;
    }
    Ok(())
}
