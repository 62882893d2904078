//! Small random jobs with a matrix, for the tests: what they are made of, their texts, and their runs.

use crate::test_runs::{ARRAY, Ran, run_on};
use outside::{MailRoom, MemFiles};
use std::alloc::{AllocError, Global};

/// The numbers of matrices and vectors.
const NUMBERS: [i64; 8] = [0, 1, -1, 2, -3, 5, 0, 7];

/// A linear congruential generator.
#[derive(Drop)]
pub struct Draw {
    pub state: usize,
}

impl Draw {
    /// A number below `count`, which is below 2^32.
    pub fn below(&mut self, count: usize) -> usize {
        self.state = self
            .state
            .wrapping_mul(6364136223846793005)
            .wrapping_add(1442695040888963407);
        (self.state >> 33).wrapping_mul(count) >> 31
    }

    /// A number of a matrix or of a vector.
    fn number(&mut self) -> i64 {
        NUMBERS.get(self.below(8)).copied().unwrap_or(0)
    }
}

/// A number at a place, counted from 0.
#[derive(Clone, Copy)]
pub struct Entry {
    pub row: usize,
    pub col: usize,
    pub value: i64,
}

impl Entry {
    /// The entry of the transpose.
    pub fn turned(&self) -> Entry {
        Entry {
            row: self.col,
            col: self.row,
            value: self.value,
        }
    }
}

/// A vector, column by column.
#[derive(Drop)]
pub struct Dense {
    pub rows: usize,
    pub columns: usize,
    pub numbers: Vec<i64>,
}

impl Dense {
    /// The number at a row and a column.
    pub fn at(&self, row: usize, column: usize) -> i64 {
        let place = column.wrapping_mul(self.rows).wrapping_add(row);
        self.numbers.get(place).copied().unwrap_or(0)
    }
}

/// What a job is made of: ranks, the lines of a matrix, each of which stands for two places where it is symmetric, a vector x on
/// its domain, and a vector t on its rows.
#[derive(Drop)]
pub struct Given {
    pub ranks: usize,
    pub lines: Vec<Entry>,
    pub is_symmetric: bool,
    pub x: Dense,
    pub t: Dense,
}

/// At most 19 lines of a matrix of so many rows and columns.
pub fn random_lines(
    alloc: Global,
    draw: &mut Draw,
    rows: usize,
    cols: usize,
) -> Result<Vec<Entry>, AllocError> {
    let mut lines = Vec::new(alloc);
    let most = if rows == 0 || cols == 0 { 1 } else { 20 };
    for _ in 0..draw.below(most) {
        let row = draw.below(rows);
        let col = draw.below(cols);
        let value = draw.number();
        lines.push(Entry { row, col, value })?;
    }
    Ok(lines)
}

fn random_vector(
    alloc: Global,
    draw: &mut Draw,
    rows: usize,
    columns: usize,
) -> Result<Dense, AllocError> {
    let mut numbers = Vec::new(alloc);
    for _ in 0..rows.wrapping_mul(columns) {
        numbers.push(draw.number())?;
    }
    Ok(Dense {
        rows,
        columns,
        numbers,
    })
}

/// At most six rows and columns of the matrix, two columns of the vectors, and five ranks.
pub fn random_given(alloc: Global, draw: &mut Draw) -> Result<Given, AllocError> {
    let rows = draw.below(7);
    let is_symmetric = draw.below(4) == 0;
    let cols = if is_symmetric { rows } else { draw.below(7) };
    let columns = draw.below(2).wrapping_add(1);
    Ok(Given {
        ranks: draw.below(5).wrapping_add(1),
        lines: random_lines(alloc, draw, rows, cols)?,
        is_symmetric,
        x: random_vector(alloc, draw, cols, columns)?,
        t: random_vector(alloc, draw, rows, columns)?,
    })
}

/// The text of a vector.
pub fn array_text(alloc: Global, vector: &Dense) -> Result<String, AllocError> {
    let (rows, columns) = (vector.rows, vector.columns);
    let mut text = format!(in alloc; "{ARRAY}{rows} {columns}\n")?;
    for number in &vector.numbers {
        text.push_str(&format!(in alloc; "{number}\n")?)?;
    }
    Ok(text)
}

/// The line of an entry, counted from 1.
fn line_text(alloc: Global, entry: &Entry) -> Result<String, AllocError> {
    let row = entry.row.wrapping_add(1);
    let col = entry.col.wrapping_add(1);
    let value = entry.value;
    format!(in alloc; "{row} {col} {value}\n")
}

/// The text of a coordinate file behind its first line.
pub fn lines_text(
    alloc: Global,
    rows: usize,
    cols: usize,
    lines: &[Entry],
) -> Result<String, AllocError> {
    let count = lines.len();
    let mut text = format!(in alloc; "{rows} {cols} {count}\n")?;
    for line in lines {
        text.push_str(&line_text(alloc, line)?)?;
    }
    Ok(text)
}

/// The file of the matrix.
fn matrix_text(alloc: Global, given: &Given) -> Result<String, AllocError> {
    let symmetry = if given.is_symmetric {
        "symmetric"
    } else {
        "general"
    };
    let lines = lines_text(alloc, given.t.rows, given.x.rows, &given.lines)?;
    format!(in alloc; "%%MatrixMarket matrix coordinate integer {symmetry}\n{lines}")
}

/// The files of a job of this text.
pub fn files_of(alloc: Global, given: &Given, job: &str) -> Result<MemFiles, AllocError> {
    let mut files = MemFiles::new(alloc);
    files.put("j.toml", job.as_bytes())?;
    files.put("a.mtx", matrix_text(alloc, given)?.as_bytes())?;
    files.put("x.mtx", array_text(alloc, &given.x)?.as_bytes())?;
    files.put("t.mtx", array_text(alloc, &given.t)?.as_bytes())?;
    Ok(files)
}

/// The owners of so many indices.
fn random_owners(
    alloc: Global,
    draw: &mut Draw,
    ranks: usize,
    size: usize,
) -> Result<Vec<usize>, AllocError> {
    let mut owners = Vec::new(alloc);
    for _ in 0..size {
        owners.push(draw.below(ranks))?;
    }
    Ok(owners)
}

/// The indices of a rank, descending.
fn list_text(alloc: Global, owners: &[usize], rank: usize) -> Result<String, AllocError> {
    let mut text = String::new(alloc);
    for gid in 0..owners.len() {
        if owners.get(gid).copied() == Some(rank) {
            text = format!(in alloc; "{gid}, {text}")?;
        }
    }
    Ok(text)
}

/// The lists of all ranks.
fn lists_text(alloc: Global, owners: &[usize], ranks: usize) -> Result<String, AllocError> {
    let mut text = String::new(alloc);
    for rank in 0..ranks {
        let list = list_text(alloc, owners, rank)?;
        text.push_str(&format!(in alloc; "[{list}], ")?)?;
    }
    Ok(text)
}

/// How many indices a rank has.
fn count_of(owners: &[usize], rank: usize) -> usize {
    let mut count = 0usize;
    for owner in owners {
        if *owner == rank {
            count = count.wrapping_add(1);
        }
    }
    count
}

/// The number of indices of each rank.
fn counts_text(alloc: Global, owners: &[usize], ranks: usize) -> Result<String, AllocError> {
    let mut text = String::new(alloc);
    for rank in 0..ranks {
        let count = count_of(owners, rank);
        text.push_str(&format!(in alloc; "{count}, ")?)?;
    }
    Ok(text)
}

/// A map: its text behind its name, and the owner of each index.
#[derive(Drop)]
pub struct Owned {
    pub text: String,
    pub owners: Vec<usize>,
}

/// The indices are dealt to the ranks one by one.
fn dealt_owners(alloc: Global, ranks: usize, size: usize) -> Result<Vec<usize>, AllocError> {
    let mut owners = Vec::new(alloc);
    for gid in 0..size {
        owners.push(gid.checked_rem(ranks).unwrap_or(0))?;
    }
    Ok(owners)
}

/// The same number of indices for each rank, in runs.
fn in_runs(alloc: Global, owners: &[usize], ranks: usize) -> Result<Vec<usize>, AllocError> {
    let mut runs = Vec::new(alloc);
    for rank in 0..ranks {
        for _ in 0..count_of(owners, rank) {
            runs.push(rank)?;
        }
    }
    Ok(runs)
}

/// A map of any kind.
pub fn random_map(
    alloc: Global,
    draw: &mut Draw,
    ranks: usize,
    size: usize,
) -> Result<Owned, AllocError> {
    let dealt = dealt_owners(alloc, ranks, size)?;
    let owners = random_owners(alloc, draw, ranks, size)?;
    match draw.below(4) {
        0 => Ok(Owned {
            text: format!(in alloc; "kind = \"uniform\"\nsize = {size}\n")?,
            owners: in_runs(alloc, &dealt, ranks)?,
        }),
        1 => Ok(Owned {
            text: format!(in alloc; "kind = \"cyclic\"\nsize = {size}\n")?,
            owners: dealt,
        }),
        2 => {
            let counts = counts_text(alloc, &owners, ranks)?;
            Ok(Owned {
                text: format!(in alloc; "kind = \"blocks\"\ncounts = [{counts}]\n")?,
                owners: in_runs(alloc, &owners, ranks)?,
            })
        }
        _ => {
            let lists = lists_text(alloc, &owners, ranks)?;
            Ok(Owned {
                text: format!(in alloc; "kind = \"lists\"\nsize = {size}\nlists = [{lists}]\n")?,
                owners,
            })
        }
    }
}

/// The table of a map of this name.
pub fn map_text(alloc: Global, name: &str, map: &Owned) -> Result<String, AllocError> {
    let text = &map.text;
    format!(in alloc; "[[map]]\nname = \"{name}\"\n{text}")
}

/// The matrix, once of each kind.
const MATRICES: &str =
    "[[matrix]]\nname = \"A\"\nkind = \"assembled\"\nrows = \"r\"\ndomain = \"d\"\nfile = \"a.mtx\"\n[[matrix]]\nname = \"S\"\nkind = \"split\"\nrows = \"r\"\ndomain = \"d\"\nfile = \"a.mtx\"\n";

/// The job up to its statements, with these maps, of which d and r are two: the matrix as A and S, x on its domain d, and t on its
/// rows r.
pub fn head_text(alloc: Global, given: &Given, maps: &str) -> Result<String, AllocError> {
    let (ranks, columns) = (given.ranks, given.x.columns);
    format!(in alloc;
        "ranks = {ranks}\n{maps}[[vector]]\nname = \"x\"\nmap = \"d\"\ncolumns = {columns}\nfile = \"x.mtx\"\n[[vector]]\nname = \"t\"\nmap = \"r\"\ncolumns = {columns}\nfile = \"t.mtx\"\n{MATRICES}"
    )
}

/// The statement that prints a value.
pub fn print_text(alloc: Global, name: &str) -> Result<String, AllocError> {
    format!(in alloc; "[[do]]\nop = \"print\"\nvalue = \"{name}\"\n")
}

/// Runs the job with its letters in some order.
pub fn run_in_some_order(
    alloc: Global,
    draw: &mut Draw,
    files: &mut MemFiles,
) -> Result<Ran, AllocError> {
    let number = draw.below(1000);
    let mut wire = MailRoom::new(alloc);
    match draw.below(3) {
        0 => run_on(
            alloc,
            &["run", "j.toml", "--order=fifo"],
            files,
            &mut wire,
            10_000,
        ),
        1 => run_on(
            alloc,
            &["run", "j.toml", "--order=lifo"],
            files,
            &mut wire,
            10_000,
        ),
        _ => {
            let seed = format!(in alloc; "--seed={number}")?;
            let words = ["run", "j.toml", "--order=seed", seed.as_str()];
            run_on(alloc, &words, files, &mut wire, 10_000)
        }
    }
}
