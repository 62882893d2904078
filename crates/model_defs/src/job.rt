//! A job, as its text states it: maps, given values and statements.

use crate::{ListOf, Text};
use combine_modes::Mode;

/// A job for a number of ranks. A map is named by its place in `maps`. Values are numbered in this order: the vectors, the
/// parts, the matrices, then the results of the statements that give one. All numbers count from 0.
#[derive(Debug, Drop)]
pub struct Job {
    pub ranks: u32,
    pub maps: ListOf<MapSpec>,
    pub vectors: ListOf<VectorSpec>,
    pub parts: ListOf<PartsSpec>,
    pub matrices: ListOf<MatrixSpec>,
    pub steps: ListOf<Step>,
}

/// A map: how so many global indices are distributed over the ranks (`Tpetra::Map`).
#[derive(Debug, Drop)]
pub struct MapSpec {
    pub name: Text,
    pub size: u64,
    pub form: MapForm,
}

/// How a map distributes its indices: by the contiguous uniform rule, in consecutive runs of stated lengths, index g to
/// rank g mod P, or by the lists of the ranks.
#[derive(Debug, Drop)]
pub enum MapForm {
    Uniform,
    Blocks(ListOf<u32>),
    Cyclic,
    Lists(ListOf<ListOf<u64>>),
}

/// A vector on a map on which each index has one owner (`Tpetra::MultiVector`).
#[derive(Debug, Drop)]
pub struct VectorSpec {
    pub name: Text,
    pub map: u32,
    pub columns: u32,
    pub from: Origin,
}

/// Parts: a number for each index of each rank's list, on a map whose lists may overlap.
#[derive(Debug, Drop)]
pub struct PartsSpec {
    pub name: Text,
    pub map: u32,
    pub columns: u32,
    pub from: Origin,
}

/// Where given numbers come from: files (one for a vector, one a rank for parts), or one number for each cell.
#[derive(Debug, Drop)]
pub enum Origin {
    Files(ListOf<Text>),
    Fill(i64),
}

/// A matrix of a file, on a row map and a domain map (`Tpetra::CrsMatrix`): assembled, or left split as its lines were dealt.
#[derive(Debug, Drop)]
pub struct MatrixSpec {
    pub name: Text,
    pub split: bool,
    pub rows: u32,
    pub domain: u32,
    pub file: Text,
}

/// A statement. All but `Print` give a value.
#[derive(Debug, Drop)]
pub enum Step {
    /// The same vector or matrix on another map; of a matrix its rows.
    Move {
        name: Text,
        from: u32,
        map: u32,
    },
    /// A vector's cells, combined with those of parts (`Tpetra::Import`).
    Import {
        name: Text,
        from: u32,
        onto: u32,
        mode: Mode,
    },
    /// The cells of all parts, combined with those of a vector (`Tpetra::Export`).
    Export {
        name: Text,
        from: u32,
        onto: u32,
        mode: Mode,
    },
    /// Parts whose cells are a vector's.
    Spread {
        name: Text,
        from: u32,
        map: u32,
    },
    /// alpha x + beta y, cell by cell.
    Update {
        name: Text,
        x: u32,
        y: u32,
        alpha: i64,
        beta: i64,
    },
    /// alpha times a value of any sort.
    Scale {
        name: Text,
        value: u32,
        alpha: i64,
    },
    /// alpha A x + beta y, or with the transpose of A (`Tpetra::CrsMatrix::apply`).
    Apply {
        name: Text,
        matrix: u32,
        x: u32,
        y: Option<u32>,
        alpha: i64,
        beta: i64,
        transposed: bool,
    },
    /// The transpose of a matrix.
    Transpose {
        name: Text,
        matrix: u32,
    },
    /// The product of two matrices (`Tpetra::MatrixMatrix::Multiply`).
    Multiply {
        name: Text,
        a: u32,
        b: u32,
    },
    /// alpha A + beta B (`Tpetra::MatrixMatrix::add`).
    Add {
        name: Text,
        a: u32,
        b: u32,
        alpha: i64,
        beta: i64,
    },
    /// The parts of a split matrix, combined with the places of a matrix, or with none.
    Assemble {
        name: Text,
        from: u32,
        onto: Option<u32>,
        mode: Mode,
    },
    /// The text of a value is written.
    Print {
        value: u32,
    },
}
