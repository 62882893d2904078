//! The entries of a file as cells, brought from the ranks to which they are dealt to those that own their rows.
ghost use Rattle.std.specs.Prelude.{◌≡◌, ◌≢◌, ◌≤◌, ◌<◌, ◌^◌, IfOk, IsSome, OnOk, [], ◌∷◌, ◌++◌, length, unsigned_abs, option_to_list};
ghost use Rattle.std.specs.List.{flat_map};
ghost use Rattle.std.specs.List.Sorted.{IsPermutation};
ghost use Rattle.tables.specs.Indices.{dealt};
ghost use Rattle.mm_text.specs.Limits.{widest};
ghost use Rattle.mm_text.specs.Reading.{file_of};
ghost use Rattle.model_defs.specs.FileMatrix.{number_of, own_cell as own_place, number_cell, entry_numbers, HasNumbers};
ghost use Rattle.gathered_rows.specs.Blocks.{cells_in, AreOwned};
ghost use Rattle.gathered_rows.specs.Conditions.{CanBeGathered};

use map_core::uniform_owner;
use model_defs::{Cell, FileData, Line, Mirror};
use scalar_laws::Scalar;
use std::alloc::{AllocError, Global};

/// The number of an integer of a file, of which the kind has one.
fn number<S: Scalar>(value: i128) -> S
    requires { IsSome (S.conversions.of_file value) }
    ensures { result ≡ number_of S.semiring S.conversions value }
{
    S::of_file(value).unwrap_or(S::zero())
}

/// The cell of an entry's own place.
fn own_cell<S: Scalar>(line: &Line) -> Cell<S>
    requires { IsSome (S.conversions.of_file line.now.value) }
    ensures { result ≡ number_cell S.semiring S.conversions (own_place line.now) }
{
    Cell {
        row: line.row,
        col: line.col,
        value: number(line.value),
    }
}

/// The cell of the mirrored place: None on the diagonal, and in a file without symmetry.
fn mirrored_cell<S: Scalar>(mirror: Mirror, line: &Line) -> Option<Cell<S>>
    requires width { unsigned_abs line.now.value ≤ widest }
    requires numbers { HasNumbers S.conversions mirror line.now.value }
    ensures { entry_numbers S.semiring S.conversions mirror line.now
        ≡ number_cell S.semiring S.conversions (own_place line.now) ∷ option_to_list result }
{
    if line.row == line.col {
        return None;
    }
    let value = match mirror {
        Mirror::Plain => return None,
        Mirror::Same => line.value,
        Mirror::Negated => -line.value,
    };
    Some(Cell {
        row: line.col,
        col: line.row,
        value: number(value),
    })
}

/// An empty block for each rank. `Err` means that memory ran out.
pub fn new_blocks<S: Scalar>(alloc: Global, ranks: u32) -> Result<Vec<Vec<Cell<S>>>, AllocError>
    ensures count { IfOk result (λ blocks. length blocks.items ≡ ranks) }
    ensures empty { IfOk result (λ blocks. cells_in blocks.items ≡ []) }
{
    let mut blocks = Vec::with_capacity(alloc, ranks as usize)?;
    for _ in 0..ranks {
        blocks.push(Vec::new(alloc))?;
    }
    Ok(blocks)
}

/// Brings a cell to the block of the rank that owns its row in the contiguous uniform map of `rows` rows over `ranks`
/// ranks (`Tpetra::Map`). `Err` means that memory ran out.
fn bring_cell<S: Scalar>(
    blocks: &mut [Vec<Cell<S>>],
    ranks: u32,
    rows: u64,
    cell: Cell<S>,
) -> Result<(), AllocError>
    requires some_rank { 1 ≤ ranks }
    requires ranks_limit { ranks ≤ 32 }
    requires rows_limit { rows ≤ 2 ^ 40 }
    requires within { cell.row < rows }
    requires owned { AreOwned ranks rows blocks.old }
    ensures cells { OnOk result (IsPermutation (cells_in blocks.old ++ cell ∷ []) (cells_in blocks.new)) }
    ensures owned { OnOk result (AreOwned ranks rows blocks.new) }
{
    let owner = uniform_owner(ranks, rows, cell.row) as usize;
    blocks[owner].push(cell)?;
    Ok(())
}

/// Brings the cells of an entry to their owners: that of its own place, and that of the mirrored one, if it has one.
/// `Err` means that memory ran out.
fn bring_entry<S: Scalar>(
    blocks: &mut [Vec<Cell<S>>],
    ranks: u32,
    rows: u64,
    mirror: Mirror,
    line: &Line,
) -> Result<(), AllocError>
    requires some_rank { 1 ≤ ranks }
    requires ranks_limit { ranks ≤ 32 }
    requires rows_limit { rows ≤ 2 ^ 40 }
    requires within { line.now.row < rows }
    requires square { mirror ≢ Mirror.Plain → line.now.col < rows }
    requires width { unsigned_abs line.now.value ≤ widest }
    requires numbers { HasNumbers S.conversions mirror line.now.value }
    requires owned { AreOwned ranks rows blocks.old }
    ensures cells { let brought = entry_numbers S.semiring S.conversions mirror line.now in
        OnOk result (IsPermutation (cells_in blocks.old ++ brought) (cells_in blocks.new)) }
    ensures owned { OnOk result (AreOwned ranks rows blocks.new) }
{
    bring_cell(blocks, ranks, rows, own_cell(line))?;
    if let Some(cell) = mirrored_cell(mirror, line) {
        bring_cell(blocks, ranks, rows, cell)?;
    }
    Ok(())
}

/// Brings the cells of the entries that are dealt to a rank to their owners: those of the entries k with
/// `k mod ranks = rank`, counted from 0 in file order. `Err` means that memory ran out.
pub fn bring_dealt<S: Scalar>(
    blocks: &mut [Vec<Cell<S>>],
    ranks: u32,
    rank: u32,
    file: &FileData,
) -> Result<(), AllocError>
    requires is_rank { rank < ranks }
    requires ranks_limit { ranks ≤ 32 }
    requires file { CanBeGathered S.conversions (file_of file.now) }
    requires owned { AreOwned ranks file.now.rows blocks.old }
    ensures cells { let places = entry_numbers S.semiring S.conversions file.now.mirror in
        let brought = flat_map places (dealt ranks rank file.now.lines.items) in
        OnOk result (IsPermutation (cells_in blocks.old ++ brought) (cells_in blocks.new)) }
    ensures owned { OnOk result (AreOwned ranks file.now.rows blocks.new) }
{
    let mut k = rank as usize;
    while k < file.lines.len() {
        bring_entry(blocks, ranks, file.rows, file.mirror, &file.lines[k])?;
        k += ranks as usize;
    }
    Ok(())
}
