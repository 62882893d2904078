//! Numbers that look random, and are the same in each run.
ghost use Rattle.std.specs.Prelude.{◌≡◌, ◌<◌, IfOk, length};
ghost use Rattle.tables.specs.Tables.{AreWithin};

use map_core::Gid;
use scalar_laws::{Scalar, Weighed};
use std::alloc::{AllocError, Global};
use tables::Cell;

/// A sequence of numbers of 64 bits, of which none comes twice (Marsaglia's xorshift). It is the same for the same seed.
#[derive(Clone, Copy, Debug)]
pub struct Sequence {
    state: u64,
}

impl Sequence {
    /// The sequence of a seed that is not 0; that of 0 has zeros alone.
    pub fn new(seed: u64) -> Sequence
        ensures { result.state ≡ seed }
    {
        Sequence { state: seed }
    }

    /// The next number, below a limit.
    pub fn below(&mut self, limit: u64) -> u64
        requires some { 0 < limit }
        ensures below { result < limit }
    {
        self.state ^= self.state << 13;
        self.state ^= self.state >> 7;
        self.state ^= self.state << 17;
        self.state % limit
    }
}

/// Cells at random places of a matrix of this size, with numbers of at most 500 in magnitude, which weigh as much. `Err` means
/// that memory ran out.
pub fn random_cells(
    alloc: Global,
    sequence: &mut Sequence,
    count: u32,
    rows: Gid,
    cols: Gid,
) -> Result<Vec<Cell<Weighed>>, AllocError>
    requires some_row { 0 < rows }
    requires some_col { 0 < cols }
    ensures count { IfOk result (λ cells. length cells.items ≡ count) }
    ensures within { IfOk result (λ cells. AreWithin rows cols cells.items) }
{
    let mut cells = Vec::with_capacity(alloc, count as usize)?;
    for _ in 0..count {
        cells.push(random_cell(sequence, rows, cols))?;
    }
    Ok(cells)
}

/// A cell at a random place.
fn random_cell(sequence: &mut Sequence, rows: Gid, cols: Gid) -> Cell<Weighed>
    requires some_row { 0 < rows }
    requires some_col { 0 < cols }
    ensures row { result.row < rows }
    ensures col { result.col < cols }
{
    let row = sequence.below(rows);
    let col = sequence.below(cols);
    let value = sequence.below(1000) as i128 - 500;
    Cell {
        row,
        col,
        value: Weighed::new(value, value.unsigned_abs()),
    }
}
