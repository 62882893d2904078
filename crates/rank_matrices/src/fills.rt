//! Matrices of lines.
ghost use Rattle.std.specs.Prelude.{◌≡◌, ◌++◌, ◌∷◌, [], List, true, IfOk, OnOk};
ghost use Rattle.std.specs.List.{All};
ghost use Rattle.std.specs.List.Sorted.{IsPermutation};
ghost use Rattle.tables.specs.Indices.{stands, AreDistinct};
ghost use Rattle.mm_text.specs.declared.file_data.Line.{Line};
ghost use Rattle.crs_matrix.specs.Rows.{row_table};
ghost use Rattle.rank_values.specs.Vectors.{lines_table};
ghost use Rattle.rank_matrices.specs.Matrices.{named_rows};

use crs_graph::FillFault;
use crs_matrix::MatrixFill;
use map_core::{Gid, ListFault, LocalMap};
use mm_text::Line;
use rank_values::number_of;
use scalar_laws::Scalar;
use std::alloc::{AllocError, Global};
use std::rc::Rc;

/// The rows that lines name, as global indices, ascending, each once. `Err` means that memory ran out.
pub fn rows_of_lines(alloc: Global, lines: &[Line]) -> Result<Vec<Gid>, AllocError>
    ensures rows { IfOk result (λ rows. rows.items ≡ named_rows lines.now) }
{
    let mut rows = Vec::with_capacity(alloc, lines.len())?;
    for line in lines {
        rows.push(line.row)?;
    }
    rows.sort_unstable();
    rows.dedup();
    Ok(rows)
}

/// The map of distinct indices. `Err` means that memory ran out, or that there are 2^32 of them or more, which no map has.
fn map_of(alloc: Global, gids: &[Gid]) -> Result<Rc<LocalMap>, AllocError>
    requires distinct { AreDistinct gids.now }
    ensures list { IfOk result (λ map. map.value ≡ gids.now) }
{
    if gids.len() > u32::MAX as usize {
        return Err(AllocError);
    }
    match LocalMap::from_list(alloc, gids) {
        Ok(map) => Ok(map),
        Err(ListFault::Repeated { gid: _ }) => unreachable!(),
        Err(ListFault::NoMem) => Err(AllocError),
    }
}

/// No places, on the rows that lines name. `Err` means that memory ran out.
fn empty_fill<S: Scalar>(alloc: Global, lines: &[Line]) -> Result<MatrixFill<S>, AllocError>
    ensures rows { IfOk result (λ fill. fill.rows ≡ named_rows lines.now) }
    ensures empty { IfOk result (λ fill. row_table fill ≡ lines_table S.semiring S.conversions []) }
{
    let rows = rows_of_lines(alloc, lines)?;
    let map = map_of(alloc, &rows)?;
    let fill = MatrixFill::new(alloc, map)?;
    Ok(fill)
}

/// Lines by row, then column: so each new place of a row comes behind the others. `Err` means that memory ran out.
fn sorted_lines(alloc: Global, lines: &[Line]) -> Result<Vec<Line>, AllocError>
    ensures same { IfOk result (λ sorted. IsPermutation lines.now sorted.items) }
{
    let mut sorted = Vec::from_slice(alloc, lines)?;
    sorted.sort_unstable_by_key(|line| (line.row, line.col));
    Ok(sorted)
}

/// Adds the number of a line to the place that it names, which is made where it is absent. `Err` means that memory ran out.
fn add_line<S: Scalar>(fill: &mut MatrixFill<S>, line: &Line) -> Result<(), AllocError>
    requires row { stands line.now.row fill.old.rows ≡ true }
    ensures rows { fill.new.rows ≡ fill.old.rows }
    ensures place { OnOk result ((lines : List Line) → row_table fill.old ≡ lines_table S.semiring S.conversions lines
        → row_table fill.new ≡ lines_table S.semiring S.conversions (lines ++ line.now ∷ [])) }
{
    match fill.insert(line.row, line.col, number_of(line.value)) {
        Ok(()) => Ok(()),
        Err(FillFault::NoSuchRow { row: _ }) => unreachable!(),
        Err(FillFault::NoMem) => Err(AllocError),
    }
}

/// Adds lines to a matrix that has their rows. `Err` means that memory ran out.
fn add_lines<S: Scalar>(fill: &mut MatrixFill<S>, lines: &[Line]) -> Result<(), AllocError>
    requires rows { All (λ l. stands l.row fill.old.rows ≡ true) lines.now }
    requires empty { row_table fill.old ≡ lines_table S.semiring S.conversions [] }
    ensures rows { fill.new.rows ≡ fill.old.rows }
    ensures table { OnOk result (row_table fill.new ≡ lines_table S.semiring S.conversions lines.now) }
{
    for line in lines {
        add_line(fill, line)?;
    }
    Ok(())
}

/// The matrix under construction that has at each place that lines name the sum of the numbers of its lines, also where that
/// sum is zero, and no other place. Rows and columns of lines are global indices; its rows are those that the lines name,
/// ascending. The time is that of sorting the lines. `Err` means that memory ran out; 2^32 rows or more are too many as well.
pub fn fill_of_lines<S: Scalar>(alloc: Global, lines: &[Line]) -> Result<MatrixFill<S>, AllocError>
    ensures rows { IfOk result (λ m. m.rows ≡ named_rows lines.now) }
    ensures table { IfOk result (λ m. row_table m ≡ lines_table S.semiring S.conversions lines.now) }
{
    let mut fill = empty_fill(alloc, lines)?;
    let sorted = sorted_lines(alloc, lines)?;
    add_lines(&mut fill, &sorted)?;
    Ok(fill)
}
