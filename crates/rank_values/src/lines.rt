//! Vectors of lines.
ghost use Rattle.std.specs.Prelude.{◌≡◌, ◌++◌, ◌∷◌, [], List, IfOk};
ghost use Rattle.mm_text.specs.declared.file_data.Line.{Line};
ghost use Rattle.model_defs.specs.FileMatrix.{number_of};
ghost use Rattle.rank_values.specs.Vectors.{global_table, lines_on};

use map_core::LocalMap;
use mm_text::Line;
use multivector::MultiVector;
use scalar_laws::Scalar;
use std::alloc::{AllocError, Global};
use std::rc::Rc;

/// The number of an integer; zero where the kind has none for it.
pub fn number_of<S: Scalar>(value: i128) -> S
    ensures number { result ≡ number_of S.semiring S.conversions value }
{
    match S::of_file(value) {
        Some(number) => number,
        None => S::zero(),
    }
}

/// Adds the number of a line to the cell that it names, if the vector has that cell.
fn add_line<S: Scalar>(vector: &mut MultiVector<S>, line: &Line)
    ensures same_map { vector.new.map ≡ vector.old.map }
    ensures same_columns { vector.new.columns ≡ vector.old.columns }
    ensures cells { (lines : List Line) → global_table vector.old ≡ lines_on S.semiring S.conversions vector.old.map vector.old.columns lines
        → global_table vector.new ≡ lines_on S.semiring S.conversions vector.old.map vector.old.columns (lines ++ line.now ∷ []) }
{
    let Line { row, col, value } = *line;
    if col >= vector.columns() as u64 {
        return;
    }
    let Some(lid) = vector.map().local_of(row) else {
        return;
    };
    let sum = vector.cell(lid, col as u32).add(number_of(value));
    vector.set(lid, col as u32, sum);
}

/// The vector on a map that has in each cell the sum of the lines that name it, or zero. The row of a line is a global
/// index, its column counts from 0; a line that names no cell of the vector is passed over. `Err` means that memory ran out.
pub fn vector_of_lines<S: Scalar>(
    alloc: Global,
    map: Rc<LocalMap>,
    columns: u32,
    lines: &[Line],
) -> Result<MultiVector<S>, AllocError>
    ensures map { IfOk result (λ v. v.map ≡ map.value) }
    ensures columns { IfOk result (λ v. v.columns ≡ columns) }
    ensures cells { IfOk result (λ v. global_table v ≡ lines_on S.semiring S.conversions map.value columns lines.now) }
{
    let mut vector = MultiVector::new(alloc, map, columns, S::zero())?;
    for line in lines {
        add_line(&mut vector, line);
    }
    Ok(vector)
}
