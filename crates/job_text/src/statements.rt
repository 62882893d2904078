//! What the operands of statements must be.
ghost use Rattle.std.specs.Prelude.{◌≡◌};
ghost use Rattle.job_text.specs.Outcomes.{Gives};
ghost use Rattle.job_text.specs.Statements.{are_alike, are_matrices, are_of_apply, are_on_maps, are_same_size, can_add, can_apply, can_assemble, can_export, can_import, can_move, can_multiply, can_print, can_spread, can_transpose, can_update, have_same_columns, have_same_rows, is_addend, is_base, is_covered, is_matrix_or_none, is_vector_or_none, map_of_x, map_of_y, match_cells, match_sizes, passes, serves, sort_at};
ghost use Rattle.job_text.specs.Sorts.{is_matrix, is_parts, is_vector};
ghost use Rattle.model_defs.specs.Shapes.{is_split_sort};

use crate::JobFault;
use crate::fault::bad_map;
use crate::known::Known;
use std::alloc::Global;

/// The sorts and the maps of a statement pass.
fn passes(statement: u32, sorts: bool, maps: bool) -> Result<(), JobFault>
    ensures { Gives result (passes statement sorts maps) }
{
    if !sorts {
        return Err(JobFault::WrongSort { statement });
    }
    if !maps {
        return Err(JobFault::MapMismatch { statement });
    }
    Ok(())
}

fn is_vector(known: &Known, value: u32) -> bool
    ensures { result ≡ is_vector (sort_at known.now value) }
{
    known.shape(value).is_vector()
}

fn is_parts(known: &Known, value: u32) -> bool
    ensures { result ≡ is_parts (sort_at known.now value) }
{
    known.shape(value).is_parts()
}

fn is_matrix(known: &Known, value: u32) -> bool
    ensures { result ≡ is_matrix (sort_at known.now value) }
{
    known.shape(value).is_matrix()
}

fn is_split(known: &Known, value: u32) -> bool
    ensures { result ≡ is_split_sort (sort_at known.now value) }
{
    known.shape(value).is_split()
}

/// Whether two maps have one size.
fn are_same_size(known: &Known, map: u32, other: u32) -> bool
    ensures { result ≡ are_same_size known.now map other }
{
    known.size(map) == known.size(other)
}

fn have_same_rows(known: &Known, value: u32, other: u32) -> bool
    ensures { result ≡ have_same_rows known.now value other }
{
    known.shape(value).rows() == known.shape(other).rows()
}

fn have_same_columns(known: &Known, value: u32, other: u32) -> bool
    ensures { result ≡ have_same_columns known.now value other }
{
    known.shape(value).columns() == known.shape(other).columns()
}

/// Whether the map has one owner for each index, for a matrix exactly one.
fn serves(known: &Known, source: u32, map: u32) -> bool
    ensures { result ≡ serves known.now (sort_at known.now source) map }
{
    known.is_one_to_one(map) && (!is_matrix(known, source) || known.is_total(map))
}

/// Whether a vector's map has each index of the map.
fn is_covered(known: &Known, source: u32, map: u32) -> bool
    ensures { result ≡ is_covered known.now source map }
{
    !is_vector(known, source) || known.covers(known.shape(source).rows(), map)
}

/// Whether a value may be moved to a map.
pub fn can_move(
    alloc: Global,
    known: &Known,
    statement: u32,
    source: u32,
    map: u32,
) -> Result<(), JobFault>
    ensures { Gives result (can_move known.now statement source map) }
{
    if !(is_vector(known, source) || is_matrix(known, source)) {
        return Err(JobFault::WrongSort { statement });
    }
    if !are_same_size(known, known.shape(source).rows(), map) {
        return Err(JobFault::MapMismatch { statement });
    }
    if !serves(known, source, map) {
        return Err(bad_map(alloc, known.map_name(map)));
    }
    if !is_covered(known, source, map) {
        return Err(JobFault::NotCovered { statement });
    }
    Ok(())
}

/// Whether two values have one size and equal columns.
fn match_cells(known: &Known, value: u32, other: u32) -> bool
    ensures { result ≡ match_cells known.now value other }
{
    let rows = known.shape(value).rows();
    let other_rows = known.shape(other).rows();
    are_same_size(known, rows, other_rows) && have_same_columns(known, value, other)
}

pub fn can_import(known: &Known, statement: u32, source: u32, onto: u32) -> Result<(), JobFault>
    ensures { Gives result (can_import known.now statement source onto) }
{
    let sorts = is_vector(known, source) && is_parts(known, onto);
    passes(statement, sorts, match_cells(known, source, onto))
}

pub fn can_export(known: &Known, statement: u32, source: u32, onto: u32) -> Result<(), JobFault>
    ensures { Gives result (can_export known.now statement source onto) }
{
    let sorts = is_parts(known, source) && is_vector(known, onto);
    passes(statement, sorts, match_cells(known, source, onto))
}

pub fn can_spread(known: &Known, statement: u32, source: u32, map: u32) -> Result<(), JobFault>
    ensures { Gives result (can_spread known.now statement source map) }
{
    let rows = known.shape(source).rows();
    passes(
        statement,
        is_vector(known, source),
        are_same_size(known, rows, map),
    )
}

/// Whether both are vectors or both are parts.
fn are_alike(known: &Known, value: u32, other: u32) -> bool
    ensures { result ≡ are_alike known.now value other }
{
    (is_vector(known, value) && is_vector(known, other))
        || (is_parts(known, value) && is_parts(known, other))
}

pub fn can_update(known: &Known, statement: u32, x: u32, y: u32) -> Result<(), JobFault>
    ensures { Gives result (can_update known.now statement x y) }
{
    let maps = have_same_rows(known, x, y) && have_same_columns(known, x, y);
    passes(statement, are_alike(known, x, y), maps)
}

/// The map on which x of an apply is.
fn map_of_x(known: &Known, matrix: u32, transposed: bool) -> u32
    ensures { result ≡ map_of_x known.now matrix transposed }
{
    if transposed {
        known.shape(matrix).rows()
    } else {
        known.shape(matrix).domain()
    }
}

/// The map on which y and the result of an apply are.
fn map_of_y(known: &Known, matrix: u32, transposed: bool) -> u32
    ensures { result ≡ map_of_y known.now matrix transposed }
{
    if transposed {
        known.shape(matrix).domain()
    } else {
        known.shape(matrix).rows()
    }
}

fn is_vector_or_none(known: &Known, value: Option<u32>) -> bool
    ensures { result ≡ is_vector_or_none known.now value }
{
    match value {
        None => true,
        Some(value) => is_vector(known, value),
    }
}

/// Whether y of an apply is on the map of the result, with the columns of x.
fn is_addend(known: &Known, matrix: u32, x: u32, transposed: bool, y: Option<u32>) -> bool
    ensures { result ≡ is_addend known.now matrix x transposed y }
{
    match y {
        None => true,
        Some(y) => {
            known.shape(y).rows() == map_of_y(known, matrix, transposed)
                && have_same_columns(known, x, y)
        }
    }
}

/// Whether the operands of an apply are of its sorts.
fn are_of_apply(known: &Known, matrix: u32, x: u32, y: Option<u32>) -> bool
    ensures { result ≡ are_of_apply known.now matrix x y }
{
    (is_matrix(known, matrix) || is_split(known, matrix))
        && is_vector(known, x)
        && is_vector_or_none(known, y)
}

/// Whether the operands of an apply are on its maps.
fn are_on_maps(known: &Known, matrix: u32, x: u32, y: Option<u32>, transposed: bool) -> bool
    ensures { result ≡ are_on_maps known.now matrix x y transposed }
{
    known.shape(x).rows() == map_of_x(known, matrix, transposed)
        && is_addend(known, matrix, x, transposed, y)
}

pub fn can_apply(
    known: &Known,
    statement: u32,
    matrix: u32,
    x: u32,
    y: Option<u32>,
    transposed: bool,
) -> Result<(), JobFault>
    ensures { Gives result (can_apply known.now statement matrix x y transposed) }
{
    let sorts = are_of_apply(known, matrix, x, y);
    passes(
        statement,
        sorts,
        are_on_maps(known, matrix, x, y, transposed),
    )
}

pub fn can_transpose(known: &Known, statement: u32, matrix: u32) -> Result<(), JobFault>
    ensures { Gives result (can_transpose known.now statement matrix) }
{
    passes(statement, is_matrix(known, matrix), true)
}

fn are_matrices(known: &Known, a: u32, b: u32) -> bool
    ensures { result ≡ are_matrices known.now a b }
{
    is_matrix(known, a) && is_matrix(known, b)
}

pub fn can_multiply(known: &Known, statement: u32, a: u32, b: u32) -> Result<(), JobFault>
    ensures { Gives result (can_multiply known.now statement a b) }
{
    let maps = known.shape(a).domain() == known.shape(b).rows();
    passes(statement, are_matrices(known, a, b), maps)
}

/// Whether two matrices have equal sizes.
fn match_sizes(known: &Known, a: u32, b: u32) -> bool
    ensures { result ≡ match_sizes known.now a b }
{
    are_same_size(known, known.shape(a).rows(), known.shape(b).rows())
        && are_same_size(known, known.shape(a).domain(), known.shape(b).domain())
}

pub fn can_add(known: &Known, statement: u32, a: u32, b: u32) -> Result<(), JobFault>
    ensures { Gives result (can_add known.now statement a b) }
{
    passes(
        statement,
        are_matrices(known, a, b),
        match_sizes(known, a, b),
    )
}

fn is_matrix_or_none(known: &Known, value: Option<u32>) -> bool
    ensures { result ≡ is_matrix_or_none known.now value }
{
    match value {
        None => true,
        Some(value) => is_matrix(known, value),
    }
}

/// Whether a matrix, if there is one, is on the maps of the split one.
fn is_base(known: &Known, source: u32, onto: Option<u32>) -> bool
    ensures { result ≡ is_base known.now source onto }
{
    match onto {
        None => true,
        Some(onto) => {
            have_same_rows(known, source, onto)
                && known.shape(source).domain() == known.shape(onto).domain()
        }
    }
}

pub fn can_assemble(
    known: &Known,
    statement: u32,
    source: u32,
    onto: Option<u32>,
) -> Result<(), JobFault>
    ensures { Gives result (can_assemble known.now statement source onto) }
{
    let sorts = is_split(known, source) && is_matrix_or_none(known, onto);
    passes(statement, sorts, is_base(known, source, onto))
}

pub fn can_print(known: &Known, statement: u32, value: u32) -> Result<(), JobFault>
    ensures { Gives result (can_print known.now statement value) }
{
    passes(statement, !is_split(known, value), true)
}
