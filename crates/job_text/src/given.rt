//! The tables of the given values: `vector`, `parts` and `matrix`.
ghost use Rattle.std.specs.Prelude.{◌≡◌, ◌*◌, [], IfErr, OnOk, codes, nat_le};
ghost use Rattle.model_defs.specs.Makers.{GivenMatrix, GivenParts, GivenVector};
ghost use Rattle.job_text.specs.Outcomes.{Gives, GivesAs};
ghost use Rattle.job_text.specs.Known.{layout_at, read, with_maker};
ghost use Rattle.job_text.specs.Layouts.{index_count};
ghost use Rattle.job_text.specs.Given.{columns_at, form_beside, few_cells, filled, matrices_after, matrix_in, matrix_keys, matrix_tested, part_files, parts_after, parts_in, parts_keys, parts_origin, split_at, split_of, vector_file, vector_in, vector_keys, vector_origin, vector_tested, vectors_after, whole_map};
ghost use Rattle.toml.specs.View.{items_view, table_view, view};
ghost use Rattle.toml.specs.Data.{get_member};

use crate::JobFault;
use crate::arrays::table_of;
use crate::fault::{bad_map, limit, missing, wrong_kind};
use crate::known::Known;
use crate::lists::file_names_of;
use crate::place::Place;
use crate::shape::Shape;
use crate::value::{
    file_at, file_of, integer_of, map_at, new_name_at, number_or, only_keys, required, text_of,
    value_at,
};
use crate::words::{Form, split_named};
use model_defs::{ListOf, MatrixSpec, Origin, PartsSpec, Text, VectorSpec};
use std::alloc::Global;
use toml::{Table, Value};

/// The form of a table, beside a file without the key `fill`.
fn form_beside(table: &Table, partner: &str, beside: Form) -> Form
    ensures { result ≡ form_beside beside (get_member partner.now (table_view table.now)) }
{
    match value_at(table, partner) {
        Some(_) => beside,
        None => Form::Filled,
    }
}

/// The number of columns, 1 where it is missing.
fn columns_at(alloc: Global, place: Place, table: &Table) -> Result<u32, JobFault>
    ensures { Gives result (columns_at place (table_view table.now)) }
{
    let columns = number_or(alloc, place, table, "columns", 1, 1, 16)?;
    Ok(columns as u32)
}

/// One number for each cell, where there is no file.
fn filled(alloc: Global, place: Place, table: &Table, partner: &str) -> Result<Origin, JobFault>
    ensures { Gives result (filled place partner.now (get_member (codes "fill") (table_view table.now))) }
{
    match value_at(table, "fill") {
        None => Err(missing(alloc, place, partner)),
        Some(value) => {
            let number = integer_of(alloc, place, "fill", value)?;
            Ok(Origin::Fill(number))
        }
    }
}

/// A vector's one file.
fn vector_file(alloc: Global, place: Place, value: &Value) -> Result<Origin, JobFault>
    ensures { Gives result (vector_file place (view value.now)) }
{
    let name = file_of(alloc, place, "file", value)?;
    let mut names = Vec::new(alloc);
    names.push(name)?;
    Ok(Origin::Files(ListOf::new(names)))
}

/// Where the numbers of a vector come from.
fn vector_origin(alloc: Global, place: Place, table: &Table) -> Result<Origin, JobFault>
    ensures { Gives result (vector_origin place (table_view table.now)) }
{
    match value_at(table, "file") {
        Some(value) => vector_file(alloc, place, value),
        None => filled(alloc, place, table, "file"),
    }
}

/// A file of parts for each rank.
fn part_files(alloc: Global, place: Place, ranks: u32, value: &Value) -> Result<Origin, JobFault>
    ensures { Gives result (part_files place ranks (view value.now)) }
{
    let names = file_names_of(alloc, place, "files", value)?;
    if names.as_slice().len() == ranks as usize {
        Ok(Origin::Files(names))
    } else {
        Err(wrong_kind(alloc, place, "files"))
    }
}

/// Where the numbers of parts come from.
fn parts_origin(alloc: Global, place: Place, table: &Table, ranks: u32) -> Result<Origin, JobFault>
    ensures { Gives result (parts_origin place (table_view table.now) ranks) }
{
    match value_at(table, "files") {
        Some(value) => part_files(alloc, place, ranks, value),
        None => filled(alloc, place, table, "files"),
    }
}

/// Whether so many indices have few cells.
fn are_few_cells(count: u64, columns: u32) -> bool
    ensures { result ≡ nat_le (count * columns) 16777216 }
{
    match count.checked_mul(columns as u64) {
        Some(cells) => cells <= 16777216,
        None => false,
    }
}

/// Refuses a map on which there are too many cells.
fn few_cells(
    alloc: Global,
    place: Place,
    known: &Known,
    map: u32,
    columns: u32,
) -> Result<(), JobFault>
    ensures { Gives result (few_cells place (layout_at known.now map) columns) }
{
    if are_few_cells(known.index_count(map), columns) {
        Ok(())
    } else {
        Err(limit(alloc, place, "columns"))
    }
}

/// The keys of a vector.
fn vector_keys(
    alloc: Global,
    place: Place,
    table: &Table,
    known: &Known,
) -> Result<VectorSpec, JobFault>
    ensures { Gives result (vector_keys place (table_view table.now) known.now) }
{
    let name = new_name_at(alloc, place, table, known)?;
    let map = map_at(alloc, place, table, "map", known)?;
    let columns = columns_at(alloc, place, table)?;
    let from = vector_origin(alloc, place, table)?;
    Ok(VectorSpec {
        name,
        map,
        columns,
        from,
    })
}

/// The vector, where its map has one owner for each index, and few cells.
fn vector_tested(
    alloc: Global,
    place: Place,
    known: &Known,
    spec: VectorSpec,
) -> Result<VectorSpec, JobFault>
    ensures { Gives result (vector_tested place known.now spec) }
{
    if !known.is_one_to_one(spec.map) {
        return Err(bad_map(alloc, known.map_name(spec.map)));
    }
    few_cells(alloc, place, known, spec.map, spec.columns)?;
    Ok(spec)
}

/// The vector of a table.
fn vector_in(
    alloc: Global,
    place: Place,
    table: &Table,
    known: &Known,
) -> Result<VectorSpec, JobFault>
    ensures { Gives result (vector_in place (table_view table.now) known.now) }
{
    let form = form_beside(table, "file", Form::OfFile);
    only_keys(alloc, place, form, table)?;
    let spec = vector_keys(alloc, place, table, known)?;
    vector_tested(alloc, place, known, spec)
}

/// The keys of parts.
fn parts_keys(
    alloc: Global,
    place: Place,
    table: &Table,
    known: &Known,
) -> Result<PartsSpec, JobFault>
    ensures { Gives result (parts_keys place (table_view table.now) known.now) }
{
    let name = new_name_at(alloc, place, table, known)?;
    let map = map_at(alloc, place, table, "map", known)?;
    let columns = columns_at(alloc, place, table)?;
    let from = parts_origin(alloc, place, table, known.ranks())?;
    Ok(PartsSpec {
        name,
        map,
        columns,
        from,
    })
}

/// The parts of a table.
fn parts_in(
    alloc: Global,
    place: Place,
    table: &Table,
    known: &Known,
) -> Result<PartsSpec, JobFault>
    ensures { Gives result (parts_in place (table_view table.now) known.now) }
{
    let form = form_beside(table, "files", Form::OfFiles);
    only_keys(alloc, place, form, table)?;
    let spec = parts_keys(alloc, place, table, known)?;
    few_cells(alloc, place, known, spec.map, spec.columns)?;
    Ok(spec)
}

/// Whether a matrix is split, from the word of its kind.
fn split_of(alloc: Global, place: Place, value: &Value) -> Result<bool, JobFault>
    ensures { Gives result (split_of place (view value.now)) }
{
    let word = text_of(alloc, place, "kind", value)?;
    match split_named(word) {
        Some(split) => Ok(split),
        None => Err(wrong_kind(alloc, place, "kind")),
    }
}

/// Whether a matrix is split.
fn split_at(alloc: Global, place: Place, table: &Table) -> Result<bool, JobFault>
    ensures { Gives result (split_at place (table_view table.now)) }
{
    let value = required(alloc, place, table, "kind")?;
    split_of(alloc, place, value)
}

/// Refuses a map on which an index has no owner, or more than one.
fn whole_map(alloc: Global, known: &Known, map: u32) -> Result<(), JobFault>
    ensures { Gives result (whole_map known.now map) }
{
    if known.is_one_to_one(map) && known.is_total(map) {
        Ok(())
    } else {
        Err(bad_map(alloc, known.map_name(map)))
    }
}

/// The keys of a matrix.
fn matrix_keys(
    alloc: Global,
    place: Place,
    table: &Table,
    known: &Known,
) -> Result<MatrixSpec, JobFault>
    ensures { Gives result (matrix_keys place (table_view table.now) known.now) }
{
    let name = new_name_at(alloc, place, table, known)?;
    let split = split_at(alloc, place, table)?;
    let rows = map_at(alloc, place, table, "rows", known)?;
    let domain = map_at(alloc, place, table, "domain", known)?;
    let file = file_at(alloc, place, table, "file")?;
    Ok(MatrixSpec {
        name,
        split,
        rows,
        domain,
        file,
    })
}

/// The matrix, where its maps have exactly one owner for each index.
fn matrix_tested(alloc: Global, known: &Known, spec: MatrixSpec) -> Result<MatrixSpec, JobFault>
    ensures { Gives result (matrix_tested known.now spec) }
{
    whole_map(alloc, known, spec.rows)?;
    whole_map(alloc, known, spec.domain)?;
    Ok(spec)
}

/// The matrix of a table.
fn matrix_in(
    alloc: Global,
    place: Place,
    table: &Table,
    known: &Known,
) -> Result<MatrixSpec, JobFault>
    ensures { Gives result (matrix_in place (table_view table.now) known.now) }
{
    only_keys(alloc, place, Form::Matrix, table)?;
    let spec = matrix_keys(alloc, place, table, known)?;
    matrix_tested(alloc, known, spec)
}

/// Names a vector.
fn add_vector(alloc: Global, known: &mut Known, spec: &VectorSpec) -> Result<(), JobFault>
    ensures memory { IfErr result (λ fault. fault ≡ JobFault.NoMem) }
    ensures named { OnOk result (known.new ≡ with_maker known.old (GivenVector spec.now)) }
{
    let name = Text::new(alloc, spec.name.as_str())?;
    let shape = Shape::vector(known.value_count(), spec.map, spec.columns);
    known.add_value(name, shape)
}

/// Names parts.
fn add_parts(alloc: Global, known: &mut Known, spec: &PartsSpec) -> Result<(), JobFault>
    ensures memory { IfErr result (λ fault. fault ≡ JobFault.NoMem) }
    ensures named { OnOk result (known.new ≡ with_maker known.old (GivenParts spec.now)) }
{
    let name = Text::new(alloc, spec.name.as_str())?;
    let shape = Shape::parts(known.value_count(), spec.map, spec.columns);
    known.add_value(name, shape)
}

/// Names a matrix.
fn add_matrix(alloc: Global, known: &mut Known, spec: &MatrixSpec) -> Result<(), JobFault>
    ensures memory { IfErr result (λ fault. fault ≡ JobFault.NoMem) }
    ensures named { OnOk result (known.new ≡ with_maker known.old (GivenMatrix spec.now)) }
{
    let name = Text::new(alloc, spec.name.as_str())?;
    let shape = Shape::matrix(known.value_count(), spec.split, spec.rows, spec.domain);
    known.add_value(name, shape)
}

/// The vectors of the tables, which are named in their order.
pub fn read_vectors(
    alloc: Global,
    tables: &[Value],
    known: &mut Known,
) -> Result<Vec<VectorSpec>, JobFault>
    ensures { GivesAs (λ specs. read known.new specs.items) result (vectors_after (read known.old []) 0 (items_view tables.now)) }
{
    let mut specs = Vec::with_capacity(alloc, tables.len())?;
    for (k, item) in tables.iter().enumerate() {
        let table = table_of(alloc, "vector", item)?;
        let spec = vector_in(alloc, Place::Vector(k), table, known)?;
        add_vector(alloc, known, &spec)?;
        specs.push(spec)?;
    }
    Ok(specs)
}

/// The parts of the tables, which are named in their order.
pub fn read_parts(
    alloc: Global,
    tables: &[Value],
    known: &mut Known,
) -> Result<Vec<PartsSpec>, JobFault>
    ensures { GivesAs (λ specs. read known.new specs.items) result (parts_after (read known.old []) 0 (items_view tables.now)) }
{
    let mut specs = Vec::with_capacity(alloc, tables.len())?;
    for (k, item) in tables.iter().enumerate() {
        let table = table_of(alloc, "parts", item)?;
        let spec = parts_in(alloc, Place::Parts(k), table, known)?;
        add_parts(alloc, known, &spec)?;
        specs.push(spec)?;
    }
    Ok(specs)
}

/// The matrices of the tables, which are named in their order.
pub fn read_matrices(
    alloc: Global,
    tables: &[Value],
    known: &mut Known,
) -> Result<Vec<MatrixSpec>, JobFault>
    ensures { GivesAs (λ specs. read known.new specs.items) result (matrices_after (read known.old []) 0 (items_view tables.now)) }
{
    let mut specs = Vec::with_capacity(alloc, tables.len())?;
    for (k, item) in tables.iter().enumerate() {
        let table = table_of(alloc, "matrix", item)?;
        let spec = matrix_in(alloc, Place::Matrix(k), table, known)?;
        add_matrix(alloc, known, &spec)?;
        specs.push(spec)?;
    }
    Ok(specs)
}
