//! The tables of `do`.
ghost use Rattle.std.specs.Prelude.{◌≡◌, ◌<◌, [], IfErr, OnOk, length, if◌then◌else◌};
ghost use Rattle.model_defs.specs.Makers.{Made, gives_value, step_name};
ghost use Rattle.model_defs.specs.Shapes.{shape_by};
ghost use Rattle.job_text.specs.Outcomes.{Gives, GivesAs};
ghost use Rattle.job_text.specs.Known.{read, shape_at, with_step};
ghost use Rattle.job_text.specs.Steps.{add_in, apply_in, assemble_in, export_in, import_in, move_in, multiply_in, op_at, op_of, print_in, scale_in, spread_in, step_by, step_in, step_of, steps_after, transpose_in, update_in};
ghost use Rattle.toml.specs.View.{items_view, table_view, view};

use crate::JobFault;
use crate::arrays::table_of;
use crate::fault::wrong_kind;
use crate::known::Known;
use crate::place::Place;
use crate::shape::Shape;
use crate::statements::{
    can_add, can_apply, can_assemble, can_export, can_import, can_move, can_multiply, can_print,
    can_spread, can_transpose, can_update,
};
use crate::value::{
    flag_or, integer_at, integer_or, known_value_at, map_at, mode_at, mode_or, new_name_at,
    only_keys, required, text_of, value_or_none,
};
use crate::words::{Form, Op, op_named};
use combine_modes::Mode;
use model_defs::{Step, Text};
use std::alloc::Global;
use toml::{Table, Value};

/// What a statement does, from its word.
fn op_of(alloc: Global, place: Place, value: &Value) -> Result<Op, JobFault>
    ensures { Gives result (op_of place (view value.now)) }
{
    let word = text_of(alloc, place, "op", value)?;
    match op_named(word) {
        Some(op) => Ok(op),
        None => Err(wrong_kind(alloc, place, "op")),
    }
}

/// What a statement does.
fn op_at(alloc: Global, place: Place, table: &Table) -> Result<Op, JobFault>
    ensures { Gives result (op_at place (table_view table.now)) }
{
    let value = required(alloc, place, table, "op")?;
    op_of(alloc, place, value)
}

fn move_in(alloc: Global, k: u32, table: &Table, known: &Known) -> Result<Step, JobFault>
    ensures { Gives result (move_in k (table_view table.now) known.now) }
{
    let place = Place::Do(k as usize);
    let name = new_name_at(alloc, place, table, known)?;
    let source = known_value_at(alloc, place, table, "from", known)?;
    let map = map_at(alloc, place, table, "map", known)?;
    can_move(alloc, known, k, source, map)?;
    Ok(Step::Move {
        name,
        from: source,
        map,
    })
}

fn import_in(alloc: Global, k: u32, table: &Table, known: &Known) -> Result<Step, JobFault>
    ensures { Gives result (import_in k (table_view table.now) known.now) }
{
    let place = Place::Do(k as usize);
    let name = new_name_at(alloc, place, table, known)?;
    let source = known_value_at(alloc, place, table, "from", known)?;
    let onto = known_value_at(alloc, place, table, "onto", known)?;
    let mode = mode_at(alloc, place, table, "mode")?;
    can_import(known, k, source, onto)?;
    Ok(Step::Import {
        name,
        from: source,
        onto,
        mode,
    })
}

fn export_in(alloc: Global, k: u32, table: &Table, known: &Known) -> Result<Step, JobFault>
    ensures { Gives result (export_in k (table_view table.now) known.now) }
{
    let place = Place::Do(k as usize);
    let name = new_name_at(alloc, place, table, known)?;
    let source = known_value_at(alloc, place, table, "from", known)?;
    let onto = known_value_at(alloc, place, table, "onto", known)?;
    let mode = mode_at(alloc, place, table, "mode")?;
    can_export(known, k, source, onto)?;
    Ok(Step::Export {
        name,
        from: source,
        onto,
        mode,
    })
}

fn spread_in(alloc: Global, k: u32, table: &Table, known: &Known) -> Result<Step, JobFault>
    ensures { Gives result (spread_in k (table_view table.now) known.now) }
{
    let place = Place::Do(k as usize);
    let name = new_name_at(alloc, place, table, known)?;
    let source = known_value_at(alloc, place, table, "from", known)?;
    let map = map_at(alloc, place, table, "map", known)?;
    can_spread(known, k, source, map)?;
    Ok(Step::Spread {
        name,
        from: source,
        map,
    })
}

fn update_in(alloc: Global, k: u32, table: &Table, known: &Known) -> Result<Step, JobFault>
    ensures { Gives result (update_in k (table_view table.now) known.now) }
{
    let place = Place::Do(k as usize);
    let name = new_name_at(alloc, place, table, known)?;
    let x = known_value_at(alloc, place, table, "x", known)?;
    let y = known_value_at(alloc, place, table, "y", known)?;
    let alpha = integer_or(alloc, place, table, "alpha", 1)?;
    let beta = integer_or(alloc, place, table, "beta", 1)?;
    can_update(known, k, x, y)?;
    Ok(Step::Update {
        name,
        x,
        y,
        alpha,
        beta,
    })
}

fn scale_in(alloc: Global, k: u32, table: &Table, known: &Known) -> Result<Step, JobFault>
    ensures { Gives result (scale_in k (table_view table.now) known.now) }
{
    let name = new_name_at(alloc, Place::Do(k as usize), table, known)?;
    let place = Place::Do(k as usize);
    let value = known_value_at(alloc, place, table, "value", known)?;
    let alpha = integer_at(alloc, place, table, "alpha")?;
    Ok(Step::Scale { name, value, alpha })
}

fn apply_in(alloc: Global, k: u32, table: &Table, known: &Known) -> Result<Step, JobFault>
    ensures { Gives result (apply_in k (table_view table.now) known.now) }
{
    let place = Place::Do(k as usize);
    let name = new_name_at(alloc, place, table, known)?;
    let matrix = known_value_at(alloc, place, table, "matrix", known)?;
    let x = known_value_at(alloc, place, table, "x", known)?;
    let y = value_or_none(alloc, place, table, "y", known)?;
    let alpha = integer_or(alloc, place, table, "alpha", 1)?;
    let beta = integer_or(alloc, place, table, "beta", 0)?;
    let transposed = flag_or(alloc, place, table, "transposed", false)?;
    can_apply(known, k, matrix, x, y, transposed)?;
    Ok(Step::Apply {
        name,
        matrix,
        x,
        y,
        alpha,
        beta,
        transposed,
    })
}

fn transpose_in(alloc: Global, k: u32, table: &Table, known: &Known) -> Result<Step, JobFault>
    ensures { Gives result (transpose_in k (table_view table.now) known.now) }
{
    let place = Place::Do(k as usize);
    let name = new_name_at(alloc, place, table, known)?;
    let matrix = known_value_at(alloc, place, table, "matrix", known)?;
    can_transpose(known, k, matrix)?;
    Ok(Step::Transpose { name, matrix })
}

fn multiply_in(alloc: Global, k: u32, table: &Table, known: &Known) -> Result<Step, JobFault>
    ensures { Gives result (multiply_in k (table_view table.now) known.now) }
{
    let place = Place::Do(k as usize);
    let name = new_name_at(alloc, place, table, known)?;
    let a = known_value_at(alloc, place, table, "a", known)?;
    let b = known_value_at(alloc, place, table, "b", known)?;
    can_multiply(known, k, a, b)?;
    Ok(Step::Multiply { name, a, b })
}

fn add_in(alloc: Global, k: u32, table: &Table, known: &Known) -> Result<Step, JobFault>
    ensures { Gives result (add_in k (table_view table.now) known.now) }
{
    let place = Place::Do(k as usize);
    let name = new_name_at(alloc, place, table, known)?;
    let a = known_value_at(alloc, place, table, "a", known)?;
    let b = known_value_at(alloc, place, table, "b", known)?;
    let alpha = integer_or(alloc, place, table, "alpha", 1)?;
    let beta = integer_or(alloc, place, table, "beta", 1)?;
    can_add(known, k, a, b)?;
    Ok(Step::Add {
        name,
        a,
        b,
        alpha,
        beta,
    })
}

fn assemble_in(alloc: Global, k: u32, table: &Table, known: &Known) -> Result<Step, JobFault>
    ensures { Gives result (assemble_in k (table_view table.now) known.now) }
{
    let place = Place::Do(k as usize);
    let name = new_name_at(alloc, place, table, known)?;
    let source = known_value_at(alloc, place, table, "from", known)?;
    let onto = value_or_none(alloc, place, table, "onto", known)?;
    let mode = mode_or(alloc, place, table, "mode", Mode::Add)?;
    can_assemble(known, k, source, onto)?;
    Ok(Step::Assemble {
        name,
        from: source,
        onto,
        mode,
    })
}

fn print_in(alloc: Global, k: u32, table: &Table, known: &Known) -> Result<Step, JobFault>
    ensures { Gives result (print_in k (table_view table.now) known.now) }
{
    let place = Place::Do(k as usize);
    let value = known_value_at(alloc, place, table, "value", known)?;
    can_print(known, k, value)?;
    Ok(Step::Print { value })
}

/// The statement of a table, by what it does.
fn step_of(alloc: Global, k: u32, table: &Table, known: &Known, op: Op) -> Result<Step, JobFault>
    ensures { Gives result (step_of k (table_view table.now) known.now op) }
{
    match op {
        Op::Move => move_in(alloc, k, table, known),
        Op::Import => import_in(alloc, k, table, known),
        Op::Export => export_in(alloc, k, table, known),
        Op::Spread => spread_in(alloc, k, table, known),
        Op::Update => update_in(alloc, k, table, known),
        Op::Scale => scale_in(alloc, k, table, known),
        Op::Apply => apply_in(alloc, k, table, known),
        Op::Transpose => transpose_in(alloc, k, table, known),
        Op::Multiply => multiply_in(alloc, k, table, known),
        Op::Add => add_in(alloc, k, table, known),
        Op::Assemble => assemble_in(alloc, k, table, known),
        Op::Print => print_in(alloc, k, table, known),
    }
}

/// The statement of a table that has no other keys.
fn step_by(alloc: Global, k: u32, table: &Table, known: &Known, op: Op) -> Result<Step, JobFault>
    ensures { Gives result (step_by k (table_view table.now) known.now op) }
{
    only_keys(alloc, Place::Do(k as usize), Form::Do(op), table)?;
    step_of(alloc, k, table, known, op)
}

/// The statement of a table.
fn step_in(alloc: Global, k: u32, table: &Table, known: &Known) -> Result<Step, JobFault>
    ensures { Gives result (step_in k (table_view table.now) known.now) }
{
    let op = op_at(alloc, Place::Do(k as usize), table)?;
    step_by(alloc, k, table, known, op)
}

/// The name of the value that a statement gives; empty where it gives none.
fn step_name(step: &Step) -> &str
    ensures { result.now ≡ step_name step.now }
{
    match step {
        Step::Move { name, .. } => name.as_str(),
        Step::Import { name, .. } => name.as_str(),
        Step::Export { name, .. } => name.as_str(),
        Step::Spread { name, .. } => name.as_str(),
        Step::Update { name, .. } => name.as_str(),
        Step::Scale { name, .. } => name.as_str(),
        Step::Apply { name, .. } => name.as_str(),
        Step::Transpose { name, .. } => name.as_str(),
        Step::Multiply { name, .. } => name.as_str(),
        Step::Add { name, .. } => name.as_str(),
        Step::Assemble { name, .. } => name.as_str(),
        Step::Print { .. } => "",
    }
}

/// The shape of an apply's result.
fn applied(known: &Known, matrix: u32, x: u32, transposed: bool) -> Shape
    ensures { result ≡ record (shape_at known.now x) { rows = if transposed then (shape_at known.now matrix).domain else (shape_at known.now matrix).rows } }
{
    let a = known.shape(matrix);
    let rows = if transposed { a.domain() } else { a.rows() };
    known.shape(x).on(rows)
}

/// The shape of a transpose.
fn transposed(known: &Known, matrix: u32, number: u32) -> Shape
    ensures { result ≡ record (shape_at known.now matrix) { rows = (shape_at known.now matrix).domain; domain = (shape_at known.now matrix).rows; structure = number } }
{
    let a = known.shape(matrix);
    a.on_maps(number, a.domain(), a.rows())
}

/// The shape of a product.
fn multiplied(known: &Known, a: u32, b: u32, number: u32) -> Shape
    ensures { result ≡ record (shape_at known.now a) { domain = (shape_at known.now b).domain; structure = number } }
{
    let a = known.shape(a);
    a.on_maps(number, a.rows(), known.shape(b).domain())
}

/// The shape of a sum.
fn added(known: &Known, a: u32, number: u32) -> Shape
    ensures { result ≡ record (shape_at known.now a) { structure = number } }
{
    let a = known.shape(a);
    a.on_maps(number, a.rows(), a.domain())
}

/// The shape of the value that a statement gives.
fn step_shape(known: &Known, step: &Step) -> Shape
    ensures { result ≡ shape_by (length known.now.values) (shape_at known.now) (Made step.now) }
{
    let number = known.value_count();
    match step {
        Step::Move { from, map, .. } => known.shape(*from).moved(number, *map),
        Step::Import { onto, .. } => known.shape(*onto),
        Step::Export { onto, .. } => known.shape(*onto),
        Step::Spread { from, map, .. } => known.shape(*from).spread(*map),
        Step::Update { x, .. } => known.shape(*x),
        Step::Scale { value, .. } => known.shape(*value),
        Step::Apply {
            matrix,
            x,
            transposed,
            ..
        } => applied(known, *matrix, *x, *transposed),
        Step::Transpose { matrix, .. } => transposed(known, *matrix, number),
        Step::Multiply { a, b, .. } => multiplied(known, *a, *b, number),
        Step::Add { a, .. } => added(known, *a, number),
        Step::Assemble { from, .. } => known.shape(*from).assembled(number),
        Step::Print { value } => known.shape(*value),
    }
}

/// Whether a statement gives a value.
fn gives_value(step: &Step) -> bool
    ensures { result ≡ gives_value step.now }
{
    !matches!(step, Step::Print { .. })
}

/// Names the value of a statement, if it gives one.
fn add_step(alloc: Global, known: &mut Known, step: &Step) -> Result<(), JobFault>
    ensures memory { IfErr result (λ fault. fault ≡ JobFault.NoMem) }
    ensures named { OnOk result (known.new ≡ with_step known.old step.now) }
{
    if !gives_value(step) {
        return Ok(());
    }
    let name = Text::new(alloc, step_name(step))?;
    let shape = step_shape(known, step);
    known.add_value(name, shape)
}

/// The statements of the tables, whose values are named in their order. There are fewer than 2^32.
pub fn read_steps(alloc: Global, tables: &[Value], known: &mut Known) -> Result<Vec<Step>, JobFault>
    requires { length tables.now < 4294967296 }
    ensures { GivesAs (λ steps. read known.new steps.items) result (steps_after (read known.old []) 0 (items_view tables.now)) }
{
    let mut steps = Vec::with_capacity(alloc, tables.len())?;
    for (k, item) in tables.iter().enumerate() {
        let table = table_of(alloc, "do", item)?;
        let step = step_in(alloc, k as u32, table, known)?;
        add_step(alloc, known, &step)?;
        steps.push(step)?;
    }
    Ok(steps)
}
