//! The words of the job text, and the keys of its tables.
ghost use Rattle.std.specs.Prelude.{◌≡◌, [], ◌∷◌};
ghost use Rattle.job_text.specs.Names.{is_among, keys_of, map_keys, step_keys};
ghost use Rattle.job_text.specs.Words.{cellwise_named, kind_named, matrix_step_named, mode_named, op_named, split_named, transfer_named};

use combine_modes::Mode;

/// The kind of a map.
#[derive(Clone, Copy, Debug)]
pub enum MapKind {
    Uniform,
    Blocks,
    Cyclic,
    Lists,
}

/// What a statement does.
#[derive(Clone, Copy, Debug)]
pub enum Op {
    Move,
    Import,
    Export,
    Spread,
    Update,
    Scale,
    Apply,
    Transpose,
    Multiply,
    Add,
    Assemble,
    Print,
}

/// The form of a table, by which it has its keys.
#[derive(Clone, Copy, Debug)]
pub enum Form {
    Top,
    Map(MapKind),
    OfFile,
    OfFiles,
    Filled,
    Matrix,
    Do(Op),
}

/// The kind of a map of this name.
pub fn kind_named(word: &str) -> Option<MapKind>
    ensures { result ≡ kind_named word.now }
{
    if word == "uniform" {
        return Some(MapKind::Uniform);
    }
    if word == "blocks" {
        return Some(MapKind::Blocks);
    }
    if word == "cyclic" {
        return Some(MapKind::Cyclic);
    }
    if word == "lists" {
        return Some(MapKind::Lists);
    }
    None
}

/// A statement of this name that moves, copies or combines cells.
fn transfer_named(word: &str) -> Option<Op>
    ensures { result ≡ transfer_named word.now }
{
    if word == "move" {
        return Some(Op::Move);
    }
    if word == "import" {
        return Some(Op::Import);
    }
    if word == "export" {
        return Some(Op::Export);
    }
    if word == "spread" {
        return Some(Op::Spread);
    }
    None
}

/// A statement of this name that makes a value of others cell by cell, or prints one.
fn cellwise_named(word: &str) -> Option<Op>
    ensures { result ≡ cellwise_named word.now }
{
    if word == "update" {
        return Some(Op::Update);
    }
    if word == "scale" {
        return Some(Op::Scale);
    }
    if word == "add" {
        return Some(Op::Add);
    }
    if word == "print" {
        return Some(Op::Print);
    }
    None
}

/// A statement of this name that works with a matrix.
fn matrix_step_named(word: &str) -> Option<Op>
    ensures { result ≡ matrix_step_named word.now }
{
    if word == "apply" {
        return Some(Op::Apply);
    }
    if word == "transpose" {
        return Some(Op::Transpose);
    }
    if word == "multiply" {
        return Some(Op::Multiply);
    }
    if word == "assemble" {
        return Some(Op::Assemble);
    }
    None
}

/// What a statement of this name does.
pub fn op_named(word: &str) -> Option<Op>
    ensures { result ≡ op_named word.now }
{
    if let Some(op) = transfer_named(word) {
        return Some(op);
    }
    if let Some(op) = cellwise_named(word) {
        return Some(op);
    }
    matrix_step_named(word)
}

/// The combine mode of this name.
pub fn mode_named(word: &str) -> Option<Mode>
    ensures { result ≡ mode_named word.now }
{
    if word == "insert" {
        return Some(Mode::Insert);
    }
    if word == "replace" {
        return Some(Mode::Replace);
    }
    if word == "add" {
        return Some(Mode::Add);
    }
    if word == "absmax" {
        return Some(Mode::AbsMax);
    }
    if word == "zero" {
        return Some(Mode::Zero);
    }
    None
}

/// Whether a matrix of this kind is split: `assembled` is not, `split` is.
pub fn split_named(word: &str) -> Option<bool>
    ensures { result ≡ split_named word.now }
{
    if word == "assembled" {
        return Some(false);
    }
    if word == "split" {
        return Some(true);
    }
    None
}

fn is_one_of_2(key: &str, a: &str, b: &str) -> bool
    ensures { result ≡ is_among key.now (a.now ∷ b.now ∷ []) }
{
    key == a || key == b
}

fn is_one_of_3(key: &str, a: &str, b: &str, c: &str) -> bool
    ensures { result ≡ is_among key.now (a.now ∷ b.now ∷ c.now ∷ []) }
{
    key == a || is_one_of_2(key, b, c)
}

fn is_one_of_4(key: &str, a: &str, b: &str, c: &str, d: &str) -> bool
    ensures { result ≡ is_among key.now (a.now ∷ b.now ∷ c.now ∷ d.now ∷ []) }
{
    key == a || is_one_of_3(key, b, c, d)
}

fn is_one_of_5(key: &str, a: &str, b: &str, c: &str, d: &str, e: &str) -> bool
    ensures { result ≡ is_among key.now (a.now ∷ b.now ∷ c.now ∷ d.now ∷ e.now ∷ []) }
{
    key == a || is_one_of_4(key, b, c, d, e)
}

/// Whether a map of this kind has the key, beside `kind`.
fn is_map_key(kind: MapKind, key: &str) -> bool
    ensures { result ≡ is_among key.now (map_keys kind) }
{
    match kind {
        MapKind::Uniform => is_one_of_2(key, "name", "size"),
        MapKind::Blocks => is_one_of_2(key, "name", "counts"),
        MapKind::Cyclic => is_one_of_2(key, "name", "size"),
        MapKind::Lists => is_one_of_3(key, "name", "size", "lists"),
    }
}

/// Whether `apply` has the key, beside `op`.
fn is_apply_key(key: &str) -> bool
    ensures { result ≡ is_among key.now (step_keys Op.Apply) }
{
    key == "name" || key == "matrix" || is_one_of_5(key, "x", "y", "alpha", "beta", "transposed")
}

/// Whether a statement has the key, beside `op`.
fn is_step_key(op: Op, key: &str) -> bool
    ensures { result ≡ is_among key.now (step_keys op) }
{
    match op {
        Op::Move => is_one_of_3(key, "name", "from", "map"),
        Op::Import => is_one_of_4(key, "name", "from", "onto", "mode"),
        Op::Export => is_one_of_4(key, "name", "from", "onto", "mode"),
        Op::Spread => is_one_of_3(key, "name", "from", "map"),
        Op::Update => is_one_of_5(key, "name", "x", "y", "alpha", "beta"),
        Op::Scale => is_one_of_3(key, "name", "value", "alpha"),
        Op::Apply => is_apply_key(key),
        Op::Transpose => is_one_of_2(key, "name", "matrix"),
        Op::Multiply => is_one_of_3(key, "name", "a", "b"),
        Op::Add => is_one_of_5(key, "name", "a", "b", "alpha", "beta"),
        Op::Assemble => is_one_of_4(key, "name", "from", "onto", "mode"),
        Op::Print => key == "value",
    }
}

/// Whether a table of this form has the key.
pub fn is_key(form: Form, key: &str) -> bool
    ensures { result ≡ is_among key.now (keys_of form) }
{
    match form {
        Form::Top => key == "ranks" || is_one_of_5(key, "map", "vector", "parts", "matrix", "do"),
        Form::Map(kind) => key == "kind" || is_map_key(kind, key),
        Form::OfFile => is_one_of_4(key, "name", "map", "columns", "file"),
        Form::OfFiles => is_one_of_4(key, "name", "map", "columns", "files"),
        Form::Filled => is_one_of_4(key, "name", "map", "columns", "fill"),
        Form::Matrix => is_one_of_5(key, "name", "kind", "rows", "domain", "file"),
        Form::Do(op) => key == "op" || is_step_key(op, key),
    }
}
