//! What makes a value, found by the value's number.
ghost use Rattle.std.specs.Prelude.{◌≡◌, ◌+◌, filter, length};
ghost use Rattle.std.specs.List.{slice_get};
ghost use Rattle.std.specs.Option.{option_map};
ghost use Rattle.model_defs.specs.Makers.{gives_value, maker_name, maker_of, step_name};
ghost use Rattle.phase_list.specs.Seen.{maker_seen};

use model_defs::{Job, MatrixSpec, PartsSpec, Step, VectorSpec};

/// What makes a value: it is given, or a statement makes it. Nothing makes a value that is not there.
#[derive(Clone, Copy)]
pub enum MadeBy<'a> {
    Vector(&'a VectorSpec),
    Parts(&'a PartsSpec),
    Matrix(&'a MatrixSpec),
    Statement(&'a Step),
    Nothing,
}

/// Whether a statement gives a value.
fn gives(step: &Step) -> bool
    ensures { result ≡ gives_value step.now }
{
    !matches!(step, Step::Print { .. })
}

/// The statement that gives value `n` of those that statements give.
fn giving_step(steps: &[Step], n: usize) -> Option<&Step>
    ensures { option_map (λ s. s.now) result ≡ slice_get (filter gives_value steps.now) n }
{
    let mut left = n;
    for step in steps {
        if gives(step) {
            if left == 0 {
                return Some(step);
            }
            left -= 1;
        }
    }
    None
}

/// What makes value `k` of those behind the vectors and the parts.
fn behind_parts(job: &Job, k: usize) -> MadeBy
    ensures { maker_seen result ≡ maker_of job.now (length job.now.vectors + length job.now.parts + k) }
{
    let matrices = job.matrices.as_slice();
    if k < matrices.len() {
        return MadeBy::Matrix(&matrices[k]);
    }
    match giving_step(job.steps.as_slice(), k - matrices.len()) {
        Some(step) => MadeBy::Statement(step),
        None => MadeBy::Nothing,
    }
}

/// What makes value `k` of those behind the vectors.
fn behind_vectors(job: &Job, k: usize) -> MadeBy
    ensures { maker_seen result ≡ maker_of job.now (length job.now.vectors + k) }
{
    let parts = job.parts.as_slice();
    if k < parts.len() {
        return MadeBy::Parts(&parts[k]);
    }
    behind_parts(job, k - parts.len())
}

/// What makes value `k`.
pub fn maker_at(job: &Job, k: usize) -> MadeBy
    ensures { maker_seen result ≡ maker_of job.now k }
{
    let vectors = job.vectors.as_slice();
    if k < vectors.len() {
        return MadeBy::Vector(&vectors[k]);
    }
    behind_vectors(job, k - vectors.len())
}

/// The name of the value that a statement gives.
fn step_name(step: &Step) -> &str
    ensures { result.now ≡ step_name step.now }
{
    match step {
        Step::Move { name, .. } => name.as_str(),
        Step::Import { name, .. } => name.as_str(),
        Step::Export { name, .. } => name.as_str(),
        Step::Spread { name, .. } => name.as_str(),
        Step::Update { name, .. } => name.as_str(),
        Step::Scale { name, .. } => name.as_str(),
        Step::Apply { name, .. } => name.as_str(),
        Step::Transpose { name, .. } => name.as_str(),
        Step::Multiply { name, .. } => name.as_str(),
        Step::Add { name, .. } => name.as_str(),
        Step::Assemble { name, .. } => name.as_str(),
        Step::Print { .. } => "",
    }
}

/// The name of value `k`. Empty where there is no such value.
pub(crate) fn name_at(job: &Job, k: usize) -> &str
    ensures { result.now ≡ maker_name (maker_of job.now k) }
{
    match maker_at(job, k) {
        MadeBy::Vector(spec) => spec.name.as_str(),
        MadeBy::Parts(spec) => spec.name.as_str(),
        MadeBy::Matrix(spec) => spec.name.as_str(),
        MadeBy::Statement(step) => step_name(step),
        MadeBy::Nothing => "",
    }
}
