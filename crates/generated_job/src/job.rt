//! The job itself.
ghost use Rattle.std.specs.Prelude.{◌≡◌, pos, false, [], ◌∷◌, None, IfOk};
ghost use Rattle.model_defs.specs.declared.job.MapSpec.{MapSpec};
ghost use Rattle.model_defs.specs.declared.job.Step.TheVariants.{Apply};
ghost use Rattle.generated_job.specs.Generated.{cyclic_map, generated_job, matrix_spec, statements, uniform_map, vector_spec};

use model_defs::{Job, ListOf, MapForm, MapSpec, MatrixSpec, Origin, Step, Text, VectorSpec};
use std::alloc::{AllocError, Global};

/// A map of this size.
fn map_of(alloc: Global, name: &str, size: u32, form: MapForm) -> Result<MapSpec, AllocError>
    ensures map { IfOk result (λ m. m ≡ record { name = name.now; size = size; form = form }) }
{
    Ok(MapSpec {
        name: Text::new(alloc, name)?,
        size: u64::from(size),
        form,
    })
}

/// The uniform map and the cyclic one.
fn maps(alloc: Global, size: u32) -> Result<ListOf<MapSpec>, AllocError>
    ensures maps { IfOk result (λ list. list ≡ uniform_map size ∷ cyclic_map size ∷ []) }
{
    let mut list = Vec::new(alloc);
    list.push(map_of(alloc, "u", size, MapForm::Uniform)?)?;
    list.push(map_of(alloc, "m", size, MapForm::Cyclic)?)?;
    Ok(ListOf::new(list))
}

/// The vector `x0` of its file, on the cyclic map.
fn vectors(alloc: Global) -> Result<ListOf<VectorSpec>, AllocError>
    ensures vectors { IfOk result (λ list. list ≡ vector_spec ∷ []) }
{
    let mut names = Vec::new(alloc);
    names.push(Text::new(alloc, "x0")?)?;
    let mut list = Vec::new(alloc);
    list.push(VectorSpec {
        name: Text::new(alloc, "x0")?,
        map: 1,
        columns: 1,
        from: Origin::Files(ListOf::new(names)),
    })?;
    Ok(ListOf::new(list))
}

/// The matrix `A` of its file, on the uniform map.
fn matrices(alloc: Global) -> Result<ListOf<MatrixSpec>, AllocError>
    ensures matrices { IfOk result (λ list. list ≡ matrix_spec ∷ []) }
{
    let mut list = Vec::new(alloc);
    list.push(MatrixSpec {
        name: Text::new(alloc, "A")?,
        split: false,
        rows: 0,
        domain: 0,
        file: Text::new(alloc, "A")?,
    })?;
    Ok(ListOf::new(list))
}

/// A matrix applied to `x`.
fn apply(alloc: Global, name: &str, matrix: u32) -> Result<Step, AllocError>
    ensures step { IfOk result (λ step. step ≡ Apply name.now matrix 2 None (pos 1) (pos 0) false) }
{
    Ok(Step::Apply {
        name: Text::new(alloc, name)?,
        matrix,
        x: 2,
        y: None,
        alpha: 1,
        beta: 0,
        transposed: false,
    })
}

/// The statements.
fn steps(alloc: Global) -> Result<ListOf<Step>, AllocError>
    ensures steps { IfOk result (λ list. list ≡ statements) }
{
    let mut list = Vec::new(alloc);
    list.push(Step::Move {
        name: Text::new(alloc, "x")?,
        from: 0,
        map: 0,
    })?;
    list.push(apply(alloc, "y", 1)?)?;
    list.push(Step::Multiply {
        name: Text::new(alloc, "s")?,
        a: 1,
        b: 1,
    })?;
    list.push(apply(alloc, "z", 4)?)?;
    list.push(Step::Print { value: 3 })?;
    list.push(Step::Print { value: 4 })?;
    list.push(Step::Print { value: 5 })?;
    Ok(ListOf::new(list))
}

/// The job of this size, on 4 ranks. Its values are numbered from 0: `x0`, `A`, `x`, `y`, `s`, `z`. `Err` means that memory ran
/// out.
pub fn generated_job(alloc: Global, size: u32) -> Result<Job, AllocError>
    ensures job { IfOk result (λ job. job ≡ generated_job size) }
{
    Ok(Job {
        ranks: 4,
        maps: maps(alloc, size)?,
        vectors: vectors(alloc)?,
        parts: ListOf::new(Vec::new(alloc)),
        matrices: matrices(alloc)?,
        steps: steps(alloc)?,
    })
}
