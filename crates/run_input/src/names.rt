//! The names of the files of a job.
ghost use Rattle.std.specs.Prelude.{◌≡◌, ◌<◌, ◌++◌, [], ◌∷◌, ℕ, IfOk, OnOk, length, map};
ghost use Rattle.std.specs.List.{IsAmong, flat_map, slice_index_or};
ghost use Rattle.model_defs.specs.Given.{origin_files};
ghost use Rattle.run_input.specs.Names.{job_file_names};

use model_defs::{Job, Origin, Text};
use std::alloc::{AllocError, Global};

/// Adds copies of the names of these files.
fn push_names(alloc: Global, names: &mut Vec<Text>, origin: &Origin) -> Result<(), AllocError>
    ensures { OnOk result (names.new.items ≡ names.old.items ++ origin_files origin.now) }
{
    let Origin::Files(files) = origin else {
        return Ok(());
    };
    for file in files.as_slice() {
        names.push(Text::new(alloc, file.as_str())?)?;
    }
    Ok(())
}

/// Adds those of the vectors.
fn push_vectors(alloc: Global, names: &mut Vec<Text>, job: &Job) -> Result<(), AllocError>
    ensures { OnOk result (names.new.items ≡ names.old.items ++ flat_map (λ spec. origin_files spec.from) job.now.vectors) }
{
    for spec in job.vectors.as_slice() {
        push_names(alloc, names, &spec.from)?;
    }
    Ok(())
}

/// Adds those of the parts, the ranks ascending.
fn push_parts(alloc: Global, names: &mut Vec<Text>, job: &Job) -> Result<(), AllocError>
    ensures { OnOk result (names.new.items ≡ names.old.items ++ flat_map (λ spec. origin_files spec.from) job.now.parts) }
{
    for spec in job.parts.as_slice() {
        push_names(alloc, names, &spec.from)?;
    }
    Ok(())
}

/// Adds those of the matrices.
fn push_matrices(alloc: Global, names: &mut Vec<Text>, job: &Job) -> Result<(), AllocError>
    ensures { OnOk result (names.new.items ≡ names.old.items ++ flat_map (λ spec. spec.file ∷ []) job.now.matrices) }
{
    for spec in job.matrices.as_slice() {
        names.push(Text::new(alloc, spec.file.as_str())?)?;
    }
    Ok(())
}

/// Copies of the names of a job's files, in the order in which they are read.
pub(crate) fn copied_names(alloc: Global, job: &Job) -> Result<Vec<Text>, AllocError>
    ensures { IfOk result (λ names. names.items ≡ job_file_names job.now) }
{
    let mut names = Vec::new(alloc);
    push_vectors(alloc, &mut names, job)?;
    push_parts(alloc, &mut names, job)?;
    push_matrices(alloc, &mut names, job)?;
    Ok(names)
}

/// The copy of a name that is one of these. It takes no memory.
pub(crate) fn taken_name(mut names: Vec<Text>, name: &str) -> Text
    requires { IsAmong names.items name.now }
    ensures { result ≡ name.now }
{
    let mut at = 0;
    while names[at].as_str() != name {
        at += 1;
    }
    names.swap_remove(at)
}
