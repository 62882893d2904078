//! The job of a text.
ghost use Rattle.std.specs.Prelude.{◌≡◌, ◌≤◌, ◌<◌, length};
ghost use Rattle.job_text.specs.Outcomes.{Gives, GivesAs};
ghost use Rattle.job_text.specs.Whole.{document_of, job_in, job_of, job_of_arrays};
ghost use Rattle.toml.specs.View.{items_view, table_view};

use crate::JobFault;
use crate::arrays::{count, tables_at};
use crate::given::{read_matrices, read_parts, read_vectors};
use crate::known::Known;
use crate::maps::read_maps;
use crate::place::Place;
use crate::steps::read_steps;
use crate::value::{number_at, only_keys};
use crate::words::Form;
use model_defs::{Job, ListOf, Text};
use std::alloc::Global;
use toml::{Table, Value};

/// The most bytes of a job text.
const MOST_BYTES: usize = 1048576;

/// The job of the arrays, whose tables are read in their order.
fn job_of_arrays(
    alloc: Global,
    ranks: u32,
    maps: &[Value],
    vectors: &[Value],
    parts: &[Value],
    matrices: &[Value],
    steps: &[Value],
) -> Result<Job, JobFault>
    requires some_rank { 1 ≤ ranks }
    requires ranks_limit { ranks ≤ 32 }
    requires few_steps { length steps.now < 4294967296 }
    ensures { Gives result (job_of_arrays (record { ranks = ranks; maps = items_view maps.now; vectors = items_view vectors.now; parts = items_view parts.now; matrices = items_view matrices.now; steps = items_view steps.now })) }
{
    let mut known = Known::new(alloc, ranks);
    let maps = read_maps(alloc, maps, &mut known)?;
    let vectors = read_vectors(alloc, vectors, &mut known)?;
    let parts = read_parts(alloc, parts, &mut known)?;
    let matrices = read_matrices(alloc, matrices, &mut known)?;
    let steps = read_steps(alloc, steps, &mut known)?;
    Ok(Job {
        ranks,
        maps: ListOf::new(maps),
        vectors: ListOf::new(vectors),
        parts: ListOf::new(parts),
        matrices: ListOf::new(matrices),
        steps: ListOf::new(steps),
    })
}

/// The job of the top table.
fn job_in(alloc: Global, top: &Table) -> Result<Job, JobFault>
    ensures { Gives result (job_in (table_view top.now)) }
{
    only_keys(alloc, Place::Top, Form::Top, top)?;
    let ranks = number_at(alloc, Place::Top, top, "ranks", 1, 32)?;
    let maps = tables_at(alloc, top, "map", 0, 64)?;
    let vectors = tables_at(alloc, top, "vector", 0, 64)?;
    let parts = tables_at(alloc, top, "parts", count(vectors), 64)?;
    let matrices = tables_at(alloc, top, "matrix", count(vectors) + count(parts), 64)?;
    let steps = tables_at(alloc, top, "do", 0, 200)?;
    job_of_arrays(alloc, ranks as u32, maps, vectors, parts, matrices, steps)
}

/// The table of a document.
fn document_of(alloc: Global, bytes: &[u8]) -> Result<Table, JobFault>
    ensures { GivesAs (λ t. table_view t) result (document_of bytes.now) }
{
    match toml::table_from_slice(alloc, bytes) {
        Ok(table) => Ok(table),
        Err(error) => {
            if error.is_memory() {
                Err(JobFault::NoMem)
            } else {
                Err(JobFault::NotToml)
            }
        }
    }
}

/// The job of a text, at most 1,048,576 bytes of TOML.
///
/// A map is spoken of by its number in `maps`, a value by its number among all values: the vectors, the parts, the matrices,
/// then the results of the statements; all count from 0. Each refusal is the first by the order of tests: the length
/// (`Limit` of `job`), the document (`NotToml`), the top table, then the tables of `map`, `vector`, `parts`, `matrix` and
/// `do` in order. In a table come the key that decides its form, unknown keys (the least in byte order), then each key in its
/// order by `Missing`, `WrongKind`, `Limit` and its name, then what is asked of the table as a whole. `NoMem` means that
/// memory ran out.
pub fn read_job(alloc: Global, bytes: &[u8]) -> Result<Job, JobFault>
    ensures { Gives result (job_of bytes.now) }
{
    if bytes.len() > MOST_BYTES {
        let key = Text::new(alloc, "job")?;
        return Err(JobFault::Limit { key });
    }
    let top = document_of(alloc, bytes)?;
    job_in(alloc, &top)
}
