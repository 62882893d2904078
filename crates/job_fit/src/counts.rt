//! How many indices a map has, and a rank of it.
ghost use Rattle.std.specs.Prelude.{◌≡◌, ◌<◌, length};
ghost use Rattle.map_core.specs.Uniform.{uniform_count};
ghost use Rattle.model_defs.specs.Given.{origin_files};
ghost use Rattle.model_defs.specs.Maps.{list_of, size_of};
ghost use Rattle.model_defs.specs.Valid.{IsValid};

use model_defs::{Job, MapForm, Origin};

/// How many files there are.
pub(crate) fn count_of(from: &Origin) -> usize
    ensures count { result ≡ length (origin_files from.now) }
{
    match from {
        Origin::Files(names) => names.as_slice().len(),
        Origin::Fill(_) => 0,
    }
}

/// The size of a map of a job, and 0 where there is no such map.
pub(crate) fn size_of(job: &Job, map: u32) -> u64
    ensures { result ≡ size_of job.now map }
{
    match job.maps.as_slice().get(map as usize) {
        Some(map) => map.size,
        None => 0,
    }
}

/// How many of so many indices rank `me` has, where no rank has two more than another one.
pub(crate) fn even_count(ranks: u32, size: u64, me: u32) -> u64
    requires { 0 < ranks }
    ensures { result ≡ uniform_count ranks size me }
{
    let ranks = u64::from(ranks);
    let more = if u64::from(me) < size % ranks { 1 } else { 0 };
    size / ranks + more
}

/// How many indices the rank `me` has on map `m` of the job.
pub(crate) fn index_count(job: &Job, m: u32, me: u32) -> u64
    requires valid { IsValid job.now }
    requires known { m < length job.now.maps }
    requires rank { me < job.now.ranks }
    ensures count { result ≡ length (list_of job.now m me) }
{
    let spec = &job.maps.as_slice()[m as usize];
    match &spec.form {
        MapForm::Uniform => even_count(job.ranks, spec.size, me),
        MapForm::Blocks(counts) => u64::from(counts.as_slice()[me as usize]),
        MapForm::Cyclic => even_count(job.ranks, spec.size, me),
        MapForm::Lists(lists) => lists.as_slice()[me as usize].as_slice().len() as u64,
    }
}
