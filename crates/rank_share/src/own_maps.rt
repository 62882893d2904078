//! The list of a rank on a map of a job.
ghost use Rattle.std.specs.Prelude.{◌≡◌, ◌<◌, ◌^◌, length, IfOk};
ghost use Rattle.tables.specs.Indices.{AreDistinct};
ghost use Rattle.model_defs.specs.Maps.{list_of};
ghost use Rattle.model_defs.specs.Valid.{IsValid};

use map_core::{Layout, ListFault, LocalMap};
use model_defs::{Job, MapForm};
use std::alloc::{AllocError, Global};
use std::rc::Rc;

/// The map of a list without repeats, of fewer than 2^32 indices. `Err` means that memory ran out.
fn listed(alloc: Global, gids: &[u64]) -> Result<Rc<LocalMap>, AllocError>
    requires few { length gids.now < 2 ^ 32 }
    requires distinct { AreDistinct gids.now }
    ensures list { IfOk result (λ map. map.value ≡ gids.now) }
{
    match LocalMap::from_list(alloc, gids) {
        Ok(map) => Ok(map),
        Err(ListFault::Repeated { gid: _ }) => unreachable!(),
        Err(ListFault::NoMem) => Err(AllocError),
    }
}

/// The indices that the rank `me` has on map `m` of the job, in its order (`Tpetra::Map`). Only a map of lists takes
/// memory for each index, and then for those of this rank alone. `Err` means that memory ran out.
pub fn own_map(alloc: Global, job: &Job, m: u32, me: u32) -> Result<Rc<LocalMap>, AllocError>
    requires valid { IsValid job.now }
    requires known { m < length job.now.maps }
    requires rank { me < job.now.ranks }
    ensures list { IfOk result (λ map. map.value ≡ list_of job.now m me) }
{
    let spec = &job.maps.as_slice()[m as usize];
    match &spec.form {
        MapForm::Uniform => Layout::uniform(alloc, job.ranks, spec.size)?
            .list(me)
            .clone(),
        MapForm::Blocks(counts) => Layout::blocks(alloc, counts.as_slice())?.list(me).clone(),
        MapForm::Cyclic => Layout::cyclic(alloc, job.ranks, spec.size)?
            .list(me)
            .clone(),
        MapForm::Lists(lists) => listed(alloc, lists.as_slice()[me as usize].as_slice()),
    }
}
