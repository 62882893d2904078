//! Lists of indices of a rank's maps.
ghost use Rattle.std.specs.Prelude.{◌≡◌, ◌<◌, ◌≤◌, ◌^◌, All, IfOk, OnOk};
ghost use Rattle.map_core.specs.Layouts.{AreDistinct};
ghost use Rattle.map_core.specs.Homes.{homed};
ghost use Rattle.rank_plans.specs.Answers.{lacked_in};

use directory::questions;
use map_core::{Gid, LocalMap};
use std::alloc::{AllocError, Global};

/// The indices of a map, in its order. `Err` means that memory ran out.
fn indices(alloc: Global, map: &LocalMap) -> Result<Vec<Gid>, AllocError>
    ensures list { IfOk result (λ gids. gids.items ≡ map.now) }
    ensures distinct { AreDistinct map.now }
{
    let mut gids = Vec::with_capacity(alloc, map.len() as usize)?;
    for lid in 0..map.len() {
        match map.global_of(lid) {
            Some(gid) => gids.push(gid)?,
            None => unreachable!(),
        }
    }
    Ok(gids)
}

/// The indices of a map whose home is the rank `to`, in its order. `Err` means that memory ran out.
pub(crate) fn homed_indices(
    alloc: Global,
    ranks: u32,
    size: Gid,
    map: &LocalMap,
    to: u32,
) -> Result<Vec<Gid>, AllocError>
    requires ranks_limit { ranks ≤ 32 }
    requires known_rank { to < ranks }
    requires size_limit { size ≤ 2 ^ 40 }
    requires below { All (λ g. g < size) map.now }
    ensures homed { IfOk result (λ gids. gids.items ≡ homed ranks size to map.now) }
    ensures distinct { AreDistinct map.now }
{
    let gids = indices(alloc, map)?;
    questions(alloc, ranks, size, &gids, to)
}

/// The indices of the target that the source lacks, in target order: none stands twice. `Err` means that memory ran out.
pub fn lacked_indices(
    alloc: Global,
    source: &LocalMap,
    target: &LocalMap,
) -> Result<Vec<Gid>, AllocError>
    ensures lacked { IfOk result (λ gids. gids.items ≡ lacked_in source.now target.now) }
    ensures distinct { IfOk result (λ gids. AreDistinct gids.items) }
{
    let mut lacked = Vec::new(alloc);
    for lid in 0..target.len() {
        match target.global_of(lid) {
            Some(gid) => {
                if source.local_of(gid).is_none() {
                    lacked.push(gid)?;
                }
            }
            None => unreachable!(),
        }
    }
    Ok(lacked)
}
