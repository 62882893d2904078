//! The indices of a rank in ascending order.
ghost use Rattle.std.specs.Prelude.{◌≡◌, IfOk};
ghost use Rattle.rank_share.specs.Ascending.{ascending};

use map_core::{Gid, LocalMap};
use std::alloc::{AllocError, Global};

/// The indices of a map, in its order. `Err` means that memory ran out.
fn indices(alloc: Global, map: &LocalMap) -> Result<Vec<Gid>, AllocError>
    ensures list { IfOk result (λ gids. gids.items ≡ map.now) }
{
    let mut gids = Vec::with_capacity(alloc, map.len() as usize)?;
    for lid in 0..map.len() {
        match map.global_of(lid) {
            Some(gid) => gids.push(gid)?,
            None => unreachable!(),
        }
    }
    Ok(gids)
}

/// The indices of a map in ascending order. `Err` means that memory ran out.
pub(crate) fn ascending_indices(alloc: Global, map: &LocalMap) -> Result<Vec<Gid>, AllocError>
    ensures ascending { IfOk result (λ gids. gids.items ≡ ascending map.now) }
{
    let mut gids = indices(alloc, map)?;
    if gids.is_sorted() {
        return Ok(gids);
    }
    gids.sort()?;
    Ok(gids)
}
