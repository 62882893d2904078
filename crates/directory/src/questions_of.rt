//! What is asked of each home.
ghost use Rattle.std.specs.Prelude.{◌≡◌, ◌<◌, ◌≤◌, ◌^◌, All, IfOk};
ghost use Rattle.map_core.specs.Homes.{homed};

use map_core::{Gid, uniform_owner};
use std::alloc::{AllocError, Global};

/// Those of the indices whose home is rank `to`, in their order: the question to that rank. There are 1 to 32 ranks, `to`
/// is below their number, the size is at most 2^40, and each index is below it. `Err` means that memory ran out.
pub fn questions(
    alloc: Global,
    ranks: u32,
    size: Gid,
    gids: &[Gid],
    to: u32,
) -> Result<Vec<Gid>, AllocError>
    requires some_rank { 1 ≤ ranks }
    requires ranks_limit { ranks ≤ 32 }
    requires known_rank { to < ranks }
    requires size_limit { size ≤ 2 ^ 40 }
    requires below { All (λ g. g < size) gids.now }
    ensures asked { IfOk result (λ asked. asked.items ≡ homed ranks size to gids.now) }
{
    let mut asked = Vec::new(alloc);
    for gid in gids {
        if uniform_owner(ranks, size, *gid) == to {
            asked.push(*gid)?;
        }
    }
    Ok(asked)
}
