//! Look-ups in a list map of random indices, half of them of indices that are not there.
ghost use Rattle.std.specs.Prelude.{◌≡◌, ◌*◌, IfOk, length};

use map_core::{ListFault, LocalMap};
use std::alloc::{AllocError, Global};

/// The next of a sequence of numbers of 64 bits, of which none comes twice.
fn next(state: u64) -> u64 {
    let mut state = state;
    state ^= state << 13;
    state ^= state >> 7;
    state ^= state << 17;
    state
}

/// Twice so many different indices.
fn indices(alloc: Global, count: u32) -> Result<Vec<u64>, AllocError>
    ensures { IfOk result (λ gids. length gids.items ≡ 2 * count) }
{
    let mut gids = Vec::with_capacity(alloc, 2 * count as usize)?;
    let mut state = 7;
    while gids.len() < 2 * count as usize {
        state = next(state);
        gids.push(state)?;
    }
    Ok(gids)
}

/// The sum of the places of these indices.
fn sum_of_places(map: &LocalMap, gids: &[u64]) -> u64 {
    let mut sum = 0u64;
    for gid in gids {
        if let Some(place) = map.local_of(*gid) {
            sum = sum.wrapping_add(place as u64);
        }
    }
    sum
}

/// The sum of the places in all rounds.
pub fn look_up(alloc: Global, rounds: u32, count: u32) -> Result<u64, ListFault> {
    let gids = indices(alloc, count)?;
    let map = LocalMap::from_list(alloc, &gids[..count as usize])?;
    let mut sum = 0u64;
    for _ in 0..rounds {
        sum = sum.wrapping_add(sum_of_places(&map, &gids));
    }
    Ok(sum)
}
