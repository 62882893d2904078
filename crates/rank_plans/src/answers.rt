//! Questions for owners, and their answers.
ghost use Rattle.std.specs.Prelude.{◌≡◌, ◌<◌, ◌≤◌, ◌^◌, All, map, length, IfOk};
ghost use Rattle.map_core.specs.Classes.{owns};
ghost use Rattle.map_core.specs.Homes.{is_home};
ghost use Rattle.map_core.specs.Layouts.{owner, AreDistinct};
ghost use Rattle.map_core.specs.Uniform.{uniform_layout};
ghost use Rattle.directory.specs.Directories.{answer_for};
ghost use Rattle.rank_plans.specs.Answers.{filled, named_by, owned_by, target_owners};

use directory::Directory;
use map_core::{Gid, LocalMap, uniform_owner};
use std::alloc::{AllocError, Global};

/// The owner that a word names, among these ranks.
fn named_owner(ranks: u32, word: u64) -> Option<u32>
    ensures named { result ≡ named_by ranks word }
{
    if word < ranks as u64 {
        Some(word as u32)
    } else {
        None
    }
}

/// The words that answer questions. `Err` means that memory ran out.
pub(crate) fn answer_words(
    alloc: Global,
    directory: &Directory,
    gids: &[Gid],
) -> Result<Vec<u64>, AllocError>
    ensures words { IfOk result (λ words. words.items ≡ map (answer_for directory.now) gids.now) }
{
    let mut words = Vec::with_capacity(alloc, gids.len())?;
    for answer in &directory.answers(gids)? {
        words.push(*answer as u64)?;
    }
    Ok(words)
}

/// The owners beside the indices, once words came for those whose home is the rank `from`. `Err` means that memory ran out.
pub(crate) fn filled_owners(
    alloc: Global,
    ranks: u32,
    size: Gid,
    from: u32,
    gids: &[Gid],
    owners: &[Option<u32>],
    words: &[u64],
) -> Result<Vec<Option<u32>>, AllocError>
    requires some_rank { 1 ≤ ranks }
    requires ranks_limit { ranks ≤ 32 }
    requires known_rank { from < ranks }
    requires size_limit { size ≤ 2 ^ 40 }
    requires below { All (λ g. g < size) gids.now }
    requires beside { length owners.now ≡ length gids.now }
    ensures filled { IfOk result (λ filled_now. filled_now.items ≡ filled (is_home ranks size from) ranks gids.now owners.now words.now) }
{
    let mut filled = Vec::with_capacity(alloc, gids.len())?;
    let mut next = 0;
    for at in 0..gids.len() {
        if next < words.len() && uniform_owner(ranks, size, gids[at]) == from {
            filled.push(named_owner(ranks, words[next]))?;
            next += 1;
        } else {
            filled.push(owners[at])?;
        }
    }
    Ok(filled)
}

/// The owners of the indices by rule. `Err` means that memory ran out.
pub(crate) fn owners_by_rule(
    alloc: Global,
    ranks: u32,
    size: Gid,
    gids: &[Gid],
) -> Result<Vec<Option<u32>>, AllocError>
    requires some_rank { 1 ≤ ranks }
    requires ranks_limit { ranks ≤ 32 }
    requires size_limit { size ≤ 2 ^ 40 }
    requires below { All (λ g. g < size) gids.now }
    ensures owners { IfOk result (λ owners. owners.items ≡ map (owner (uniform_layout ranks size)) gids.now) }
{
    let mut owners = Vec::with_capacity(alloc, gids.len())?;
    for gid in gids {
        owners.push(Some(uniform_owner(ranks, size, *gid)))?;
    }
    Ok(owners)
}

/// Whether the owner is this rank.
fn is_owner(owner: Option<u32>, rank: u32) -> bool
    ensures is { result ≡ owns owner rank }
{
    match owner {
        Some(known) => known == rank,
        None => false,
    }
}

/// Those of the indices that rank `to` owns, by the owners beside them. `Err` means that memory ran out.
pub(crate) fn owned_indices(
    alloc: Global,
    to: u32,
    gids: &[Gid],
    owners: &[Option<u32>],
) -> Result<Vec<Gid>, AllocError>
    requires beside { length owners.now ≡ length gids.now }
    ensures owned { IfOk result (λ owned. owned.items ≡ owned_by to gids.now owners.now) }
{
    let mut owned = Vec::new(alloc);
    for at in 0..gids.len() {
        if is_owner(owners[at], to) {
            owned.push(gids[at])?;
        }
    }
    Ok(owned)
}

/// The owners of a target's indices: `me` of those that the source has, and of the others those that are known, in turn. `Err`
/// means that memory ran out.
pub(crate) fn owners_of_target(
    alloc: Global,
    me: u32,
    source: &LocalMap,
    target: &LocalMap,
    known: &[Option<u32>],
) -> Result<Vec<Option<u32>>, AllocError>
    ensures owners { IfOk result (λ owners. owners.items ≡ target_owners me source.now target.now known.now) }
    ensures distinct { AreDistinct target.now }
{
    let mut owners = Vec::with_capacity(alloc, target.len() as usize)?;
    let mut next = 0;
    for lid in 0..target.len() {
        match target.global_of(lid) {
            Some(gid) => {
                if source.local_of(gid).is_some() {
                    owners.push(Some(me))?;
                } else if next < known.len() {
                    owners.push(known[next])?;
                    next += 1;
                } else {
                    owners.push(None)?;
                }
            }
            None => unreachable!(),
        }
    }
    Ok(owners)
}
