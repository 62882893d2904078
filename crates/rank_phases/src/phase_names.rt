//! The letters between a rank and each other rank.
ghost use Rattle.std.specs.Prelude.{◌≡◌, IfOk};
ghost use Rattle.rank_phases.specs.Pairs.{from_others, to_others};

use outside::Name;
use std::alloc::{AllocError, Global};

/// The names of the letters of a phase from a rank, below `ranks`, to each other rank, by receiver. What a rank posts in
/// a phase is this list, without the letters that are left out.
pub fn names_to_others(
    alloc: Global,
    ranks: u32,
    phase: u32,
    rank: u32,
) -> Result<Vec<Name>, AllocError>
    ensures { IfOk result (λ names. names.items ≡ to_others ranks phase rank) }
{
    (0..ranks)
        .filter(|other| rank != *other)
        .map(|other| Name {
            phase,
            from: rank,
            to: other,
        })
        .collect(alloc)
}

/// The names of the letters of a phase to a rank from each other rank, by sender. What a rank awaits in a phase is this
/// list, without the letters that are left out.
pub fn names_from_others(
    alloc: Global,
    ranks: u32,
    phase: u32,
    rank: u32,
) -> Result<Vec<Name>, AllocError>
    ensures { IfOk result (λ names. names.items ≡ from_others ranks phase rank) }
{
    (0..ranks)
        .filter(|other| rank != *other)
        .map(|other| Name {
            phase,
            from: other,
            to: rank,
        })
        .collect(alloc)
}
