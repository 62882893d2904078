//! The names of a rank's letters in the phases.
ghost use Rattle.std.specs.Prelude.{◌≡◌, ◌<◌, nat_lt, All, IfOk, length};
ghost use Rattle.std.specs.List.{filter};
ghost use Rattle.rank_phases.specs.Pairs.{from_others, to_others};
ghost use Rattle.rank_makings.specs.Comings.{IsComingIn, Scene, rows_between};

use outside::Name;
use rank_makings::Coming;
use rank_phases::{Entered, names_from_others, names_to_others};
use scalar_laws::Scalar;
use std::alloc::{AllocError, Global};

/// Of these names those of letters to ranks to which some row is sent.
fn sent_names<S: Scalar>(
    alloc: Global,
    coming: &Coming<S>,
    names: &[Name],
) -> Result<Vec<Name>, AllocError>
    requires coming { (e : Scene S) × (IsComingIn S.semiring S.conversions e coming.now × All (λ n. n.to < e.job.ranks) names.now) }
    ensures names { IfOk result (λ sent. (e : Scene S) → IsComingIn S.semiring S.conversions e coming.now → All (λ n. n.to < e.job.ranks) names.now
        → sent.items ≡ filter (λ n. nat_lt 0 (length (rows_between e e.me n.to))) names.now) }
{
    let mut sent = Vec::new(alloc);
    for name in names {
        if coming.has_letter_to(name.to) {
            sent.push(*name)?;
        }
    }
    Ok(sent)
}

/// Of these names those of letters from ranks from which some row comes.
fn awaited_names<S: Scalar>(
    alloc: Global,
    coming: &Coming<S>,
    names: &[Name],
) -> Result<Vec<Name>, AllocError>
    requires coming { (e : Scene S) × (IsComingIn S.semiring S.conversions e coming.now × All (λ n. n.from < e.job.ranks) names.now) }
    ensures names { IfOk result (λ awaited. (e : Scene S) → IsComingIn S.semiring S.conversions e coming.now → All (λ n. n.from < e.job.ranks) names.now
        → awaited.items ≡ filter (λ n. nat_lt 0 (length (rows_between e n.from e.me))) names.now) }
{
    let mut awaited = Vec::new(alloc);
    for name in names {
        if coming.has_letter_from(name.from) {
            awaited.push(*name)?;
        }
    }
    Ok(awaited)
}

/// The names of the letters of a phase that sends rows: those to ranks to which some row is sent, and those from ranks from
/// which some row comes. `Err` means that memory ran out.
pub(crate) fn row_letters<S: Scalar>(
    alloc: Global,
    ranks: u32,
    phase: u32,
    me: u32,
    coming: &Coming<S>,
) -> Result<Entered, AllocError>
    requires coming { (e : Scene S) × (IsComingIn S.semiring S.conversions e coming.now × (e.job.ranks ≡ ranks)) }
    ensures posts { IfOk result (λ r. (e : Scene S) → IsComingIn S.semiring S.conversions e coming.now → e.job.ranks ≡ ranks
        → r.posts.items ≡ filter (λ n. nat_lt 0 (length (rows_between e e.me n.to))) (to_others ranks phase me)) }
    ensures awaits { IfOk result (λ r. (e : Scene S) → IsComingIn S.semiring S.conversions e coming.now → e.job.ranks ≡ ranks
        → r.awaits.items ≡ filter (λ n. nat_lt 0 (length (rows_between e n.from e.me))) (from_others ranks phase me)) }
{
    let to = names_to_others(alloc, ranks, phase, me)?;
    let from = names_from_others(alloc, ranks, phase, me)?;
    let posts = sent_names(alloc, coming, &to)?;
    let awaits = awaited_names(alloc, coming, &from)?;
    Ok(Entered { posts, awaits })
}
