//! The steps of the tests: what a rank is given, and what it posts then. Contracts say how far it is after each.
ghost use Rattle.std.specs.Prelude.{OnOk};
ghost use Rattle.rank_example.specs.Played.{IsPlayed, Played, with_data, with_want, with_work};

use crate::laid_out::{DATA_TO_0, DATA_TO_1, WANT_1, WANT_2, WANT_TO_0, WANT_TO_1, data};
use crate::{Post, posts_of};
use outside::Name;
use peers::Peer;
use std::alloc::{AllocError, Global};
use std::process::Abort;

/// These letters were posted, in order.
fn expect_posts(rt: &impl Abort, posts: &[Post], wanted: &[(Name, &[u8])]) {
    assert_eq!(rt; posts.len(), wanted.len());
    for (post, (name, bytes)) in posts.iter().zip(wanted) {
        assert_eq!(rt; post.name, *name);
        assert_eq!(rt; post.bytes.as_slice(), *bytes);
    }
}

/// It works, and posts these letters.
fn posts<N: Peer>(
    rt: &impl Abort,
    alloc: Global,
    rank: &mut N,
    wanted: &[(Name, &[u8])],
) -> Result<(), AllocError>
    ghost so_far: { Played }
    requires so_far { IsPlayed N.stands rank.old so_far }
    ensures so_far { OnOk result (IsPlayed N.stands rank.new (with_work so_far)) }
{
    let posts = posts_of(alloc, rank)?;
    expect_posts(rt, &posts, wanted);
    Ok(())
}

/// It works, and asks rank 1 for index 2.
pub fn asks<N: Peer>(rt: &impl Abort, alloc: Global, rank: &mut N) -> Result<(), AllocError>
    ghost so_far: { Played }
    requires so_far { IsPlayed N.stands rank.old so_far }
    ensures so_far { OnOk result (IsPlayed N.stands rank.new (with_work so_far)) }
{
    posts(rt, alloc, rank, &[(WANT_TO_1, &WANT_2)])
}

/// It is given the WANT letter of rank 1, works, and sends 10 at index 1.
pub fn sends_on_want<N: Peer>(
    rt: &impl Abort,
    alloc: Global,
    rank: &mut N,
) -> Result<(), AllocError>
    ghost so_far: { Played }
    requires so_far { IsPlayed N.stands rank.old so_far }
    ensures so_far { OnOk result (IsPlayed N.stands rank.new (with_work (with_want so_far))) }
{
    assert!(rt; on_want(rank)?);
    posts(rt, alloc, rank, &[(DATA_TO_1, &data(1, 10))])
}

/// It works, asks rank 1 for index 2, and sends 10 at index 1.
pub fn posts_both<N: Peer>(rt: &impl Abort, alloc: Global, rank: &mut N) -> Result<(), AllocError>
    ghost so_far: { Played }
    requires so_far { IsPlayed N.stands rank.old so_far }
    ensures so_far { OnOk result (IsPlayed N.stands rank.new (with_work so_far)) }
{
    posts(
        rt,
        alloc,
        rank,
        &[(WANT_TO_1, &WANT_2), (DATA_TO_1, &data(1, 10))],
    )
}

/// It works, and posts nothing.
pub fn posts_nothing<N: Peer>(
    rt: &impl Abort,
    alloc: Global,
    rank: &mut N,
) -> Result<(), AllocError>
    ghost so_far: { Played }
    requires so_far { IsPlayed N.stands rank.old so_far }
    ensures so_far { OnOk result (IsPlayed N.stands rank.new (with_work so_far)) }
{
    posts(rt, alloc, rank, &[])
}

/// It is given the WANT letter of rank 1. The answer is whether that is new to it.
pub fn on_want<N: Peer>(rank: &mut N) -> Result<bool, AllocError>
    ghost so_far: { Played }
    requires so_far { IsPlayed N.stands rank.old so_far }
    ensures so_far { OnOk result (IsPlayed N.stands rank.new (with_want so_far)) }
{
    let is_new = rank.on_letter(WANT_TO_0, &WANT_1)?;
    Ok(is_new)
}

/// It is given that letter again.
pub fn on_want_again<N: Peer>(rank: &mut N) -> Result<bool, AllocError>
    ghost so_far: { Played }
    requires so_far { IsPlayed N.stands rank.old so_far }
    ensures so_far { OnOk result (IsPlayed N.stands rank.new (with_want so_far)) }
{
    on_want(rank)
}

/// It is given the DATA letter of rank 1 with this number at index 2. The answer is whether that is new to it.
pub fn on_data<N: Peer>(rank: &mut N, number: u8) -> Result<bool, AllocError>
    ghost so_far: { Played }
    requires so_far { IsPlayed N.stands rank.old so_far }
    ensures so_far { OnOk result (IsPlayed N.stands rank.new (with_data so_far number)) }
{
    let bytes = data(2, number);
    let is_new = rank.on_letter(DATA_TO_0, &bytes)?;
    Ok(is_new)
}

/// It is given that letter again, with this number.
pub fn on_data_again<N: Peer>(rank: &mut N, number: u8) -> Result<bool, AllocError>
    ghost so_far: { Played }
    requires so_far { IsPlayed N.stands rank.old so_far }
    ensures so_far { OnOk result (IsPlayed N.stands rank.new (with_data so_far number)) }
{
    on_data(rank, number)
}
