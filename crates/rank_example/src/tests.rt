//! The first rank alone, with letters laid out by hand.
ghost use Rattle.std.specs.Prelude.{◌≡◌, true, IfOk, OnOk};
ghost use Rattle.scalar_laws.specs.Weighed.{weighed_conversions, weighed_semiring};
ghost use Rattle.rank_core.specs.Ranks.{IsRank};
ghost use Rattle.rank_example.specs.Played.{IsPlayed, Played, is_finished, started};

use crate::first_rank;
use crate::steps::{
    asks, on_data, on_data_again, on_want, on_want_again, posts_both, posts_nothing, sends_on_want,
};
use rank_core::Rank;
use scalar_laws::{Scalar, Weighed};
use std::alloc::{AllocError, Global};
use std::process::Abort;
use std::test::Fail;
use tables::Cell;

/// The first rank, as it is made.
fn new_rank(alloc: Global) -> Result<Rank<Weighed>, AllocError>
    ensures so_far { IfOk result (λ rank. IsPlayed (IsRank weighed_semiring weighed_conversions) rank started) }
{
    let rank = first_rank(alloc)?;
    Ok(rank)
}

/// These are the rank's cells of a vector of one column: at each index the value.
fn expect_cells(rt: &impl Abort, cells: &[Cell<Weighed>], wanted: &[(u64, i128)]) {
    assert_eq!(rt; cells.len(), wanted.len());
    for (cell, (row, value)) in cells.iter().zip(wanted) {
        assert_eq!(rt; (cell.row, cell.col), (*row, 0));
        assert_eq!(rt; cell.value.shown(), Some(*value));
    }
}

/// It is done, and the vector that moved has 1 at 0 on it, and at 2 the number that came.
fn expect_moved(rt: &impl Abort, rank: &Rank<Weighed>, number: i128) -> Result<(), AllocError>
    ghost so_far: { Played }
    requires so_far { IsPlayed (IsRank weighed_semiring weighed_conversions) rank.now so_far }
    requires finished { is_finished so_far ≡ true }
{
    assert!(rt; rank.is_done());
    let cells = rank.piece(1)?;
    expect_cells(rt, &cells, &[(0, 1), (2, number)]);
    Ok(())
}

/// It asks, is given what was asked of it and what it asked for, and sends its number.
fn asks_then_sends_and_receives(
    rt: &impl Abort,
    alloc: Global,
    rank: &mut Rank<Weighed>,
) -> Result<(), AllocError>
    requires so_far { IsPlayed (IsRank weighed_semiring weighed_conversions) rank.old started }
{
    asks(rt, alloc, rank)?;
    sends_on_want(rt, alloc, rank)?;
    assert!(rt; on_data(rank, 55)?);
    posts_nothing(rt, alloc, rank)?;
    expect_moved(rt, rank, 55)
}

/// The letter of its last phase comes first.
fn is_told_early(rt: &impl Abort, alloc: Global, rank: &mut Rank<Weighed>) -> Result<(), AllocError>
    requires so_far { IsPlayed (IsRank weighed_semiring weighed_conversions) rank.old started }
{
    assert!(rt; on_data(rank, 55)?);
    asks(rt, alloc, rank)?;
    assert!(rt; !rank.is_done());
    sends_on_want(rt, alloc, rank)?;
    expect_moved(rt, rank, 55)
}

/// Both letters come twice.
fn is_told_again(rt: &impl Abort, alloc: Global, rank: &mut Rank<Weighed>) -> Result<(), AllocError>
    requires so_far { IsPlayed (IsRank weighed_semiring weighed_conversions) rank.old started }
{
    assert!(rt; on_want(rank)?);
    assert!(rt; !on_want_again(rank)?);
    posts_both(rt, alloc, rank)?;
    assert!(rt; on_data(rank, 55)?);
    assert!(rt; !on_data_again(rank, 77)?);
    posts_nothing(rt, alloc, rank)?;
    expect_moved(rt, rank, 55)
}

#[test]
fn a_rank_asks_then_sends_and_receives(rt: HostRuntime) -> Result<(), Fail> {
    let mut rank = new_rank(rt.alloc())?;
    asks_then_sends_and_receives(&rt, rt.alloc(), &mut rank)?;
    Ok(())
}

#[test]
fn a_letter_may_come_before_its_phase(rt: HostRuntime) -> Result<(), Fail> {
    let mut rank = new_rank(rt.alloc())?;
    is_told_early(&rt, rt.alloc(), &mut rank)?;
    Ok(())
}

#[test]
fn a_letter_that_is_given_again_changes_nothing(rt: HostRuntime) -> Result<(), Fail> {
    let mut rank = new_rank(rt.alloc())?;
    is_told_again(&rt, rt.alloc(), &mut rank)?;
    Ok(())
}
