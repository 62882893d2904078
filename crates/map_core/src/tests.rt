//! Worked examples, limits, and each public call with enough memory.
ghost use Rattle.std.specs.Prelude.{◌<◌, ◌≤◌, length, sum};

use crate::{Gid, Layout, ListFault, LocalMap, MapFault, uniform_owner};
use std::alloc::{AllocError, Global};
use std::test::Fail;

fn uniform(alloc: Global, ranks: u32, size: Gid) -> Result<Layout, AllocError>
    requires some_rank { 1 ≤ ranks }
    requires ranks_limit { ranks ≤ 32 }
    requires size_limit { size ≤ 16777216 }
{
    Layout::uniform(alloc, ranks, size)
}

fn cyclic(alloc: Global, ranks: u32, size: Gid) -> Result<Layout, AllocError>
    requires some_rank { 1 ≤ ranks }
    requires ranks_limit { ranks ≤ 32 }
    requires size_limit { size ≤ 16777216 }
{
    Layout::cyclic(alloc, ranks, size)
}

fn blocks(alloc: Global, counts: &[u32]) -> Result<Layout, AllocError>
    requires some_rank { 1 ≤ length counts.now }
    requires ranks_limit { length counts.now ≤ 32 }
    requires size_limit { sum counts.now ≤ 16777216 }
{
    Layout::blocks(alloc, counts)
}

/// The layout of two ranks with these lists.
fn given(alloc: Global, size: Gid, first: &[Gid], second: &[Gid]) -> Result<Layout, MapFault>
    requires size_limit { size ≤ 1099511627776 }
    requires first_short { length first.now < 100 }
    requires second_short { length second.now < 100 }
{
    let mut lists = Vec::new(alloc);
    lists.push(Vec::from_slice(alloc, first)?)?;
    lists.push(Vec::from_slice(alloc, second)?)?;
    Layout::from_lists(alloc, size, &lists)
}

/// The local index of a global index at a rank.
fn place(layout: &Layout, rank: u32, gid: Gid) -> Option<u32> {
    if rank < layout.ranks() {
        layout.list(rank).local_of(gid)
    } else {
        None
    }
}

/// The global index at a local index of a rank.
fn index(layout: &Layout, rank: u32, lid: u32) -> Option<Gid> {
    if rank < layout.ranks() {
        layout.list(rank).global_of(lid)
    } else {
        None
    }
}

/// Whether a rank of one layout has the same list as a rank of the other.
fn same(layout: &Layout, rank: u32, other: &Layout, at: u32) -> bool {
    if rank < layout.ranks() && at < other.ranks() {
        layout.list(rank).same_list(other.list(at))
    } else {
        false
    }
}

/// The lists of all ranks, as text.
fn shown(alloc: Global, layout: &Layout) -> Result<String, AllocError> {
    let mut text = String::new(alloc);
    for rank in 0..layout.ranks() {
        let map = layout.list(rank);
        for lid in 0..map.len() {
            if let Some(gid) = map.global_of(lid) {
                text.push_str(format!(in alloc; "{gid} ")?.as_str())?;
            }
        }
        text.push_str("; ")?;
    }
    Ok(text)
}

#[test]
fn uniform_lists(rt: HostRuntime) -> Result<(), Fail> {
    let layout = uniform(rt.alloc(), 3, 7)?;
    assert_eq!(rt; layout.ranks(), 3);
    assert_eq!(rt; layout.size(), 7);
    assert_eq!(rt;
        shown(rt.alloc(), &layout)?.as_str(),
        "0 1 2 ; 3 4 ; 5 6 ; "
    );
    assert!(rt; layout.is_one_to_one());
    assert!(rt; layout.is_total());
    for gid in 0..7 {
        let owner = uniform_owner(3, 7, gid);
        assert_eq!(rt; owner, [0, 0, 0, 1, 1, 2, 2][gid as usize]);
        assert!(rt; place(&layout, owner, gid).is_some());
    }
    Ok(())
}

#[test]
fn cyclic_lists(rt: HostRuntime) -> Result<(), Fail> {
    let layout = cyclic(rt.alloc(), 3, 7)?;
    assert_eq!(rt;
        shown(rt.alloc(), &layout)?.as_str(),
        "0 3 6 ; 1 4 ; 2 5 ; "
    );
    assert!(rt; layout.is_one_to_one());
    assert!(rt; layout.is_total());
    assert_eq!(rt; place(&layout, 1, 4), Some(1));
    assert_eq!(rt; place(&layout, 1, 3), None);
    assert_eq!(rt; place(&layout, 1, 7), None);
    Ok(())
}

#[test]
fn blocks_lists(rt: HostRuntime) -> Result<(), Fail> {
    let layout = blocks(rt.alloc(), &[2, 0, 1])?;
    assert_eq!(rt; layout.size(), 3);
    assert_eq!(rt; shown(rt.alloc(), &layout)?.as_str(), "0 1 ; ; 2 ; ");
    assert!(rt; layout.is_one_to_one());
    assert!(rt; layout.is_total());
    Ok(())
}

#[test]
fn faults_of_lists(rt: HostRuntime) -> Result<(), Fail> {
    let repeated = given(rt.alloc(), 3, &[0, 0], &[5]);
    assert!(rt; matches!(repeated, Err(MapFault::Repeated { rank: 0, gid: 0 })));
    let outside = given(rt.alloc(), 3, &[0], &[5]);
    assert!(rt; matches!(outside, Err(MapFault::OutOfSize { rank: 1, gid: 5 })));
    let first = given(rt.alloc(), 3, &[2, 3, 2], &[1, 1]);
    assert!(rt; matches!(first, Err(MapFault::OutOfSize { rank: 0, gid: 3 })));
    let last = given(rt.alloc(), 3, &[2, 0], &[0, 1, 0]);
    assert!(rt; matches!(last, Err(MapFault::Repeated { rank: 1, gid: 0 })));
    Ok(())
}

#[test]
fn given_lists(rt: HostRuntime) -> Result<(), Fail> {
    let shared = given(rt.alloc(), 3, &[2, 0], &[0, 1])?;
    assert_eq!(rt; shown(rt.alloc(), &shared)?.as_str(), "2 0 ; 0 1 ; ");
    assert!(rt; !shared.is_one_to_one());
    assert!(rt; shared.is_total());
    let part = given(rt.alloc(), 4, &[2, 0], &[1])?;
    assert!(rt; part.is_one_to_one());
    assert!(rt; !part.is_total());
    let none = given(rt.alloc(), 0, &[], &[])?;
    assert!(rt; none.is_one_to_one());
    assert!(rt; none.is_total());
    Ok(())
}

#[test]
fn widest_lists(rt: HostRuntime) -> Result<(), Fail> {
    let layout = given(rt.alloc(), 1099511627776, &[1099511627775], &[])?;
    assert_eq!(rt; place(&layout, 0, 1099511627775), Some(0));
    assert!(rt; layout.is_one_to_one());
    assert!(rt; !layout.is_total());
    Ok(())
}

#[test]
fn largest_layouts(rt: HostRuntime) -> Result<(), Fail> {
    let dealt = cyclic(rt.alloc(), 32, 16777216)?;
    assert_eq!(rt; index(&dealt, 31, 524287), Some(16777215));
    assert_eq!(rt; index(&dealt, 31, 524288), None);
    assert_eq!(rt; place(&dealt, 31, 16777215), Some(524287));
    assert_eq!(rt; place(&dealt, 30, 16777215), None);
    assert_eq!(rt; index(&dealt, 0, 0), Some(0));
    assert_eq!(rt; place(&dealt, 0, 16777216), None);
    let runs = uniform(rt.alloc(), 4, 16777216)?;
    assert_eq!(rt; index(&runs, 3, 4194303), Some(16777215));
    assert_eq!(rt; place(&runs, 3, 12582912), Some(0));
    let one = uniform(rt.alloc(), 1, 0)?;
    assert_eq!(rt; index(&one, 0, 0), None);
    assert!(rt; one.is_total());
    Ok(())
}

#[test]
fn compared_maps(rt: HostRuntime) -> Result<(), Fail> {
    let runs = uniform(rt.alloc(), 3, 7)?;
    let dealt = cyclic(rt.alloc(), 3, 7)?;
    let listed = given(rt.alloc(), 7, &[3, 4], &[4, 3])?;
    assert!(rt; same(&runs, 1, &listed, 0));
    assert!(rt; same(&listed, 0, &runs, 1));
    assert!(rt; !same(&listed, 0, &listed, 1));
    assert!(rt; !same(&runs, 1, &dealt, 1));
    assert!(rt; !same(&runs, 1, &runs, 2));
    assert!(rt; same(&runs, 1, &blocks(rt.alloc(), &[3, 2])?, 1));
    Ok(())
}

#[test]
fn kept_in_order(rt: HostRuntime) -> Result<(), Fail> {
    let map = LocalMap::from_list(rt.alloc(), &[70, 30, 90])?;
    assert_eq!(rt; map.len(), 3);
    assert_eq!(rt; map.local_of(30), Some(1));
    assert_eq!(rt; map.local_of(40), None);
    assert_eq!(rt; map.global_of(2), Some(90));
    assert_eq!(rt; map.global_of(3), None);
    let fault = LocalMap::from_list(rt.alloc(), &[4, 1, 4]);
    assert!(rt; matches!(fault, Err(ListFault::Repeated { gid: 4 })));
    Ok(())
}
