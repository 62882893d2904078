//! Pools by hand.

use crate::Pool;
use std::test::Fail;

/// Two blocks of 45 bytes: one is lent and given back.
#[test]
fn room_is_counted(rt: HostRuntime) {
    let mut pool = Pool::new(rt.alloc());
    assert_eq!(&rt; pool.spare(0), 0);
    assert!(&rt; pool.reserve(2, 45).is_ok());
    assert_eq!(&rt; (pool.spare(45), pool.spare(46), pool.live()), (2, 0, 0));
    let lease = pool.lease(13);
    assert_eq!(&rt; (pool.spare(45), pool.live()), (1, 1));
    assert!(&rt; pool.is_live(&lease));
    assert_eq!(&rt; pool.bytes(&lease).len(), 13);
    pool.give_back(lease);
    assert_eq!(&rt; (pool.spare(45), pool.live()), (2, 0));
}

/// Of blocks of 8, 4, 6 and 4 bytes the least that is large enough is lent, the first made among equals.
#[test]
fn least_room_is_lent(rt: HostRuntime) {
    let mut pool = Pool::new(rt.alloc());
    for size in [8, 4, 6, 4] {
        assert!(&rt; pool.reserve(1, size).is_ok());
    }
    assert_eq!(&rt; pool.spare(3), 4);
    let first = pool.lease(3);
    assert_eq!(&rt; (first.block, pool.spare(4), pool.spare(5)), (1, 3, 2));
    let second = pool.lease(4);
    assert_eq!(&rt; (second.block, pool.spare(4)), (3, 2));
    let third = pool.lease(4);
    assert_eq!(&rt; (third.block, pool.spare(8), pool.live()), (2, 1, 3));
    assert!(&rt; pool.is_live(&first));
    pool.give_back(first);
    assert_eq!(&rt; pool.spare(0), 2);
    let fourth = pool.lease(0);
    assert_eq!(&rt; (fourth.block, pool.spare(0), pool.live()), (1, 1, 3));
}

/// Three live leases of one pool are written in turn, and room is made between.
#[test]
fn leases_are_disjoint(rt: HostRuntime) -> Result<(), Fail> {
    let mut pool = Pool::new(rt.alloc());
    let one = pool.lend(&[1, 1, 1])?;
    let two = pool.lend(&[2, 2])?;
    pool.reserve(3, 100)?;
    let three = pool.lend(&[3, 3, 3, 3])?;
    assert!(&rt; pool.is_live(&two));
    pool.bytes_mut(&two).fill(9);
    assert!(&rt; pool.is_live(&one) && pool.is_live(&two) && pool.is_live(&three));
    assert_eq!(&rt; pool.bytes(&one), [1, 1, 1].as_slice());
    assert_eq!(&rt; pool.bytes(&two), [9, 9].as_slice());
    assert_eq!(&rt; pool.bytes(&three), [3, 3, 3, 3].as_slice());
    pool.give_back(two);
    assert!(&rt; pool.is_live(&one) && pool.is_live(&three));
    assert_eq!(&rt; pool.bytes(&one), [1, 1, 1].as_slice());
    assert_eq!(&rt; pool.bytes(&three), [3, 3, 3, 3].as_slice());
    assert_eq!(&rt; (pool.spare(1), pool.spare(3), pool.live()), (4, 3, 2));
    Ok(())
}
