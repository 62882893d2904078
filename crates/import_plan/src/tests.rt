//! Worked examples.
use crate::{ImportPlan, WantFault};
use map_core::LocalMap;
use std::test::Fail;

/// Rank 0 of 3 has a leading index alike, a permuted one, one that it wants of rank 2, and one without owner.
#[test]
fn every_class(rt: HostRuntime) -> Result<(), Fail> {
    let source = LocalMap::from_list(rt.alloc(), &[4, 1, 7, 9])?;
    let target = LocalMap::from_list(rt.alloc(), &[4, 1, 9, 3, 8])?;
    let owners = [Some(0), Some(0), Some(0), Some(2), None];
    let mut import = ImportPlan::start(rt.alloc(), 0, 3, &source, &target, &owners)?;
    assert_eq!(rt; import.wanted(2), [3].as_slice());
    assert_eq!(rt; import.wanted(1), [].as_slice());
    assert!(rt;
        matches!(
            import.accept_want(2, &[5]),
            Err(WantFault::NotHeld { gid: 5 })
        )
    );
    assert!(rt; !import.has_want(2));
    import.accept_want(1, &[7])?;
    import.accept_want(2, &[])?;
    assert!(rt; import.has_want(1));
    assert!(rt; import.has_want(2));
    let plan = import.finish()?;
    for plan in [plan.share()?, plan] {
        assert_eq!(rt; plan.me(), 0);
        assert_eq!(rt; plan.ranks(), 3);
        assert_eq!(rt; plan.same(), 2);
        assert_eq!(rt; plan.permute_to(), [2].as_slice());
        assert_eq!(rt; plan.permute_from(), [3].as_slice());
        assert_eq!(rt; plan.exports_to(1), [2].as_slice());
        assert_eq!(rt; plan.exports_to(2), [].as_slice());
        assert_eq!(rt; plan.remotes_from(2), [3].as_slice());
        assert_eq!(rt; plan.remotes_from(1), [].as_slice());
        let back = plan.reverse();
        assert_eq!(rt; back.permute_to(), [3].as_slice());
        assert_eq!(rt; back.exports_to(2), [3].as_slice());
    }
    Ok(())
}

#[test]
fn one_rank_alone(rt: HostRuntime) -> Result<(), Fail> {
    let source = LocalMap::from_list(rt.alloc(), &[3, 5])?;
    let target = LocalMap::from_list(rt.alloc(), &[3, 9, 5])?;
    let owners = [Some(0), None, Some(0)];
    let plan = ImportPlan::start(rt.alloc(), 0, 1, &source, &target, &owners)?.finish()?;
    assert_eq!(rt; plan.same(), 1);
    assert_eq!(rt; plan.permute_to(), [2].as_slice());
    assert_eq!(rt; plan.permute_from(), [1].as_slice());
    assert_eq!(rt; plan.exports_to(0), [].as_slice());
    assert_eq!(rt; plan.remotes_from(0), [].as_slice());
    Ok(())
}

#[test]
fn empty_lists(rt: HostRuntime) -> Result<(), Fail> {
    let none = LocalMap::from_list(rt.alloc(), &[])?;
    let mut import = ImportPlan::start(rt.alloc(), 1, 2, &none, &none, &[])?;
    assert_eq!(rt; import.wanted(0), [].as_slice());
    import.accept_want(0, &[])?;
    let plan = import.finish()?;
    assert_eq!(rt; plan.same(), 0);
    assert_eq!(rt; plan.permute_to(), [].as_slice());
    assert_eq!(rt; plan.exports_to(0), [].as_slice());
    Ok(())
}
