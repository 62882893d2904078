//! Worked examples.
use crate::{ExportPlan, OfferFault};
use map_core::LocalMap;
use std::test::Fail;

/// Rank 1 of 3 has an entry of each rank.
#[test]
fn every_class(rt: HostRuntime) -> Result<(), Fail> {
    let source = LocalMap::from_list(rt.alloc(), &[1, 2, 5])?;
    let target = LocalMap::from_list(rt.alloc(), &[2])?;
    let owners = [Some(0), Some(1), Some(2)];
    let mut export = ExportPlan::start(rt.alloc(), 1, 3, &source, &target, &owners)?;
    assert_eq!(rt; export.offered(0), [1].as_slice());
    assert_eq!(rt; export.offered(2), [5].as_slice());
    assert!(rt;
        matches!(
            export.accept_offer(0, &[6]),
            Err(OfferFault::NotHeld { gid: 6 })
        )
    );
    assert!(rt; !export.has_offer(0));
    export.accept_offer(0, &[2])?;
    export.accept_offer(2, &[])?;
    assert!(rt; export.has_offer(0));
    let plan = export.finish()?;
    assert_eq!(rt; plan.same(), 0);
    assert_eq!(rt; plan.permute_from(), [1].as_slice());
    assert_eq!(rt; plan.permute_to(), [0].as_slice());
    assert_eq!(rt; plan.remotes_from(0), [0].as_slice());
    assert_eq!(rt; plan.remotes_from(2), [].as_slice());
    assert_eq!(rt; plan.exports_to(0), [0].as_slice());
    assert_eq!(rt; plan.exports_to(2), [2].as_slice());
    Ok(())
}

#[test]
fn one_rank_alone(rt: HostRuntime) -> Result<(), Fail> {
    let source = LocalMap::from_list(rt.alloc(), &[3, 9, 5])?;
    let target = LocalMap::from_list(rt.alloc(), &[3, 5])?;
    let owners = [Some(0), None, Some(0)];
    let plan = ExportPlan::start(rt.alloc(), 0, 1, &source, &target, &owners)?.finish()?;
    assert_eq!(rt; plan.same(), 1);
    assert_eq!(rt; plan.permute_from(), [2].as_slice());
    assert_eq!(rt; plan.permute_to(), [1].as_slice());
    assert_eq!(rt; plan.exports_to(0), [].as_slice());
    assert_eq!(rt; plan.remotes_from(0), [].as_slice());
    Ok(())
}

#[test]
fn empty_lists(rt: HostRuntime) -> Result<(), Fail> {
    let none = LocalMap::from_list(rt.alloc(), &[])?;
    let mut export = ExportPlan::start(rt.alloc(), 1, 2, &none, &none, &[])?;
    assert_eq!(rt; export.offered(0), [].as_slice());
    export.accept_offer(0, &[])?;
    let plan = export.finish()?;
    assert_eq!(rt; plan.same(), 0);
    assert_eq!(rt; plan.permute_to(), [].as_slice());
    assert_eq!(rt; plan.remotes_from(0), [].as_slice());
    Ok(())
}
