//! Worked examples, limits, and each public call with enough memory.
use crate::{DirFault, Directory, NO_OWNER, questions};
use std::test::Fail;

#[test]
fn registered(rt: HostRuntime) -> Result<(), Fail> {
    let mut directory = Directory::new(rt.alloc(), 0, 2, 4)?;
    assert_eq!(rt; directory.owner(1), None);
    directory.register(1, &[1])?;
    assert_eq!(rt; directory.owner(1), Some(1));
    let twice = directory.register(0, &[0, 1]);
    assert!(rt; matches!(twice, Err(DirFault::Twice { gid: 1 })));
    assert_eq!(rt; directory.owner(0), None);
    let answers = directory.answers(&[0, 1])?;
    assert_eq!(rt; answers.as_slice(), [NO_OWNER, 1].as_slice());
    assert_eq!(rt; NO_OWNER, 4294967295);
    Ok(())
}

#[test]
fn repeated_in_the_list(rt: HostRuntime) -> Result<(), Fail> {
    let mut directory = Directory::new(rt.alloc(), 0, 1, 4)?;
    let twice = directory.register(0, &[3, 0, 3, 0]);
    assert!(rt; matches!(twice, Err(DirFault::Twice { gid: 3 })));
    assert_eq!(rt; directory.owner(3), None);
    directory.register(0, &[3, 0])?;
    assert_eq!(rt; directory.owner(3), Some(0));
    directory.register(0, &[])?;
    assert_eq!(rt; directory.owner(1), None);
    Ok(())
}

#[test]
fn asked_of_a_home(rt: HostRuntime) -> Result<(), Fail> {
    let asked = questions(rt.alloc(), 2, 4, &[3, 0, 2], 1)?;
    assert_eq!(rt; asked.as_slice(), [3, 2].as_slice());
    let rest = questions(rt.alloc(), 2, 4, &[3, 0, 2], 0)?;
    assert_eq!(rt; rest.as_slice(), [0].as_slice());
    let none = questions(rt.alloc(), 32, 0, &[], 31)?;
    assert_eq!(rt; none.len(), 0);
    Ok(())
}

#[test]
fn at_the_limits(rt: HostRuntime) -> Result<(), Fail> {
    let asked = questions(rt.alloc(), 32, 1099511627776, &[0, 1099511627775], 31)?;
    assert_eq!(rt; asked.as_slice(), [1099511627775].as_slice());
    let mut directory = Directory::new(rt.alloc(), 31, 32, 1099511627776)?;
    directory.register(30, &[1099511627775, 1065151889408])?;
    assert_eq!(rt; directory.owner(1065151889408), Some(30));
    assert_eq!(rt; directory.owner(1065151889409), None);
    Ok(())
}
