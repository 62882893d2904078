//! Transfers between two ranks, and a thousand of them on one pool.
ghost use Rattle.std.specs.Prelude.{◌≡◌, ◌<◌, ◌^◌, ◌∷◌, [], Some, length, IfOk};

use crate::{MoveFault, absorb, local, pack, ready, transfer_often};
use byte_pool::Pool;
use combine_modes::Mode;
use distributor::Transfer;
use map_core::{LocalMap, Plan};
use multivector::MultiVector;
use scalar_laws::Weighed;
use std::alloc::Global;
use std::test::Fail;

fn number(value: i128) -> Weighed {
    Weighed::new(value, value.unsigned_abs())
}

/// A vector of one column on the indices of a list, with one number in each cell.
fn vector(alloc: Global, list: &[u64], value: i128) -> Result<MultiVector<Weighed>, Fail>
    requires few { length list.now < 2 ^ 32 }
    ensures map { IfOk result (λ v. v.map ≡ list.now) }
    ensures columns { IfOk result (λ v. v.columns ≡ 1) }
{
    let map = LocalMap::from_list(alloc, list)?;
    Ok(MultiVector::new(alloc, map, 1, number(value))?)
}

/// The numbers of a vector of one column.
fn numbers(alloc: Global, v: &MultiVector<Weighed>) -> Result<Vec<i128>, Fail> {
    let mut values = Vec::new(alloc);
    for lid in 0..v.map().len() {
        if lid < v.map().len() && 0 < v.columns() {
            values.push(v.cell(lid, 0).parts().map_or(-1, |parts| parts.0))?;
        }
    }
    Ok(values)
}

/// Rank 1 has 3 and 5, and sends 3 to rank 0.
fn sender(alloc: Global, x: &MultiVector<Weighed>, pool: &mut Pool) -> Result<Transfer, Fail>
    requires columns { x.now.columns ≡ 1 }
    ensures transfer { IfOk result (λ t. t ≡ record { plan = record { me = 1; ranks = 2; same = 0; permute_to = []; permute_from = []; exports = (0 ∷ []) ∷ [] ∷ []; remotes = [] ∷ [] ∷ [] }; width = Some 1 }) }
{
    let exports = [vec![in alloc; 0]?, Vec::new(alloc)];
    let remotes = [Vec::new(alloc), Vec::new(alloc)];
    let plan = Plan::new(alloc, 1, 2, 0, &[], &[], &exports, &remotes)?;
    Ok(ready(x, plan, pool)?)
}

/// Rank 0 has 4, 1, 7 and 9. It wants 4, 1, 9, 3 and 8, of which 3 comes from rank 1.
fn receiver(alloc: Global, x: &MultiVector<Weighed>, pool: &mut Pool) -> Result<Transfer, Fail>
    requires columns { x.now.columns ≡ 1 }
    ensures transfer { IfOk result (λ t. t ≡ record { plan = record { me = 0; ranks = 2; same = 2; permute_to = 2 ∷ []; permute_from = 3 ∷ []; exports = [] ∷ [] ∷ []; remotes = [] ∷ (3 ∷ []) ∷ [] }; width = Some 1 }) }
{
    let exports = [Vec::new(alloc), Vec::new(alloc)];
    let remotes = [Vec::new(alloc), vec![in alloc; 3]?];
    let plan = Plan::new(alloc, 0, 2, 2, &[2], &[3], &exports, &remotes)?;
    Ok(ready(x, plan, pool)?)
}

#[test]
fn rows_that_stay_and_rows_that_come(rt: HostRuntime) -> Result<(), Fail> {
    let mut pool = Pool::new(rt.alloc());
    let own = vector(rt.alloc(), &[4, 1, 7, 9], 10)?;
    let other = vector(rt.alloc(), &[3, 5], 30)?;
    let mut y = vector(rt.alloc(), &[4, 1, 9, 3, 8], 1)?;
    let sender = sender(rt.alloc(), &other, &mut pool)?;
    let receiver = receiver(rt.alloc(), &own, &mut pool)?;
    local(&receiver, &own, &mut y, Mode::Replace);
    let values = numbers(rt.alloc(), &y)?;
    assert_eq!(rt; values.as_slice(), [10, 10, 10, 1, 1].as_slice());
    assert!(rt; pool.spare(49) == 1);
    let lease = pack(&sender, &other, 0, &mut pool);
    assert!(rt; pool.is_live(&lease));
    absorb(&receiver, pool.bytes(&lease), 1, &mut y, Mode::Add)?;
    pool.give_back(lease);
    let values = numbers(rt.alloc(), &y)?;
    assert_eq!(rt; values.as_slice(), [10, 10, 10, 31, 1].as_slice());
    Ok(())
}

#[test]
fn a_thousand_transfers(rt: HostRuntime) -> Result<(), Fail> {
    let mut pool = Pool::new(rt.alloc());
    let x = vector(rt.alloc(), &[3, 5], 30)?;
    let mut y = vector(rt.alloc(), &[4, 1, 9, 3, 8], 1)?;
    let sender = sender(rt.alloc(), &x, &mut pool)?;
    let receiver = receiver(rt.alloc(), &y, &mut pool)?;
    assert!(rt; pool.spare(49) == 1);
    let mode = Mode::Add;
    transfer_often(1000, &sender, &x, 1, &receiver, &mut y, 0, mode, &mut pool)?;
    assert_eq!(rt; (pool.spare(0), pool.spare(49), pool.live()), (1, 1, 0));
    let values = numbers(rt.alloc(), &y)?;
    assert_eq!(rt; values.as_slice(), [1, 1, 1, 30_001, 1].as_slice());
    Ok(())
}

#[test]
fn letters_that_are_refused(rt: HostRuntime) -> Result<(), Fail> {
    let mut pool = Pool::new(rt.alloc());
    let x = vector(rt.alloc(), &[3, 5], 30)?;
    let mut y = vector(rt.alloc(), &[4, 1, 9, 3, 8], 1)?;
    let sender = sender(rt.alloc(), &x, &mut pool)?;
    let receiver = receiver(rt.alloc(), &y, &mut pool)?;
    let refused = absorb(&receiver, &[22, 1, 0], 1, &mut y, Mode::Add);
    assert!(rt; matches!(refused, Err(MoveFault::NotALetter)));
    assert!(rt; pool.spare(49) == 1);
    let lease = pack(&sender, &x, 0, &mut pool);
    assert!(rt; pool.is_live(&lease));
    let refused = absorb(&receiver, pool.bytes(&lease), 0, &mut y, Mode::Add);
    assert!(rt; matches!(refused, Err(MoveFault::NotThePlan { have: 1, want: 0 })));
    let values = numbers(rt.alloc(), &y)?;
    assert_eq!(rt; values.as_slice(), [1, 1, 1, 1, 1].as_slice());
    Ok(())
}
