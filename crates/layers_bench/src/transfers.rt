//! Transfers of a vector from one rank to another: a letter of all rows is packed, read and absorbed.
ghost use Rattle.std.specs.Prelude.{◌≡◌, ◌<◌, ◌≤◌, ◌^◌, Some, length, IfOk};
ghost use Rattle.tables.specs.Indices.{AreBelow};
ghost use Rattle.map_core.specs.Plans.{export_list, remote_list};

use crate::updates::{fill, sum};
use byte_pool::Pool;
use combine_modes::Mode;
use distributor::Transfer;
use map_core::{Layout, Plan};
use multivector::MultiVector;
use scalar_laws::{Scalar, Weighed};
use std::alloc::{AllocError, Global};
use thiserror::Error;
use vector_moves::{MoveFault, absorb, pack, ready};

/// Why there is no transfer.
#[derive(Debug, Drop, Error)]
pub enum Fault {
    #[error("NoMem")]
    NoMem,
    #[error("NoRoom")]
    NoRoom,
    #[error("NotTheLetter")]
    NotTheLetter,
}

impl From<AllocError> for Fault {
    fn from(_: AllocError) -> Fault {
        Fault::NoMem
    }
}

impl From<MoveFault> for Fault {
    fn from(_: MoveFault) -> Fault {
        Fault::NotTheLetter
    }
}

/// So many positions, the last one first.
fn positions(alloc: Global, count: u32) -> Result<Vec<u32>, AllocError>
    ensures below { IfOk result (λ list. AreBelow count list.items) }
    ensures count { IfOk result (λ list. length list.items ≡ count) }
{
    let mut list = Vec::with_capacity(alloc, count as usize)?;
    for i in 0..count {
        list.push(count - 1 - i)?;
    }
    Ok(list)
}

/// The plan by which rank 0 sends so many rows to rank 1.
fn plan(alloc: Global, count: u32) -> Result<Plan, AllocError>
    ensures ranks { IfOk result (λ plan. plan.ranks ≡ 2) }
    ensures sources { IfOk result (λ plan. AreBelow count (export_list plan 1)) }
    ensures targets { IfOk result (λ plan. AreBelow count (remote_list plan 0)) }
    ensures count { IfOk result (λ plan. length (export_list plan 1) ≡ count) }
    ensures none { IfOk result (λ plan. length (export_list plan 0) ≡ 0) }
{
    let exports = [Vec::new(alloc), positions(alloc, count)?];
    let remotes = [positions(alloc, count)?, Vec::new(alloc)];
    Plan::new(alloc, 0, 2, 0, &[], &[], &exports, &remotes)
}

/// One letter of all rows of x comes to y.
fn move_rows(
    by: &Transfer,
    count: u32,
    x: &MultiVector<Weighed>,
    y: &mut MultiVector<Weighed>,
    pool: &mut Pool,
) -> Result<(), Fault>
    requires ranks { by.now.plan.ranks ≡ 2 }
    requires some { 1 ≤ count }
    requires width { by.now.width ≡ Some 1 }
    requires columns_of_x { x.now.columns ≡ 1 }
    requires columns_of_y { y.old.columns ≡ 1 }
    requires sources { AreBelow (length x.now.map) (export_list by.now.plan 1) }
    requires targets { AreBelow (length y.old.map) (remote_list by.now.plan 0) }
    requires count { length (export_list by.now.plan 1) ≡ count }
    ensures map { y.new.map ≡ y.old.map }
    ensures columns { y.new.columns ≡ y.old.columns }
{
    if pool.spare(9 + 40 * count as u64) == 0 {
        return Err(Fault::NoRoom);
    }
    let lease = pack(by, x, 1, pool);
    if !pool.is_live(&lease) {
        return Err(Fault::NoRoom);
    }
    let absorbed = absorb(by, pool.bytes(&lease), 0, y, Mode::Replace);
    pool.give_back(lease);
    absorbed?;
    Ok(())
}

/// The value and the weight of the sum of the cells after so many transfers.
pub fn transfer(alloc: Global, rounds: u32, count: u32) -> Result<Option<(i128, u128)>, Fault> {
    let count = count.clamp(1, 16_777_216);
    let layout = Layout::uniform(alloc, 1, count as u64)?;
    let mut x = MultiVector::new(alloc, layout.list(0).clone()?, 1, Weighed::zero())?;
    fill(&mut x, count);
    let mut y = MultiVector::new(alloc, layout.list(0).clone()?, 1, Weighed::zero())?;
    if x.columns() != 1 || y.columns() != 1 || x.map().len() != count || y.map().len() != count {
        return Err(Fault::NoRoom);
    }
    let mut pool = Pool::new(alloc);
    let by = ready(&x, plan(alloc, count)?, &mut pool)?;
    for _ in 0..rounds {
        move_rows(&by, count, &x, &mut y, &mut pool)?;
    }
    Ok(sum(&y, count).parts())
}
