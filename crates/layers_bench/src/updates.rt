//! Updates of a vector: y becomes 2 x - y.
ghost use Rattle.std.specs.Prelude.{◌≡◌, unsigned_abs};
ghost use Rattle.scalar_laws.specs.Number.{new_number};
ghost use Rattle.scalar_laws.specs.Weighed.{num_of};
ghost use Rattle.multivector.specs.Vectors.{HasSameShape};

use map_core::Layout;
use multivector::MultiVector;
use scalar_laws::{Scalar, Weighed};
use std::alloc::{AllocError, Global};

/// The number of a value.
fn whole(value: i128) -> Weighed
    ensures number { num_of result ≡ new_number value (unsigned_abs value) }
{
    Weighed::new(value, value.unsigned_abs())
}

/// Gives each cell the number of its place.
pub(crate) fn fill(x: &mut MultiVector<Weighed>, count: u32)
    ensures shape { HasSameShape x.old x.new }
{
    for lid in 0..count {
        if lid < x.map().len() && 0 < x.columns() {
            x.set(lid, 0, whole(lid as i128));
        }
    }
}

/// The sum of the cells.
pub(crate) fn sum(y: &MultiVector<Weighed>, count: u32) -> Weighed {
    let mut sum = Weighed::zero();
    for lid in 0..count {
        if lid < y.map().len() && 0 < y.columns() {
            sum = sum.add(y.cell(lid, 0));
        }
    }
    sum
}

/// The value and the weight of the sum of the cells after so many updates.
pub fn update(alloc: Global, rounds: u32, count: u32) -> Result<Option<(i128, u128)>, AllocError> {
    let layout = Layout::uniform(alloc, 1, count.min(16_777_216) as u64)?;
    let mut x = MultiVector::new(alloc, layout.list(0).clone()?, 1, Weighed::zero())?;
    fill(&mut x, count);
    let mut y = MultiVector::new(alloc, layout.list(0).clone()?, 1, whole(1))?;
    for _ in 0..rounds {
        if y.map().same_list(x.map()) && y.columns() == x.columns() {
            y.update(whole(2), &x, whole(-1));
        }
    }
    Ok(sum(&y, count).parts())
}
