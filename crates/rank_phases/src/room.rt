//! Room for letters.
ghost use Rattle.std.specs.Prelude.{◌≡◌, ◌≤◌, ℕ, List, None, IfOk, OnErr, OnOk, count_by, length};
ghost use Rattle.byte_pool.specs.Blocks.{has_room};
ghost use Rattle.byte_pool.specs.Leases.{leases, with_lease};

use byte_pool::{Lease, Pool};
use std::alloc::AllocError;

/// A lease of so many bytes, of any content. Where no free block has room for them, one of exactly this length is
/// reserved. The other leases stay, also without memory.
pub fn lease_block(pool: &mut Pool, len: u64) -> Result<Lease, AllocError>
    ensures fresh { IfOk result (λ lease. leases pool.old lease ≡ None) }
    ensures lent { IfOk result (λ lease. (bytes : List ℕ) × (length bytes ≡ len) × (leases pool.new ≡ with_lease (leases pool.old) lease bytes)) }
    ensures err { OnErr result (leases pool.new ≡ leases pool.old) }
{
    make_room(pool, len)?;
    Ok(pool.lease(len))
}

/// Reserves a block of so many bytes where none is free that has room for them.
fn make_room(pool: &mut Pool, len: u64) -> Result<(), AllocError>
    ensures room { OnOk result (1 ≤ count_by (has_room len) pool.new) }
    ensures same { leases pool.new ≡ leases pool.old }
{
    if pool.spare(len) == 0 {
        pool.reserve(1, len)?;
    }
    Ok(())
}
