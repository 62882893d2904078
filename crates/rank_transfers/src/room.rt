//! Room for the letters that are packed.
ghost use Rattle.std.specs.Prelude.{◌≡◌, ◌<◌, ◌≤◌, ◌^◌, count_by, OnOk};
ghost use Rattle.byte_pool.specs.Blocks.{has_room};
ghost use Rattle.byte_pool.specs.Leases.{leases};
ghost use Rattle.distributor.specs.Transfers.{nums_length};

use byte_pool::Pool;
use std::alloc::AllocError;

/// The length of a letter of so many rows that each have so many numbers.
#[inline]
pub(crate) fn letter_length(rows: u64, columns: u32) -> u64
    requires fits { nums_length rows columns < 2 ^ 64 }
    ensures length { result ≡ nums_length rows columns }
{
    9 + 8 * rows + 32 * (rows * columns as u64)
}

/// Where no free block of the pool has room for so many bytes, one of this length is made. All leases stay, also without
/// memory.
pub(crate) fn make_room(length: u64, pool: &mut Pool) -> Result<(), AllocError>
    ensures room { OnOk result (1 ≤ count_by (has_room length) pool.new) }
    ensures leases { leases pool.new ≡ leases pool.old }
{
    if pool.spare(length) == 0 {
        pool.reserve(1, length)?;
    }
    Ok(())
}
