//! The contiguous uniform layout by arithmetic alone.
ghost use Rattle.std.specs.Prelude.{◌≡◌, ◌+◌, ◌<◌, ◌≤◌, ◌^◌, Some};
ghost use Rattle.map_core.specs.Layouts.{owner};
ghost use Rattle.map_core.specs.Uniform.{uniform_count, uniform_first, uniform_layout};

use crate::Gid;

/// The rank that owns the index `gid` in the contiguous uniform layout of `size` indices over `ranks` ranks, by a
/// division and with no table. Nothing is allocated and no rank is asked (`Tpetra::Map`, uniform contiguous).
///
/// There are 1 to 32 ranks and at most 2^40 indices; `gid` is below the size. Indices and ranks are counted from 0.
pub fn uniform_owner(ranks: u32, size: Gid, gid: Gid) -> u32
    requires some_rank { 1 ≤ ranks }
    requires ranks_limit { ranks ≤ 32 }
    requires size_limit { size ≤ 2 ^ 40 }
    requires within { gid < size }
    ensures below { result < ranks }
    ensures from { uniform_first ranks size result ≤ gid }
    ensures until { gid < uniform_first ranks size result + uniform_count ranks size result }
    ensures owns { owner (uniform_layout ranks size) gid ≡ Some result }
{
    let fewest = size / ranks as Gid;
    let longer = size % ranks as Gid;
    let longer_end = longer * (fewest + 1);
    if gid < longer_end {
        (gid / (fewest + 1)) as u32
    } else {
        (longer + (gid - longer_end) / fewest) as u32
    }
}

/// How many indices a rank has in the contiguous uniform layout of `size` indices over `ranks` ranks.
pub(crate) fn uniform_len(ranks: u32, size: Gid, rank: u32) -> u32
    requires some_rank { 1 ≤ ranks }
    requires size_limit { size ≤ 16777216 }
    ensures len { result ≡ uniform_count ranks size rank }
{
    let fewest = (size / ranks as Gid) as u32;
    let longer = (size % ranks as Gid) as u32;
    if rank < longer { fewest + 1 } else { fewest }
}
