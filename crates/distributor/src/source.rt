//! What gives cells.
ghost use Rattle.std.specs.Prelude.{◌≡◌, ◌<◌, List, Some, length, slice_get};
ghost use Rattle.std.specs.List.Sorted.{IsStrictlyIncreasing};
ghost use Rattle.distributor.specs.Entries.{Entry, entry_at, columns_of};

use map_core::Gid;
use scalar_laws::Scalar;

/// Something with entries by local index, whose cells go to other ranks: the packing half of `Tpetra::DistObject`. An
/// entry has a global index, and cells whose columns ascend strictly. No call takes memory.
pub trait DistSource<S: Scalar> {
    /// The entries, by local index.
    ghost entries: { Self → List (Entry S) };

    /// The global index of the entry with this local index.
    fn gid(&self, lid: u32) -> Gid
        requires known { lid < length (entries self.now) }
        ensures gid { result ≡ (entry_at (entries self.now) lid).gid };

    /// How many cells the entry with this local index has.
    fn count(&self, lid: u32) -> u64
        requires known { lid < length (entries self.now) }
        ensures count { result ≡ length (entry_at (entries self.now) lid).cells }
        ensures ascending { IsStrictlyIncreasing (columns_of (entry_at (entries self.now) lid)) };

    /// The column and the number of cell `at`, counted from 0, of the entry with this local index. The column counts as a
    /// global index.
    fn cell(&self, lid: u32, at: u64) -> (Gid, S)
        requires known { lid < length (entries self.now) }
        requires within { at < length (entry_at (entries self.now) lid).cells }
        ensures cell { slice_get (entry_at (entries self.now) lid).cells at ≡ Some result };
}
