//! Files that are read by name.
ghost use Rattle.std.specs.Prelude.{◌≡◌, ◌≤◌, ℕ, List, Option, Some, length, take, drop, IfOk, IsErr};
ghost use Rattle.outside.specs.Bytes.{IsReadOf};
ghost use Rattle.outside.specs.Reads.{Reads, Source};

use crate::Failed;

/// Files that are read by name, from any byte on.
pub trait Files {
    /// The bytes of each name, where this source tells them.
    ghost told: { Self → Option Source };

    /// For each name, how often a read of it was a fault.
    ghost faults: { Self → List ℕ → ℕ };

    /// Puts a prefix of what stands in the file from byte `at` on into the head of `buf`, and answers its length: 0
    /// only at the end of the file, or for an empty buffer. The rest of `buf` stays.
    ///
    /// Bytes are counted from 0. `Failed` comes only where the count of faults of `name` rose; a name that does not exist
    /// is such a fault. After it nothing is said of `buf`.
    fn read_at(&mut self, name: &str, at: u64, buf: &mut [u8]) -> Result<usize, Failed>
        ensures reads { Reads told faults self.old self.new name.now (IsErr result) }
        ensures within { IfOk result (λ n. n ≤ length buf.old) }
        ensures rest_stays { IfOk result (λ n. drop n buf.new ≡ drop n buf.old) }
        ensures piece { IfOk result (λ n. (source : Source) → told self.old ≡ Some source
            → IsReadOf (source name.now) at n (length buf.old) (take n buf.new)) };
}
