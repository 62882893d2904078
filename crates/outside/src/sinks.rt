//! Sinks that take bytes.
ghost use Rattle.std.specs.Prelude.{◌≡◌, ◌≤◌, ℕ, List, Option, length, take, IfOk, IsErr, OnOk, []};
ghost use Rattle.outside.specs.Bytes.{with_bytes};
ghost use Rattle.outside.specs.Faults.{Rose};
ghost use Rattle.outside.specs.Writes.{Writes};

use crate::Failed;

/// A sink that takes bytes in order.
pub trait Sink {
    /// The bytes taken so far, where this sink tells them.
    ghost told: { Self → Option (List ℕ) };

    /// How often a write was a fault.
    ghost faults: { Self → ℕ };

    /// Takes a prefix of `bytes` and answers its length, which is not 0 for a piece that is not empty.
    ///
    /// `Failed` comes only where the count of faults rose, and then nothing was taken.
    fn write(&mut self, bytes: &[u8]) -> Result<usize, Failed>
        ensures never_falls { faults self.old ≤ faults self.new }
        ensures within { IfOk result (λ n. n ≤ length bytes.now) }
        ensures moves { IfOk result (λ n. n ≡ 0 → bytes.now ≡ []) }
        ensures taken { IfOk result (λ n. told self.new ≡ with_bytes (told self.old) (take n bytes.now)) }
        ensures no_fault { OnOk result (faults self.new ≡ faults self.old) }
        ensures fault { IsErr result → Rose (faults self.old) (faults self.new) }
        ensures nothing_taken { IsErr result → told self.new ≡ told self.old };
}

/// The sink failed: its count of faults rose.
#[derive(Clone, Copy, Debug, PartialEq, Eq)]
pub struct SinkFault;

/// Writes all of `bytes` to the sink, in as many pieces as it takes.
///
/// A `SinkFault` comes exactly where a write failed, and then the sink has taken a prefix of the bytes.
pub fn write_all<O: Sink>(out: &mut O, bytes: &[u8]) -> Result<(), SinkFault>
    ensures { Writes O.told O.faults out.old out.new bytes.now result }
{
    let mut done = 0;
    while done < bytes.len() {
        match out.write(&bytes[done..]) {
            Ok(count) => done += count,
            Err(Failed) => return Err(SinkFault),
        }
    }
    Ok(())
}
