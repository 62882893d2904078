//! A sink over a writer of the system.
ghost use Rattle.std.specs.Prelude.{◌≡◌, None};

use crate::{Failed, Sink};
use std::io::Write;
use std::marker::Model;

/// A sink over a writer, as standard output. Nothing is told of what the writer holds. Contracts see how often a write
/// was a fault.
#[derive(Drop)]
pub struct RealSink<W> {
    writer: W,
    faults: u64,
}

impl<W> Model for RealSink<W> {
    ghost use Rattle.std.specs.Prelude.{ℕ};

    ghost Value = { ℕ };

    ghost view = { λ s. s.faults };
}

impl<W: Write> RealSink<W> {
    /// A sink over `writer`, with no fault so far.
    pub fn new(writer: W) -> RealSink<W>
        ensures { result ≡ 0 }
    {
        RealSink { writer, faults: 0 }
    }
}

impl<W: Write> Sink for RealSink<W> {
    ghost told = { λ _. None };

    ghost faults = { λ s. s };

    /// One `write` of the writer. Each `Err` of it, and each 0 for a piece that is not empty, is a fault.
    fn write(&mut self, bytes: &[u8]) -> Result<usize, Failed> {
        match self.writer.write(bytes) {
            Ok(n) if n > 0 || bytes.is_empty() => Ok(n),
            _ => {
                self.faults = self.faults.saturating_add(1);
                Err(Failed)
            }
        }
    }
}
