//! A sink in memory.
ghost use Rattle.std.specs.Prelude.{◌≡◌, ◌≢◌, ◌↔◌, ◌⊎◌, ◌-◌, ◌++◌, ◌≤◌, [], Contains, IfOk, IsErr, OnErr, OnOk, is_err, length, min, take};
ghost use Rattle.outside.specs.Bytes.{with_bytes};
ghost use Rattle.outside.specs.Faults.{after_call, no_faults};

use crate::plan::Plan;
use crate::{Failed, Sink};
use std::alloc::{AllocError, Global};
use std::marker::Model;

/// A sink in memory with room for so many bytes, whose writes fail where this was asked for.
#[derive(Drop)]
pub struct MemSink {
    bytes: Vec<u8>,
    room: usize,
    plan: Plan,
}

impl Model for MemSink {
    ghost use Rattle.std.specs.Prelude.{◌≤◌, vec_capacity, vec_len};
    ghost use Rattle.outside.specs.MemSink.{MemorySink};

    ghost Value = { MemorySink };

    ghost view = { λ s. record { bytes = s.bytes.items; room = s.room; plan = s.plan } };

    ghost invariant = { λ s. (vec_len s.bytes ≤ s.room) × (s.room ≤ vec_capacity s.bytes) };
}

impl MemSink {
    /// An empty sink with memory for `room` bytes, and no write that is to fail. `Err` means that memory ran out.
    pub fn new(alloc: Global, room: u64) -> Result<MemSink, AllocError>
        ensures { IfOk result (λ s. s ≡ record { bytes = []; room = room; plan = no_faults }) }
    {
        let room = room as usize;
        Ok(MemSink {
            bytes: Vec::with_capacity(alloc, room)?,
            room,
            plan: Plan::new(alloc),
        })
    }

    /// The bytes taken so far.
    pub fn bytes(&self) -> &[u8]
        ensures { result.now ≡ self.now.bytes }
    {
        &self.bytes
    }

    /// From here on the writes with these numbers fail, and no others but those without room. Writes are counted from
    /// 0, those before this call too. Without memory all stays.
    pub fn fail_at(&mut self, calls: &[u64]) -> Result<(), AllocError>
        ensures ok { OnOk result (self.new ≡ record self.old { plan = record self.old.plan { stated = calls.now } }) }
        ensures err { OnErr result (self.new ≡ self.old) }
    {
        self.plan.fail_at(calls)
    }

    /// [`Sink::write`], which fails exactly where the number of this write is stated, or where the piece is not empty
    /// and no room is left. It takes as many bytes as have room, and no memory.
    pub fn write(&mut self, bytes: &[u8]) -> Result<usize, Failed>
        ensures fails { IsErr result ↔ (Contains self.old.plan.stated self.old.plan.calls ⊎ (bytes.now ≢ []) × (length self.old.bytes ≡ self.old.room)) }
        ensures fills { IfOk result (λ n. n ≡ min (length bytes.now) (self.old.room - length self.old.bytes)) }
        ensures moves { IfOk result (λ n. n ≡ 0 → bytes.now ≡ []) }
        ensures taken { IfOk result (λ n. self.new.bytes ≡ self.old.bytes ++ take n bytes.now) }
        ensures nothing_taken { OnErr result (self.new.bytes ≡ self.old.bytes) }
        ensures within { length self.new.bytes ≤ self.new.room }
        ensures same_room { self.new.room ≡ self.old.room }
        ensures counts { self.new.plan ≡ after_call self.old.plan (is_err result) }
    {
        let fails = self.plan.next_fails();
        let left = self.room - self.bytes.len();
        if fails || !bytes.is_empty() && left == 0 {
            self.plan.count_fault();
            return Err(Failed);
        }
        let n = bytes.len().min(left);
        match self.bytes.extend_from_slice(&bytes[..n]) {
            Ok(()) => Ok(n),
            Err(_) => unreachable!(),
        }
    }
}

impl Sink for MemSink {
    ghost use Rattle.std.specs.Prelude.{Some};

    ghost told = { λ s. Some s.bytes };

    ghost faults = { λ s. s.plan.faults };

    fn write(&mut self, bytes: &[u8]) -> Result<usize, Failed> {
        self.write(bytes)
    }
}
