//! Which calls of an object in memory are to fail.
ghost use Rattle.std.specs.Prelude.{◌≡◌, ◌↔◌, Contains, IsTrue, OnOk, OnErr};

use std::alloc::{AllocError, Global};
use std::marker::Model;

/// The numbers of the calls that are to fail, counted from 0, with the counts of calls and of faults.
#[derive(Drop)]
pub(crate) struct Plan {
    alloc: Global,
    stated: Vec<u64>,
    calls: u64,
    faults: u64,
}

impl Model for Plan {
    ghost use Rattle.outside.specs.Faults.{FaultPlan};

    ghost Value = { FaultPlan };

    ghost view = { λ p. record { stated = p.stated.items; calls = p.calls; faults = p.faults } };
}

impl Plan {
    ghost use Rattle.outside.specs.Faults.{counted, no_faults};

    /// No call is to fail.
    pub(crate) fn new(alloc: Global) -> Plan
        ensures { result ≡ no_faults }
    {
        Plan {
            alloc,
            stated: Vec::new(alloc),
            calls: 0,
            faults: 0,
        }
    }

    /// From here on the calls with these numbers are to fail, and no others. Without memory all stays.
    pub(crate) fn fail_at(&mut self, calls: &[u64]) -> Result<(), AllocError>
        ensures ok { OnOk result (self.new ≡ record self.old { stated = calls.now }) }
        ensures err { OnErr result (self.new ≡ self.old) }
    {
        self.stated = calls.to_vec(self.alloc)?;
        Ok(())
    }

    /// Counts a call, and answers whether its number is stated.
    pub(crate) fn next_fails(&mut self) -> bool
        ensures stated { IsTrue result ↔ Contains self.old.stated self.old.calls }
        ensures after { self.new ≡ record self.old { calls = counted self.old.calls } }
    {
        let fails = self.stated.contains(&self.calls);
        self.calls = self.calls.saturating_add(1);
        fails
    }

    /// Counts a fault.
    pub(crate) fn count_fault(&mut self)
        ensures { self.new ≡ record self.old { faults = counted self.old.faults } }
    {
        self.faults = self.faults.saturating_add(1);
    }
}
