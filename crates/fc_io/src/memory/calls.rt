// How many calls there were, and which of them fail.
ghost use Rattle.std.specs.Prelude.{◌≡◌, ◌≤◌, ◌↔◌, IsTrue, IfOk};
ghost use Rattle.fc_io.specs.Calls.{CallLog, no_calls, NextFails, called, failed};

use fc_base::WantMemory;
use std::alloc::Global;
use std::marker::Model;

/// The numbers of the calls that fail, the number of the next call, and the count of faults.
#[derive(Debug, Drop)]
pub struct Calls {
    failing: Vec<u32>,
    // The number of the next call. It stands still at its last value, which `failing` cannot hold.
    next: u64,
    faults: u64,
}

impl Model for Calls {
    ghost Value = { CallLog };

    ghost view = { λ calls.
        record { failing = calls.failing.items; next = calls.next; faults = calls.faults } };
}

impl Calls {
    /// No call yet; those of these numbers, from 1, fail.
    pub fn new(alloc: Global, failing: &[u32]) -> Result<Calls, WantMemory>
        ensures { IfOk result (λ calls. calls ≡ no_calls failing.now) }
    {
        Ok(Calls {
            failing: failing.to_vec(alloc)?,
            next: 1,
            faults: 0,
        })
    }

    /// Whether the next call is one of those that fail.
    pub fn next_fails(&self) -> bool
        ensures { IsTrue result ↔ NextFails self.now }
    {
        self.failing
            .iter()
            .any(|number| u64::from(*number) == self.next)
    }

    /// Counts a call.
    pub fn count(&mut self)
        ensures { self.new ≡ called self.old }
    {
        self.next = self.next.saturating_add(1);
    }

    /// Counts a call that fails, and its fault.
    pub fn count_fault(&mut self)
        ensures counted { self.new ≡ failed self.old }
        ensures never_falls { self.old.faults ≤ self.new.faults }
    {
        self.next = self.next.saturating_add(1);
        self.faults = self.faults.saturating_add(1);
    }

    /// The count of faults, which stands still at the last value of a `u64`.
    pub fn faults(&self) -> u64
        ensures { result ≡ self.now.faults }
    {
        self.faults
    }
}
