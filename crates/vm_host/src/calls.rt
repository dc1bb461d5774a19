//! Calls that are numbered from 0, some of which are to fail.
ghost use Rattle.std.specs.Prelude.{◌≡◌, ◌<◌, ◌↔◌, IsTrue, [], ◌∷◌, ◌++◌, OnOk, OnErr};
ghost use Rattle.vm_host.specs.MemState.{no_calls, is_listed, after_call, one_more};

use std::alloc::Global;
use std::marker::Model;
use vm_law::OutOfMemory;

/// The number of the next call, the calls that are to fail, and how many failed.
#[derive(Drop)]
pub struct Calls {
    next: u64,
    failing: Vec<u64>,
    faults: u64,
}

impl Model for Calls {
    ghost use Rattle.vm_host.specs.MemState.{CallState};

    ghost Value = { CallState };

    ghost view = { λ c. record { next = c.next; failing = c.failing.items; faults = c.faults } };
}

impl Calls {
    /// Before the first call; none is to fail.
    pub fn new(alloc: Global) -> Calls
        ensures { result ≡ no_calls [] }
    {
        Calls::failing_at(Vec::new(alloc))
    }

    /// Before the first call; those of these numbers are to fail.
    pub fn failing_at(failing: Vec<u64>) -> Calls
        ensures { result ≡ no_calls failing.items }
    {
        Calls {
            next: 0,
            failing,
            faults: 0,
        }
    }

    /// Lists a call that is to fail.
    pub fn fail(&mut self, call: u64) -> Result<(), OutOfMemory>
        ensures listed { OnOk result (self.new ≡ record self.old { failing = self.old.failing ++ call ∷ [] }) }
        ensures err { OnErr result (self.new ≡ self.old) }
    {
        self.failing.push(call)?;
        Ok(())
    }

    /// Takes the number of a call, and counts a fault where it is listed. Whether it is.
    pub fn next_fails(&mut self) -> bool
        ensures listed { result ≡ is_listed self.old }
        ensures after { self.new ≡ after_call result self.old }
    {
        let call = self.next;
        self.next = call.saturating_add(1);
        let listed = self.failing.contains(&call);
        if listed {
            self.faults = self.faults.saturating_add(1);
        }
        listed
    }

    /// Counts a fault of the call whose number was taken last.
    pub fn count_fault(&mut self)
        ensures { self.new ≡ record self.old { faults = one_more self.old.faults } }
    {
        self.faults = self.faults.saturating_add(1);
    }

    /// Whether a call has failed.
    pub fn has_failed(&self) -> bool
        ensures { IsTrue result ↔ (0 < self.now.faults) }
    {
        self.faults > 0
    }
}
