//! The counted calls of an object in memory, and the calls that are to fail.
ghost use Rattle.std.specs.Prelude.{◌≡◌, ◌≤◌};
ghost use Rattle.std.specs.Bool.{OnTrue, OnFalse};
ghost use Rattle.roman_io.specs.Calls.{no_calls, is_failing, after_call, after_failed, after_fault};

use crate::failed::Failed;
use std::marker::Model;

/// The calls of an object in memory: which of them fail, the number of the next call, and the number
/// of faults.
#[derive(Drop)]
pub struct Calls {
    failing: Vec<u64>,
    next: u64,
    faults: u64,
}

impl Model for Calls {
    ghost use Rattle.roman_io.specs.Calls.{Calls as CallsState};

    ghost Value = { CallsState };

    ghost view = { λ c. record { failing = c.failing.items; next = c.next; faults = c.faults } };
}

impl Calls {
    /// Returns a record of no calls. `failing` lists the numbers of the calls that are to fail,
    /// from 0.
    pub fn new(failing: Vec<u64>) -> Calls
        ensures { result ≡ no_calls failing.items }
    {
        Calls {
            failing,
            next: 0,
            faults: 0,
        }
    }

    /// Begins a call, and returns whether it is to fail. A call that is to fail counts as a fault.
    pub fn begin(&mut self) -> bool
        ensures failing { result ≡ is_failing self.old }
        ensures goes_on { OnFalse result (self.new ≡ after_call self.old) }
        ensures fails { OnTrue result (self.new ≡ after_failed self.old) }
        ensures later { self.old.faults ≤ self.new.faults }
    {
        let fails = self.failing.contains(&self.next);
        self.next = self.next.saturating_add(1);
        if fails {
            self.faults = self.faults.saturating_add(1);
        }
        fails
    }

    /// Counts a fault of the current call, and returns the error.
    pub fn fail(&mut self) -> Failed
        ensures fault { self.new ≡ after_fault self.old }
        ensures later { self.old.faults ≤ self.new.faults }
    {
        self.faults = self.faults.saturating_add(1);
        Failed
    }
}
