//! The calls that a source or sink in memory is told to fail: their numbers, and the counts. Only `memory` uses it.
ghost use Rattle.std.specs.Prelude.{◌≡◌};
ghost use Rattle.lapin_io.specs.Calls.{no_calls, fails_next, with_fault, after_call};
ghost use Rattle.lapin_io.specs.Numbers.{NeverFalls};

use std::marker::Model;

/// Which calls fail, and how many were made and failed.
#[derive(Drop)]
pub struct Calls {
    failing: Vec<u64>,
    made: u64,
    faults: u64,
}

impl Model for Calls {
    ghost use Rattle.std.specs.Prelude.{◌<◌, ◌^◌};
    ghost use Rattle.lapin_io.specs.Calls.{Calls as CallsValue};

    ghost Value = { CallsValue };

    ghost view = { λ calls. record { failing = calls.failing.items; made = calls.made; faults = calls.faults } };

    ghost invariant = { λ calls. calls.faults < 2 ^ 64 };
}

impl Calls {
    /// No call was made yet. `failing` has the numbers of those that fail, the first call being 1.
    pub fn new(failing: Vec<u64>) -> Calls
        ensures { result ≡ no_calls failing.items }
    {
        Calls {
            failing,
            made: 0,
            faults: 0,
        }
    }

    /// Counts one more call and answers whether it fails, which is counted too.
    pub fn begin(&mut self) -> bool
        ensures fails { result ≡ fails_next self.old }
        ensures after { self.new ≡ after_call self.old }
        ensures faults { NeverFalls self.old.faults self.new.faults }
    {
        self.made = self.made.saturating_add(1);
        let fails = self.failing.contains(&self.made);
        if fails {
            self.faults = self.faults.saturating_add(1);
        }
        fails
    }

    /// Counts a fault of a call that was to succeed.
    pub fn count_fault(&mut self)
        ensures after { self.new ≡ with_fault self.old }
        ensures faults { NeverFalls self.old.faults self.new.faults }
    {
        self.faults = self.faults.saturating_add(1);
    }
}
