//! The calls of a form in memory: which of them fail, how many were made, and how many failed.
ghost use Rattle.std.specs.Prelude.{◌≡◌, ◌≤◌};
ghost use Rattle.std.specs.Result.{is_err};
ghost use Rattle.xv_outside.specs.Memory.{CallCount, next_count, no_calls, fails_next, calls_after};

use crate::outside::Failed;
use std::marker::Model;

#[derive(Drop)]
pub struct Calls {
    failing: Vec<u64>,
    made: u64,
    faults: u64,
}

impl Model for Calls {
    ghost Value = { CallCount };

    ghost view = { λ c. record { failing = c.failing.items; made = c.made; faults = c.faults } };
}

impl Calls {
    pub fn new(failing: Vec<u64>) -> Calls
        ensures { result ≡ no_calls failing.items }
    {
        Calls {
            failing,
            made: 0,
            faults: 0,
        }
    }

    /// Counts the next call, which fails exactly where its number is one of those that fail.
    pub fn next(&mut self) -> Result<(), Failed>
        ensures fails { is_err result ≡ fails_next self.old }
        ensures counted { self.new ≡ calls_after self.old (is_err result) }
        ensures later { self.old.faults ≤ self.new.faults }
    {
        let fails = self.failing.contains(&self.made);
        self.made = self.made.saturating_add(1);
        if fails {
            self.fault();
            return Err(Failed);
        }
        Ok(())
    }

    /// Counts one failure.
    pub fn fault(&mut self)
        ensures counted { self.new ≡ record self.old { faults = next_count self.old.faults } }
        ensures later { self.old.faults ≤ self.new.faults }
    {
        self.faults = self.faults.saturating_add(1);
    }
}
