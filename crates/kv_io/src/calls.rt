// The calls of an object in memory: how many there were, and which are to fail.

ghost use Rattle.std.specs.Prelude.{◌≡◌, IfOk};
ghost use Rattle.kv_io.specs.Memory.{no_calls, is_due, after_call};

use kv_names::NoMemory;
use std::alloc::Global;
use std::marker::Model;

/// Counts the calls of one object, and those that failed.
#[derive(Drop)]
pub struct Calls {
    fails: Vec<u64>,
    made: u64,
    faults: u64,
}

impl Model for Calls {
    ghost use Rattle.kv_io.specs.Memory.{CallCounts};

    ghost Value = { CallCounts };

    ghost view = { λ c. record { fails = c.fails.items; made = c.made; faults = c.faults } };
}

impl Calls {
    /// The counts of an object on which no call was made, where these calls, counted from 0, are to fail.
    pub fn make(alloc: Global, fails: &[u64]) -> Result<Calls, NoMemory>
        ensures { IfOk result (λ c. c ≡ no_calls fails.now) }
    {
        Ok(Calls {
            fails: fails.to_vec(alloc)?,
            made: 0,
            faults: 0,
        })
    }

    /// Whether the next call is to fail.
    pub fn is_due(&self) -> bool
        ensures { result ≡ is_due self.now }
    {
        self.fails.contains(&self.made)
    }

    /// Counts a call, and whether it failed.
    pub fn count(&mut self, failed: bool)
        ensures { self.new ≡ after_call self.old failed }
    {
        self.made = self.made.saturating_add(1);
        if failed {
            self.faults = self.faults.saturating_add(1);
        }
    }
}
