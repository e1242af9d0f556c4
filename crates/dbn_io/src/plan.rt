//! Calls that fail as they were told to.

ghost use Rattle.std.specs.Prelude.{◌≡◌, ◌≤◌, IsTrue, IsFalse};
ghost use Rattle.dbn_io.specs.Memory.{Plan, after_call, begun, fails_next};
ghost use Rattle.dbn_model.specs.Causes.{Rose};

use crate::lists::Calls;
use std::marker::Model;

/// Which calls of an object in memory are to fail, by their numbers from 0; how many calls there were, and how many of
/// them failed. Both counts stop at 2^64 - 1.
#[derive(Debug, Drop)]
pub struct FaultPlan {
    fails: Calls,
    calls: u64,
    faults: u64,
}

impl Model for FaultPlan {
    ghost Value = { Plan };

    ghost view = { λ p. record { fails = p.fails; calls = p.calls; faults = p.faults } };
}

impl FaultPlan {
    /// No call yet, and the calls `fails` are to fail.
    pub fn new(fails: Calls) -> FaultPlan
        ensures { result ≡ begun fails }
    {
        FaultPlan {
            fails,
            calls: 0,
            faults: 0,
        }
    }

    /// Counts the next call, and answers whether it is to fail, which is counted too: its number is listed.
    pub fn fails_next(&mut self) -> bool
        ensures listed { result ≡ fails_next self.old }
        ensures counted { self.new ≡ after_call self.old }
        ensures later { self.old.faults ≤ self.new.faults }
        ensures risen { IsTrue result → Rose self.old.faults self.new.faults }
        ensures kept { IsFalse result → self.new.faults ≡ self.old.faults }
    {
        let is_listed = self.fails.as_slice().contains(&self.calls);
        self.calls = self.calls.saturating_add(1);
        if is_listed {
            self.faults = self.faults.saturating_add(1);
        }
        is_listed
    }
}
