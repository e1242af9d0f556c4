//! A count of faults.

ghost use Rattle.std.specs.Prelude.{◌≡◌, ◌≤◌, ℕ};
ghost use Rattle.dbn_io.specs.Memory.{one_more};
ghost use Rattle.dbn_model.specs.Causes.{Rose};

use crate::trouble::Trouble;
use std::marker::Model;

/// How many faults there were so far, from 0 to 2^64 - 1, where the count stays.
#[derive(Debug, Drop)]
pub struct Faults {
    count: u64,
}

impl Model for Faults {
    ghost Value = { ℕ };

    ghost view = { λ f. f.count };
}

impl Faults {
    /// No fault so far.
    pub fn new() -> Faults
        ensures { result ≡ 0 }
    {
        Faults { count: 0 }
    }

    /// Counts one more fault, up to the last value of a u64, and answers `Failed`.
    pub fn fail(&mut self) -> Trouble
        ensures answer { result ≡ Trouble.Failed }
        ensures counted { self.new ≡ one_more self.old }
        ensures later { self.old ≤ self.new }
        ensures rose { Rose self.old self.new }
    {
        self.count = self.count.saturating_add(1);
        Trouble::Failed
    }
}
