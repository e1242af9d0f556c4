//! A disk whose every call fails.

ghost use Rattle.std.specs.Prelude.{◌≡◌, ◌≤◌, ℕ};
ghost use Rattle.dbn_io.specs.declared.trouble.Trouble.{Trouble};
ghost use Rattle.dbn_model.specs.Causes.{Rose};

use crate::device::Disk;
use dbn_io::{Faults, Trouble};
use std::marker::Model;

/// A disk whose every call answers `Failed` and raises its count of faults. It tells nothing and isn't honest.
#[derive(Drop)]
pub struct ClosedDisk {
    faults: Faults,
}

impl Model for ClosedDisk {
    ghost Value = { ℕ };

    ghost view = { λ disk. disk.faults };
}

impl ClosedDisk {
    /// A closed disk that had no fault so far.
    pub fn new() -> ClosedDisk
        ensures { result ≡ 0 }
    {
        ClosedDisk {
            faults: Faults::new(),
        }
    }
}

impl Disk for ClosedDisk {
    ghost use Rattle.dbn_disk.specs.Untold.{untold_state};

    ghost state = { λ faults. untold_state faults };

    ghost sound = { λ faults honest. cc };

    fn len(&mut self) -> Result<u64, Trouble>
        ensures closed { result ≡ Err Trouble.Failed }
        ensures later { self.old ≤ self.new }
        ensures rose { Rose self.old self.new }
    {
        Err(self.faults.fail())
    }

    fn read(&mut self, at: u64, into: &mut [u8]) -> Result<usize, Trouble>
        ensures closed { result ≡ Err Trouble.Failed }
        ensures later { self.old ≤ self.new }
        ensures rose { Rose self.old self.new }
    {
        Err(self.faults.fail())
    }

    fn write_at(&mut self, at: u64, bytes: &[u8]) -> Result<(), Trouble>
        ensures closed { result ≡ Err Trouble.Failed }
        ensures later { self.old ≤ self.new }
        ensures rose { Rose self.old self.new }
    {
        Err(self.faults.fail())
    }

    fn cut(&mut self, to: u64) -> Result<(), Trouble>
        ensures closed { result ≡ Err Trouble.Failed }
        ensures later { self.old ≤ self.new }
        ensures rose { Rose self.old self.new }
    {
        Err(self.faults.fail())
    }

    fn sync(&mut self) -> Result<(), Trouble>
        ensures closed { result ≡ Err Trouble.Failed }
        ensures later { self.old ≤ self.new }
        ensures rose { Rose self.old self.new }
    {
        Err(self.faults.fail())
    }
}
