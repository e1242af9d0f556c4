//! Why a command was not served.

ghost use Rattle.std.specs.Prelude.{◌≡◌};
ghost use Rattle.dbn_engine.specs.declared.fault.ServeFault.TheVariants.{Memory};

use dbn_io::Trouble;
use std::alloc::AllocError;

/// Why a command was not served to its end.
#[derive(Clone, Copy, Debug, PartialEq, Eq)]
pub enum ServeFault {
    /// The sink failed: its count of faults rose in this call.
    Write,
    /// A disk failed: a count of faults rose in this call.
    Disk,
    /// Memory was wanting.
    Memory,
}

impl From<AllocError> for ServeFault {
    ghost from_gives = { λ _ fault. fault ≡ Memory };

    fn from(_error: AllocError) -> ServeFault {
        ServeFault::Memory
    }
}

/// The trouble of a keeper.
impl From<Trouble> for ServeFault {
    ghost use Rattle.dbn_engine.specs.Serving.{disk_fault};

    ghost from_gives = { λ trouble fault. fault ≡ disk_fault trouble };

    fn from(trouble: Trouble) -> ServeFault {
        match trouble {
            Trouble::Failed => ServeFault::Disk,
            Trouble::Memory => ServeFault::Memory,
        }
    }
}
