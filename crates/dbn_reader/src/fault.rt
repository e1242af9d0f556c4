//! Why a net text isn't read.

use dbn_net::NetKind;
use std::alloc::{AllocError, AllocFailed};

/// Why a net text isn't read.
#[derive(Debug, Clone, Copy, PartialEq, Eq, Drop)]
pub enum NetFault {
    /// The first fault of the text.
    Bad {
        /// The line of the fault, counted from 1.
        line: u64,
        /// What is wrong there.
        kind: NetKind,
    },
    /// There was no memory.
    Memory,
}

impl From<AllocError> for NetFault {
    ghost use Rattle.std.specs.Prelude.{◌≡◌};
    ghost use Rattle.dbn_reader.specs.declared.fault.NetFault.{NetFault as Fault};
    ghost use Rattle.dbn_reader.specs.declared.fault.NetFault.TheVariants.{Memory};

    ghost from_gives = { λ _ f. f ≡ Memory };

    fn from(_error: AllocError) -> NetFault {
        NetFault::Memory
    }
}

impl<T: Drop> From<AllocFailed<T>> for NetFault {
    ghost use Rattle.std.specs.Prelude.{◌≡◌};
    ghost use Rattle.dbn_reader.specs.declared.fault.NetFault.{NetFault as Fault};
    ghost use Rattle.dbn_reader.specs.declared.fault.NetFault.TheVariants.{Memory};

    ghost from_gives = { λ _ f. f ≡ Memory };

    fn from(_error: AllocFailed<T>) -> NetFault {
        NetFault::Memory
    }
}
