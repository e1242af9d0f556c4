//! Why a store was not opened.

ghost use Rattle.std.specs.Prelude.{◌≡◌};
ghost use Rattle.dbn_store.specs.declared.fault.StoreFault.TheVariants.{Memory};

use std::alloc::AllocError;

/// Why a store was not opened.
#[derive(Clone, Copy, Debug, PartialEq, Eq)]
pub enum StoreFault {
    /// The text of the base is no accepted net, or the next id of the base is below the first one of the text.
    NotAStore,
    /// At the gate of this place the file ends inside the record, or what stands there is no body of the net, or its group is
    /// refused.
    Damaged(u64),
    /// The device failed: a count of faults rose in this call.
    Failed,
    /// Memory was wanting.
    Memory,
}

impl From<AllocError> for StoreFault {
    ghost from_gives = { λ _ fault. fault ≡ Memory };

    fn from(_error: AllocError) -> StoreFault {
        StoreFault::Memory
    }
}
