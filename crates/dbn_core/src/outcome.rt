//! What becomes of firings and of groups of firings.

ghost use Rattle.std.specs.Prelude.{◌≡◌};
ghost use Rattle.dbn_core.specs.declared.outcome.FireFault.TheVariants.{Memory};
ghost use Rattle.dbn_core.specs.declared.outcome.GroupFault.TheVariants.{Memory as NoMemory};

use sqlite_items::Items;
use std::alloc::{AllocError, AllocFailed};

/// What became of a firing that was not refused.
#[derive(Debug, Clone, Copy, PartialEq, Eq, Drop)]
pub enum Outcome {
    /// There is no action, or what it made of the facts is consistent and was taken.
    Committed,
    /// What the action made of the facts is not consistent, and the facts are as before.
    RolledBack,
}

/// A firing that was not refused.
#[derive(Debug, Clone, Copy, PartialEq, Eq, Drop)]
pub struct Fired {
    pub outcome: Outcome,
    /// The number of the next id before the firing, which is that of the first fresh id where there is one. At most 2^62.
    pub first: u64,
    /// How many fresh ids were drawn, from 0.
    pub many: u64,
}

/// The firings of a group, one for each member in its place.
pub type FiredList = Items<Fired>;

/// Why a firing is refused: the first of these that applies.
#[derive(Debug, Clone, Copy, PartialEq, Eq, Drop)]
pub enum Refusal {
    /// The values of the bound variables do not enable the transition.
    Disabled,
    /// The value of an asked variable is an id that isn't below the next one.
    UnknownId,
    /// The numbers of the fresh ids would pass 2^62.
    FreshEnd,
    /// There were 2^62 firings.
    FiringEnd,
    /// A count would pass 4,294,967,295 in this place, which is the first such one in order of declaration.
    CountLimit(usize),
}

/// Why a transition was not fired.
#[derive(Debug, Clone, Copy, PartialEq, Eq, Drop)]
pub enum FireFault {
    Refused(Refusal),
    /// Want of memory.
    Memory,
}

impl From<AllocError> for FireFault {
    ghost from_gives = { λ _ e. e ≡ Memory };

    fn from(_error: AllocError) -> FireFault {
        FireFault::Memory
    }
}

impl<T: Drop> From<AllocFailed<T>> for FireFault {
    ghost from_gives = { λ _ e. e ≡ Memory };

    fn from(_error: AllocFailed<T>) -> FireFault {
        FireFault::Memory
    }
}

/// Why a group was not fired.
#[derive(Debug, Clone, Copy, PartialEq, Eq, Drop)]
pub enum GroupFault {
    /// The first member that is refused after those before it, counted from 0, with the reason.
    Refused { member: usize, why: Refusal },
    /// Want of memory.
    Memory,
}

impl From<AllocError> for GroupFault {
    ghost from_gives = { λ _ e. e ≡ NoMemory };

    fn from(_error: AllocError) -> GroupFault {
        GroupFault::Memory
    }
}

impl<T: Drop> From<AllocFailed<T>> for GroupFault {
    ghost from_gives = { λ _ e. e ≡ NoMemory };

    fn from(_error: AllocFailed<T>) -> GroupFault {
        GroupFault::Memory
    }
}
