//! Why a part of a body isn't read.

ghost use Rattle.std.specs.Prelude.{◌≡◌};
ghost use Rattle.dbn_codec.specs.declared.unread.Unread.TheVariants.{Memory};

use std::alloc::{AllocError, AllocFailed};

/// Why a part of a body isn't read.
#[derive(Debug, Drop)]
pub enum Unread {
    /// The bytes are no such part.
    NoBody,
    /// Memory was refused.
    Memory,
}

impl From<AllocError> for Unread {
    ghost from_gives = { λ _ e. e ≡ Memory };

    fn from(_error: AllocError) -> Unread {
        Unread::Memory
    }
}

impl<T: Drop> From<AllocFailed<T>> for Unread {
    ghost from_gives = { λ _ e. e ≡ Memory };

    fn from(_error: AllocFailed<T>) -> Unread {
        Unread::Memory
    }
}
