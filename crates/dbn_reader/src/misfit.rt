//! Why nothing was made of an S-expression.

use std::alloc::{AllocError, AllocFailed};

/// Why nothing was made of an S-expression, or of a name.
#[derive(Debug, Clone, Copy, PartialEq, Eq, Drop)]
pub(crate) enum Misfit {
    /// It has another shape, or is not known.
    Shape,
    /// There was no memory.
    Memory,
}

impl From<AllocError> for Misfit {
    ghost use Rattle.std.specs.Prelude.{◌≡◌};
    ghost use Rattle.dbn_reader.specs.declared.misfit.Misfit.{Misfit as Miss};
    ghost use Rattle.dbn_reader.specs.declared.misfit.Misfit.TheVariants.{Memory};

    ghost from_gives = { λ _ f. f ≡ Memory };

    fn from(_error: AllocError) -> Misfit {
        Misfit::Memory
    }
}

impl<T: Drop> From<AllocFailed<T>> for Misfit {
    ghost use Rattle.std.specs.Prelude.{◌≡◌};
    ghost use Rattle.dbn_reader.specs.declared.misfit.Misfit.{Misfit as Miss};
    ghost use Rattle.dbn_reader.specs.declared.misfit.Misfit.TheVariants.{Memory};

    ghost from_gives = { λ _ f. f ≡ Memory };

    fn from(_error: AllocFailed<T>) -> Misfit {
        Misfit::Memory
    }
}
