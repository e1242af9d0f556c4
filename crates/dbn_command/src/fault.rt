ghost use Rattle.std.specs.Prelude.{◌≡◌};
ghost use Rattle.dbn_command.specs.declared.fault.LineFault.TheVariants.{Memory};

use dbn_value::Name;
use std::alloc::{AllocError, AllocFailed};

/// Why a line gives no command.
#[derive(Debug, Drop)]
pub enum LineFault {
    /// It is in no command's form.
    Line,
    /// The net has no transition, place or relation of this name, as the command asks. In a group it is the first such name.
    Unknown(Name),
    /// The number or the types of the values differ from those of the transition's bound and then asked variables.
    Shape,
    /// Memory was refused.
    Memory,
}

impl From<AllocError> for LineFault {
    ghost from_gives = { λ _ f. f ≡ Memory };

    fn from(_error: AllocError) -> LineFault {
        LineFault::Memory
    }
}

impl<T: Drop> From<AllocFailed<T>> for LineFault {
    ghost from_gives = { λ _ f. f ≡ Memory };

    fn from(_error: AllocFailed<T>) -> LineFault {
        LineFault::Memory
    }
}
