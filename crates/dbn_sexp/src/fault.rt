//! Why a text isn't read.

ghost use Rattle.std.specs.Prelude.{◌≡◌};
ghost use Rattle.dbn_sexp.specs.declared.fault.SexpFault.TheVariants.{Memory};

use std::alloc::{AllocError, AllocFailed};

/// Which fault of the text is the first.
#[derive(Debug, Clone, Copy, PartialEq, Eq, Drop)]
pub enum SexpKind {
    /// The text ends inside a list.
    Unclosed,
    /// A closing parenthesis stands where no list is open.
    Unopened,
    /// A word is no name, operator, int or id, or a text isn't spelled as a value.
    BadToken,
    /// A list would be inside too many others.
    Deep,
}

/// Why a text isn't read.
#[derive(Debug, Clone, Copy, PartialEq, Eq, Drop)]
pub enum SexpFault {
    /// The first fault of the text, and its line.
    Bad {
        /// The line of the fault, counted from 1.
        line: u64,
        /// Which fault it is.
        kind: SexpKind,
    },
    /// There was no memory.
    Memory,
}

impl From<AllocError> for SexpFault {
    ghost from_gives = { λ _ e. e ≡ Memory };

    fn from(_: AllocError) -> SexpFault {
        SexpFault::Memory
    }
}
