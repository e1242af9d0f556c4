//! What bytes are read from.

ghost use Rattle.std.specs.Prelude.{List, ℕ, Option};
ghost use Rattle.std.specs.Io.{ReadsAtMost};
ghost use Rattle.std.specs.Io.KnownBytes.{ReadConsumes};
ghost use Rattle.dbn_io.specs.Causes.{HasCause};
ghost use Rattle.dbn_model.specs.Content.{SameTold};

use crate::trouble::Trouble;

/// A source of bytes: the bytes left, where it tells them, and a count of faults that never falls.
pub trait Source {
    /// The bytes that are left, where they are told.
    ghost left: { Self → Option (List ℕ) };
    /// How many faults there were so far.
    ghost faults: { Self → ℕ };

    /// Moves the first bytes left into the front of `into`, and answers how many: none only at the end, or where
    /// `into` is empty. `Failed` comes only where the count of faults rose; after an error the bytes left are as before.
    fn read(&mut self, into: &mut [u8]) -> Result<usize, Trouble>
        ensures bound { ReadsAtMost result into.new }
        ensures bytes { ReadConsumes (left self.old) (left self.new) result into.new }
        ensures told { SameTold (left self.old) (left self.new) }
        ensures cause { HasCause (faults self.old) (faults self.new) result };
}
