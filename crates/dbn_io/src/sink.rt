//! What bytes are written to.

ghost use Rattle.std.specs.Prelude.{List, ℕ, Option, ◌<◌, length, IfOk};
ghost use Rattle.std.specs.Io.{WritesAtMost};
ghost use Rattle.std.specs.Io.KnownBytes.{WriteAppends};
ghost use Rattle.dbn_io.specs.Causes.{HasCause};
ghost use Rattle.dbn_model.specs.Content.{SameTold};

use crate::trouble::Trouble;

/// A sink of bytes: the bytes taken, where it tells them, and a count of faults that never falls.
pub trait Sink {
    /// The bytes that were taken so far, where they are told.
    ghost taken: { Self → Option (List ℕ) };
    /// How many faults there were so far.
    ghost faults: { Self → ℕ };

    /// Takes the first bytes of `bytes`, and answers how many: at least one, unless `bytes` is empty. `Failed` comes
    /// only where the count of faults rose; after an error nothing was taken.
    fn write(&mut self, bytes: &[u8]) -> Result<usize, Trouble>
        ensures bound { WritesAtMost result bytes.now }
        ensures some { IfOk result (λ count. 0 < length bytes.now → 0 < count) }
        ensures bytes { WriteAppends (taken self.old) (taken self.new) result bytes.now }
        ensures told { SameTold (taken self.old) (taken self.new) }
        ensures cause { HasCause (faults self.old) (faults self.new) result };
}
