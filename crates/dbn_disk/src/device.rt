//! What bytes are kept on.

ghost use Rattle.std.specs.Prelude.{◌≡◌, ◌⊎◌, ◌+◌, ◌^◌, ◌≤◌, List, ℕ, Some, length, take, IfOk, OnOk, IsErrOf, IsTrue};
ghost use Rattle.std.specs.Option.{option_map};
ghost use Rattle.std.specs.Io.{ReadsAtMost};
ghost use Rattle.dbn_io.specs.Causes.{HasCause};
ghost use Rattle.dbn_io.specs.declared.trouble.Trouble.{Trouble};
ghost use Rattle.dbn_disk.specs.Disk.{DiskState, ReadsFrom, written, Keeps, Torn, Cut, Follows, Only, Still, Elapses, IsSound};

use dbn_io::Trouble;

/// A disk: the bytes held, where it tells them, what a crash may leave of them, a clock, whether it is honest, and a
/// count of faults. Nothing is said of the images of a disk that isn't honest.
pub trait Disk {
    /// All that it means at this moment.
    ghost state: { Self → DiskState };

    /// How many bytes it holds. `Failed` comes only where the count of faults rose; nothing changes but that count.
    fn len(&mut self) -> Result<u64, Trouble>
        ensures length { (b : List ℕ) → (state self.old).content ≡ Some b → IfOk result (λ count. count ≡ length b) }
        ensures same { (state self.new).content ≡ (state self.old).content }
        ensures still { IsTrue (state self.old).honest → Still (state self.old) (state self.new) }
        ensures keeps { Keeps (state self.old) (state self.new) }
        ensures cause { HasCause (state self.old).faults (state self.new).faults result };

    /// Reads into the front of `into` the bytes from `at` on, as many as there are, at most the buffer, and answers how
    /// many. `Failed` comes only where the count of faults rose; nothing changes but that count.
    fn read(&mut self, at: u64, into: &mut [u8]) -> Result<usize, Trouble>
        ensures bound { ReadsAtMost result into.new }
        ensures bytes { (b : List ℕ) → (state self.old).content ≡ Some b → IfOk result (λ count. ReadsFrom at count into.new b) }
        ensures same { (state self.new).content ≡ (state self.old).content }
        ensures still { IsTrue (state self.old).honest → Still (state self.old) (state self.new) }
        ensures keeps { Keeps (state self.old) (state self.new) }
        ensures cause { HasCause (state self.old).faults (state self.new).faults result };

    /// Writes over what is held from `at` on, and past the end, where zeros fill a gap. Until a `sync` a crash may leave
    /// any bytes in the range. `Failed` comes only where the count of faults rose, and leaves it open whether the bytes
    /// are held. After `Memory` the bytes held are as before.
    fn write_at(&mut self, at: u64, bytes: &[u8]) -> Result<(), Trouble>
        requires { at + length bytes.now ≤ 2 ^ 62 }
        ensures value { OnOk result ((state self.new).content ≡ option_map (written at bytes.now) (state self.old).content) }
        ensures untouched { IsErrOf result Trouble.Memory → IsTrue (state self.old).honest → Still (state self.old) (state self.new) }
        ensures memory { IsErrOf result Trouble.Memory → (state self.new).content ≡ (state self.old).content }
        ensures crash { IsTrue (state self.old).honest → Follows (Torn at (length bytes.now)) (state self.old).image (state self.new).image }
        ensures time { IsTrue (state self.old).honest → Elapses (state self.old) (state self.new) }
        ensures keeps { Keeps (state self.old) (state self.new) }
        ensures cause { HasCause (state self.old).faults (state self.new).faults result };

    /// Drops what is held from `to` on; at or past the end nothing changes. Until a `sync` a crash may leave any length
    /// between. `Failed` comes only where the count of faults rose, and leaves it open whether the bytes are held. After
    /// `Memory` the bytes held are as before.
    fn cut(&mut self, to: u64) -> Result<(), Trouble>
        ensures value { OnOk result ((state self.new).content ≡ option_map (take to) (state self.old).content) }
        ensures untouched { IsErrOf result Trouble.Memory → IsTrue (state self.old).honest → Still (state self.old) (state self.new) }
        ensures memory { IsErrOf result Trouble.Memory → (state self.new).content ≡ (state self.old).content }
        ensures crash { IsTrue (state self.old).honest → Follows (Cut to) (state self.old).image (state self.new).image }
        ensures time { IsTrue (state self.old).honest → Elapses (state self.old) (state self.new) }
        ensures keeps { Keeps (state self.old) (state self.new) }
        ensures cause { HasCause (state self.old).faults (state self.new).faults result };

    /// After `Ok` a crash leaves the bytes held. `Failed` comes only where the count of faults rose; no other error
    /// comes. The bytes held are as before, with every answer.
    fn sync(&mut self) -> Result<(), Trouble>
        ensures durable { OnOk result ((b : List ℕ) → IsTrue (state self.old).honest → (state self.old).content ≡ Some b → Only b (state self.new).image) }
        ensures same { (state self.new).content ≡ (state self.old).content }
        ensures crash { IsTrue (state self.old).honest → (c : List ℕ) → (state self.new).image c → (state self.old).image c }
        ensures time { IsTrue (state self.old).honest → Elapses (state self.old) (state self.new) }
        ensures keeps { Keeps (state self.old) (state self.new) }
        ensures cause { HasCause (state self.old).faults (state self.new).faults result }
        ensures undone { IsErrOf result Trouble.Failed → IsTrue (state self.old).honest → Still (state self.old) (state self.new) }
        ensures memory { IsErrOf result Trouble.Memory → ⊥ };

    /// An honest disk keeps the law.
    ghost sound: { (disk : Self) → IsTrue (state disk).honest → IsSound (state disk) };
}
