//! A write that is stable before the next one.

ghost use Rattle.std.specs.Prelude.{◌≡◌, ◌+◌, ◌^◌, ◌≤◌, List, ℕ, Some, length, OnOk, IsTrue};
ghost use Rattle.std.specs.Option.{option_map};
ghost use Rattle.dbn_io.specs.Causes.{HasCause};
ghost use Rattle.dbn_disk.specs.Disk.{written, Torn, Follows, Only, Keeps, LeavesOnly};

use dbn_disk::Disk;
use dbn_io::Trouble;

/// Writes `bytes` over what is held from `at` on, and past the end, where zeros fill a gap, and syncs. A crash at any
/// moment leaves an image of before, torn in the range of the write; after `Ok` it leaves what is held.
///
/// `Failed` comes only where the disk's count of faults rose, and leaves it open whether the bytes are held; after
/// `Memory` nothing changed.
pub fn write_through<D: Disk>(disk: &mut D, at: u64, bytes: &[u8]) -> Result<(), Trouble>
    requires { at + length bytes.now ≤ 2 ^ 62 }
    ensures value { OnOk result ((D.state disk.new).content ≡ option_map (written at bytes.now) (D.state disk.old).content) }
    ensures durable { OnOk result ((b : List ℕ) → IsTrue (D.state disk.old).honest → (D.state disk.new).content ≡ Some b → Only b (D.state disk.new).image) }
    ensures any_moment { IsTrue (D.state disk.old).honest → LeavesOnly (D.state disk.old) (D.state disk.new) (λ c. ((d : List ℕ) × (D.state disk.old).image d × Torn at (length bytes.now) d c)) }
    ensures now { IsTrue (D.state disk.old).honest → Follows (Torn at (length bytes.now)) (D.state disk.old).image (D.state disk.new).image }
    ensures keeps { Keeps (D.state disk.old) (D.state disk.new) }
    ensures cause { HasCause (D.state disk.old).faults (D.state disk.new).faults result }
{
    disk.write_at(at, bytes)?;
    disk.sync()?;
    Ok(())
}
