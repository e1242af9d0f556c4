//! Making a file: its first byte is shut, then the rest is written, then its first byte is opened.

ghost use Rattle.std.specs.Prelude.{◌≡◌, ◌≢◌, ◌+◌, ◌^◌, ◌<◌, ◌≤◌, List, ℕ, Some, length, IfOk, OnOk, IsTrue};
ghost use Rattle.std.specs.Option.{option_map};
ghost use Rattle.dbn_io.specs.Causes.{HasCause};
ghost use Rattle.dbn_disk.specs.Disk.{Only, Keeps, LeavesOnly, Still};
ghost use Rattle.dbn_journal.specs.Making.{has_shut_first, closed, filled, opened, IsClosing, IsOpening, IsSameOrNotOpen};
ghost use Rattle.dbn_journal.specs.Records.{IsShutAt, open_gate};

use crate::gate::OPEN;
use crate::through::write_through;
use dbn_disk::Disk;
use dbn_io::Trouble;
use std::alloc::Global;

/// Shuts the first byte of a file that is empty or open; of another one nothing is written, with every answer. A crash at
/// any moment leaves a file of before, but for its first byte; where the file was stable, it leaves the same file or one
/// that isn't open. After `Ok` the first byte is shut and stable.
///
/// `Failed` comes only where the disk's count of faults rose. No memory is taken, so `Memory` comes only from the disk.
pub fn close_first<D: Disk>(_alloc: Global, disk: &mut D) -> Result<(), Trouble>
    requires { (b : List ℕ) → (D.state disk.old).content ≡ Some b → IsTrue (D.state disk.old).honest → IsShutAt 0 b → (c : List ℕ) → (D.state disk.old).image c → IsShutAt 0 c }
    ensures value { OnOk result ((D.state disk.new).content ≡ option_map closed (D.state disk.old).content) }
    ensures shut { OnOk result ((b : List ℕ) → (D.state disk.old).content ≡ Some b → IsTrue (D.state disk.old).honest → (c : List ℕ) → (D.state disk.new).image c → IsShutAt 0 c) }
    ensures any_moment { (b : List ℕ) → (D.state disk.old).content ≡ Some b → IsTrue (D.state disk.old).honest → LeavesOnly (D.state disk.old) (D.state disk.new) (IsClosing (D.state disk.old).image) }
    ensures settled { (b : List ℕ) → (D.state disk.old).content ≡ Some b → IsTrue (D.state disk.old).honest → Only b (D.state disk.old).image → LeavesOnly (D.state disk.old) (D.state disk.new) (IsSameOrNotOpen b) }
    ensures kept { (b : List ℕ) → (D.state disk.old).content ≡ Some b → IsTrue (D.state disk.old).honest → IsTrue (has_shut_first b) → Still (D.state disk.old) (D.state disk.new) }
    ensures same { (b : List ℕ) → (D.state disk.old).content ≡ Some b → IsTrue (has_shut_first b) → (D.state disk.new).content ≡ (D.state disk.old).content }
    ensures keeps { Keeps (D.state disk.old) (D.state disk.new) }
    ensures cause { HasCause (D.state disk.old).faults (D.state disk.new).faults result }
{
    if has_shut_first(disk)? {
        return Ok(());
    }
    write_through(disk, 0, &[0])?;
    Ok(())
}

// Whether there is a first byte that is shut.
fn has_shut_first<D: Disk>(disk: &mut D) -> Result<bool, Trouble>
    ensures first { (b : List ℕ) → (D.state disk.old).content ≡ Some b → IfOk result (λ shut. shut ≡ has_shut_first b) }
    ensures same { (D.state disk.new).content ≡ (D.state disk.old).content }
    ensures still { IsTrue (D.state disk.old).honest → Still (D.state disk.old) (D.state disk.new) }
    ensures keeps { Keeps (D.state disk.old) (D.state disk.new) }
    ensures cause { HasCause (D.state disk.old).faults (D.state disk.new).faults result }
{
    let mut first = [0; 1];
    let count = disk.read(0, &mut first)?;
    Ok(is_shut(&first[..count]))
}

// Whether the first of these bytes is shut.
fn is_shut(bytes: &[u8]) -> bool
    ensures { result ≡ has_shut_first bytes.now }
{
    match bytes {
        [] => false,
        [first, ..] => *first != OPEN,
    }
}

/// Writes all but the first byte of a file whose first byte is shut. A crash at any moment leaves a file whose first byte
/// is shut; after `Ok` it leaves what is held.
///
/// `Failed` comes only where the disk's count of faults rose. No memory is taken, so `Memory` comes only from the disk.
pub fn fill<D: Disk>(_alloc: Global, disk: &mut D, rest: &[u8]) -> Result<(), Trouble>
    requires shut { (b : List ℕ) → (D.state disk.old).content ≡ Some b → IsTrue (D.state disk.old).honest → (c : List ℕ) → (D.state disk.old).image c → IsShutAt 0 c }
    requires room { 1 + length rest.now ≤ 2 ^ 62 }
    ensures value { OnOk result ((b : List ℕ) → (D.state disk.old).content ≡ Some b → 0 < length b → (D.state disk.new).content ≡ Some (filled rest.now b)) }
    ensures durable { OnOk result ((b : List ℕ) → (D.state disk.old).content ≡ Some b → IsTrue (D.state disk.old).honest → Only (filled rest.now b) (D.state disk.new).image) }
    ensures any_moment { (b : List ℕ) → (D.state disk.old).content ≡ Some b → IsTrue (D.state disk.old).honest → LeavesOnly (D.state disk.old) (D.state disk.new) (IsShutAt 0) }
    ensures keeps { Keeps (D.state disk.old) (D.state disk.new) }
    ensures cause { HasCause (D.state disk.old).faults (D.state disk.new).faults result }
{
    disk.cut(1)?;
    write_through(disk, 1, rest)?;
    Ok(())
}

/// Opens the first byte of a file that is stable. A crash at any moment leaves the same file, but for its first byte,
/// which may be any; after `Ok` it leaves the open file.
///
/// `Failed` comes only where the disk's count of faults rose. No memory is taken, so `Memory` comes only from the disk.
pub fn open_first<D: Disk>(_alloc: Global, disk: &mut D) -> Result<(), Trouble>
    requires { (b : List ℕ) → (D.state disk.old).content ≡ Some b → IsTrue (D.state disk.old).honest → IsShutAt 0 b × Only b (D.state disk.old).image }
    ensures value { OnOk result ((D.state disk.new).content ≡ option_map opened (D.state disk.old).content) }
    ensures durable { OnOk result ((b : List ℕ) → (D.state disk.old).content ≡ Some b → IsTrue (D.state disk.old).honest → Only (opened b) (D.state disk.new).image) }
    ensures any_moment { (b : List ℕ) → (D.state disk.old).content ≡ Some b → IsTrue (D.state disk.old).honest → LeavesOnly (D.state disk.old) (D.state disk.new) (IsOpening b) }
    ensures keeps { Keeps (D.state disk.old) (D.state disk.new) }
    ensures cause { HasCause (D.state disk.old).faults (D.state disk.new).faults result }
{
    write_through(disk, 0, &[OPEN])?;
    Ok(())
}
