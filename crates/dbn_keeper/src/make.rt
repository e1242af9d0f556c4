//! Making the file of a store on a disk of which all is stable.

ghost use Rattle.std.specs.Prelude.{◌≡◌, ◌+◌, ◌^◌, ◌<◌, ◌≤◌, List, ℕ, Some, ◌∷◌, length, IfOk, OnOk, IsErrOf, IsTrue};
ghost use Rattle.dbn_io.specs.Causes.{HasCause};
ghost use Rattle.dbn_io.specs.declared.trouble.Trouble.{Trouble};
ghost use Rattle.dbn_disk.specs.Disk.{Only, Keeps, LeavesOnly};
ghost use Rattle.dbn_journal.specs.Records.{open_gate};
ghost use Rattle.dbn_keeper.specs.Creating.{IsMaking};
ghost use Rattle.dbn_keeper.specs.Files.{rest_of, file_of};

use crate::base::Base;
use dbn_disk::Disk;
use dbn_io::Trouble;
use dbn_journal::{close_first, fill, open_first};
use std::alloc::Global;

/// Makes a file of this generation and this base, of form two and without a record, on a disk of which all is stable. The
/// generation and the numbers of the base are at most 2^62. A crash at any moment leaves the file of before, one that
/// isn't open, or the new one; after `Ok` it leaves the new one.
///
/// `Failed` comes only where the disk's count of faults rose.
pub fn make_new<D: Disk>(
    alloc: Global,
    disk: &mut D,
    generation: u64,
    base: &Base,
) -> Result<(), Trouble>
    requires settled { (b : List ℕ) → (D.state disk.old).content ≡ Some b → IsTrue (D.state disk.old).honest → Only b (D.state disk.old).image }
    requires text { length base.now.text < 2 ^ 32 }
    ensures value { OnOk result ((b : List ℕ) → (D.state disk.old).content ≡ Some b → (D.state disk.new).content ≡ Some (file_of generation base.now)) }
    ensures durable { OnOk result ((b : List ℕ) → (D.state disk.old).content ≡ Some b → IsTrue (D.state disk.old).honest → Only (file_of generation base.now) (D.state disk.new).image) }
    ensures any_moment { (b : List ℕ) → (D.state disk.old).content ≡ Some b → IsTrue (D.state disk.old).honest → LeavesOnly (D.state disk.old) (D.state disk.new) (IsMaking b (file_of generation base.now)) }
    ensures keeps { Keeps (D.state disk.old) (D.state disk.new) }
    ensures cause { HasCause (D.state disk.old).faults (D.state disk.new).faults result }
{
    let rest = rest_bytes(alloc, generation, base)?;
    make(alloc, disk, rest.as_slice())?;
    Ok(())
}

// Makes a file of these bytes behind an open first one.
fn make<D: Disk>(alloc: Global, disk: &mut D, rest: &[u8]) -> Result<(), Trouble>
    requires settled { (b : List ℕ) → (D.state disk.old).content ≡ Some b → IsTrue (D.state disk.old).honest → Only b (D.state disk.old).image }
    requires room { 1 + length rest.now ≤ 2 ^ 62 }
    ensures value { OnOk result ((b : List ℕ) → (D.state disk.old).content ≡ Some b → (D.state disk.new).content ≡ Some (open_gate ∷ rest.now)) }
    ensures durable { OnOk result ((b : List ℕ) → (D.state disk.old).content ≡ Some b → IsTrue (D.state disk.old).honest → Only (open_gate ∷ rest.now) (D.state disk.new).image) }
    ensures any_moment { (b : List ℕ) → (D.state disk.old).content ≡ Some b → IsTrue (D.state disk.old).honest → LeavesOnly (D.state disk.old) (D.state disk.new) (IsMaking b (open_gate ∷ rest.now)) }
    ensures keeps { Keeps (D.state disk.old) (D.state disk.new) }
    ensures cause { HasCause (D.state disk.old).faults (D.state disk.new).faults result }
{
    close_first(alloc, disk)?;
    fill(alloc, disk, rest)?;
    open_first(alloc, disk)?;
    Ok(())
}

// All but the first byte of a new file.
fn rest_bytes(alloc: Global, generation: u64, base: &Base) -> Result<Vec<u8>, Trouble>
    requires { length base.now.text < 2 ^ 32 }
    ensures bytes { IfOk result (λ bytes. bytes.items ≡ rest_of generation base.now) }
    ensures failed { IsErrOf result Trouble.Failed → ⊥ }
{
    let text = base.text.as_slice();
    let mut bytes = Vec::new(alloc);
    let filled = bytes.extend_from_slice(b"DBN2").is_ok()
        && bytes.extend_from_slice(&generation.to_be_bytes()).is_ok()
        && bytes.extend_from_slice(&base.fired.to_be_bytes()).is_ok()
        && bytes.extend_from_slice(&base.next.to_be_bytes()).is_ok()
        && bytes
            .extend_from_slice(&(text.len() as u32).to_be_bytes())
            .is_ok()
        && bytes.extend_from_slice(text).is_ok()
        && bytes.push(0).is_ok();
    if filled {
        Ok(bytes)
    } else {
        Err(Trouble::Memory)
    }
}
