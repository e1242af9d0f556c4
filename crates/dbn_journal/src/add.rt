//! Adding a record.

ghost use Rattle.std.specs.Prelude.{◌≡◌, ◌+◌, ◌^◌, ◌<◌, ◌≤◌, List, ℕ, Some, length, IfOk, OnOk, IsErrOf, IsTrue};
ghost use Rattle.std.specs.Option.{option_map};
ghost use Rattle.dbn_io.specs.Causes.{HasCause};
ghost use Rattle.dbn_io.specs.declared.trouble.Trouble.{Trouble};
ghost use Rattle.dbn_disk.specs.Disk.{Only, Keeps, LeavesOnly};
ghost use Rattle.dbn_journal.specs.Records.{records_from, behind, appended, AgreeUpTo, IsShutAt, IsBeforeOrAfter, StandsForEither};

use crate::gate::OPEN;
use crate::through::write_through;
use dbn_disk::Disk;
use dbn_io::Trouble;
use std::alloc::Global;

/// Adds a record with this body at the shut gate at `end`, and answers the place of the next gate. What stands behind the
/// gate is stable before the gate is opened, so a crash at any moment leaves a file without the record or with it, and
/// after `Ok` one with it. Where the records of the file from some gate on end at this one, a crash leaves those records,
/// or those and the new one.
///
/// `Failed` comes only where the disk's count of faults rose; after `Memory` the file stands for the records of before.
pub fn append<D: Disk>(alloc: Global, disk: &mut D, end: u64, body: &[u8]) -> Result<u64, Trouble>
    requires shut { (b : List ℕ) → (D.state disk.old).content ≡ Some b → IsTrue (D.state disk.old).honest → (c : List ℕ) → (D.state disk.old).image c → IsShutAt end c }
    requires size { length body.now < 2 ^ 32 }
    requires room { end + 6 + length body.now ≤ 2 ^ 62 }
    ensures end { IfOk result (λ next. next ≡ end + 5 + length body.now) }
    ensures value { OnOk result ((D.state disk.new).content ≡ option_map (appended end body.now) (D.state disk.old).content) }
    ensures durable { OnOk result ((b : List ℕ) → (D.state disk.old).content ≡ Some b → IsTrue (D.state disk.old).honest → Only (appended end body.now b) (D.state disk.new).image) }
    ensures any_moment { (b : List ℕ) → (D.state disk.old).content ≡ Some b → IsTrue (D.state disk.old).honest → LeavesOnly (D.state disk.old) (D.state disk.new) (IsBeforeOrAfter (D.state disk.old).image end body.now) }
    ensures stands { (b : List ℕ) → (D.state disk.old).content ≡ Some b → IsTrue (D.state disk.old).honest → AgreeUpTo end b (D.state disk.old).image
        → (first : ℕ) → (records_from first b).end ≡ end → LeavesOnly (D.state disk.old) (D.state disk.new) (StandsForEither first (records_from first b) body.now) }
    ensures keeps { Keeps (D.state disk.old) (D.state disk.new) }
    ensures cause { HasCause (D.state disk.old).faults (D.state disk.new).faults result }
{
    let rest = behind_gate(alloc, body)?;
    write_through(disk, end + 1, rest.as_slice())?;
    write_through(disk, end, &[OPEN])?;
    Ok(end + 5 + body.len() as u64)
}

// What stands behind the gate of a record: the length, the body and a shut gate.
fn behind_gate(alloc: Global, body: &[u8]) -> Result<Vec<u8>, Trouble>
    requires { length body.now < 2 ^ 32 }
    ensures bytes { IfOk result (λ bytes. bytes.items ≡ behind body.now) }
    ensures failed { IsErrOf result Trouble.Failed → ⊥ }
{
    let size = (body.len() as u32).to_be_bytes();
    let mut bytes = Vec::new(alloc);
    let filled = bytes.extend_from_slice(&size).is_ok()
        && bytes.extend_from_slice(body).is_ok()
        && bytes.push(0).is_ok();
    if filled {
        Ok(bytes)
    } else {
        Err(Trouble::Memory)
    }
}
