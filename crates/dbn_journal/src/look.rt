//! Looking at a gate.

ghost use Rattle.std.specs.Prelude.{◌≡◌, ◌+◌, ◌^◌, ◌<◌, ◌≤◌, List, ℕ, Some, length, take, drop, IfOk, IsErrOf, IsTrue};
ghost use Rattle.dbn_io.specs.Causes.{HasCause};
ghost use Rattle.dbn_io.specs.declared.trouble.Trouble.{Trouble};
ghost use Rattle.dbn_disk.specs.Disk.{Still, Keeps};
ghost use Rattle.dbn_journal.specs.Heads.{gate_of, IsNext};
ghost use Rattle.dbn_journal.specs.Records.{gate_in, body_in, records_from};
ghost use Rattle.dbn_journal.specs.Walk.{records_by};

use crate::gate::Gate;
use crate::head::{Head, head_of};
use dbn_disk::Disk;
use dbn_io::{Bytes, Trouble};
use std::alloc::Global;

/// What stands at the gate at `place`: a record with its body and the place of the next gate, a shut gate, or one that is
/// torn. So the records from this place on are none, or that one and those from the next gate on. Where a disk gives less
/// than it said, the gate is torn.
///
/// `Failed` comes only where the disk's count of faults rose. Nothing changes but that count.
pub fn gate_at<D: Disk>(alloc: Global, disk: &mut D, place: u64) -> Result<Gate, Trouble>
    ensures gate { (b : List ℕ) → (D.state disk.old).content ≡ Some b → IfOk result (λ gate. gate ≡ gate_of place (gate_in (drop place b))) }
    ensures walk { (b : List ℕ) → (D.state disk.old).content ≡ Some b → IfOk result (λ gate. records_from place b ≡ records_by place gate b) }
    ensures next { IfOk result (λ gate. IsNext place gate) }
    ensures same { (D.state disk.new).content ≡ (D.state disk.old).content }
    ensures still { IsTrue (D.state disk.old).honest → Still (D.state disk.old) (D.state disk.new) }
    ensures keeps { Keeps (D.state disk.old) (D.state disk.new) }
    ensures cause { HasCause (D.state disk.old).faults (D.state disk.new).faults result }
{
    let mut head = [0; 5];
    let count = disk.read(place, &mut head)?;
    match head_of(&head[..count]) {
        Head::Shut => Ok(Gate::Shut),
        Head::Held(size) => read_body(alloc, disk, place, size),
        Head::Torn => Ok(Gate::Torn),
    }
}

// The body of so many bytes behind the open gate at `place`, where a gate stands behind it. The length of the file is
// tested before memory is taken.
fn read_body<D: Disk>(alloc: Global, disk: &mut D, place: u64, size: u32) -> Result<Gate, Trouble>
    ensures gate { (b : List ℕ) → (D.state disk.old).content ≡ Some b → IfOk result (λ gate. gate ≡ gate_of place (body_in size (drop (place + 5) b))) }
    ensures next { IfOk result (λ gate. IsNext place gate) }
    ensures same { (D.state disk.new).content ≡ (D.state disk.old).content }
    ensures still { IsTrue (D.state disk.old).honest → Still (D.state disk.old) (D.state disk.new) }
    ensures keeps { Keeps (D.state disk.old) (D.state disk.new) }
    ensures cause { HasCause (D.state disk.old).faults (D.state disk.new).faults result }
{
    let len = disk.len()?;
    if len <= place || len - place <= size as u64 + 5 {
        return Ok(Gate::Torn);
    }
    let body = read_some(alloc, disk, place + 5, size as usize)?;
    if body.len() < size as usize {
        return Ok(Gate::Torn);
    }
    Ok(Gate::Held {
        body: Bytes::from_vec(body),
        after: place + 5 + size as u64,
    })
}

/// The bytes from `at` on, as many as there are, at most `most`.
///
/// `Failed` comes only where the disk's count of faults rose. Nothing changes but that count.
pub fn read_some<D: Disk>(
    alloc: Global,
    disk: &mut D,
    at: u64,
    most: usize,
) -> Result<Vec<u8>, Trouble>
    ensures bytes { (b : List ℕ) → (D.state disk.old).content ≡ Some b → IfOk result (λ bytes. bytes.items ≡ take most (drop at b)) }
    ensures most { IfOk result (λ bytes. length bytes.items ≤ most) }
    ensures same { (D.state disk.new).content ≡ (D.state disk.old).content }
    ensures still { IsTrue (D.state disk.old).honest → Still (D.state disk.old) (D.state disk.new) }
    ensures keeps { Keeps (D.state disk.old) (D.state disk.new) }
    ensures cause { HasCause (D.state disk.old).faults (D.state disk.new).faults result }
{
    let mut bytes = zeros(alloc, most)?;
    let count = disk.read(at, &mut bytes)?;
    bytes.truncate(count);
    Ok(bytes)
}

// So many zeros.
fn zeros(alloc: Global, count: usize) -> Result<Vec<u8>, Trouble>
    ensures len { IfOk result (λ bytes. length bytes.items ≡ count) }
    ensures failed { IsErrOf result Trouble.Failed → ⊥ }
{
    let mut bytes = Vec::new(alloc);
    match bytes.resize(count, 0) {
        Ok(()) => Ok(bytes),
        Err(_) => Err(Trouble::Memory),
    }
}
