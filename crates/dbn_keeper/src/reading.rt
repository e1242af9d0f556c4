//! What a file says: by its first bytes, and the base of one that is chosen.

ghost use Rattle.std.specs.Prelude.{◌≡◌, ◌^◌, ◌<◌, ◌≤◌, List, ℕ, Some, [], length, take, drop, IfOk, OnOk, IsErrOf, IsTrue};
ghost use Rattle.dbn_io.specs.Causes.{HasCause};
ghost use Rattle.dbn_io.specs.declared.trouble.Trouble.{Trouble};
ghost use Rattle.dbn_disk.specs.Disk.{Only, Keeps, LeavesOnly, Still};
ghost use Rattle.dbn_keeper.specs.Files.{opening_of};
ghost use Rattle.dbn_keeper.specs.Reading.{IsRanged, IsShort, base_found};

use crate::base::Base;
use crate::header::{numbers_of, opening};
use crate::opening::Opening;
use dbn_disk::Disk;
use dbn_io::{Bytes, Trouble};
use dbn_journal::read_some;
use std::alloc::Global;

/// Syncs the file, and answers what it says by its first thirteen bytes. After `Ok` a crash leaves what is held.
///
/// `Failed` comes only where the disk's count of faults rose. What is held stays, and at every moment each image was one
/// before, with every answer.
pub fn settle<D: Disk>(disk: &mut D) -> Result<Opening, Trouble>
    ensures range { IfOk result (λ opening. IsRanged opening) }
    ensures opening { (b : List ℕ) → (D.state disk.old).content ≡ Some b → IfOk result (λ opening. opening ≡ opening_of b) }
    ensures settled { OnOk result ((b : List ℕ) → (D.state disk.old).content ≡ Some b → IsTrue (D.state disk.old).honest → Only b (D.state disk.new).image) }
    ensures same { (D.state disk.new).content ≡ (D.state disk.old).content }
    ensures crash { IsTrue (D.state disk.old).honest → (c : List ℕ) → (D.state disk.new).image c → (D.state disk.old).image c }
    ensures leaves { IsTrue (D.state disk.old).honest → LeavesOnly (D.state disk.old) (D.state disk.new) (D.state disk.old).image }
    ensures keeps { Keeps (D.state disk.old) (D.state disk.new) }
    ensures cause { HasCause (D.state disk.old).faults (D.state disk.new).faults result }
{
    disk.sync()?;
    let opening = opening_at(disk)?;
    Ok(opening)
}

// What the file says by its first bytes.
fn opening_at<D: Disk>(disk: &mut D) -> Result<Opening, Trouble>
    ensures range { IfOk result (λ opening. IsRanged opening) }
    ensures opening { (b : List ℕ) → (D.state disk.old).content ≡ Some b → IfOk result (λ opening. opening ≡ opening_of b) }
    ensures same { (D.state disk.new).content ≡ (D.state disk.old).content }
    ensures still { IsTrue (D.state disk.old).honest → Still (D.state disk.old) (D.state disk.new) }
    ensures keeps { Keeps (D.state disk.old) (D.state disk.new) }
    ensures cause { HasCause (D.state disk.old).faults (D.state disk.new).faults result }
{
    let mut front = [0; 13];
    let count = disk.read(0, &mut front)?;
    Ok(opening(&front[..count]))
}

/// The base of the file, where it has one: the first gate stands in the file, and the two numbers are in range. The length
/// of the file is tested before memory is taken.
///
/// `Failed` comes only where the disk's count of faults rose. Nothing changes but that count.
pub fn base_at<D: Disk>(alloc: Global, disk: &mut D) -> Result<Option<Base>, Trouble>
    ensures short { IfOk result (λ base. IsShort base) }
    ensures base { (b : List ℕ) → (D.state disk.old).content ≡ Some b → IfOk result (λ base. base ≡ base_found b) }
    ensures same { (D.state disk.new).content ≡ (D.state disk.old).content }
    ensures still { IsTrue (D.state disk.old).honest → Still (D.state disk.old) (D.state disk.new) }
    ensures keeps { Keeps (D.state disk.old) (D.state disk.new) }
    ensures cause { HasCause (D.state disk.old).faults (D.state disk.new).faults result }
{
    let mut front = [0; 33];
    let count = disk.read(0, &mut front)?;
    let len = disk.len()?;
    match numbers_of(&front[..count], len) {
        None => Ok(None),
        Some(found) => {
            let text = read_some(alloc, disk, 33, found.size as usize)?;
            Ok(Some(Base {
                fired: found.fired,
                next: found.next,
                text: Bytes::from_vec(text),
            }))
        }
    }
}
