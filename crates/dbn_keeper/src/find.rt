//! Finding a store on one disk.

ghost use Rattle.std.specs.Prelude.{◌≡◌, ◌+◌, ◌^◌, ◌<◌, ◌≤◌, List, ℕ, Some, [], true, false, length, IfOk, IfErr, OnOk, IsErrOf, IsTrue};
ghost use Rattle.dbn_model.specs.Causes.{Rose};
ghost use Rattle.dbn_disk.specs.Disk.{Only, Keeps};
ghost use Rattle.dbn_keeper.specs.declared.find.FindFault.{FindFault};
ghost use Rattle.dbn_keeper.specs.Files.{folder};
ghost use Rattle.dbn_keeper.specs.Files.Folder.{NotMade, NotAStore};
ghost use Rattle.dbn_keeper.specs.Reading.{HoldsBase};

use crate::base::Base;
use crate::opening::{Form, Opening};
use crate::plain::{PlainKeeper, over};
use crate::reading::{base_at, settle};
use dbn_disk::Disk;
use dbn_io::{Limits, Trouble};
use std::alloc::Global;

/// Why no store was found.
#[derive(Clone, Copy, Debug, PartialEq, Eq)]
pub enum FindFault {
    /// No file is open.
    NotMade,
    /// Something else is there: an open file that isn't one of a store, or a chosen one without a base.
    NotAStore,
    /// The device failed: a count of faults rose in this call.
    Failed,
    /// Memory was wanting.
    Memory,
}

impl From<Trouble> for FindFault {
    ghost use Rattle.dbn_keeper.specs.Reading.{fault_of};

    ghost from_gives = { λ trouble fault. fault ≡ fault_of trouble };

    fn from(trouble: Trouble) -> FindFault {
        match trouble {
            Trouble::Failed => FindFault::Failed,
            Trouble::Memory => FindFault::Memory,
        }
    }
}

/// The disk as it stands, and why no store was found on it.
#[derive(Drop)]
pub struct NotFound<D: Disk + Drop> {
    /// The disk.
    pub disk: D,
    /// Why no store was found.
    pub why: FindFault,
}

// What was found in the file.
#[derive(Drop)]
pub(crate) struct Found {
    pub form: Form,
    pub base: Base,
    pub generation: u64,
    pub ghost first_generation: { 1 ≤ generation },
    pub ghost short: { length base.text < 2 ^ 32 },
    pub ghost numbers: { (base.fired ≤ 2 ^ 62) × (base.next ≤ 2 ^ 62) },
}

impl<D: Disk + Drop> PlainKeeper<D> {
    /// A keeper of the store on this disk, which no checkpoint can follow. The disk is synced, and nothing is written.
    ///
    /// `NotMade` comes exactly where the file isn't open, `NotAStore` exactly where it is open and no file of a store,
    /// `Failed` only where the disk's count of faults rose, and at `Ok` it didn't. With every answer what is held stays, and
    /// each image was one before.
    pub fn find(alloc: Global, disk: D, limits: &Limits) -> Result<PlainKeeper<D>, NotFound<D>>
        ensures fresh { IfOk result (λ k. (k.live ≡ true) × (k.records ≡ 0) × (k.place ≡ 33 + length k.base.text) × (k.at_end ≡ false) × (k.file_bytes ≡ limits.now.file_bytes)) }
        ensures last { IfOk result (λ k. (k.last ≡ 1) × (1 ≤ k.generation)) }
        ensures same { IfOk result (λ k. (D.state k.disk).content ≡ (D.state disk).content) }
        ensures keeps { IfOk result (λ k. Keeps (D.state disk) (D.state k.disk)) }
        ensures crash { IfOk result (λ k. IsTrue (D.state disk).honest → (c : List ℕ) → (D.state k.disk).image c → (D.state disk).image c) }
        ensures not_made { IfErr result (λ e. e.why ≡ FindFault.NotMade → (x : List ℕ) → (D.state disk).content ≡ Some x → folder x [] ≡ NotMade) }
        ensures not_a_store { IfErr result (λ e. e.why ≡ FindFault.NotAStore → (x : List ℕ) → (D.state disk).content ≡ Some x → folder x [] ≡ NotAStore) }
        ensures failed { IfErr result (λ e. e.why ≡ FindFault.Failed → Rose (D.state disk).faults (D.state e.disk).faults) }
        ensures faults { IfOk result (λ k. (D.state k.disk).faults ≡ (D.state disk).faults) }
        ensures same_back { IfErr result (λ e. (D.state e.disk).content ≡ (D.state disk).content) }
        ensures keeps_back { IfErr result (λ e. Keeps (D.state disk) (D.state e.disk)) }
        ensures crash_back { IfErr result (λ e. IsTrue (D.state disk).honest → (c : List ℕ) → (D.state e.disk).image c → (D.state disk).image c) }
    {
        let mut disk = disk;
        match look(alloc, &mut disk) {
            Ok(found) => Ok(over(disk, found, limits.file_bytes)),
            Err(why) => Err(NotFound { disk, why }),
        }
    }

    /// The disk as it stands.
    pub fn into_disk(self) -> D
        ensures { result ≡ self.disk }
    {
        self.disk
    }
}

// Looks for a store on a disk.
fn look<D: Disk>(alloc: Global, disk: &mut D) -> Result<Found, FindFault>
    ensures found { (x : List ℕ) → (D.state disk.old).content ≡ Some x → IfOk result (λ found. HoldsBase found.form found.base found.generation x) }
    ensures not_made { IsErrOf result FindFault.NotMade → (x : List ℕ) → (D.state disk.old).content ≡ Some x → folder x [] ≡ NotMade }
    ensures not_a_store { IsErrOf result FindFault.NotAStore → (x : List ℕ) → (D.state disk.old).content ≡ Some x → folder x [] ≡ NotAStore }
    ensures settled { OnOk result ((x : List ℕ) → (D.state disk.old).content ≡ Some x → IsTrue (D.state disk.old).honest → Only x (D.state disk.new).image) }
    ensures same { (D.state disk.new).content ≡ (D.state disk.old).content }
    ensures crash { IsTrue (D.state disk.old).honest → (c : List ℕ) → (D.state disk.new).image c → (D.state disk.old).image c }
    ensures keeps { Keeps (D.state disk.old) (D.state disk.new) }
    ensures failed { IsErrOf result FindFault.Failed → Rose (D.state disk.old).faults (D.state disk.new).faults }
    ensures kept { (IsErrOf result FindFault.Failed → ⊥) → (D.state disk.new).faults ≡ (D.state disk.old).faults }
{
    match settle(disk)? {
        Opening::NotOpen => Err(FindFault::NotMade),
        Opening::Foreign => Err(FindFault::NotAStore),
        Opening::Marked(form, generation) => match base_at(alloc, disk)? {
            Some(base) => Ok(Found {
                form,
                base,
                generation,
            }),
            None => Err(FindFault::NotAStore),
        },
    }
}
