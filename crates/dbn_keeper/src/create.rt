//! Making a store on one disk.

ghost use Rattle.std.specs.Prelude.{◌≡◌, ◌^◌, ◌≤◌, List, ℕ, Some, [], true, length, OnOk, IsErrOf, IsTrue};
ghost use Rattle.dbn_model.specs.Causes.{Rose};
ghost use Rattle.dbn_disk.specs.Disk.{Only, Keeps, LeavesOnly};
ghost use Rattle.dbn_keeper.specs.Creating.{any_open, is_made, is_allowed, Says, IsNoneOrNew};
ghost use Rattle.dbn_keeper.specs.Files.{folder, new_store};
ghost use Rattle.dbn_keeper.specs.Files.Folder.{NotMade, Holds};
ghost use Rattle.dbn_keeper.specs.declared.create.CreateFault.{CreateFault};

use crate::base::Base;
use crate::make::make_new;
use crate::opening::Opening;
use crate::plain::PlainKeeper;
use crate::reading::settle;
use crate::sizes::is_allowed;
use dbn_disk::Disk;
use dbn_io::{Limits, Trouble};
use std::alloc::Global;

/// Why no store was made.
#[derive(Clone, Copy, Debug, PartialEq, Eq)]
pub enum CreateFault {
    /// A file is open already.
    Exists,
    /// No file is open, and the text or the new file is longer than the limits allow.
    Full,
    /// The device failed: a count of faults rose in this call.
    Failed,
    /// Memory was wanting.
    Memory,
}

impl From<Trouble> for CreateFault {
    ghost use Rattle.dbn_keeper.specs.Creating.{create_fault_of};

    ghost from_gives = { λ trouble fault. fault ≡ create_fault_of trouble };

    fn from(trouble: Trouble) -> CreateFault {
        match trouble {
            Trouble::Failed => CreateFault::Failed,
            Trouble::Memory => CreateFault::Memory,
        }
    }
}

/// Whether one of two files is open, by what they say.
pub fn any_open(first: Opening, second: Opening) -> bool
    ensures { result ≡ any_open first second }
{
    match (first, second) {
        (Opening::NotOpen, Opening::NotOpen) => false,
        _ => true,
    }
}

impl<D: Disk + Drop> PlainKeeper<D> {
    /// Makes a store with this base on a disk whose file isn't open. It has generation 1, form two and no record.
    ///
    /// `Exists` comes exactly where the file is open, and then the bytes held stay and each image was one before, with
    /// every answer. `Full` comes exactly where it isn't open and the text passes `net_bytes` or the new file passes
    /// `file_bytes`. `Failed` comes only where the disk's count of faults rose. Where the file isn't open and all of it is
    /// stable, a crash at any moment leaves no store or the new one; from `Ok` on it leaves the new one.
    pub fn create(
        alloc: Global,
        disk: &mut D,
        base: &Base,
        limits: &Limits,
    ) -> Result<(), CreateFault>
        requires { (base.now.fired ≤ 2 ^ 62) × (base.now.next ≤ 2 ^ 62) }
        ensures answer { (x : List ℕ) → (D.state disk.old).content ≡ Some x → Says (is_made (folder x [])) (is_allowed limits.now.net_bytes limits.now.file_bytes (length base.now.text)) result }
        ensures value { OnOk result ((x z : List ℕ) → (D.state disk.old).content ≡ Some x → (D.state disk.new).content ≡ Some z → folder z [] ≡ Holds (new_store 1 base.now)) }
        ensures durable { OnOk result ((x z : List ℕ) → (D.state disk.old).content ≡ Some x → IsTrue (D.state disk.old).honest → (D.state disk.new).image z → folder z [] ≡ Holds (new_store 1 base.now)) }
        ensures any_moment { (x z : List ℕ) → (D.state disk.old).content ≡ Some x → IsTrue (D.state disk.old).honest → Only x (D.state disk.old).image → folder x [] ≡ NotMade → (D.state disk.new).since (D.state disk.old).clock z → IsNoneOrNew base.now (folder z []) }
        ensures kept { (x : List ℕ) → (D.state disk.old).content ≡ Some x → IsTrue (is_made (folder x [])) → (D.state disk.new).content ≡ (D.state disk.old).content }
        ensures kept_images { (x : List ℕ) → (D.state disk.old).content ≡ Some x → IsTrue (is_made (folder x [])) → IsTrue (D.state disk.old).honest → LeavesOnly (D.state disk.old) (D.state disk.new) (D.state disk.old).image }
        ensures keeps { Keeps (D.state disk.old) (D.state disk.new) }
        ensures failed { IsErrOf result CreateFault.Failed → Rose (D.state disk.old).faults (D.state disk.new).faults }
        ensures no_fault { (IsErrOf result CreateFault.Failed → ⊥) → (D.state disk.new).faults ≡ (D.state disk.old).faults }
    {
        let opening = settle(disk)?;
        if any_open(opening, Opening::NotOpen) {
            return Err(CreateFault::Exists);
        }
        if !is_allowed(base, limits) {
            return Err(CreateFault::Full);
        }
        make_new(alloc, disk, 1, base)?;
        Ok(())
    }
}
