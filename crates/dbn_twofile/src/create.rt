//! Making a store on two disks.

ghost use Rattle.std.specs.Prelude.{◌≡◌, ◌^◌, ◌≤◌, List, ℕ, Some, length, OnOk, IsTrue};
ghost use Rattle.dbn_disk.specs.Disk.{Only, Keeps, LeavesOnly};
ghost use Rattle.dbn_keeper.specs.Creating.{any_open, is_made, is_allowed, Says, IsNoneOrNew};
ghost use Rattle.dbn_keeper.specs.Files.{folder, new_store};
ghost use Rattle.dbn_keeper.specs.Files.Folder.{NotMade, Holds};
ghost use Rattle.dbn_keeper.specs.declared.create.CreateFault.{CreateFault};
ghost use Rattle.dbn_twofile.specs.Finding.{HasCauseOfTwo};

use crate::two::TwoFile;
use dbn_disk::Disk;
use dbn_io::Limits;
use dbn_keeper::{Base, CreateFault, any_open, is_allowed, make_new, settle};
use std::alloc::Global;

impl<D: Disk + Drop> TwoFile<D> {
    /// Makes a store with this base on two disks of which no file is open. It is the file of the first disk, of generation
    /// 1, form two and without a record. Both disks are synced first.
    ///
    /// `Exists` comes exactly where a file is open, and then the bytes that both disks hold stay and each image of a disk
    /// was one before, with every answer. `Full` comes exactly where no file is open and the text passes `net_bytes` or
    /// the new file passes `file_bytes`. `Failed` comes exactly where the count of faults of a disk rose. Where no file is
    /// open and all is stable, a crash at any moment leaves no store or the new one; from `Ok` on it leaves the new one.
    pub fn create(
        alloc: Global,
        a: &mut D,
        b: &mut D,
        base: &Base,
        limits: &Limits,
    ) -> Result<(), CreateFault>
        requires { (base.now.fired ≤ 2 ^ 62) × (base.now.next ≤ 2 ^ 62) }
        ensures answer { (x y : List ℕ) → (D.state a.old).content ≡ Some x → (D.state b.old).content ≡ Some y → Says (is_made (folder x y)) (is_allowed limits.now.net_bytes limits.now.file_bytes (length base.now.text)) result }
        ensures value { OnOk result ((x y u v : List ℕ) → (D.state a.old).content ≡ Some x → (D.state b.old).content ≡ Some y → (D.state a.new).content ≡ Some u → (D.state b.new).content ≡ Some v → folder u v ≡ Holds (new_store 1 base.now)) }
        ensures durable { OnOk result ((x y c d : List ℕ) → (D.state a.old).content ≡ Some x → (D.state b.old).content ≡ Some y → IsTrue (D.state a.old).honest → IsTrue (D.state b.old).honest → (D.state a.new).image c → (D.state b.new).image d → folder c d ≡ Holds (new_store 1 base.now)) }
        ensures any_moment { (x y c d : List ℕ) → (D.state a.old).content ≡ Some x → (D.state b.old).content ≡ Some y → IsTrue (D.state a.old).honest → IsTrue (D.state b.old).honest → Only x (D.state a.old).image → Only y (D.state b.old).image → folder x y ≡ NotMade
            → (D.state a.new).since (D.state a.old).clock c → (D.state b.new).since (D.state b.old).clock d → IsNoneOrNew base.now (folder c d) }
        ensures later { (x y : List ℕ) → (D.state a.old).content ≡ Some x → (D.state b.old).content ≡ Some y → IsTrue (D.state a.old).honest → IsTrue (D.state b.old).honest → ((D.state a.old).clock ≤ (D.state a.new).clock) × ((D.state b.old).clock ≤ (D.state b.new).clock) }
        ensures kept { (x y : List ℕ) → (D.state a.old).content ≡ Some x → (D.state b.old).content ≡ Some y → IsTrue (is_made (folder x y)) → ((D.state a.new).content ≡ (D.state a.old).content) × ((D.state b.new).content ≡ (D.state b.old).content) }
        ensures kept_a { (x y : List ℕ) → (D.state a.old).content ≡ Some x → (D.state b.old).content ≡ Some y → IsTrue (is_made (folder x y)) → IsTrue (D.state a.old).honest → LeavesOnly (D.state a.old) (D.state a.new) (D.state a.old).image }
        ensures kept_b { IsTrue (D.state b.old).honest → LeavesOnly (D.state b.old) (D.state b.new) (D.state b.old).image }
        ensures keeps_a { Keeps (D.state a.old) (D.state a.new) }
        ensures keeps_b { Keeps (D.state b.old) (D.state b.new) }
        ensures settled_a { OnOk result ((x u : List ℕ) → (D.state a.old).content ≡ Some x → IsTrue (D.state a.old).honest → (D.state a.new).content ≡ Some u → Only u (D.state a.new).image) }
        ensures settled_b { OnOk result ((y v : List ℕ) → (D.state b.old).content ≡ Some y → IsTrue (D.state b.old).honest → (D.state b.new).content ≡ Some v → Only v (D.state b.new).image) }
        ensures cause { HasCauseOfTwo CreateFault.Failed (D.state a.old).faults (D.state a.new).faults (D.state b.old).faults (D.state b.new).faults result }
    {
        let first = settle(a)?;
        let second = settle(b)?;
        if any_open(first, second) {
            return Err(CreateFault::Exists);
        }
        if !is_allowed(base, limits) {
            return Err(CreateFault::Full);
        }
        make_new(alloc, a, 1, base)?;
        Ok(())
    }
}
