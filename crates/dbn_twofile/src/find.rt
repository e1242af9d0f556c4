//! Finding a store on two disks, and giving the disks back.

ghost use Rattle.std.specs.Prelude.{◌≡◌, ◌⊎◌, ◌+◌, ◌^◌, ◌<◌, ◌≤◌, List, ℕ, Some, cond, not, true, false, length, IfOk, IfErr, IsTrue};
ghost use Rattle.dbn_model.specs.Causes.{Rose};
ghost use Rattle.dbn_disk.specs.Disk.{Only};
ghost use Rattle.dbn_keeper.specs.Files.{folder, opening_of};
ghost use Rattle.dbn_keeper.specs.Files.Folder.{NotMade, NotAStore};
ghost use Rattle.dbn_keeper.specs.Reading.{HoldsBase};
ghost use Rattle.dbn_keeper.specs.TwoFiles.{both_held, gives_way, pair_of};
ghost use Rattle.dbn_keeper.specs.declared.find.FindFault.{FindFault};
ghost use Rattle.dbn_twofile.specs.Finding.{IsSide, OnlySynced};
ghost use Rattle.dbn_twofile.specs.Resting.{IsStable};

use crate::look::{Found, look};
use crate::two::TwoFile;
use dbn_disk::Disk;
use dbn_io::Limits;
use dbn_keeper::FindFault;
use std::alloc::Global;

/// Both disks as they stand, and why no store was found on them.
#[derive(Drop)]
pub struct NotFound<D: Disk + Drop> {
    /// The first disk.
    pub a: D,
    /// The second disk.
    pub b: D,
    /// Why no store was found.
    pub why: FindFault,
}

impl<D: Disk + Drop> TwoFile<D> {
    /// A keeper of the store on these two disks, before its first body. Both disks are synced, and nothing is written.
    ///
    /// `NotMade` comes exactly where no file is open, `NotAStore` exactly where what is open is no store, `Failed`
    /// exactly where the count of faults of a disk rose. With every answer what is held stays, and each image of a disk was one
    /// before.
    pub fn find(alloc: Global, a: D, b: D, limits: &Limits) -> Result<TwoFile<D>, NotFound<D>>
        ensures store { IfOk result (λ k. (x y : List ℕ) → (D.state a).content ≡ Some x → (D.state b).content ≡ Some y → both_held k.swapped (D.state k.chosen).content (D.state k.other).content ≡ Some (folder x y)) }
        ensures fresh { IfOk result (λ k. (k.live ≡ true) × (k.records ≡ 0) × (k.place ≡ 33 + length k.base.text) × (k.at_end ≡ false) × (k.file_bytes ≡ limits.now.file_bytes)) }
        ensures disk_a { IfOk result (λ k. OnlySynced (D.state a) (D.state (cond k.swapped k.other k.chosen))) }
        ensures disk_b { IfOk result (λ k. OnlySynced (D.state b) (D.state (cond k.swapped k.chosen k.other))) }
        ensures faults { IfOk result (λ k. ((D.state (cond k.swapped k.other k.chosen)).faults ≡ (D.state a).faults) × ((D.state (cond k.swapped k.chosen k.other)).faults ≡ (D.state b).faults)) }
        ensures not_made { IfErr result (λ e. e.why ≡ FindFault.NotMade → (x y : List ℕ) → (D.state a).content ≡ Some x → (D.state b).content ≡ Some y → folder x y ≡ NotMade) }
        ensures not_a_store { IfErr result (λ e. e.why ≡ FindFault.NotAStore → (x y : List ℕ) → (D.state a).content ≡ Some x → (D.state b).content ≡ Some y → folder x y ≡ NotAStore) }
        ensures failed { IfErr result (λ e. e.why ≡ FindFault.Failed → Rose (D.state a).faults (D.state e.a).faults ⊎ Rose (D.state b).faults (D.state e.b).faults) }
        ensures calm { IfErr result (λ e. (e.why ≡ FindFault.Failed → ⊥) → ((D.state e.a).faults ≡ (D.state a).faults) × ((D.state e.b).faults ≡ (D.state b).faults)) }
        ensures counts { IfErr result (λ e. ((D.state a).faults ≤ (D.state e.a).faults) × ((D.state b).faults ≤ (D.state e.b).faults)) }
        ensures back_a { IfErr result (λ e. OnlySynced (D.state a) (D.state e.a)) }
        ensures back_b { IfErr result (λ e. OnlySynced (D.state b) (D.state e.b)) }
    {
        let mut a = a;
        let mut b = b;
        match look(alloc, &mut a, &mut b) {
            Err(why) => Err(NotFound { a, b, why }),
            Ok(found) => Ok(open(a, b, found, limits.file_bytes)),
        }
    }

    /// The first disk and the second one, as they stand. On one of them at least nothing is pending. Each pair of their
    /// images is one of the keeper's images. Where the keeper is live, nothing is pending on either.
    #[tactic(auto, using(crate::proofs::Rests::one_stable, crate::proofs::Rests::one_stable_turned, crate::proofs::Rests::images_plain, crate::proofs::Rests::images_turned))]
    pub fn into_disks(self) -> (D, D)
        ensures first { result.0 ≡ cond self.swapped self.other self.chosen }
        ensures second { result.1 ≡ cond self.swapped self.chosen self.other }
        ensures rests { IsStable (D.state result.0) ⊎ IsStable (D.state result.1) }
        ensures settled { IsTrue self.live → IsStable (D.state result.0) × IsStable (D.state result.1) }
        ensures images { (x y : List ℕ) → (D.state result.0).image x → (D.state result.1).image y → ((u : List ℕ) × (v : List ℕ) × (D.state self.chosen).image u × (D.state self.other).image v × (pair_of self.swapped u v ≡ folder x y)) }
    {
        if self.swapped {
            (self.other, self.chosen)
        } else {
            (self.chosen, self.other)
        }
    }
}

// The keeper of what was found on these disks.
fn open<D: Disk + Drop>(a: D, b: D, found: Found, file_bytes: u64) -> TwoFile<D>
    requires found_a { (x : List ℕ) → (D.state a).content ≡ Some x → IsSide (not found.swapped) found.swapped found.form found.base found.generation x }
    requires found_b { (y : List ℕ) → (D.state b).content ≡ Some y → IsSide found.swapped found.swapped found.form found.base found.generation y }
    requires settled_a { (x : List ℕ) → (D.state a).content ≡ Some x → IsTrue (D.state a).honest → Only x (D.state a).image }
    requires settled_b { (y : List ℕ) → (D.state b).content ≡ Some y → IsTrue (D.state b).honest → Only y (D.state b).image }
    requires bound { file_bytes ≤ 2 ^ 61 }
    ensures disks_a { cond result.swapped result.other result.chosen ≡ a }
    ensures disks_b { cond result.swapped result.chosen result.other ≡ b }
    ensures store { (x y : List ℕ) → (D.state a).content ≡ Some x → (D.state b).content ≡ Some y → both_held result.swapped (D.state result.chosen).content (D.state result.other).content ≡ Some (folder x y) }
    ensures fresh { (result.live ≡ true) × (result.records ≡ 0) × (result.place ≡ 33 + length result.base.text) × (result.at_end ≡ false) × (result.file_bytes ≡ file_bytes) }
{
    if found.swapped {
        over(b, a, found, file_bytes)
    } else {
        over(a, b, found, file_bytes)
    }
}

// The keeper of what was found, the chosen disk first.
fn over<D: Disk + Drop>(chosen: D, other: D, found: Found, file_bytes: u64) -> TwoFile<D>
    requires bound { file_bytes ≤ 2 ^ 61 }
    requires holds { (x : List ℕ) → (D.state chosen).content ≡ Some x → HoldsBase found.form found.base found.generation x }
    requires way { (y : List ℕ) → (D.state other).content ≡ Some y → gives_way found.swapped found.generation (opening_of y) ≡ true }
    requires settled { (x : List ℕ) → (D.state chosen).content ≡ Some x → IsTrue (D.state chosen).honest → Only x (D.state chosen).image }
    requires settled_other { (y : List ℕ) → (D.state other).content ≡ Some y → IsTrue (D.state other).honest → Only y (D.state other).image }
    ensures disks { (result.chosen ≡ chosen) × (result.other ≡ other) × (result.swapped ≡ found.swapped) }
    ensures fresh { (result.live ≡ true) × (result.records ≡ 0) × (result.place ≡ 33 + length result.base.text) × (result.at_end ≡ false) × (result.file_bytes ≡ file_bytes) }
{
    let place = 33 + found.base.text.as_slice().len() as u64;
    TwoFile {
        chosen,
        other,
        swapped: found.swapped,
        form: found.form,
        base: found.base,
        generation: found.generation,
        file_bytes,
        records: 0,
        place,
        at_end: false,
        live: true,
        making: false,
    }
}
