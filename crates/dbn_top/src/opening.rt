//! Opening the store in two files.

ghost use Rattle.std.specs.Prelude.{◌≡◌, ◌≢◌, ◌⊎◌, ◌≤◌, ◌^◌, ℕ, List, Bool, Some, cond, true, false, IfOk, IfErr, OnOk, IsTrue, string_bytes};
ghost use Rattle.dbn_model.specs.Causes.{Rose};
ghost use Rattle.dbn_model.specs.Content.{SameTold};
ghost use Rattle.dbn_keeper.specs.Files.{Folder, folder};
ghost use Rattle.dbn_keeper.specs.Keeping.{Keeps, SameFiles, NoneFalls, RoseIn};
ghost use Rattle.dbn_store.specs.States.{RunState, situation, run_state};
ghost use Rattle.dbn_engine.specs.Serving.{Joined};
ghost use Rattle.dbn_twofile.specs.Resting.{IsStable};
ghost use Rattle.dbn_top.specs.Calls.{stream, device};
ghost use Rattle.dbn_top.specs.Crashes.{Stays, IsKept, is_store};
ghost use Rattle.dbn_top.specs.Due.{damaged_line, with_store};
ghost use Rattle.dbn_top.specs.Endings.{KeepsDisks};
ghost use Rattle.dbn_top.specs.Keepers.{IsOver, ShowsAll, ShowsOnly, IsWhy, status_of_fault, fault_of_finding};
ghost use Rattle.dbn_top.specs.Starts.{Found, found, found_in};
ghost use Rattle.dbn_top.specs.Starts.Found.{Runs};
ghost use Rattle.dbn_top.specs.Writing.{Declared, Writes};

use crate::say::say;
use crate::status::Status;
use dbn_core::Core;
use dbn_disk::Disk;
use dbn_io::{Limits, Sink};
use dbn_keeper::{FindFault, Keeper};
use dbn_slow::SlowCore;
use dbn_store::{StoreFault, open_store};
use dbn_twofile::TwoFile;
use std::alloc::Global;

/// Why two files begin no run.
#[derive(Clone, Copy, Debug, PartialEq, Eq)]
pub(crate) enum OpenFault {
    /// No file is open.
    NotMade,
    /// Something else is there.
    NotAStore,
    /// What stands at the gate of this place is damaged.
    Damaged(u64),
    /// A disk failed: its count of faults rose.
    Failed,
    /// Memory was wanting.
    Memory,
}

/// Two disks as they stand, and why they begin no run.
#[derive(Drop)]
pub(crate) struct NotOpened<D: Disk + Drop> {
    pub(crate) a: D,
    pub(crate) b: D,
    pub(crate) why: OpenFault,
}

/// A core and a keeper that stand for the store on two disks.
#[derive(Drop)]
pub(crate) struct Opened<D: Disk + Drop> {
    pub(crate) core: SlowCore,
    pub(crate) keeper: TwoFile<D>,
}

fn not_found(why: FindFault) -> OpenFault
    ensures { result ≡ fault_of_finding why }
{
    match why {
        FindFault::NotMade => OpenFault::NotMade,
        FindFault::NotAStore => OpenFault::NotAStore,
        FindFault::Failed => OpenFault::Failed,
        FindFault::Memory => OpenFault::Memory,
    }
}

/// The disks of a keeper, as they stand.
pub(crate) fn disks_of<D: Disk + Drop>(keeper: TwoFile<D>) -> (D, D)
    ensures over { IsOver (⟦<TwoFile<D> as Keeper>⟧.state keeper) (D.state result.0) (D.state result.1) }
    ensures all { ShowsAll (⟦<TwoFile<D> as Keeper>⟧.state keeper) (D.state result.0) (D.state result.1) }
    ensures settled { IsTrue (⟦<TwoFile<D> as Keeper>⟧.state keeper).live → IsStable (D.state result.0) × IsStable (D.state result.1) }
{
    keeper.into_disks()
}

// A keeper of the store on two disks, before its first body, or the disks as they stand.
fn find_store<D: Disk + Drop>(
    alloc: Global,
    a: D,
    b: D,
    limits: &Limits,
) -> Result<TwoFile<D>, NotOpened<D>>
    ensures fresh { IfOk result (λ k. ((⟦<TwoFile<D> as Keeper>⟧.state k).live ≡ true) × ((⟦<TwoFile<D> as Keeper>⟧.state k).records ≡ 0) × ((⟦<TwoFile<D> as Keeper>⟧.state k).last ≡ 2 ^ 62) × ((⟦<TwoFile<D> as Keeper>⟧.state k).cap ≡ Some limits.now.file_bytes)) }
    ensures over { IfOk result (λ k. IsOver (⟦<TwoFile<D> as Keeper>⟧.state k) (D.state a) (D.state b)) }
    ensures only { IfOk result (λ k. ShowsOnly (⟦<TwoFile<D> as Keeper>⟧.state k) (D.state a) (D.state b)) }
    ensures why { (x y : List ℕ) → (D.state a).content ≡ Some x → (D.state b).content ≡ Some y → IfErr result (λ e. IsWhy e.why (found limits.now x y)) }
    ensures kept { IfErr result (λ e. IsKept (device (D.state a) (D.state e.a)) × IsKept (device (D.state b) (D.state e.b))) }
    ensures keeps { IfErr result (λ e. KeepsDisks (status_of_fault e.why) (device (D.state a) (D.state e.a)) (device (D.state b) (D.state e.b))) }
    ensures failed { IfErr result (λ e. e.why ≡ OpenFault.Failed → Rose (D.state a).faults (D.state e.a).faults ⊎ Rose (D.state b).faults (D.state e.b).faults) }
{
    match TwoFile::find(alloc, a, b, limits) {
        Ok(keeper) => Ok(keeper),
        Err(found) => {
            let why = not_found(found.why);
            Err(NotOpened {
                a: found.a,
                b: found.b,
                why,
            })
        }
    }
}

// A core that stands for the store of a keeper before its first body.
fn open_over<C: Core + Drop, K: Keeper>(alloc: Global, keeper: &mut K) -> Result<C, OpenFault>
    requires live { IsTrue (K.state keeper.old).live }
    requires none { (K.state keeper.old).records ≡ 0 }
    requires last { (K.state keeper.old).last ≡ 2 ^ 62 }
    ensures joined { IfOk result (λ core. Joined (C.live core) (situation (C.rules core) (C.state core)) (K.state keeper.new)) }
    ensures begins { (f : Folder) (cap : ℕ) → (K.state keeper.old).held ≡ Some f → (K.state keeper.old).cap ≡ Some cap → IfOk result (λ core. found_in cap f ≡ Runs (run_state (situation (C.rules core) (C.state core)) (K.state keeper.new))) }
    ensures why { (f : Folder) (cap : ℕ) → (K.state keeper.old).held ≡ Some f → IfErr result (λ why. IsWhy why (found_in cap f)) }
    ensures store { (f : Folder) → (K.state keeper.old).held ≡ Some f → is_store f ≡ true }
    ensures files { SameFiles (K.state keeper.old) (K.state keeper.new) }
    ensures keeps { Keeps (K.state keeper.old) (K.state keeper.new) }
    ensures later { NoneFalls (K.state keeper.old).faults (K.state keeper.new).faults }
    ensures calm { OnOk result ((K.state keeper.new).faults ≡ (K.state keeper.old).faults) }
    ensures calm_err { IfErr result (λ why. status_of_fault why ≢ Status.DiskFault → (K.state keeper.new).faults ≡ (K.state keeper.old).faults) }
    ensures failed { IfErr result (λ why. why ≡ OpenFault.Failed → RoseIn (K.state keeper.old).faults (K.state keeper.new).faults) }
{
    match open_store::<C, K>(alloc, keeper) {
        Ok(core) => Ok(core),
        Err(StoreFault::NotAStore) => Err(OpenFault::NotAStore),
        Err(StoreFault::Damaged(place)) => Err(OpenFault::Damaged(place)),
        Err(StoreFault::Failed) => Err(OpenFault::Failed),
        Err(StoreFault::Memory) => Err(OpenFault::Memory),
    }
}

/// A core and a keeper that stand for the store on two disks, of which nothing is written.
///
/// An error says why the files begin no run, and hands the disks back as they stand. What the files stand for stays, with every
/// answer.
pub(crate) fn open_parts<D: Disk + Drop>(
    alloc: Global,
    a: D,
    b: D,
    limits: &Limits,
) -> Result<Opened<D>, NotOpened<D>>
    ensures joined { IfOk result (λ o. Joined (⟦<SlowCore as Core>⟧.live o.core) (situation (⟦<SlowCore as Core>⟧.rules o.core) (⟦<SlowCore as Core>⟧.state o.core)) (⟦<TwoFile<D> as Keeper>⟧.state o.keeper)) }
    ensures runs { (x y : List ℕ) → (D.state a).content ≡ Some x → (D.state b).content ≡ Some y → IfOk result (λ o. found limits.now x y ≡ Runs (run_state (situation (⟦<SlowCore as Core>⟧.rules o.core) (⟦<SlowCore as Core>⟧.state o.core)) (⟦<TwoFile<D> as Keeper>⟧.state o.keeper))) }
    ensures cap { IfOk result (λ o. (⟦<TwoFile<D> as Keeper>⟧.state o.keeper).cap ≡ Some limits.now.file_bytes) }
    ensures over { IfOk result (λ o. IsOver (⟦<TwoFile<D> as Keeper>⟧.state o.keeper) (D.state a) (D.state b)) }
    ensures only { IfOk result (λ o. ShowsOnly (⟦<TwoFile<D> as Keeper>⟧.state o.keeper) (D.state a) (D.state b)) }
    ensures store { (x y : List ℕ) → (D.state a).content ≡ Some x → (D.state b).content ≡ Some y → OnOk result (is_store (folder x y) ≡ true) }
    ensures why { (x y : List ℕ) → (D.state a).content ≡ Some x → (D.state b).content ≡ Some y → IfErr result (λ e. IsWhy e.why (found limits.now x y)) }
    ensures stays { IfErr result (λ e. Stays (device (D.state a) (D.state e.a)) (device (D.state b) (D.state e.b))) }
    ensures bytes { (x y : List ℕ) → (D.state a).content ≡ Some x → (D.state b).content ≡ Some y → IfErr result (λ e. is_store (folder x y) ≡ false → IsKept (device (D.state a) (D.state e.a)) × IsKept (device (D.state b) (D.state e.b))) }
    ensures keeps { IfErr result (λ e. KeepsDisks (status_of_fault e.why) (device (D.state a) (D.state e.a)) (device (D.state b) (D.state e.b))) }
    ensures failed { IfErr result (λ e. e.why ≡ OpenFault.Failed → Rose (D.state a).faults (D.state e.a).faults ⊎ Rose (D.state b).faults (D.state e.b).faults) }
{
    match find_store(alloc, a, b, limits) {
        Err(found) => Err(found),
        Ok(keeper) => {
            let mut keeper = keeper;
            match open_over::<SlowCore, TwoFile<D>>(alloc, &mut keeper) {
                Ok(core) => Ok(Opened { core, keeper }),
                Err(why) => {
                    let (a, b) = disks_of(keeper);
                    Err(NotOpened { a, b, why })
                }
            }
        }
    }
}

// The line for damage at a place.
fn damaged_line(alloc: Global, place: u64) -> Result<String, Status>
    ensures line { IfOk result (λ text. string_bytes text ≡ damaged_line place) }
    ensures memory { IfErr result (λ ended. ended ≡ Status.Memory) }
{
    match format!(in alloc; "store damaged {place}\n") {
        Ok(text) => Ok(text),
        Err(_) => Err(Status::Memory),
    }
}

/// Says why two files begin no run, and answers how the call ends.
pub(crate) fn refuse_store<K: Sink>(alloc: Global, out: &mut K, why: OpenFault) -> Status
    ensures writes { (begun : Found) (then : RunState → Declared) → IsWhy why begun → Writes result (with_store begun then) (stream (K.taken out.old) (K.taken out.new) (K.faults out.old) (K.faults out.new)) }
    ensures never { (result ≢ Status.Done) × (result ≢ Status.ReadFault) × (result ≢ Status.InputLimit) × (result ≢ Status.Usage) × (result ≢ Status.Net) }
    ensures quiet { why ≡ OpenFault.Failed → (result ≡ Status.DiskFault) × (K.taken out.new ≡ K.taken out.old) }
    ensures wanting { why ≡ OpenFault.Memory → (result ≡ Status.Memory) × (K.taken out.new ≡ K.taken out.old) }
    ensures disk { result ≡ Status.DiskFault → why ≡ OpenFault.Failed }
    ensures calm_disk { result ≢ Status.DiskFault → status_of_fault why ≢ Status.DiskFault }
    ensures told { SameTold (K.taken out.old) (K.taken out.new) }
    ensures later { K.faults out.old ≤ K.faults out.new }
    ensures write { result ≡ Status.WriteFault → Rose (K.faults out.old) (K.faults out.new) }
    ensures calm { result ≢ Status.WriteFault → K.faults out.new ≡ K.faults out.old }
{
    match why {
        OpenFault::NotMade => say(out, b"store not-made\n".as_slice(), Status::Store),
        OpenFault::NotAStore => say(out, b"store not-a-store\n".as_slice(), Status::Store),
        OpenFault::Damaged(place) => match damaged_line(alloc, place) {
            Ok(text) => say(out, text.as_str().as_bytes(), Status::Store),
            Err(status) => status,
        },
        OpenFault::Failed => Status::DiskFault,
        OpenFault::Memory => Status::Memory,
    }
}
