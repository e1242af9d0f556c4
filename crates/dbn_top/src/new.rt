//! The verb `new`.

ghost use Rattle.std.specs.Prelude.{◌≡◌, ◌≢◌, ◌⊎◌, ◌≤◌, ℕ, List, Option, Some, None, Ok, true, false, length, IsTrue};
ghost use Rattle.dbn_model.specs.Causes.{Rose};
ghost use Rattle.dbn_model.specs.Content.{SameTold};
ghost use Rattle.dbn_top.specs.Calls.{Stream, Given, Tells, IsUntouched, IsSettled, stream, device, call_of};
ghost use Rattle.dbn_top.specs.Crashes.{Crash, Spares, IsNew, IsKept};
ghost use Rattle.dbn_top.specs.Due.{reached, uses_of, making};
ghost use Rattle.dbn_top.specs.Endings.{Ends, Touches, TouchesDisks, Keeps, KeepsDisks, can_end};
ghost use Rattle.dbn_top.specs.Writing.{Writes, due};
ghost use Rattle.dbn_top.specs.declared.verb.Verb.TheVariants as verbs;
ghost use Rattle.dbn_keeper.specs.Creating.{is_made};
ghost use Rattle.dbn_keeper.specs.Files.{folder};
ghost use Rattle.dbn_net.specs.Good.{Good};
ghost use Rattle.dbn_store.specs.States.{situation};

use crate::accepting::{Accepted, read_accepted};
use crate::ended::Ended;
use crate::say::say;
use crate::status::Status;
use dbn_disk::Disk;
use dbn_io::{Limits, Sink, Source};
use dbn_keeper::CreateFault;
use dbn_store::first_base;
use dbn_twofile::TwoFile;
use std::alloc::Global;

// Makes the store of a net and its start snapshot, and says so.
fn make_store<K: Sink, D: Disk + Drop>(
    alloc: Global,
    accepted: &Accepted,
    out: &mut K,
    a: &mut D,
    b: &mut D,
    limits: &Limits,
) -> Status
    requires { Good accepted.now.net accepted.now.at }
    ensures writes { (x y : List ℕ) → (D.state a.old).content ≡ Some x → (D.state b.old).content ≡ Some y → Writes result (making limits.now x y (situation accepted.now.net accepted.now.at)) (stream (K.taken out.old) (K.taken out.new) (K.faults out.old) (K.faults out.new)) }
    ensures crash { (x y : List ℕ) → (D.state a.old).content ≡ Some x → (D.state b.old).content ≡ Some y → IsSettled (D.state a.old) → IsSettled (D.state b.old) → is_made (folder x y) ≡ false → IsNew result (situation accepted.now.net accepted.now.at) (device (D.state a.old) (D.state a.new)) (device (D.state b.old) (D.state b.new)) }
    ensures kept { (x y : List ℕ) → (D.state a.old).content ≡ Some x → (D.state b.old).content ≡ Some y → is_made (folder x y) ≡ true → IsKept (device (D.state a.old) (D.state a.new)) × IsKept (device (D.state b.old) (D.state b.new)) }
    ensures keeps_disks { KeepsDisks result (device (D.state a.old) (D.state a.new)) (device (D.state b.old) (D.state b.new)) }
    ensures fault { result ≡ Status.DiskFault → Rose (D.state a.old).faults (D.state a.new).faults ⊎ Rose (D.state b.old).faults (D.state b.new).faults }
    ensures never { (result ≢ Status.Usage) × (result ≢ Status.Net) × (result ≢ Status.ReadFault) × (result ≢ Status.InputLimit) }
    ensures told { SameTold (K.taken out.old) (K.taken out.new) }
    ensures later { K.faults out.old ≤ K.faults out.new }
    ensures write { result ≡ Status.WriteFault → Rose (K.faults out.old) (K.faults out.new) }
    ensures calm { result ≢ Status.WriteFault → K.faults out.new ≡ K.faults out.old }
{
    let Ok(base) = first_base(alloc, &accepted.net, &accepted.at) else {
        return Status::Memory;
    };
    match TwoFile::create(alloc, a, b, &base, limits) {
        Ok(()) => say(out, b"made\n".as_slice(), Status::Done),
        Err(CreateFault::Exists) => say(out, b"store exists\n".as_slice(), Status::Store),
        Err(CreateFault::Full) => say(out, b"store full\n".as_slice(), Status::Store),
        Err(CreateFault::Failed) => Status::DiskFault,
        Err(CreateFault::Memory) => Status::Memory,
    }
}

/// Reads a net, and makes a store of it on two disks of which no file is open.
#[tactic(auto, using(crate::proofs::Tops::few_of_none))]
pub(crate) fn run_new<N: Source, K: Sink, D: Disk + Drop>(
    alloc: Global,
    net: &mut N,
    out: &mut K,
    a: D,
    b: D,
    limits: &Limits,
) -> Ended<D>
    ensures kind { IsTrue (can_end (Some verbs.New) result.status) }
    ensures ends { (commands : Stream) → IsUntouched commands → (given : Given) → Tells (reached limits.now (Some verbs.New) given) (call_of (Some verbs.New) limits.now (stream (N.left net.old) (N.left net.new) (N.faults net.old) (N.faults net.new)) commands (stream (K.taken out.old) (K.taken out.new) (K.faults out.old) (K.faults out.new))) (D.state a).content (D.state b).content given → Ends result.status (call_of (Some verbs.New) limits.now (stream (N.left net.old) (N.left net.new) (N.faults net.old) (N.faults net.new)) commands (stream (K.taken out.old) (K.taken out.new) (K.faults out.old) (K.faults out.new))) given }
    ensures crash { (commands : Stream) → IsUntouched commands → (given : Given) → Tells (reached limits.now (Some verbs.New) given) (call_of (Some verbs.New) limits.now (stream (N.left net.old) (N.left net.new) (N.faults net.old) (N.faults net.new)) commands (stream (K.taken out.old) (K.taken out.new) (K.faults out.old) (K.faults out.new))) (D.state a).content (D.state b).content given → IsSettled (D.state a) → IsSettled (D.state b) → Crash result.status (call_of (Some verbs.New) limits.now (stream (N.left net.old) (N.left net.new) (N.faults net.old) (N.faults net.new)) commands (stream (K.taken out.old) (K.taken out.new) (K.faults out.old) (K.faults out.new))) (device (D.state a) (D.state result.a)) (device (D.state b) (D.state result.b)) given }
    ensures spares { (commands : Stream) → IsUntouched commands → (given : Given) → Tells (reached limits.now (Some verbs.New) given) (call_of (Some verbs.New) limits.now (stream (N.left net.old) (N.left net.new) (N.faults net.old) (N.faults net.new)) commands (stream (K.taken out.old) (K.taken out.new) (K.faults out.old) (K.faults out.new))) (D.state a).content (D.state b).content given → Spares result.status (call_of (Some verbs.New) limits.now (stream (N.left net.old) (N.left net.new) (N.faults net.old) (N.faults net.new)) commands (stream (K.taken out.old) (K.taken out.new) (K.faults out.old) (K.faults out.new))) (device (D.state a) (D.state result.a)) (device (D.state b) (D.state result.b)) given }
    ensures touches { (commands : Stream) → IsUntouched commands → Touches (uses_of (Some verbs.New)) result.status (call_of (Some verbs.New) limits.now (stream (N.left net.old) (N.left net.new) (N.faults net.old) (N.faults net.new)) commands (stream (K.taken out.old) (K.taken out.new) (K.faults out.old) (K.faults out.new))) }
    ensures keeps { (commands : Stream) → IsUntouched commands → Keeps result.status (call_of (Some verbs.New) limits.now (stream (N.left net.old) (N.left net.new) (N.faults net.old) (N.faults net.new)) commands (stream (K.taken out.old) (K.taken out.new) (K.faults out.old) (K.faults out.new))) }
    ensures disks { TouchesDisks (uses_of (Some verbs.New)) result.status (device (D.state a) (D.state result.a)) (device (D.state b) (D.state result.b)) }
    ensures keeps_disks { KeepsDisks result.status (device (D.state a) (D.state result.a)) (device (D.state b) (D.state result.b)) }
{
    match read_accepted(alloc, net, out, limits) {
        Ok(accepted) => {
            let mut a = a;
            let mut b = b;
            let status = make_store(alloc, &accepted, out, &mut a, &mut b, limits);
            Ended { status, a, b }
        }
        Err(status) => Ended { status, a, b },
    }
}
