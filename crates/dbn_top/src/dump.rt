//! The verb `dump`.

ghost use Rattle.std.specs.Prelude.{◌≡◌, ◌≢◌, ◌⊎◌, ◌≤◌, ℕ, List, Option, Some, None, Ok, true, false, length, IsTrue};
ghost use Rattle.dbn_model.specs.Causes.{Rose};
ghost use Rattle.dbn_model.specs.Content.{SameTold};
ghost use Rattle.dbn_top.specs.Calls.{Stream, Given, Tells, IsUntouched, IsSettled, stream, device, call_of};
ghost use Rattle.dbn_top.specs.Crashes.{Crash, Spares, IsNew, IsKept};
ghost use Rattle.dbn_top.specs.Due.{reached, uses_of, making};
ghost use Rattle.dbn_top.specs.Endings.{Ends, Touches, TouchesDisks, Keeps, KeepsDisks, can_end};
ghost use Rattle.dbn_top.specs.Writing.{Writes, due};
ghost use Rattle.dbn_top.specs.declared.verb.Verb.TheVariants as verbs;
ghost use Rattle.dbn_store.specs.States.{situation};
ghost use Rattle.dbn_engine.specs.Steps.{text_at};

use crate::ended::Ended;
use crate::opening::{disks_of, open_parts, refuse_store};
use crate::say::say;
use crate::status::Status;
use dbn_core::Core;
use dbn_disk::Disk;
use dbn_io::{Limits, Sink};
use dbn_writer::{good_states_can_be_written, net_text};
use std::alloc::Global;

// Writes the canonical text of a core.
fn write_text<C: Core, K: Sink>(alloc: Global, core: &C, out: &mut K) -> Status
    requires { IsTrue (C.live core.now) }
    ensures writes { Writes result (due Status.Done (text_at (situation (C.rules core.now) (C.state core.now)))) (stream (K.taken out.old) (K.taken out.new) (K.faults out.old) (K.faults out.new)) }
    ensures which { (result ≡ Status.Done) ⊎ (result ≡ Status.WriteFault) ⊎ (result ≡ Status.Memory) }
    ensures told { SameTold (K.taken out.old) (K.taken out.new) }
    ensures later { K.faults out.old ≤ K.faults out.new }
    ensures write { result ≡ Status.WriteFault → Rose (K.faults out.old) (K.faults out.new) }
    ensures calm { result ≢ Status.WriteFault → K.faults out.new ≡ K.faults out.old }
{
    good_states_can_be_written();
    let _live = core.is_live();
    let Ok(at) = core.snapshot(alloc) else {
        return Status::Memory;
    };
    let Ok(text) = net_text(alloc, core.net(), &at) else {
        return Status::Memory;
    };
    say(out, text.as_slice(), Status::Done)
}

/// Opens the store on two disks, and writes the canonical text of its state.
#[tactic(auto, using(crate::proofs::Tops::few_of_none))]
pub(crate) fn run_dump<K: Sink, D: Disk + Drop>(
    alloc: Global,
    out: &mut K,
    a: D,
    b: D,
    limits: &Limits,
) -> Ended<D>
    ensures kind { IsTrue (can_end (Some verbs.Dump) result.status) }
    ensures ends { (net : Stream) → IsUntouched net → (commands : Stream) → IsUntouched commands → (given : Given) → Tells (reached limits.now (Some verbs.Dump) given) (call_of (Some verbs.Dump) limits.now net commands (stream (K.taken out.old) (K.taken out.new) (K.faults out.old) (K.faults out.new))) (D.state a).content (D.state b).content given → Ends result.status (call_of (Some verbs.Dump) limits.now net commands (stream (K.taken out.old) (K.taken out.new) (K.faults out.old) (K.faults out.new))) given }
    ensures crash { (net : Stream) → IsUntouched net → (commands : Stream) → IsUntouched commands → (given : Given) → Tells (reached limits.now (Some verbs.Dump) given) (call_of (Some verbs.Dump) limits.now net commands (stream (K.taken out.old) (K.taken out.new) (K.faults out.old) (K.faults out.new))) (D.state a).content (D.state b).content given → IsSettled (D.state a) → IsSettled (D.state b) → Crash result.status (call_of (Some verbs.Dump) limits.now net commands (stream (K.taken out.old) (K.taken out.new) (K.faults out.old) (K.faults out.new))) (device (D.state a) (D.state result.a)) (device (D.state b) (D.state result.b)) given }
    ensures spares { (net : Stream) → IsUntouched net → (commands : Stream) → IsUntouched commands → (given : Given) → Tells (reached limits.now (Some verbs.Dump) given) (call_of (Some verbs.Dump) limits.now net commands (stream (K.taken out.old) (K.taken out.new) (K.faults out.old) (K.faults out.new))) (D.state a).content (D.state b).content given → Spares result.status (call_of (Some verbs.Dump) limits.now net commands (stream (K.taken out.old) (K.taken out.new) (K.faults out.old) (K.faults out.new))) (device (D.state a) (D.state result.a)) (device (D.state b) (D.state result.b)) given }
    ensures touches { (net : Stream) → IsUntouched net → (commands : Stream) → IsUntouched commands → Touches (uses_of (Some verbs.Dump)) result.status (call_of (Some verbs.Dump) limits.now net commands (stream (K.taken out.old) (K.taken out.new) (K.faults out.old) (K.faults out.new))) }
    ensures keeps { (net : Stream) → IsUntouched net → (commands : Stream) → IsUntouched commands → Keeps result.status (call_of (Some verbs.Dump) limits.now net commands (stream (K.taken out.old) (K.taken out.new) (K.faults out.old) (K.faults out.new))) }
    ensures disks { TouchesDisks (uses_of (Some verbs.Dump)) result.status (device (D.state a) (D.state result.a)) (device (D.state b) (D.state result.b)) }
    ensures keeps_disks { KeepsDisks result.status (device (D.state a) (D.state result.a)) (device (D.state b) (D.state result.b)) }
{
    match open_parts(alloc, a, b, limits) {
        Ok(opened) => {
            let status = write_text(alloc, &opened.core, out);
            let (a, b) = disks_of(opened.keeper);
            Ended { status, a, b }
        }
        Err(found) => {
            let status = refuse_store(alloc, out, found.why);
            Ended {
                status,
                a: found.a,
                b: found.b,
            }
        }
    }
}
