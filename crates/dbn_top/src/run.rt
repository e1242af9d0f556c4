//! The verb `run`.

ghost use Rattle.std.specs.Prelude.{◌≡◌, ◌≢◌, ◌⊎◌, ◌≤◌, ℕ, List, Option, Some, None, Ok, true, false, length, IsTrue};
ghost use Rattle.dbn_model.specs.Causes.{Rose};
ghost use Rattle.dbn_model.specs.Content.{SameTold};
ghost use Rattle.dbn_top.specs.Calls.{Stream, Given, Tells, IsUntouched, IsSettled, stream, device, call_of};
ghost use Rattle.dbn_top.specs.Crashes.{Crash, Spares, IsNew, IsKept};
ghost use Rattle.dbn_top.specs.Due.{reached, uses_of, making};
ghost use Rattle.dbn_top.specs.Endings.{Ends, Touches, TouchesDisks, Keeps, KeepsDisks, can_end};
ghost use Rattle.dbn_top.specs.Writing.{Writes, due};
ghost use Rattle.dbn_top.specs.declared.verb.Verb.TheVariants as verbs;

use crate::ended::Ended;
use crate::opening::{disks_of, open_parts, refuse_store};
use crate::serving::serve;
use crate::status::Status;
use crate::trying::status_of;
use dbn_disk::Disk;
use dbn_engine::{RunTerms, lines_without_a_reply_change_nothing};
use dbn_io::{Limits, Sink, Source};
use std::alloc::Global;

/// Opens the store on two disks, and then serves the commands over it, one line after the other.
#[tactic(auto, using(crate::proofs::Tops::few_of_none))]
pub(crate) fn run_run<C: Source, K: Sink, D: Disk + Drop>(
    alloc: Global,
    every: Option<u64>,
    commands: &mut C,
    out: &mut K,
    a: D,
    b: D,
    limits: &Limits,
) -> Ended<D>
    ensures kind { IsTrue (can_end (Some (verbs.Run every)) result.status) }
    ensures ends { (net : Stream) → IsUntouched net → (given : Given) → Tells (reached limits.now (Some (verbs.Run every)) given) (call_of (Some (verbs.Run every)) limits.now net (stream (C.left commands.old) (C.left commands.new) (C.faults commands.old) (C.faults commands.new)) (stream (K.taken out.old) (K.taken out.new) (K.faults out.old) (K.faults out.new))) (D.state a).content (D.state b).content given → Ends result.status (call_of (Some (verbs.Run every)) limits.now net (stream (C.left commands.old) (C.left commands.new) (C.faults commands.old) (C.faults commands.new)) (stream (K.taken out.old) (K.taken out.new) (K.faults out.old) (K.faults out.new))) given }
    ensures crash { (net : Stream) → IsUntouched net → (given : Given) → Tells (reached limits.now (Some (verbs.Run every)) given) (call_of (Some (verbs.Run every)) limits.now net (stream (C.left commands.old) (C.left commands.new) (C.faults commands.old) (C.faults commands.new)) (stream (K.taken out.old) (K.taken out.new) (K.faults out.old) (K.faults out.new))) (D.state a).content (D.state b).content given → IsSettled (D.state a) → IsSettled (D.state b) → Crash result.status (call_of (Some (verbs.Run every)) limits.now net (stream (C.left commands.old) (C.left commands.new) (C.faults commands.old) (C.faults commands.new)) (stream (K.taken out.old) (K.taken out.new) (K.faults out.old) (K.faults out.new))) (device (D.state a) (D.state result.a)) (device (D.state b) (D.state result.b)) given }
    ensures spares { (net : Stream) → IsUntouched net → (given : Given) → Tells (reached limits.now (Some (verbs.Run every)) given) (call_of (Some (verbs.Run every)) limits.now net (stream (C.left commands.old) (C.left commands.new) (C.faults commands.old) (C.faults commands.new)) (stream (K.taken out.old) (K.taken out.new) (K.faults out.old) (K.faults out.new))) (D.state a).content (D.state b).content given → Spares result.status (call_of (Some (verbs.Run every)) limits.now net (stream (C.left commands.old) (C.left commands.new) (C.faults commands.old) (C.faults commands.new)) (stream (K.taken out.old) (K.taken out.new) (K.faults out.old) (K.faults out.new))) (device (D.state a) (D.state result.a)) (device (D.state b) (D.state result.b)) given }
    ensures touches { (net : Stream) → IsUntouched net → Touches (uses_of (Some (verbs.Run every))) result.status (call_of (Some (verbs.Run every)) limits.now net (stream (C.left commands.old) (C.left commands.new) (C.faults commands.old) (C.faults commands.new)) (stream (K.taken out.old) (K.taken out.new) (K.faults out.old) (K.faults out.new))) }
    ensures keeps { (net : Stream) → IsUntouched net → Keeps result.status (call_of (Some (verbs.Run every)) limits.now net (stream (C.left commands.old) (C.left commands.new) (C.faults commands.old) (C.faults commands.new)) (stream (K.taken out.old) (K.taken out.new) (K.faults out.old) (K.faults out.new))) }
    ensures disks { TouchesDisks (uses_of (Some (verbs.Run every))) result.status (device (D.state a) (D.state result.a)) (device (D.state b) (D.state result.b)) }
    ensures keeps_disks { KeepsDisks result.status (device (D.state a) (D.state result.a)) (device (D.state b) (D.state result.b)) }
{
    match open_parts(alloc, a, b, limits) {
        Ok(opened) => {
            let terms = RunTerms {
                folder: true,
                net_bytes: limits.net_bytes,
                every,
            };
            let most = limits.input_bytes;
            let served = serve(
                alloc,
                opened.core,
                opened.keeper,
                terms,
                commands,
                out,
                most,
            );
            let (a, b) = disks_of(served.keeper);
            let status = status_of(served.end);
            Ended { status, a, b }
        }
        Err(found) => {
            lines_without_a_reply_change_nothing();
            let status = refuse_store(alloc, out, found.why);
            Ended {
                status,
                a: found.a,
                b: found.b,
            }
        }
    }
}
