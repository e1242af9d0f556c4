//! The verb `check`.

ghost use Rattle.std.specs.Prelude.{◌≡◌, ◌≢◌, ◌⊎◌, ◌≤◌, ℕ, List, Option, Some, None, Ok, true, false, length, IsTrue};
ghost use Rattle.dbn_model.specs.Causes.{Rose};
ghost use Rattle.dbn_model.specs.Content.{SameTold};
ghost use Rattle.dbn_top.specs.Calls.{Stream, Given, Tells, IsUntouched, IsSettled, stream, device, call_of};
ghost use Rattle.dbn_top.specs.Crashes.{Crash, Spares, IsNew, IsKept};
ghost use Rattle.dbn_top.specs.Due.{reached, uses_of, making};
ghost use Rattle.dbn_top.specs.Endings.{Ends, Touches, TouchesDisks, Keeps, KeepsDisks, can_end};
ghost use Rattle.dbn_top.specs.Writing.{Writes, due};
ghost use Rattle.dbn_top.specs.declared.verb.Verb.TheVariants as verbs;

use crate::accepting::read_accepted;
use crate::say::say;
use crate::status::Status;
use dbn_io::{Limits, Sink, Source};
use std::alloc::Global;

/// Reads a net, and writes whether it is accepted.
#[tactic(auto, using(crate::proofs::Tops::few_of_none))]
pub(crate) fn run_check<N: Source, K: Sink>(
    alloc: Global,
    net: &mut N,
    out: &mut K,
    limits: &Limits,
) -> Status
    ensures kind { IsTrue (can_end (Some verbs.Check) result) }
    ensures ends { (commands : Stream) → IsUntouched commands → (x y : Option (List ℕ)) (given : Given) → Tells (reached limits.now (Some verbs.Check) given) (call_of (Some verbs.Check) limits.now (stream (N.left net.old) (N.left net.new) (N.faults net.old) (N.faults net.new)) commands (stream (K.taken out.old) (K.taken out.new) (K.faults out.old) (K.faults out.new))) x y given → Ends result (call_of (Some verbs.Check) limits.now (stream (N.left net.old) (N.left net.new) (N.faults net.old) (N.faults net.new)) commands (stream (K.taken out.old) (K.taken out.new) (K.faults out.old) (K.faults out.new))) given }
    ensures touches { (commands : Stream) → IsUntouched commands → Touches (uses_of (Some verbs.Check)) result (call_of (Some verbs.Check) limits.now (stream (N.left net.old) (N.left net.new) (N.faults net.old) (N.faults net.new)) commands (stream (K.taken out.old) (K.taken out.new) (K.faults out.old) (K.faults out.new))) }
    ensures keeps { (commands : Stream) → IsUntouched commands → Keeps result (call_of (Some verbs.Check) limits.now (stream (N.left net.old) (N.left net.new) (N.faults net.old) (N.faults net.new)) commands (stream (K.taken out.old) (K.taken out.new) (K.faults out.old) (K.faults out.new))) }
    ensures never_disk { result ≢ Status.DiskFault }
{
    match read_accepted(alloc, net, out, limits) {
        Ok(_accepted) => say(out, b"accepted\n".as_slice(), Status::Done),
        Err(status) => status,
    }
}
