//! The verb `try`.

ghost use Rattle.std.specs.Prelude.{◌≡◌, ◌≢◌, ◌≤◌, ℕ, List, Option, Some, None, Ok, IsTrue};
ghost use Rattle.std.specs.Io.KnownBytes.{IsAtEnd};
ghost use Rattle.dbn_model.specs.Causes.{Rose};
ghost use Rattle.dbn_model.specs.Content.{SameTold};
ghost use Rattle.dbn_model.specs.Lines.{due_lines};
ghost use Rattle.dbn_model.specs.Runs.{text_of};
ghost use Rattle.dbn_net.specs.Good.{Good};
ghost use Rattle.dbn_net.specs.Texts.{reads};
ghost use Rattle.dbn_store.specs.States.{situation};
ghost use Rattle.dbn_engine.specs.Steps.{step};
ghost use Rattle.dbn_top.specs.Calls.{Given, Tells, stream, call_of};
ghost use Rattle.dbn_top.specs.Due.{reached, uses_of, replies};
ghost use Rattle.dbn_top.specs.Endings.{BreaksOff, Ends, Touches, TakesFew, Keeps, can_end};
ghost use Rattle.dbn_top.specs.Keepers.{status_of_end};
ghost use Rattle.dbn_top.specs.Starts.{terms_of, run_in_memory};
ghost use Rattle.dbn_top.specs.Writing.{Writes};
ghost use Rattle.dbn_top.specs.declared.verb.Verb.TheVariants as verbs;

use crate::accepting::{Accepted, read_accepted};
use crate::serving::serve;
use crate::status::Status;
use dbn_core::Core;
use dbn_engine::{RunEnd, RunTerms};
use dbn_io::{Limits, Sink, Source};
use dbn_keeper::{Base, MemKeeper};
use dbn_slow::SlowCore;
use std::alloc::Global;

/// The status of a call whose run ended so.
pub(crate) fn status_of(end: RunEnd) -> Status
    ensures { result ≡ status_of_end end }
{
    match end {
        RunEnd::Done => Status::Done,
        RunEnd::ReadFault => Status::ReadFault,
        RunEnd::WriteFault => Status::WriteFault,
        RunEnd::DiskFault => Status::DiskFault,
        RunEnd::InputLimit => Status::InputLimit,
        RunEnd::Memory => Status::Memory,
    }
}

// Serves all commands in memory, over a net with its start snapshot.
fn serve_in_memory<C: Source, K: Sink>(
    alloc: Global,
    accepted: Accepted,
    commands: &mut C,
    out: &mut K,
    limits: &Limits,
) -> Status
    requires read { reads accepted.text ≡ Ok (record { decls = accepted.net; facts = accepted.at.instance; tokens = accepted.at.marking; next = accepted.at.next }) }
    requires good { Good accepted.net accepted.at }
    requires first { accepted.at.fired ≡ 0 }
    ensures writes { (all : List ℕ) → C.left commands.old ≡ Some all → Writes result (replies limits.now None all (run_in_memory accepted.text (situation accepted.net accepted.at))) (stream (K.taken out.old) (K.taken out.new) (K.faults out.old) (K.faults out.new)) }
    ensures breaks { (all : List ℕ) → C.left commands.old ≡ Some all → BreaksOff result (due_lines limits.now.input_bytes all)
        (stream (C.left commands.old) (C.left commands.new) (C.faults commands.old) (C.faults commands.new)) (stream (K.taken out.old) (K.taken out.new) (K.faults out.old) (K.faults out.new))
        (text_of (step (terms_of limits.now None)) (run_in_memory accepted.text (situation accepted.net accepted.at))) }
    ensures never { (result ≢ Status.Usage) × (result ≢ Status.Net) × (result ≢ Status.Store) × (result ≢ Status.DiskFault) }
    ensures end { result ≡ Status.Done → IsAtEnd (C.left commands.new) }
    ensures told { SameTold (C.left commands.old) (C.left commands.new) × SameTold (K.taken out.old) (K.taken out.new) }
    ensures source { (C.faults commands.old ≤ C.faults commands.new) × (result ≡ Status.ReadFault → Rose (C.faults commands.old) (C.faults commands.new)) × (result ≢ Status.ReadFault → C.faults commands.new ≡ C.faults commands.old) }
    ensures sink { (K.faults out.old ≤ K.faults out.new) × (result ≡ Status.WriteFault → Rose (K.faults out.old) (K.faults out.new)) × (result ≢ Status.WriteFault → K.faults out.new ≡ K.faults out.old) }
    ensures few { TakesFew limits.now.input_bytes (stream (C.left commands.old) (C.left commands.new) (C.faults commands.old) (C.faults commands.new)) }
{
    let next = accepted.at.next;
    let Ok(core) = SlowCore::start(alloc, accepted.net, accepted.at) else {
        return Status::Memory;
    };
    let base = Base {
        fired: 0,
        next,
        text: accepted.text,
    };
    let keeper = MemKeeper::new(alloc, base);
    let terms = RunTerms {
        folder: false,
        net_bytes: limits.net_bytes,
        every: None,
    };
    let served = serve(
        alloc,
        core,
        keeper,
        terms,
        commands,
        out,
        limits.input_bytes,
    );
    status_of(served.end)
}

/// Reads a net whole, and then serves the commands over it in memory, one line after the other.
pub(crate) fn run_try<N: Source, C: Source, K: Sink>(
    alloc: Global,
    net: &mut N,
    commands: &mut C,
    out: &mut K,
    limits: &Limits,
) -> Status
    ensures kind { IsTrue (can_end (Some verbs.Try) result) }
    ensures ends { (x y : Option (List ℕ)) (given : Given) → Tells (reached limits.now (Some verbs.Try) given) (call_of (Some verbs.Try) limits.now (stream (N.left net.old) (N.left net.new) (N.faults net.old) (N.faults net.new)) (stream (C.left commands.old) (C.left commands.new) (C.faults commands.old) (C.faults commands.new)) (stream (K.taken out.old) (K.taken out.new) (K.faults out.old) (K.faults out.new))) x y given → Ends result (call_of (Some verbs.Try) limits.now (stream (N.left net.old) (N.left net.new) (N.faults net.old) (N.faults net.new)) (stream (C.left commands.old) (C.left commands.new) (C.faults commands.old) (C.faults commands.new)) (stream (K.taken out.old) (K.taken out.new) (K.faults out.old) (K.faults out.new))) given }
    ensures touches { Touches (uses_of (Some verbs.Try)) result (call_of (Some verbs.Try) limits.now (stream (N.left net.old) (N.left net.new) (N.faults net.old) (N.faults net.new)) (stream (C.left commands.old) (C.left commands.new) (C.faults commands.old) (C.faults commands.new)) (stream (K.taken out.old) (K.taken out.new) (K.faults out.old) (K.faults out.new))) }
    ensures keeps { Keeps result (call_of (Some verbs.Try) limits.now (stream (N.left net.old) (N.left net.new) (N.faults net.old) (N.faults net.new)) (stream (C.left commands.old) (C.left commands.new) (C.faults commands.old) (C.faults commands.new)) (stream (K.taken out.old) (K.taken out.new) (K.faults out.old) (K.faults out.new))) }
    ensures never_disk { result ≢ Status.DiskFault }
{
    match read_accepted(alloc, net, out, limits) {
        Ok(accepted) => serve_in_memory(alloc, accepted, commands, out, limits),
        Err(status) => status,
    }
}
