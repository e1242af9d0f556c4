//! The top call.

ghost use Rattle.std.specs.Prelude.{◌≡◌, ◌≢◌, ◌⊎◌, ◌≤◌, ℕ, List, Option, Some, None, Ok, true, false, length, map, string_bytes, IsTrue};
ghost use Rattle.dbn_model.specs.Causes.{Rose};
ghost use Rattle.dbn_model.specs.Content.{SameTold};
ghost use Rattle.dbn_top.specs.Calls.{Stream, Given, Tells, IsUntouched, IsSettled, stream, device, call_of};
ghost use Rattle.dbn_top.specs.Crashes.{Crash, Spares, IsNew, IsKept};
ghost use Rattle.dbn_top.specs.Due.{reached, uses_of, making};
ghost use Rattle.dbn_top.specs.Endings.{Ends, Touches, TouchesDisks, Keeps, KeepsDisks, can_end};
ghost use Rattle.dbn_top.specs.Writing.{Writes, due};
ghost use Rattle.dbn_top.specs.declared.verb.Verb.TheVariants as verbs;
ghost use Rattle.dbn_top.specs.Words.{verb_of as verb_in};

use crate::check::run_check;
use crate::demo::run_demo;
use crate::dump::run_dump;
use crate::ended::Ended;
use crate::new::run_new;
use crate::run::run_run;
use crate::say::say;
use crate::status::Status;
use crate::trying::run_try;
use crate::verb::Verb;
use crate::words::{takes_option, verb_of};
use dbn_disk::Disk;
use dbn_engine::lines_without_a_reply_change_nothing;
use dbn_io::{Limits, Sink, Source};
use std::alloc::Global;

// What is written where the words name no verb.
const USAGE: &[u8] = b"usage: dbnet check | try | new | run [--every N] | dump | demo [--size N]\n";

// Writes the usage line.
#[tactic(auto, using(crate::proofs::Tops::few_of_none))]
fn run_usage<K: Sink>(out: &mut K, limits: &Limits) -> Status
    ensures kind { IsTrue (can_end None result) }
    ensures ends { (net : Stream) → IsUntouched net → (commands : Stream) → IsUntouched commands → (x y : Option (List ℕ)) (given : Given) → Tells (reached limits.now None given) (call_of None limits.now net commands (stream (K.taken out.old) (K.taken out.new) (K.faults out.old) (K.faults out.new))) x y given → Ends result (call_of None limits.now net commands (stream (K.taken out.old) (K.taken out.new) (K.faults out.old) (K.faults out.new))) given }
    ensures touches { (net : Stream) → IsUntouched net → (commands : Stream) → IsUntouched commands → Touches (uses_of None) result (call_of None limits.now net commands (stream (K.taken out.old) (K.taken out.new) (K.faults out.old) (K.faults out.new))) }
    ensures keeps { (net : Stream) → IsUntouched net → (commands : Stream) → IsUntouched commands → Keeps result (call_of None limits.now net commands (stream (K.taken out.old) (K.taken out.new) (K.faults out.old) (K.faults out.new))) }
    ensures never_disk { result ≢ Status.DiskFault }
{
    say(out, USAGE, Status::Usage)
}

// Whether clap takes the number of an option as it was read from the words.
fn is_taken(alloc: Global, words: &[String], verb: &Verb) -> bool {
    match verb {
        Verb::Run(Some(number)) => takes_option(alloc, "every", words, *number),
        Verb::Demo(size) if words.len() > 1 => takes_option(alloc, "size", words, *size),
        _ => true,
    }
}

/// Runs the verb that the words name: `check`, `try`, `new`, `run`, `dump` or `demo`, where `run` may have `--every N` and
/// `demo` may have `--size N`. Where they name none the usage line is written.
///
/// What is due to be written, and the status, are those of the declared run, which is computed from scratch from all that the
/// verb reads. The first trouble ends the call, and a front of what is due was written then. `ReadFault`, `WriteFault` and
/// `DiskFault` come only where the count of faults of that object rose in this call; `Memory` is want of memory. A crash now
/// leaves files that stand for a front of the run that holds every line whose reply was written whole. What the verb doesn't
/// use stays as it was, and both disks are handed back, each in its own place.
#[tactic(auto, using(crate::proofs::Tops::few_of_none, crate::proofs::Tops::idle_disks, crate::proofs::Tops::idle_spares, crate::proofs::Tops::idle_keeps))]
pub fn dbnet<N: Source, C: Source, K: Sink, D: Disk + Drop>(
    alloc: Global,
    words: &[String],
    net: &mut N,
    commands: &mut C,
    out: &mut K,
    a: D,
    b: D,
    limits: &Limits,
) -> Ended<D>
    ensures kind { IsTrue (can_end (verb_in (map string_bytes words.now)) result.status) }
    ensures ends { (given : Given) → Tells (reached limits.now (verb_in (map string_bytes words.now)) given) (call_of (verb_in (map string_bytes words.now)) limits.now (stream (N.left net.old) (N.left net.new) (N.faults net.old) (N.faults net.new)) (stream (C.left commands.old) (C.left commands.new) (C.faults commands.old) (C.faults commands.new)) (stream (K.taken out.old) (K.taken out.new) (K.faults out.old) (K.faults out.new))) (D.state a).content (D.state b).content given → Ends result.status (call_of (verb_in (map string_bytes words.now)) limits.now (stream (N.left net.old) (N.left net.new) (N.faults net.old) (N.faults net.new)) (stream (C.left commands.old) (C.left commands.new) (C.faults commands.old) (C.faults commands.new)) (stream (K.taken out.old) (K.taken out.new) (K.faults out.old) (K.faults out.new))) given }
    ensures crash { (given : Given) → Tells (reached limits.now (verb_in (map string_bytes words.now)) given) (call_of (verb_in (map string_bytes words.now)) limits.now (stream (N.left net.old) (N.left net.new) (N.faults net.old) (N.faults net.new)) (stream (C.left commands.old) (C.left commands.new) (C.faults commands.old) (C.faults commands.new)) (stream (K.taken out.old) (K.taken out.new) (K.faults out.old) (K.faults out.new))) (D.state a).content (D.state b).content given → IsSettled (D.state a) → IsSettled (D.state b) → Crash result.status (call_of (verb_in (map string_bytes words.now)) limits.now (stream (N.left net.old) (N.left net.new) (N.faults net.old) (N.faults net.new)) (stream (C.left commands.old) (C.left commands.new) (C.faults commands.old) (C.faults commands.new)) (stream (K.taken out.old) (K.taken out.new) (K.faults out.old) (K.faults out.new))) (device (D.state a) (D.state result.a)) (device (D.state b) (D.state result.b)) given }
    ensures spares { (given : Given) → Tells (reached limits.now (verb_in (map string_bytes words.now)) given) (call_of (verb_in (map string_bytes words.now)) limits.now (stream (N.left net.old) (N.left net.new) (N.faults net.old) (N.faults net.new)) (stream (C.left commands.old) (C.left commands.new) (C.faults commands.old) (C.faults commands.new)) (stream (K.taken out.old) (K.taken out.new) (K.faults out.old) (K.faults out.new))) (D.state a).content (D.state b).content given → Spares result.status (call_of (verb_in (map string_bytes words.now)) limits.now (stream (N.left net.old) (N.left net.new) (N.faults net.old) (N.faults net.new)) (stream (C.left commands.old) (C.left commands.new) (C.faults commands.old) (C.faults commands.new)) (stream (K.taken out.old) (K.taken out.new) (K.faults out.old) (K.faults out.new))) (device (D.state a) (D.state result.a)) (device (D.state b) (D.state result.b)) given }
    ensures touches { Touches (uses_of (verb_in (map string_bytes words.now))) result.status (call_of (verb_in (map string_bytes words.now)) limits.now (stream (N.left net.old) (N.left net.new) (N.faults net.old) (N.faults net.new)) (stream (C.left commands.old) (C.left commands.new) (C.faults commands.old) (C.faults commands.new)) (stream (K.taken out.old) (K.taken out.new) (K.faults out.old) (K.faults out.new))) }
    ensures keeps { Keeps result.status (call_of (verb_in (map string_bytes words.now)) limits.now (stream (N.left net.old) (N.left net.new) (N.faults net.old) (N.faults net.new)) (stream (C.left commands.old) (C.left commands.new) (C.faults commands.old) (C.faults commands.new)) (stream (K.taken out.old) (K.taken out.new) (K.faults out.old) (K.faults out.new))) }
    ensures disks { TouchesDisks (uses_of (verb_in (map string_bytes words.now))) result.status (device (D.state a) (D.state result.a)) (device (D.state b) (D.state result.b)) }
    ensures keeps_disks { KeepsDisks result.status (device (D.state a) (D.state result.a)) (device (D.state b) (D.state result.b)) }
{
    let Some(verb) = verb_of(words) else {
        let status = run_usage(out, limits);
        return Ended { status, a, b };
    };
    if !is_taken(alloc, words, &verb) {
        lines_without_a_reply_change_nothing();
        let status = Status::Memory;
        return Ended { status, a, b };
    }
    match verb {
        Verb::Check => Ended {
            status: run_check(alloc, net, out, limits),
            a,
            b,
        },
        Verb::Try => Ended {
            status: run_try(alloc, net, commands, out, limits),
            a,
            b,
        },
        Verb::New => run_new(alloc, net, out, a, b, limits),
        Verb::Run(every) => run_run(alloc, every, commands, out, a, b, limits),
        Verb::Dump => run_dump(alloc, out, a, b, limits),
        Verb::Demo(size) => Ended {
            status: run_demo(alloc, size, out, limits),
            a,
            b,
        },
    }
}
