//! The verb `demo`.

ghost use Rattle.std.specs.Prelude.{◌≡◌, ◌≢◌, ◌≤◌, ◌^◌, ℕ, List, Option, Some, None, Ok, is_some, length, IfOk, IsTrue, string_bytes};
ghost use Rattle.dbn_model.specs.Lines.{lines};
ghost use Rattle.dbn_model.specs.Runs.{text_of};
ghost use Rattle.dbn_net.specs.Good.{Good};
ghost use Rattle.dbn_net.specs.Texts.{reads};
ghost use Rattle.dbn_store.specs.States.{situation, run_state};
ghost use Rattle.dbn_engine.specs.Obeying.{terms_of};
ghost use Rattle.dbn_engine.specs.Serving.{Joined};
ghost use Rattle.dbn_engine.specs.Steps.{step};
ghost use Rattle.dbn_top.specs.Calls.{Stream, Given, Tells, IsUntouched, stream, call_of};
ghost use Rattle.dbn_top.specs.Demos.{demo_line, facts_in, facts_behind};
ghost use Rattle.dbn_top.specs.Due.{reached, uses_of};
ghost use Rattle.dbn_top.specs.Endings.{Ends, Touches, Keeps, can_end};
ghost use Rattle.dbn_top.specs.Starts.{run_in_memory};
ghost use Rattle.dbn_top.specs.Starts as starts;
ghost use Rattle.dbn_top.specs.declared.verb.Verb.TheVariants as verbs;

use crate::accepting::Accepted;
use crate::generating::demo_input;
use crate::say::say;
use crate::serving::serve;
use crate::status::Status;
use crate::tally::{count_facts, counts_line};
use dbn_core::Core;
use dbn_engine::{RunEnd, RunTerms};
use dbn_io::{Bytes, Calls, Limits, MemSink, MemSource, Sink};
use dbn_keeper::{Base, Keeper, MemKeeper};
use dbn_reader::{NetFault, read_net};
use dbn_slow::SlowCore;
use std::alloc::{AllocError, Global};

// The replies to all commands, and how many facts there are behind them.
#[derive(Drop)]
struct Outcome {
    replies: MemSink,
    facts: usize,
}

// How many facts there are, of all relations.
fn facts_of<C: Core>(alloc: Global, core: &C) -> Result<usize, AllocError>
    requires { IsTrue (C.live core.now) }
    ensures { IfOk result (λ facts. facts ≡ facts_in (C.state core.now).instance) }
{
    let at = core.snapshot(alloc)?;
    count_facts(&at.instance).ok_or(AllocError)
}

fn length_of(text: &Bytes) -> u64
    ensures { result ≡ length text.now }
{
    text.as_slice().len() as u64
}

// Serves all lines of a text over a core and a keeper that stand for one snapshot. Nothing but memory can be wanting.
fn serve_text<C: Core + Drop, K: Keeper + Drop>(
    alloc: Global,
    core: C,
    keeper: K,
    terms: RunTerms,
    text: Bytes,
) -> Result<Outcome, AllocError>
    requires bound { terms.net_bytes ≤ 2 ^ 31 }
    requires folder { terms.folder ≡ is_some (K.state keeper).cap }
    requires joined { Joined (C.live core) (situation (C.rules core) (C.state core)) (K.state keeper) }
    ensures replies { IfOk result (λ o. o.replies.taken ≡ text_of (step (terms_of terms)) (run_state (situation (C.rules core) (C.state core)) (K.state keeper)) (lines text)) }
    ensures facts { IfOk result (λ o. o.facts ≡ facts_behind (terms_of terms) (run_state (situation (C.rules core) (C.state core)) (K.state keeper)) (lines text)) }
{
    let most = length_of(&text);
    let mut source = MemSource::new(text, Calls::from_vec(Vec::new(alloc)));
    let mut replies = MemSink::new(alloc, Calls::from_vec(Vec::new(alloc)));
    let served = serve(alloc, core, keeper, terms, &mut source, &mut replies, most);
    let RunEnd::Done = served.end else {
        return Err(AllocError);
    };
    let facts = facts_of(alloc, &served.core)?;
    Ok(Outcome { replies, facts })
}

// Serves all lines of a text in memory, over a net with its start snapshot.
fn serve_accepted(
    alloc: Global,
    accepted: Accepted,
    text: Bytes,
    limits: &Limits,
) -> Result<Outcome, AllocError>
    requires read { reads accepted.text ≡ Ok (record { decls = accepted.net; facts = accepted.at.instance; tokens = accepted.at.marking; next = accepted.at.next }) }
    requires good { Good accepted.net accepted.at }
    requires first { accepted.at.fired ≡ 0 }
    ensures replies { IfOk result (λ o. o.replies.taken ≡ text_of (step (starts.terms_of limits.now None)) (run_in_memory accepted.text (situation accepted.net accepted.at)) (lines text)) }
    ensures facts { IfOk result (λ o. o.facts ≡ facts_behind (starts.terms_of limits.now None) (run_in_memory accepted.text (situation accepted.net accepted.at)) (lines text)) }
{
    let next = accepted.at.next;
    let core = SlowCore::start(alloc, accepted.net, accepted.at)?;
    let base = Base {
        fired: 0,
        next,
        text: accepted.text,
    };
    let keeper = MemKeeper::new(alloc, base);
    let terms = RunTerms {
        folder: false,
        net_bytes: limits.net_bytes,
        every: None,
    };
    serve_text(alloc, core, keeper, terms, text)
}

// The line of the demo of this size.
fn demo_line(alloc: Global, size: u64, limits: &Limits) -> Result<String, AllocError>
    ensures { IfOk result (λ line. string_bytes line ≡ demo_line limits.now size) }
{
    let input = demo_input(alloc, size)?;
    match read_net(alloc, input.net.as_slice()) {
        Ok((net, at)) => {
            let accepted = Accepted {
                text: input.net,
                net,
                at,
            };
            let outcome = serve_accepted(alloc, accepted, input.commands, limits)?;
            let line = counts_line(alloc, size, outcome.replies.taken(), outcome.facts)?;
            Ok(line)
        }
        Err(NetFault::Bad { .. }) => {
            let line = String::new(alloc);
            Ok(line)
        }
        Err(NetFault::Memory) => Err(AllocError),
    }
}

/// Serves the commands of the demo of this size in memory, and writes the line that counts the replies.
#[tactic(auto, using(crate::proofs::Tops::few_of_none))]
pub(crate) fn run_demo<K: Sink>(alloc: Global, size: u64, out: &mut K, limits: &Limits) -> Status
    ensures kind { IsTrue (can_end (Some (verbs.Demo size)) result) }
    ensures ends { (net : Stream) → IsUntouched net → (commands : Stream) → IsUntouched commands → (x y : Option (List ℕ)) (given : Given) → Tells (reached limits.now (Some (verbs.Demo size)) given) (call_of (Some (verbs.Demo size)) limits.now net commands (stream (K.taken out.old) (K.taken out.new) (K.faults out.old) (K.faults out.new))) x y given → Ends result (call_of (Some (verbs.Demo size)) limits.now net commands (stream (K.taken out.old) (K.taken out.new) (K.faults out.old) (K.faults out.new))) given }
    ensures touches { (net : Stream) → IsUntouched net → (commands : Stream) → IsUntouched commands → Touches (uses_of (Some (verbs.Demo size))) result (call_of (Some (verbs.Demo size)) limits.now net commands (stream (K.taken out.old) (K.taken out.new) (K.faults out.old) (K.faults out.new))) }
    ensures keeps { (net : Stream) → IsUntouched net → (commands : Stream) → IsUntouched commands → Keeps result (call_of (Some (verbs.Demo size)) limits.now net commands (stream (K.taken out.old) (K.taken out.new) (K.faults out.old) (K.faults out.new))) }
    ensures never_disk { result ≢ Status.DiskFault }
{
    match demo_line(alloc, size, limits) {
        Ok(line) => say(out, line.as_str().as_bytes(), Status::Done),
        Err(AllocError) => Status::Memory,
    }
}
