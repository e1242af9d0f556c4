//! Reading a net, and the line for one that is not accepted.

ghost use Rattle.std.specs.Prelude.{◌≡◌, ◌≢◌, ◌≤◌, ℕ, List, Some, IfOk, IfErr, OnOk, OnErr, IsTrue, string_bytes};
ghost use Rattle.std.specs.Io.KnownBytes.{IsAtEnd};
ghost use Rattle.dbn_model.specs.Causes.{Rose};
ghost use Rattle.dbn_model.specs.Content.{SameTold};
ghost use Rattle.dbn_net.specs.Good.{Good};
ghost use Rattle.dbn_net.specs.Texts.{reads};
ghost use Rattle.dbn_store.specs.States.{Situation, situation};
ghost use Rattle.dbn_top.specs.Calls.{stream};
ghost use Rattle.dbn_top.specs.Due.{kind_word, net_line, with_net};
ghost use Rattle.dbn_top.specs.Endings.{TakesFew, can_end};
ghost use Rattle.dbn_top.specs.Starts.{accepted_in};
ghost use Rattle.dbn_top.specs.Writing.{Declared, Writes, due};
ghost use Rattle.dbn_top.specs.declared.verb.Verb.TheVariants as verbs;

use crate::say::say;
use crate::status::Status;
use dbn_io::{Bytes, Limits, ReadStop, Sink, Source, take_all};
use dbn_net::{Net, NetKind, Snapshot};
use dbn_reader::{NetFault, read_net};
use std::alloc::Global;

/// A net that is accepted, with its start snapshot, and its text.
#[derive(Drop)]
pub(crate) struct Accepted {
    pub(crate) text: Bytes,
    pub(crate) net: Net,
    pub(crate) at: Snapshot,
}

// The word for a kind of fault.
fn kind_word(kind: NetKind) -> &'static str
    ensures { result.now ≡ kind_word kind }
{
    match kind {
        NetKind::Syntax => "syntax",
        NetKind::Declaration => "declaration",
        NetKind::Limit => "limit",
        NetKind::Duplicate => "duplicate",
        NetKind::Unknown => "unknown",
        NetKind::Arity => "arity",
        NetKind::TypeClash => "type-clash",
        NetKind::Unbound => "unbound",
        NetKind::Unsafe => "unsafe",
        NetKind::Count => "count",
        NetKind::Inconsistent => "inconsistent",
    }
}

// The line for the first fault of a net.
fn net_line(alloc: Global, line: u64, kind: NetKind) -> Result<String, Status>
    ensures line { IfOk result (λ text. string_bytes text ≡ net_line line kind) }
    ensures memory { IfErr result (λ ended. ended ≡ Status.Memory) }
{
    match format!(in alloc; "net {line} {}\n", kind_word(kind)) {
        Ok(text) => Ok(text),
        Err(_) => Err(Status::Memory),
    }
}

// Says what is wrong with a net.
fn refuse_net<K: Sink>(alloc: Global, line: u64, kind: NetKind, out: &mut K) -> Status
    ensures writes { Writes result (due Status.Net (net_line line kind)) (stream (K.taken out.old) (K.taken out.new) (K.faults out.old) (K.faults out.new)) }
    ensures kind { IsTrue (can_end (Some verbs.Check) result) }
    ensures never { (result ≢ Status.Done) × (result ≢ Status.DiskFault) × (result ≢ Status.ReadFault) }
    ensures told { SameTold (K.taken out.old) (K.taken out.new) }
    ensures later { K.faults out.old ≤ K.faults out.new }
    ensures write { result ≡ Status.WriteFault → Rose (K.faults out.old) (K.faults out.new) }
    ensures calm { result ≢ Status.WriteFault → K.faults out.new ≡ K.faults out.old }
{
    match net_line(alloc, line, kind) {
        Ok(text) => say(out, text.as_str().as_bytes(), Status::Net),
        Err(_) => Status::Memory,
    }
}

/// Reads the net whole. Where it isn't accepted, its line is written, and an error says how the call ends.
pub(crate) fn read_accepted<N: Source, K: Sink>(
    alloc: Global,
    net: &mut N,
    out: &mut K,
    limits: &Limits,
) -> Result<Accepted, Status>
    ensures accepted { (text : List ℕ) → N.left net.old ≡ Some text → IfOk result (λ s. (s.text ≡ text) × (accepted_in limits.now text ≡ Some (situation s.net s.at)) × (K.taken out.new ≡ K.taken out.old)) }
    ensures text { IfOk result (λ s. reads s.text ≡ Ok (record { decls = s.net; facts = s.at.instance; tokens = s.at.marking; next = s.at.next })) }
    ensures good { IfOk result (λ s. Good s.net s.at × (s.at.fired ≡ 0)) }
    ensures refused { (text : List ℕ) (then : Situation → Declared) → N.left net.old ≡ Some text → IfErr result (λ ended. Writes ended (with_net limits.now text then) (stream (K.taken out.old) (K.taken out.new) (K.faults out.old) (K.faults out.new))) }
    ensures none { (text : List ℕ) → N.left net.old ≡ Some text → IfErr result (λ ended. ended ≢ Status.ReadFault → ended ≢ Status.Memory → accepted_in limits.now text ≡ None) }
    ensures end { OnOk result (IsAtEnd (N.left net.new)) }
    ensures quiet { OnOk result ((K.faults out.new ≡ K.faults out.old) × (K.taken out.new ≡ K.taken out.old)) }
    ensures kind { IfErr result (λ ended. IsTrue (can_end (Some verbs.Check) ended)) }
    ensures never { IfErr result (λ ended. (ended ≢ Status.Done) × (ended ≢ Status.DiskFault)) }
    ensures read { IfErr result (λ ended. (ended ≡ Status.ReadFault → Rose (N.faults net.old) (N.faults net.new)) × (ended ≢ Status.ReadFault → N.faults net.new ≡ N.faults net.old)) }
    ensures quiet_err { IfErr result (λ ended. ended ≡ Status.ReadFault → K.taken out.new ≡ K.taken out.old) }
    ensures write { IfErr result (λ ended. (ended ≡ Status.WriteFault → Rose (K.faults out.old) (K.faults out.new)) × (ended ≢ Status.WriteFault → K.faults out.new ≡ K.faults out.old)) }
    ensures calm { OnOk result (N.faults net.new ≡ N.faults net.old) }
    ensures told { SameTold (N.left net.old) (N.left net.new) × SameTold (K.taken out.old) (K.taken out.new) }
    ensures later { (N.faults net.old ≤ N.faults net.new) × (K.faults out.old ≤ K.faults out.new) }
    ensures few { TakesFew limits.now.net_bytes (stream (N.left net.old) (N.left net.new) (N.faults net.old) (N.faults net.new)) }
{
    let text = match take_all(alloc, net, limits.net_bytes) {
        Ok(text) => text,
        Err(ReadStop::Failed) => return Err(Status::ReadFault),
        Err(ReadStop::Over) => return Err(Status::InputLimit),
        Err(ReadStop::Memory) => return Err(Status::Memory),
    };
    match read_net(alloc, text.as_slice()) {
        Ok((net, at)) => Ok(Accepted { text, net, at }),
        Err(NetFault::Bad { line, kind }) => Err(refuse_net(alloc, line, kind, out)),
        Err(NetFault::Memory) => Err(Status::Memory),
    }
}
