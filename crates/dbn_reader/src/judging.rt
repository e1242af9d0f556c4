//! All tests of a declaration, in their order.

ghost use Rattle.std.specs.Prelude.{◌≡◌, length, Ok, IfOk};
ghost use Rattle.dbn_net.specs.Tables.{relations, places};
ghost use Rattle.dbn_net.specs.Naming.{resolved};
ghost use Rattle.dbn_net.specs.Judging.{judged_entry, judged_resolved, judged};
ghost use Rattle.dbn_reader.specs.Judged.{or_fault, Judges, Leaves};

use super::arity::has_arity;
use super::binding::is_bound;
use super::counting::{is_counted, is_safe};
use super::duplicates::no_duplicate;
use super::limits::within_limits;
use super::resolving::resolved;
use super::typing::is_typed;
use dbn_instance::Instance;
use dbn_marking::Marking;
use dbn_net::{Entry, Net, NetKind, Written};
use dbn_value::Value;
use std::alloc::{AllocError, Global};

/// Why a declaration is not taken up.
#[derive(Debug, Clone, Copy, PartialEq, Eq, Drop)]
pub(crate) enum Refused {
    /// It has a fault of this kind.
    Kind(NetKind),
    /// There was no memory.
    Memory,
}

impl From<AllocError> for Refused {
    ghost use Rattle.std.specs.Prelude.{◌≡◌};
    ghost use Rattle.dbn_reader.specs.declared.judging.Refused.{Refused as Fault};
    ghost use Rattle.dbn_reader.specs.declared.judging.Refused.TheVariants.{Memory};

    ghost from_gives = { λ _ f. f ≡ Memory };

    fn from(_error: AllocError) -> Refused {
        Refused::Memory
    }
}

/// What the declaration means behind those of the net, with these facts and tokens, or the kind of its first fault.
pub(crate) fn judged(
    alloc: Global,
    net: &Net,
    facts: &Instance<Value>,
    tokens: &Marking<Value>,
    written: Written,
) -> Result<Entry, Refused>
    requires facts { length facts.now ≡ length (relations net.now) }
    requires tokens { length tokens.now ≡ length (places net.now) }
    ensures { Judges result (judged net.now (record { facts = facts.now; tokens = tokens.now }) written) }
{
    match check_written(alloc, net, facts, tokens, &written) {
        Ok(()) => check_resolved(alloc, net, written),
        Err(refused) => Err(refused),
    }
}

/// Tests the declaration as it is written: nothing of it is too much, and nothing was declared before.
fn check_written(
    alloc: Global,
    net: &Net,
    facts: &Instance<Value>,
    tokens: &Marking<Value>,
    written: &Written,
) -> Result<(), Refused>
    requires facts { length facts.now ≡ length (relations net.now) }
    requires tokens { length tokens.now ≡ length (places net.now) }
    ensures { Leaves result (judged_resolved net.now (resolved net.now written.now)) (judged net.now (record { facts = facts.now; tokens = tokens.now }) written.now) }
{
    if !within_limits(alloc, net, written)? {
        return Err(Refused::Kind(NetKind::Limit));
    }
    if !no_duplicate(alloc, net, facts, tokens, written)? {
        return Err(Refused::Kind(NetKind::Duplicate));
    }
    Ok(())
}

/// What the declaration means with numbers for its names, or the kind of its first fault.
fn check_resolved(alloc: Global, net: &Net, written: Written) -> Result<Entry, Refused>
    ensures { Judges result (judged_resolved net.now (resolved net.now written)) }
{
    match resolved(alloc, net, written)? {
        None => Err(Refused::Kind(NetKind::Unknown)),
        Some(entry) => passed(alloc, net, entry),
    }
}

/// The declaration, or the kind of its first fault among those that are looked for when its names are known.
fn passed(alloc: Global, net: &Net, entry: Entry) -> Result<Entry, Refused>
    ensures { Judges result (judged_entry net.now entry) }
{
    match check_entry(alloc, net, &entry) {
        Ok(()) => Ok(entry),
        Err(refused) => Err(refused),
    }
}

/// Tests the declaration with numbers for its names.
fn check_entry(alloc: Global, net: &Net, entry: &Entry) -> Result<(), Refused>
    ensures { Leaves result (Ok entry.now) (judged_entry net.now entry.now) }
{
    match judged_entry(alloc, net, entry)? {
        Some(kind) => Err(Refused::Kind(kind)),
        None => Ok(()),
    }
}

/// The kind of the first fault of the declaration among those that are looked for when its names are known, if it has one.
/// An error is want of memory.
pub(crate) fn judged_entry(
    alloc: Global,
    net: &Net,
    entry: &Entry,
) -> Result<Option<NetKind>, AllocError>
    ensures { IfOk result (λ fault. judged_entry net.now entry.now ≡ or_fault entry.now fault) }
{
    if !has_arity(alloc, net, entry)? {
        return Ok(Some(NetKind::Arity));
    }
    if !is_typed(alloc, net, entry)? {
        return Ok(Some(NetKind::TypeClash));
    }
    if !is_bound(alloc, net, entry)? {
        return Ok(Some(NetKind::Unbound));
    }
    if !is_safe(alloc, entry)? {
        return Ok(Some(NetKind::Unsafe));
    }
    if !is_counted(entry) {
        return Ok(Some(NetKind::Count));
    }
    Ok(None)
}
