//! The test of variables: each is bound where it stands.

ghost use Rattle.std.specs.Prelude.{◌≡◌, ◌&&◌, true, IfOk};
ghost use Rattle.std.specs.List.{list_all};
ghost use Rattle.std.specs.Option.{option_map_or};
ghost use Rattle.dbn_formula.specs.Variables.{is_in};
ghost use Rattle.dbn_formula.specs.Free.{occurrences};
ghost use Rattle.dbn_formula.specs.Typing.{all_bound};
ghost use Rattle.dbn_net.specs.Judging.{is_bound};
ghost use Rattle.dbn_reader.specs.Used.{HasVars};

use super::terms::{TermTest, action_passes, transition_passes};
use dbn_formula::{Formula, all_bound, free};
use dbn_net::{Decl, Entry, Net, Transition};
use dbn_value::{ColType, Var};
use std::alloc::{AllocError, Global};
use std::collections::BTreeSet;

/// Whether each variable is quantified, declared, bound, asked or fresh where it stands, and each query variable is free in the
/// formula of its query. An error is want of memory.
pub(crate) fn is_bound(alloc: Global, net: &Net, entry: &Entry) -> Result<bool, AllocError>
    ensures { IfOk result (λ ok. ok ≡ is_bound net.now entry.now) }
{
    match entry {
        Entry::Part(decl) => part_is_bound(alloc, net, decl),
        Entry::Fact { .. } | Entry::Tokens { .. } => Ok(true),
    }
}

/// The same of a declaration of the net.
fn part_is_bound(alloc: Global, net: &Net, decl: &Decl) -> Result<bool, AllocError>
    ensures { IfOk result (λ ok. ok ≡ is_bound net.now (Entry.Part decl.now)) }
{
    match decl {
        Decl::Relation { .. } | Decl::Key { .. } | Decl::Foreign { .. } | Decl::Site(_) => Ok(true),
        Decl::Always { name: _, body } => all_bound(alloc, body, &[]),
        Decl::Query {
            name: _,
            vars,
            body,
        } => query_is_bound(alloc, vars.as_slice(), body),
        Decl::Act(action) => Ok(action_passes(TermTest::Bound, net, action)),
        Decl::Trans(transition) => transition_is_bound(alloc, net, transition),
    }
}

/// Whether each free variable of the formula is one of these, and each of these is free in it. An error is want of memory.
fn query_is_bound(
    alloc: Global,
    vars: &[(Var, ColType)],
    body: &Formula,
) -> Result<bool, AllocError>
    ensures { IfOk result (λ ok. ok ≡ (all_bound body.now vars.now && list_all (λ x. is_in x.0 (occurrences body.now)) vars.now)) }
{
    if !all_bound(alloc, body, vars)? {
        return Ok(false);
    }
    are_free(alloc, vars, body)
}

/// Whether each of the variables is free in the formula. An error is want of memory.
fn are_free(alloc: Global, vars: &[(Var, ColType)], body: &Formula) -> Result<bool, AllocError>
    ensures { IfOk result (λ ok. ok ≡ list_all (λ x. is_in x.0 (occurrences body.now)) vars.now) }
{
    let used = free(alloc, body)?;
    are_used(alloc, vars, used.as_slice())
}

/// Whether each of the variables is among those that are used. An error is want of memory.
fn are_used<'x>(
    alloc: Global,
    vars: &'x [(Var, ColType)],
    used: &'x [Var],
) -> Result<bool, AllocError>
    ensures { IfOk result (λ ok. ok ≡ list_all (λ x. is_in x.0 used.now) vars.now) }
{
    let known = set_of(alloc, used)?;
    for var in vars {
        if !known.contains(&&var.0) {
            return Ok(false);
        }
    }
    Ok(true)
}

/// The variables as a set. An error is want of memory.
fn set_of<'x>(alloc: Global, vars: &'x [Var]) -> Result<BTreeSet<&'x Var>, AllocError>
    ensures { IfOk result (λ set. HasVars (λ k. k.now) set.keys vars.now) }
{
    let mut set = BTreeSet::new(alloc);
    for var in vars {
        set.insert(var)?;
    }
    Ok(set)
}

/// The same of a transition.
fn transition_is_bound(
    alloc: Global,
    net: &Net,
    transition: &Transition,
) -> Result<bool, AllocError>
    ensures { IfOk result (λ ok. ok ≡ is_bound net.now (Entry.Part (Decl.Trans transition.now))) }
{
    if !transition_passes(alloc, net, TermTest::Bound, transition)? {
        return Ok(false);
    }
    guard_is_bound(alloc, &transition.guard, transition.bound.as_slice())
}

/// Whether each variable of the guard, if there is one, is bound. An error is want of memory.
fn guard_is_bound(
    alloc: Global,
    guard: &Option<Formula>,
    bound: &[(Var, ColType)],
) -> Result<bool, AllocError>
    ensures { IfOk result (λ ok. ok ≡ option_map_or (λ g. all_bound g bound.now) guard.now true) }
{
    match guard {
        None => Ok(true),
        Some(body) => all_bound(alloc, body, bound),
    }
}
