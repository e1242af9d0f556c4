//! Firings: the tests before one, and the snapshot after it.

ghost use Rattle.std.specs.Prelude.{◌≡◌, ◌+◌, ◌<◌, ◌≤◌, ◌^◌, ◌++◌, length, None, IfOk, OnOk};
ghost use Rattle.dbn_value.specs.declared.value.ColType.TheVariants as col;
ghost use Rattle.dbn_formula.specs.Solutions.{HasShape};
ghost use Rattle.dbn_net.specs.Tables.{transitions, shape_of, scope_of, with_type};
ghost use Rattle.dbn_net.specs.Values.{id_below, ids_below};
ghost use Rattle.dbn_net.specs.Enabled.{asked_part, shape_at};
ghost use Rattle.dbn_net.specs.Good.{Good};
ghost use Rattle.dbn_core.specs.Standing.{Stands};
ghost use Rattle.dbn_core.specs.Fire.{produced, scope_values, fresh_values, outcome_of, fire_env, refusal, fire_as, fire_at};
ghost use Rattle.dbn_core.specs.Answers.{Tells};
ghost use Rattle.dbn_slow.specs.Makes.{Makes};

use super::actions::act;
use super::enabling::{front, is_enabled};
use super::tokens::moved;
use dbn_arc::instantiate;
use dbn_core::{FireFault, Fired, Outcome, Refusal};
use dbn_net::{Arcs, Net, Snapshot, Transition};
use dbn_value::{ColType, CopyIn, ID_END, IdNo, Row, TypedVars, Value, Var};
use sqlite_items::Items;
use std::alloc::{AllocError, Global};

/// A firing that is not refused, with the snapshot after it.
#[derive(Drop)]
pub(crate) struct Made {
    pub fired: Fired,
    pub at: Snapshot,
}

/// Fires the transition: what is told of it, with the snapshot after it.
pub(crate) fn fire(
    alloc: Global,
    net: &Net,
    at: &Snapshot,
    t: usize,
    row: &Row<Value>,
) -> Result<Made, FireFault>
    requires good { Good net.now at.now }
    requires within { t < length (transitions net.now) }
    requires shape { HasShape row.now (shape_at net.now t) }
    ensures { Makes (fire_at net.now at.now t row.now) result }
{
    let _net = net.decls();
    let transition = net.transition_at(t);
    test(alloc, net, at, transition, row)?;
    make(alloc, net, at, transition, row)
}

/// The first refusal that applies before the outcome is found.
pub(crate) fn test(
    alloc: Global,
    net: &Net,
    at: &Snapshot,
    transition: &Transition,
    row: &Row<Value>,
) -> Result<(), FireFault>
    requires stands { Stands net.now transition.now }
    requires good { Good net.now at.now }
    requires shape { HasShape row.now (shape_of transition.now) }
    ensures { Tells (refusal net.now transition.now at.now row.now) result }
{
    if !is_enabled(alloc, net, at, transition, row)? {
        return Err(FireFault::Refused(Refusal::Disabled));
    }
    if !are_known(at.next, transition, row) {
        return Err(FireFault::Refused(Refusal::UnknownId));
    }
    let many = transition.fresh.len() as u64;
    if many > ID_END || at.next > ID_END - many {
        return Err(FireFault::Refused(Refusal::FreshEnd));
    }
    if at.fired == ID_END {
        return Err(FireFault::Refused(Refusal::FiringEnd));
    }
    Ok(())
}

/// Whether each id among the asked values is below the next one.
fn are_known(next: u64, transition: &Transition, row: &Row<Value>) -> bool
    ensures { result ≡ ids_below next (asked_part transition.now row.now) }
{
    row.as_slice()
        .iter()
        .skip(transition.bound.len())
        .all(|value| is_below(next, value))
}

/// Whether the value is no id, or one below the next one.
fn is_below(next: u64, value: &Value) -> bool
    ensures { result ≡ id_below next value.now }
{
    match value {
        Value::Id(id) => id.number() < next,
        _ => true,
    }
}

/// The outcome, with the snapshot after it, of a firing that passed the tests. It is refused with the first place in which a
/// count would pass its limit.
fn make(
    alloc: Global,
    net: &Net,
    at: &Snapshot,
    transition: &Transition,
    row: &Row<Value>,
) -> Result<Made, FireFault>
    requires stands { Stands net.now transition.now }
    requires good { Good net.now at.now }
    requires shape { HasShape row.now (shape_of transition.now) }
    requires passed { refusal net.now transition.now at.now row.now ≡ None }
    ensures { Makes (fire_as net.now transition.now at.now row.now (fire_env transition.now row.now at.now.next)) result }
{
    let scope = scope(alloc, transition)?;
    let values = values(alloc, transition, row, at.next)?;
    let acted = act(alloc, net, &at.instance, transition, &scope, &values)?;
    let bound = front(alloc, row, transition.bound.len())?;
    let takes = instantiate(alloc, &transition.ins, &transition.bound, &bound)?;
    let gives = instantiate(
        alloc,
        produced(transition, acted.committed),
        &scope,
        &values,
    )?;
    let marking = moved(alloc, &at.marking, &takes, &gives)?;
    let many = transition.fresh.len() as u64;
    Ok(Made {
        fired: Fired {
            outcome: outcome(acted.committed),
            first: at.next,
            many,
        },
        at: Snapshot {
            instance: acted.instance,
            marking,
            next: at.next + many,
            fired: at.fired + 1,
        },
    })
}

/// The clauses that produce.
fn produced(transition: &Transition, committed: bool) -> &Arcs
    ensures { result.now ≡ produced transition.now committed }
{
    if committed {
        &transition.outs
    } else {
        &transition.backs
    }
}

fn outcome(committed: bool) -> Outcome
    ensures { result ≡ outcome_of committed }
{
    if committed {
        Outcome::Committed
    } else {
        Outcome::RolledBack
    }
}

/// All variables of the transition with their types: those that are given, and the fresh ones. An error is want of memory.
fn scope(alloc: Global, transition: &Transition) -> Result<TypedVars, AllocError>
    ensures { IfOk result (λ scope. scope ≡ scope_of transition.now) }
{
    let mut scope = transition.bound.copy_in(alloc)?;
    scope.append(transition.asked.copy_in(alloc)?)?;
    push_ids(alloc, &mut scope, transition.fresh.as_slice())?;
    Ok(scope)
}

/// Appends the variables, each of them an id.
fn push_ids(alloc: Global, scope: &mut TypedVars, fresh: &[Var]) -> Result<(), AllocError>
    ensures { OnOk result (scope.new ≡ scope.old ++ with_type col.Id fresh.now) }
{
    for var in fresh {
        scope.push((var.copy_in(alloc)?, ColType::Id))?;
    }
    Ok(())
}

/// The values of all variables: those of the row, and then the fresh ids from the next one on. An error is want of memory.
fn values(
    alloc: Global,
    transition: &Transition,
    row: &Row<Value>,
    next: u64,
) -> Result<Row<Value>, AllocError>
    requires { next + length transition.now.fresh ≤ 2 ^ 62 }
    ensures { IfOk result (λ values. values ≡ scope_values transition.now row.now next) }
{
    let mut values = Vec::new(alloc);
    for value in row.as_slice() {
        values.push(value.copy_in(alloc)?)?;
    }
    push_fresh(&mut values, next, transition.fresh.as_slice())?;
    Ok(Row::from_vec(values))
}

/// Appends the ids from the next one on, one for each variable.
fn push_fresh(values: &mut Vec<Value>, next: u64, fresh: &[Var]) -> Result<(), AllocError>
    requires { next + length fresh.now ≤ 2 ^ 62 }
    ensures { OnOk result (values.new.items ≡ values.old.items ++ fresh_values next fresh.now) }
{
    let mut number = next;
    for _var in fresh {
        match IdNo::new(number) {
            Some(id) => values.push(Value::Id(id))?,
            None => unreachable!(),
        }
        number += 1;
    }
    Ok(())
}
