//! What an action makes of the facts.

ghost use Rattle.std.specs.Prelude.{◌≡◌, ◌<◌, true, [], length, if◌then◌else◌, Some, slice_get, IfOk, OnOk};
ghost use Rattle.std.specs.List.{All};
ghost use Rattle.dbn_value.specs.Order.{value_cmp};
ghost use Rattle.dbn_value.specs.Scope.{bind};
ghost use Rattle.dbn_formula.specs.Solutions.{HasShape, HasShapes};
ghost use Rattle.dbn_instance.specs.Facts.{fact_of, after_changes};
ghost use Rattle.dbn_instance.specs.declared.fact.Action.{Action};
ghost use Rattle.dbn_net.specs.Tables.{actions, relations, relation_shapes, types_of, scope_of};
ghost use Rattle.dbn_net.specs.Sentences.{consistent};
ghost use Rattle.dbn_net.specs.Good.{RowsFit};
ghost use Rattle.dbn_net.specs.WellFormed.{facts_known};
ghost use Rattle.dbn_core.specs.Standing.{Stands};
ghost use Rattle.dbn_core.specs.Fire.{acted, called, commits};

use dbn_instance::{Change, Instance, ground, net_changes};
use dbn_net::{Call, Net, Transition, violations};
use dbn_scratch::holds;
use dbn_value::{CopyIn, Row, TypedVars, Value, row_of};
use std::alloc::{AllocError, Global};

/// The facts after a firing, and whether it is committed.
#[derive(Drop)]
pub(crate) struct Acted {
    pub instance: Instance<Value>,
    pub committed: bool,
}

/// The facts after the call of the action, where there is one and its result is consistent, else a copy of the facts. An
/// error is want of memory.
pub(crate) fn act(
    alloc: Global,
    net: &Net,
    instance: &Instance<Value>,
    transition: &Transition,
    scope: &TypedVars,
    values: &Row<Value>,
) -> Result<Acted, AllocError>
    requires stands { Stands net.now transition.now }
    requires scope { scope.now ≡ scope_of transition.now }
    requires values { HasShape values.now (types_of scope.now) }
    requires facts { RowsFit instance.now (relation_shapes net.now) }
    ensures committed { IfOk result (λ made. made.committed ≡ commits net.now (bind scope.now values.now []) transition.now.call instance.now) }
    ensures instance { IfOk result (λ made. made.instance ≡ (if made.committed then called net.now (bind scope.now values.now []) transition.now.call instance.now else instance.now)) }
{
    match &transition.call {
        None => Ok(Acted {
            instance: instance.copy_in(alloc)?,
            committed: true,
        }),
        Some(call) => {
            let after = perform(alloc, net, instance, call, scope, values)?;
            committed(alloc, net, instance, after)
        }
    }
}

/// The facts after an action, where they are consistent, else a copy of those before. An error is want of memory.
fn committed(
    alloc: Global,
    net: &Net,
    before: &Instance<Value>,
    after: Instance<Value>,
) -> Result<Acted, AllocError>
    requires { HasShapes (relation_shapes net.now) after }
    ensures committed { IfOk result (λ made. made.committed ≡ consistent net.now after) }
    ensures instance { IfOk result (λ made. made.instance ≡ (if made.committed then after else before.now)) }
{
    if is_consistent(alloc, net, &after)? {
        Ok(Acted {
            instance: after,
            committed: true,
        })
    } else {
        Ok(Acted {
            instance: before.copy_in(alloc)?,
            committed: false,
        })
    }
}

/// What the called action makes of the facts. An error is want of memory.
fn perform(
    alloc: Global,
    net: &Net,
    instance: &Instance<Value>,
    call: &Call,
    scope: &TypedVars,
    values: &Row<Value>,
) -> Result<Instance<Value>, AllocError>
    requires action { call.now.action < length (actions net.now) }
    requires relations { length instance.now ≡ length (relations net.now) }
    requires deletes { (a : Action) → slice_get (actions net.now) call.now.action ≡ Some a → facts_known net.now a.deletes ≡ true }
    ensures { IfOk result (λ after. after ≡ acted net.now (bind scope.now values.now []) call.now instance.now) }
{
    let _net = net.decls();
    let action = net.action_at(call.action);
    let args = row_of(alloc, call.args.as_slice(), scope.as_slice(), values)?;
    let deletes = ground(alloc, &action.deletes, &action.params, &args)?;
    let adds = ground(alloc, &action.adds, &action.params, &args)?;
    let changes = net_changes(alloc, &deletes, &adds, instance)?;
    changed(alloc, instance, changes.as_slice())
}

/// A copy of the facts after the changes. An error is want of memory.
fn changed(
    alloc: Global,
    instance: &Instance<Value>,
    changes: &[Change<Value>],
) -> Result<Instance<Value>, AllocError>
    requires { All (λ c. (fact_of c).rel < length instance.now) changes.now }
    ensures { IfOk result (λ after. after ≡ after_changes value_cmp changes.now instance.now) }
{
    let mut after = instance.copy_in(alloc)?;
    for change in changes {
        after.apply(alloc, change)?;
    }
    Ok(after)
}

/// Whether no sentence of the net is violated. An error is want of memory.
fn is_consistent(alloc: Global, net: &Net, instance: &Instance<Value>) -> Result<bool, AllocError>
    requires { HasShapes (relation_shapes net.now) instance.now }
    ensures { IfOk result (λ b. b ≡ consistent net.now instance.now) }
{
    let _net = net.decls();
    for violation in violations(net).as_slice() {
        if holds(alloc, &violation.item, instance)? {
            return Ok(false);
        }
    }
    Ok(true)
}
