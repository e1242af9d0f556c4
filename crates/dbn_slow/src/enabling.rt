//! Which rows enable a transition.

ghost use Rattle.std.specs.Prelude.{◌≡◌, ◌<◌, ◌≤◌, ◌&&◌, true, [], take, length, IfOk};
ghost use Rattle.std.specs.List.{list_all, list_any};
ghost use Rattle.std.specs.Option.{option_map_or};
ghost use Rattle.dbn_value.specs.Order.{value_cmp};
ghost use Rattle.dbn_value.specs.Scope.{bind};
ghost use Rattle.dbn_formula.specs.Holds.{row_eq};
ghost use Rattle.dbn_formula.specs.Solutions.{HasShape, HasShapes};
ghost use Rattle.dbn_net.specs.Tables.{places, relation_shapes, types_of, shape_of};
ghost use Rattle.dbn_net.specs.Wants.{wants, contained};
ghost use Rattle.dbn_net.specs.Enabled.{is_read, guard_holds, enabled};
ghost use Rattle.dbn_net.specs.WellFormed.{Fits};

use super::views::view_rows;
use dbn_arc::{guard_holds, included, instantiate};
use dbn_instance::Instance;
use dbn_net::{Net, Read, Snapshot, Transition};
use dbn_value::{CopyIn, Row, TypedVars, Value, row_of};
use std::alloc::{AllocError, Global};

/// Whether the row enables the transition. An error is want of memory.
pub(crate) fn is_enabled(
    alloc: Global,
    net: &Net,
    at: &Snapshot,
    transition: &Transition,
    row: &Row<Value>,
) -> Result<bool, AllocError>
    requires fits { Fits net.now transition.now }
    requires shapes { HasShapes (relation_shapes net.now) at.now.instance }
    requires row { HasShape row.now (shape_of transition.now) }
    ensures { IfOk result (λ b. b ≡ enabled net.now transition.now at.now.instance at.now.marking row.now) }
{
    let bound = front(alloc, row, transition.bound.len())?;
    if !has_tokens(alloc, at, transition, &bound)? {
        return Ok(false);
    }
    if !all_read(alloc, net, &at.instance, transition, &bound)? {
        return Ok(false);
    }
    Ok(is_guarded(transition, &bound))
}

/// The first values of the row.
pub(crate) fn front(alloc: Global, row: &Row<Value>, many: usize) -> Result<Row<Value>, AllocError>
    requires { many ≤ length row.now }
    ensures { IfOk result (λ part. part ≡ take many row.now) }
{
    let mut values = Vec::new(alloc);
    for value in &row.as_slice()[..many] {
        values.push(value.copy_in(alloc)?)?;
    }
    Ok(Row::from_vec(values))
}

/// Whether the tokens of the `in` clauses are there. An error is want of memory.
pub(crate) fn has_tokens(
    alloc: Global,
    at: &Snapshot,
    transition: &Transition,
    bound: &Row<Value>,
) -> Result<bool, AllocError>
    requires { HasShape bound.now (types_of transition.now.bound) }
    ensures { IfOk result (λ b. b ≡ contained value_cmp (wants (bind transition.now.bound bound.now []) transition.now.ins) at.now.marking) }
{
    let wants = instantiate(alloc, &transition.ins, &transition.bound, bound)?;
    Ok(included(&wants, &at.marking))
}

/// Whether the guard holds, or there is none.
pub(crate) fn is_guarded(transition: &Transition, bound: &Row<Value>) -> bool
    requires { HasShape bound.now (types_of transition.now.bound) }
    ensures { result ≡ option_map_or (λ g. guard_holds g (bind transition.now.bound bound.now [])) transition.now.guard true }
{
    match &transition.guard {
        Some(guard) => guard_holds(guard, &transition.bound, bound),
        None => true,
    }
}

/// Whether each tuple is a row of its view. An error is want of memory.
fn all_read(
    alloc: Global,
    net: &Net,
    instance: &Instance<Value>,
    transition: &Transition,
    bound: &Row<Value>,
) -> Result<bool, AllocError>
    requires fits { Fits net.now transition.now }
    requires shapes { HasShapes (relation_shapes net.now) instance.now }
    ensures { IfOk result (λ b. b ≡ list_all (is_read net.now instance.now (bind transition.now.bound bound.now [])) transition.now.reads) }
{
    for read in transition.reads.as_slice() {
        if !is_read(alloc, net, instance, read, &transition.bound, bound)? {
            return Ok(false);
        }
    }
    Ok(true)
}

/// Whether the tuple is a row of the view. An error is want of memory.
fn is_read(
    alloc: Global,
    net: &Net,
    instance: &Instance<Value>,
    read: &Read,
    scope: &TypedVars,
    bound: &Row<Value>,
) -> Result<bool, AllocError>
    requires view { read.now.view < length (places net.now) }
    requires shapes { HasShapes (relation_shapes net.now) instance.now }
    ensures { IfOk result (λ b. b ≡ is_read net.now instance.now (bind scope.now bound.now []) read.now) }
{
    let rows = view_rows(alloc, net, instance, read.view)?;
    let tuple = row_of(alloc, read.terms.as_slice(), scope.as_slice(), bound)?;
    Ok(has_row(rows.as_slice(), &tuple))
}

fn has_row(rows: &[Row<Value>], tuple: &Row<Value>) -> bool
    ensures { result ≡ list_any (λ row. row_eq row tuple.now) rows.now }
{
    rows.iter().any(|row| row == tuple)
}
