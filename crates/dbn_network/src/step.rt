ghost use Rattle.std.specs.Prelude.{◌≡◌, ◌<◌, ℕ, [], length, IfOk, OnOk, slice_index_or};
ghost use Rattle.dbn_network.specs.declared.input.Input.TheVariants as input;
ghost use Rattle.dbn_network.specs.Inputs.{left_in, right_in};
ghost use Rattle.dbn_network.specs.Passes.{SameHeld, events_from, RunsLeft, RunsRight, Stepped};

use super::held::Held;
use super::input::{Input, left_input, right_input};
use super::running::{all_left, all_right, one_left, one_right};
use dbn_nodes::{Event, Events, Steps};
use dbn_value::Cell;
use sqlite_items::Items;
use std::alloc::{AllocError, Global};
use std::sync::ledger::Ledger;

/// The events of the node with this number.
fn events_at<C: Cell>(all: &[Events<C>], i: usize) -> &[Event<C>]
    requires { i < length all.now }
    ensures { result.now ≡ slice_index_or all.now i [] }
{
    all[i].as_slice()
}

/// The events of the left input, the first of them first: none, the event of a feed, or those of an earlier node.
fn run_left<C: Cell, L: Ledger>(
    alloc: Global,
    held: &mut Held<C>,
    feed: usize,
    event: &Event<C>,
    all: &[Events<C>],
    out: &mut Events<C>,
    steps: &mut Steps<L>,
) -> Result<(), AllocError>
    requires within { (i : ℕ) → left_in held.old.state.node ≡ input.Earlier i → i < length all.now }
    ensures same { SameHeld held.new held.old }
    ensures ok { OnOk result (RunsLeft C.cmp held.old held.new (events_from feed event.now all.now (left_in held.old.state.node)) out.old out.new steps.old steps.new) }
{
    match left_input(&held.state.node) {
        Input::Nothing => {
            return Ok(());
        }
        Input::Feed(own) => {
            if own != feed {
                return Ok(());
            }
            one_left(alloc, held, event, out, steps)?;
            return Ok(());
        }
        Input::Earlier(i) => {
            all_left(alloc, held, events_at(all, i), out, steps)?;
            return Ok(());
        }
    }
}

/// The events of the right input, the first of them first: none, the event of a feed, or those of an earlier node.
fn run_right<C: Cell, L: Ledger>(
    alloc: Global,
    held: &mut Held<C>,
    feed: usize,
    event: &Event<C>,
    all: &[Events<C>],
    out: &mut Events<C>,
    steps: &mut Steps<L>,
) -> Result<(), AllocError>
    requires within { (i : ℕ) → right_in held.old.state.node ≡ input.Earlier i → i < length all.now }
    ensures same { SameHeld held.new held.old }
    ensures ok { OnOk result (RunsRight C.cmp held.old held.new (events_from feed event.now all.now (right_in held.old.state.node)) out.old out.new steps.old steps.new) }
{
    match right_input(&held.state.node) {
        Input::Nothing => {
            return Ok(());
        }
        Input::Feed(own) => {
            if own != feed {
                return Ok(());
            }
            one_right(alloc, held, event, out, steps)?;
            return Ok(());
        }
        Input::Earlier(i) => {
            all_right(alloc, held, events_at(all, i), out, steps)?;
            return Ok(());
        }
    }
}

/// The events of both inputs run through the node, the left ones first; its own events are none where no later node reads it.
pub(crate) fn step<C: Cell, L: Ledger>(
    alloc: Global,
    held: &mut Held<C>,
    feed: usize,
    event: &Event<C>,
    all: &[Events<C>],
    steps: &mut Steps<L>,
) -> Result<Events<C>, AllocError>
    requires left { (i : ℕ) → left_in held.old.state.node ≡ input.Earlier i → i < length all.now }
    requires right { (i : ℕ) → right_in held.old.state.node ≡ input.Earlier i → i < length all.now }
    ensures same { SameHeld held.new held.old }
    ensures ok { IfOk result (λ out. Stepped C.cmp held.old held.new (events_from feed event.now all.now (left_in held.old.state.node)) (events_from feed event.now all.now (right_in held.old.state.node)) out steps.old steps.new) }
{
    let mut out = Items::new(alloc);
    run_left(alloc, held, feed, event, all, &mut out, steps)?;
    run_right(alloc, held, feed, event, all, &mut out, steps)?;
    Ok(out)
}
