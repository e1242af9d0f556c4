ghost use Rattle.std.specs.Prelude.{◌≡◌, ◌<◌, ◌⊎◌, ℕ, [], length, OnOk, slice_set, slice_index_or};
ghost use Rattle.dbn_value.specs.Members.{In};
ghost use Rattle.dbn_network.specs.declared.held.Held.{Held as HeldOf};
ghost use Rattle.dbn_network.specs.declared.input.Input.TheVariants as input;
ghost use Rattle.dbn_network.specs.Inputs.{left_in, right_in};
ghost use Rattle.dbn_network.specs.Passes.{Alike, Costs, Passed};
ghost use Rattle.dbn_network.specs.Holding.{nodes_of};
ghost use Rattle.dbn_network.specs.Walks.{marked_from, marks, AreWalks};

use super::held::Held;
use super::step::step;
use super::walks::Walk;
use dbn_nodes::{Event, Events, Steps};
use dbn_value::Cell;
use sqlite_items::Items;
use std::alloc::{AllocError, Global};
use std::sync::ledger::Ledger;

/// The events that a node made.
fn put<C: Cell>(made: &mut Vec<Events<C>>, node: usize, events: Events<C>)
    requires { node < length made.old.items }
    ensures { made.new.items ≡ slice_set made.old.items node events }
{
    made[node] = events;
}

/// The event of a feed runs through the nodes that it reaches, in their order. All others stay as they are.
fn pass<C: Cell, L: Ledger>(
    alloc: Global,
    states: &mut Vec<Held<C>>,
    made: &mut Vec<Events<C>>,
    walk: &[usize],
    feed: usize,
    event: &Event<C>,
    steps: &mut Steps<L>,
) -> Result<(), AllocError>
    requires earlier { (i : ℕ) (d : HeldOf C) → i < length states.old.items → (k : ℕ) → (left_in (slice_index_or states.old.items i d).state.node ≡ input.Earlier k) ⊎ (right_in (slice_index_or states.old.items i d).state.node ≡ input.Earlier k) → k < i }
    requires walk { walk.now ≡ marked_from 0 (marks feed (nodes_of states.old.items)) }
    requires many { length made.old.items ≡ length states.old.items }
    requires none { (i : ℕ) → slice_index_or made.old.items i [] ≡ [] }
    ensures nodes { Alike states.new.items states.old.items }
    ensures ok { OnOk result (Passed C.cmp states.old.items states.new.items feed event.now) }
    ensures cost { OnOk result (Costs C.cmp states.old.items feed event.now steps.old steps.new) }
    ensures many { OnOk result (length made.new.items ≡ length states.old.items) }
    ensures made { OnOk result ((i : ℕ) → (slice_index_or made.new.items i [] ≡ []) ⊎ In i walk.now) }
{
    for node in walk {
        let events = step(
            alloc,
            &mut states[*node],
            feed,
            event,
            made.as_slice(),
            steps,
        )?;
        put(made, *node, events);
    }
    Ok(())
}

/// The events of the nodes of the walk are let go.
fn clear<C: Cell>(alloc: Global, made: &mut Vec<Events<C>>, walk: &[usize])
    requires { (i : ℕ) → In i walk.now → i < length made.old.items }
    ensures many { length made.new.items ≡ length made.old.items }
    ensures none { (i : ℕ) → (slice_index_or made.old.items i [] ≡ []) ⊎ In i walk.now → slice_index_or made.new.items i [] ≡ [] }
{
    for number in walk {
        put(made, *number, Items::new(alloc));
    }
}

/// The event of a feed runs through the nodes that it reaches.
pub(crate) fn run<C: Cell, L: Ledger>(
    alloc: Global,
    states: &mut Vec<Held<C>>,
    made: &mut Vec<Events<C>>,
    walks: &[Walk],
    feed: usize,
    event: &Event<C>,
    steps: &mut Steps<L>,
) -> Result<(), AllocError>
    requires range { feed < length walks.now }
    requires earlier { (i : ℕ) (d : HeldOf C) → i < length states.old.items → (k : ℕ) → (left_in (slice_index_or states.old.items i d).state.node ≡ input.Earlier k) ⊎ (right_in (slice_index_or states.old.items i d).state.node ≡ input.Earlier k) → k < i }
    requires walks { AreWalks (length walks.now) states.old.items walks.now made.old.items }
    ensures nodes { Alike states.new.items states.old.items }
    ensures ok { OnOk result (Passed C.cmp states.old.items states.new.items feed event.now) }
    ensures cost { OnOk result (Costs C.cmp states.old.items feed event.now steps.old steps.new) }
    ensures walks { OnOk result (AreWalks (length walks.now) states.new.items walks.now made.new.items) }
{
    let walk = walks[feed].as_slice();
    pass(alloc, states, made, walk, feed, event, steps)?;
    clear(alloc, made, walk);
    Ok(())
}
