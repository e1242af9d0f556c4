ghost use Rattle.std.specs.Prelude.{◌≡◌, ◌<◌, ℕ, List, true, map, length, slice_index_or, IfOk, OnOk};
ghost use Rattle.dbn_value.specs.declared.value.ColType.{ColType as Column};
ghost use Rattle.dbn_nodes.specs.Changes.{signed};
ghost use Rattle.dbn_network.specs.declared.input.Input.TheVariants as input;
ghost use Rattle.dbn_network.specs.Inputs.{left_in, right_in};
ghost use Rattle.dbn_network.specs.Values.{rows_from, values};
ghost use Rattle.dbn_network.specs.States.{IsThere, FitsAt, feed_widths, widths};
ghost use Rattle.dbn_network.specs.Passes.{FollowsLefts, FollowsRights, StandsAt};
ghost use Rattle.dbn_network.specs.Holding.{nodes_of, feeds_of, AreEarlier, MarkedBy, IsNetwork};

use super::held::Held;
use super::input::{Input, left_input, right_input};
use super::tables::{feed_rows, rows_in};
use dbn_nodes::{Event, Keyed, Node, NodeState, Steps};
use dbn_value::{Cell, CopyIn, Row, RowsOf};
use sqlite_items::Items;
use std::alloc::{AllocError, Global};
use std::sync::ledger::Ledger;

/// All rows come to the left input of a node that nothing reads.
fn fill_left<C: Cell, L: Ledger>(
    alloc: Global,
    state: &mut NodeState<C>,
    rows: &[Row<C>],
    steps: &mut Steps<L>,
) -> Result<(), AllocError>
    ensures node { state.new.node ≡ state.old.node }
    ensures stands { OnOk result (FollowsLefts C.cmp state.old.node state.old.kept state.new.kept (map (signed true) rows.now)) }
{
    for row in rows {
        let event = Event::new(row.copy_in(alloc)?, true);
        state.follow_left(alloc, &event, steps)?;
    }
    Ok(())
}

/// All rows come to the right input of a node that nothing reads.
fn fill_right<C: Cell, L: Ledger>(
    alloc: Global,
    state: &mut NodeState<C>,
    rows: &[Row<C>],
    steps: &mut Steps<L>,
) -> Result<(), AllocError>
    ensures node { state.new.node ≡ state.old.node }
    ensures stands { OnOk result (FollowsRights C.cmp state.old.node state.old.kept state.new.kept (map (signed true) rows.now)) }
{
    for row in rows {
        let event = Event::new(row.copy_in(alloc)?, true);
        state.follow_right(alloc, &event, steps)?;
    }
    Ok(())
}

/// The rows of an input.
fn input_rows<C: Cell, L: Ledger>(
    alloc: Global,
    states: &[Held<C>],
    tables: &[Keyed<C>],
    from: Input,
    steps: &mut Steps<L>,
) -> Result<RowsOf<C>, AllocError>
    requires earlier { AreEarlier (length tables.now) states.now }
    requires there { IsThere (length tables.now) (length states.now) from }
    ensures { IfOk result (λ rows. (shapes : List (List Column)) → IsNetwork C.cmp shapes states.now tables.now → rows ≡ rows_from (feeds_of C.cmp tables.now) (values C.cmp (feeds_of C.cmp tables.now) (nodes_of states.now)) from) }
{
    match from {
        Input::Nothing => {
            return Ok(Items::new(alloc));
        }
        Input::Feed(feed) => {
            let rows = feed_rows(alloc, tables, feed, steps)?;
            return Ok(rows);
        }
        Input::Earlier(i) => {
            let rows = rows_in(alloc, states, tables, i, steps)?;
            return Ok(rows);
        }
    }
}

/// A new node over the rows that are there.
pub(crate) fn new_held<C: Cell, L: Ledger>(
    alloc: Global,
    states: &[Held<C>],
    tables: &[Keyed<C>],
    node: Node<C>,
    steps: &mut Steps<L>,
) -> Result<Held<C>, AllocError>
    requires earlier { AreEarlier (length tables.now) states.now }
    requires left { IsThere (length tables.now) (length states.now) (left_in node) }
    requires right { IsThere (length tables.now) (length states.now) (right_in node) }
    ensures node { IfOk result (λ h. h.state.node ≡ node) }
    ensures stands { IfOk result (λ h. (shapes : List (List Column)) → IsNetwork C.cmp shapes states.now tables.now → FitsAt (feed_widths shapes) (widths (feed_widths shapes) (nodes_of states.now)) (length states.now) node → StandsAt C.cmp h (feeds_of C.cmp tables.now) (values C.cmp (feeds_of C.cmp tables.now) (nodes_of states.now))) }
{
    let lefts = input_rows(alloc, states, tables, left_input(&node), steps)?;
    let rights = input_rows(alloc, states, tables, right_input(&node), steps)?;
    let mut state = NodeState::new(alloc, node);
    fill_left(alloc, &mut state, lefts.as_slice(), steps)?;
    fill_right(alloc, &mut state, rights.as_slice(), steps)?;
    Ok(Held { state, read: false })
}

/// Marks the node that is read, if it is one.
pub(crate) fn mark_read<C: Cell>(states: &mut Vec<Held<C>>, from: Input)
    requires { (i : ℕ) → from ≡ input.Earlier i → i < length states.old.items }
    ensures { MarkedBy states.old.items states.new.items from }
{
    if let Input::Earlier(i) = from {
        states[i].read = true;
    }
}
