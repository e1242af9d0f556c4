ghost use Rattle.std.specs.Prelude.{◌≡◌, ◌<◌, ◌↔◌, List, [], length, slice_get, slice_index_or, IfOk, IsOk, IsTrue};
ghost use Rattle.std.specs.Option.{option_copied};
ghost use Rattle.std.specs.Cmp.Lexicographic.{slice_cmp};
ghost use Rattle.dbn_value.specs.declared.value.ColType.{ColType as Column};
ghost use Rattle.dbn_nodes.specs.Tables.{has, AreRowsOf};
ghost use Rattle.dbn_network.specs.declared.held.Held.{Held as HeldOf};
ghost use Rattle.dbn_network.specs.Values.{rows_at, values};
ghost use Rattle.dbn_network.specs.Holding.{nodes_of, feeds_of, AreEarlier, IsDirect, IsNetwork};

use super::held::Held;
use super::input::{Input, needed_input};
use dbn_nodes::{Keyed, Node, Steps, holds};
use dbn_value::{Cell, Row, RowsOf};
use sqlite_items::Items;
use std::alloc::{AllocError, Global};
use std::sync::ledger::Ledger;

/// The node with this number.
pub(crate) fn node_in<C: Cell>(states: &[Held<C>], number: usize) -> Option<&Node<C>>
    ensures { option_copied result ≡ slice_get (nodes_of states.now) number }
{
    match states.get(number) {
        Some(held) => Some(&held.state.node),
        None => None,
    }
}

/// The rows of a feed.
pub(crate) fn feed_rows<C: Cell, L: Ledger>(
    alloc: Global,
    tables: &[Keyed<C>],
    feed: usize,
    steps: &mut Steps<L>,
) -> Result<RowsOf<C>, AllocError>
    requires { feed < length tables.now }
    ensures { IfOk result (λ rows. AreRowsOf (slice_cmp C.cmp) (slice_index_or tables.now feed []) [] rows) }
{
    let key = Row::from_vec(Vec::new(alloc));
    let rows = tables[feed].rows_of(alloc, &key, steps)?;
    Ok(rows)
}

/// The rows of a node, by recursion on the input that it needs.
pub(crate) fn rows_in<C: Cell, L: Ledger>(
    alloc: Global,
    states: &[Held<C>],
    tables: &[Keyed<C>],
    node: usize,
    steps: &mut Steps<L>,
) -> Result<RowsOf<C>, AllocError>
    requires range { node < length states.now }
    requires earlier { AreEarlier (length tables.now) states.now }
    ensures { IfOk result (λ rows. (shapes : List (List Column)) → IsNetwork C.cmp shapes states.now tables.now → rows ≡ rows_at (values C.cmp (feeds_of C.cmp tables.now) (nodes_of states.now)) node) }
{
    let held = &states[node];
    match needed_input(&held.state.node) {
        Input::Nothing => {
            let lefts: RowsOf<C> = Items::new(alloc);
            let rows = held.state.rows(alloc, lefts.as_slice(), steps)?;
            return Ok(rows);
        }
        Input::Feed(feed) => {
            let lefts = feed_rows(alloc, tables, feed, steps)?;
            let rows = held.state.rows(alloc, lefts.as_slice(), steps)?;
            return Ok(rows);
        }
        Input::Earlier(i) => {
            let lefts = rows_in(alloc, states, tables, i, steps)?;
            let rows = held.state.rows(alloc, lefts.as_slice(), steps)?;
            return Ok(rows);
        }
    }
}

/// Whether the row is one of these.
fn contains<C: Cell>(rows: &[Row<C>], row: &Row<C>) -> bool
    ensures { result ≡ has (slice_cmp C.cmp) rows.now row.now }
{
    rows.iter().any(|other| row.cmp(other).is_eq())
}

/// Whether a node has the row: by a look-up or two, of a selection, a join and an extended node by its rows.
pub(crate) fn has_in<C: Cell, L: Ledger>(
    alloc: Global,
    states: &[Held<C>],
    tables: &[Keyed<C>],
    node: usize,
    row: &Row<C>,
    steps: &mut Steps<L>,
) -> Result<bool, AllocError>
    requires range { node < length states.now }
    requires earlier { AreEarlier (length tables.now) states.now }
    ensures value { IfOk result (λ found. (shapes : List (List Column)) → IsNetwork C.cmp shapes states.now tables.now → found ≡ has (slice_cmp C.cmp) (rows_at (values C.cmp (feeds_of C.cmp tables.now) (nodes_of states.now)) node) row.now) }
    ensures sure { (d : HeldOf C) → IsDirect (slice_index_or states.now node d).state.node → IsOk result }
{
    let held = &states[node];
    if let Node::Scan { feed } = &held.state.node {
        let found = holds(alloc, &tables[*feed], row, steps);
        return Ok(found);
    }
    match held.state.has(alloc, row, steps) {
        Some(found) => {
            return Ok(found);
        }
        None => {
            let rows = rows_in(alloc, states, tables, node, steps)?;
            let found = contains(rows.as_slice(), row);
            return Ok(found);
        }
    }
}

/// Whether a node has no rows: by what is kept, of a selection, a join and an extended node by its rows.
pub(crate) fn is_empty_in<C: Cell, L: Ledger>(
    alloc: Global,
    states: &[Held<C>],
    tables: &[Keyed<C>],
    node: usize,
    steps: &mut Steps<L>,
) -> Result<bool, AllocError>
    requires range { node < length states.now }
    requires earlier { AreEarlier (length tables.now) states.now }
    ensures value { IfOk result (λ empty. (shapes : List (List Column)) → IsNetwork C.cmp shapes states.now tables.now → IsTrue empty ↔ (rows_at (values C.cmp (feeds_of C.cmp tables.now) (nodes_of states.now)) node ≡ [])) }
    ensures sure { (d : HeldOf C) → IsDirect (slice_index_or states.now node d).state.node → IsOk result }
{
    let held = &states[node];
    if let Node::Scan { feed } = &held.state.node {
        let empty = tables[*feed].is_empty();
        return Ok(empty);
    }
    match held.state.is_empty(alloc) {
        Some(empty) => {
            return Ok(empty);
        }
        None => {
            let rows = rows_in(alloc, states, tables, node, steps)?;
            return Ok(rows.is_empty());
        }
    }
}
