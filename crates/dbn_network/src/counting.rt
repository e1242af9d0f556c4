ghost use Rattle.std.specs.Prelude.{◌≡◌, ◌<◌, ◌↔◌, List, [], length, slice_index_or, IfOk, IsOk, IsTrue};
ghost use Rattle.std.specs.Cmp.Lexicographic.{slice_cmp};
ghost use Rattle.dbn_value.specs.declared.value.ColType.{ColType as Column};
ghost use Rattle.dbn_nodes.specs.Tables.{has};
ghost use Rattle.dbn_network.specs.declared.held.Held.{Held as HeldOf};
ghost use Rattle.dbn_network.specs.Inputs.{left_in, right_in};
ghost use Rattle.dbn_network.specs.Values.{rows_at, values};
ghost use Rattle.dbn_network.specs.States.{IsThere, FitsAt, feed_widths, widths};
ghost use Rattle.dbn_network.specs.Passes.{StandsAt};
ghost use Rattle.dbn_network.specs.Holding.{nodes_of, feeds_of, AreEarlier, IsDirect, IsNetwork};

use super::adding::new_held;
use super::held::Held;
use super::tables::{has_in, is_empty_in, rows_in};
use dbn_nodes::{Keyed, Node, Steps};
use dbn_value::{Cell, Row, RowsOf};
use std::alloc::{AllocError, Global};
use std::sync::ledger::{Blank, Ledger};

/// The rows of a node, with a counter of its own.
pub(crate) fn table_of_node<C: Cell, L: Ledger>(
    alloc: Global,
    states: &[Held<C>],
    tables: &[Keyed<C>],
    node: usize,
    blank: Blank,
) -> Result<RowsOf<C>, AllocError>
    requires name { blank.name ≡ L.name }
    requires parts { blank.parts ≡ L.parts }
    requires some { 0 < blank.parts }
    requires range { node < length states.now }
    requires earlier { AreEarlier (length tables.now) states.now }
    ensures { IfOk result (λ rows. (shapes : List (List Column)) → IsNetwork C.cmp shapes states.now tables.now → rows ≡ rows_at (values C.cmp (feeds_of C.cmp tables.now) (nodes_of states.now)) node) }
{
    let mut steps: Steps<L> = Steps::new(blank);
    let rows = rows_in(alloc, states, tables, node, &mut steps)?;
    Ok(rows)
}

/// Whether a node has a row, with a counter of its own.
pub(crate) fn has_row<C: Cell, L: Ledger>(
    alloc: Global,
    states: &[Held<C>],
    tables: &[Keyed<C>],
    node: usize,
    row: &Row<C>,
    blank: Blank,
) -> Result<bool, AllocError>
    requires name { blank.name ≡ L.name }
    requires parts { blank.parts ≡ L.parts }
    requires some { 0 < blank.parts }
    requires range { node < length states.now }
    requires earlier { AreEarlier (length tables.now) states.now }
    ensures value { IfOk result (λ found. (shapes : List (List Column)) → IsNetwork C.cmp shapes states.now tables.now → found ≡ has (slice_cmp C.cmp) (rows_at (values C.cmp (feeds_of C.cmp tables.now) (nodes_of states.now)) node) row.now) }
    ensures sure { (d : HeldOf C) → IsDirect (slice_index_or states.now node d).state.node → IsOk result }
{
    let mut steps: Steps<L> = Steps::new(blank);
    has_in(alloc, states, tables, node, row, &mut steps)
}

/// Whether a node has no rows, with a counter of its own.
pub(crate) fn has_none<C: Cell, L: Ledger>(
    alloc: Global,
    states: &[Held<C>],
    tables: &[Keyed<C>],
    node: usize,
    blank: Blank,
) -> Result<bool, AllocError>
    requires name { blank.name ≡ L.name }
    requires parts { blank.parts ≡ L.parts }
    requires some { 0 < blank.parts }
    requires range { node < length states.now }
    requires earlier { AreEarlier (length tables.now) states.now }
    ensures value { IfOk result (λ empty. (shapes : List (List Column)) → IsNetwork C.cmp shapes states.now tables.now → IsTrue empty ↔ (rows_at (values C.cmp (feeds_of C.cmp tables.now) (nodes_of states.now)) node ≡ [])) }
    ensures sure { (d : HeldOf C) → IsDirect (slice_index_or states.now node d).state.node → IsOk result }
{
    let mut steps: Steps<L> = Steps::new(blank);
    is_empty_in(alloc, states, tables, node, &mut steps)
}

/// A new node over the rows that are there, with a counter of its own.
pub(crate) fn held_of_node<C: Cell, L: Ledger>(
    alloc: Global,
    states: &[Held<C>],
    tables: &[Keyed<C>],
    node: Node<C>,
    blank: Blank,
) -> Result<Held<C>, AllocError>
    requires name { blank.name ≡ L.name }
    requires parts { blank.parts ≡ L.parts }
    requires some { 0 < blank.parts }
    requires earlier { AreEarlier (length tables.now) states.now }
    requires left { IsThere (length tables.now) (length states.now) (left_in node) }
    requires right { IsThere (length tables.now) (length states.now) (right_in node) }
    ensures node { IfOk result (λ h. h.state.node ≡ node) }
    ensures stands { IfOk result (λ h. (shapes : List (List Column)) → IsNetwork C.cmp shapes states.now tables.now → FitsAt (feed_widths shapes) (widths (feed_widths shapes) (nodes_of states.now)) (length states.now) node → StandsAt C.cmp h (feeds_of C.cmp tables.now) (values C.cmp (feeds_of C.cmp tables.now) (nodes_of states.now))) }
{
    let mut steps: Steps<L> = Steps::new(blank);
    let held = new_held(alloc, states, tables, node, &mut steps)?;
    Ok(held)
}
