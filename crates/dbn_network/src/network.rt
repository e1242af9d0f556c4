ghost use Rattle.std.specs.Prelude.{◌≡◌, ◌<◌, ◌≤◌, ◌+◌, max, ◌++◌, ◌↔◌, [], map, length, true, false, slice_get, slice_index_or, IfOk, OnOk, OnErr, IsOk, IsTrue};
ghost use Rattle.std.specs.Cmp.Lexicographic.{slice_cmp};
ghost use Rattle.std.specs.Option.{option_copied};
ghost use Rattle.dbn_value.specs.Shape.{HasShape};
ghost use Rattle.dbn_nodes.specs.Changes.{row_in};
ghost use Rattle.dbn_instance.specs.Facts.{Fits as FitsNow, changed};
ghost use Rattle.dbn_nodes.specs.declared.node.Node.{Node as NodeOf};
ghost use Rattle.dbn_nodes.specs.Tables.{has};
ghost use Rattle.dbn_nodes.specs.Answering.{IsCounted};
ghost use Rattle.dbn_network.specs.Values.{val};
ghost use Rattle.dbn_network.specs.States.{Fits, with_node, with_feeds, change_at};
ghost use Rattle.dbn_network.specs.Holding.{IsDirect};
ghost use Rattle.dbn_network.specs.Loads.{bound};

use super::adding::mark_read;
use super::counting::{has_none, has_row, held_of_node, table_of_node};
use super::feeds::{note_at, push_tables};
use super::held::Held;
use super::input::{left_input, right_input};
use super::pass::run;
use super::tables::node_in;
use super::walks::{Walk, lengthen_all, push_walks};
use dbn_nodes::{Event, Events, Keyed, Node, Steps};
use dbn_value::{Cell, Row, RowsOf, Shapes};
use sqlite_items::Items;
use std::alloc::{AllocError, Global};
use std::marker::{Brand, Model};
use std::sync::ledger::{Blank, Ledger};

/// Nodes in their order over feeds, of which the relations come first and then the places. Its meaning is whether it is live, the
/// shapes of the feeds, the nodes and the rows of the feeds; the rows of each node follow from these.
#[derive(Drop)]
pub struct Network<C: Cell> {
    live: bool,
    rels: Shapes,
    places: Shapes,
    states: Vec<Held<C>>,
    feeds: Vec<Keyed<C>>,
    walks: Vec<Walk>,
    made: Vec<Events<C>>,
}

impl<C: Cell> Model for Network<C> {
    ghost use Rattle.std.specs.Prelude.{◌++◌, length, IsTrue};
    ghost use Rattle.dbn_network.specs.States.{State};

    ghost Value = { State C };

    ghost use Rattle.dbn_network.specs.Holding.{nodes_of, feeds_of, IsNetwork};
    ghost use Rattle.dbn_network.specs.Walks.{AreWalks};

    ghost view = { λ n. record { live = n.live; rels = n.rels; shapes = n.rels ++ n.places; nodes = nodes_of n.states.items; feeds = feeds_of C.cmp n.feeds.items } };

    ghost invariant = { λ n. IsTrue n.live → IsNetwork C.cmp (n.rels ++ n.places) n.states.items n.feeds.items × AreWalks (length n.feeds.items) n.states.items n.walks.items n.made.items };
}

impl<C: Cell> Network<C> {
    /// The network without nodes over feeds of these shapes, those of the relations and then those of the places. An error is want
    /// of memory.
    pub fn new(alloc: Global, rels: Shapes, places: Shapes) -> Result<Network<C>, AllocError>
        ensures { IfOk result (λ n. n ≡ record { live = true; rels = rels; shapes = rels ++ places; nodes = []; feeds = map (λ shape. []) (rels ++ places) }) }
    {
        let mut feeds = Vec::new(alloc);
        push_tables(alloc, &mut feeds, rels.as_slice())?;
        push_tables(alloc, &mut feeds, places.as_slice())?;
        let mut walks = Vec::new(alloc);
        push_walks(alloc, &mut walks, rels.as_slice())?;
        push_walks(alloc, &mut walks, places.as_slice())?;
        Ok(Network {
            live: true,
            rels,
            places,
            states: Vec::new(alloc),
            feeds,
            walks,
            made: Vec::new(alloc),
        })
    }

    /// Whether the network is live: until want of memory. Every other call needs it.
    pub fn is_live(&self) -> bool
        ensures { result ≡ self.now.live }
    {
        self.live
    }

    /// The shapes of the relations.
    pub fn rels(&self) -> &Shapes
        ensures { result.now ≡ self.now.rels }
    {
        &self.rels
    }

    /// The node with this number, and `None` exactly where there are not so many.
    pub fn node_at(&self, number: usize) -> Option<&Node<C>>
        ensures { option_copied result ≡ slice_get self.now.nodes number }
    {
        node_in(self.states.as_slice(), number)
    }

    /// The event of a feed: the rows of all nodes follow it. It takes at most eight steps for each node and for each event that the
    /// nodes may make or get, and one where there are no nodes. An error is want of memory, or a count that would pass 2^64-1, and
    /// then the network is not live.
    pub fn apply<L: Ledger>(
        &mut self,
        alloc: Global,
        feed: usize,
        event: &Event<C>,
        steps: &mut Steps<L>,
    ) -> Result<(), AllocError>
        requires live { IsTrue self.old.live }
        requires range { feed < length self.old.feeds }
        requires shape { HasShape C.type_of (row_in event.now) (slice_index_or self.old.shapes feed []) }
        requires fits { FitsNow C.cmp self.old.feeds (change_at feed event.now) }
        ensures ok { OnOk result (self.new ≡ with_feeds self.old (changed C.cmp self.old.feeds (change_at feed event.now))) }
        ensures err { OnErr result (self.new.live ≡ false) }
        ensures cost { OnOk result (steps.new ≤ steps.old + max 1 (bound C.cmp self.old.nodes feed self.old.feeds (changed C.cmp self.old.feeds (change_at feed event.now)))) }
    {
        self.live = false;
        note_at(alloc, &mut self.feeds, feed, event, steps)?;
        run(
            alloc,
            &mut self.states,
            &mut self.made,
            self.walks.as_slice(),
            feed,
            event,
            steps,
        )?;
        self.live = true;
        Ok(())
    }

    /// Adds a node behind the others and gives its number: its rows are those that its inputs give it. An error is want of memory,
    /// and then the network is not live.
    pub fn add(&mut self, alloc: Global, node: Node<C>) -> Result<usize, AllocError>
        requires live { IsTrue self.old.live }
        requires fits { Fits self.old node }
        ensures number { IfOk result (λ i. i ≡ length self.old.nodes) }
        ensures ok { OnOk result (self.new ≡ with_node self.old node) }
        ensures err { OnErr result (self.new.live ≡ false) }
    {
        self.live = false;
        let held = held_of_node::<C, Brand>(
            alloc,
            self.states.as_slice(),
            self.feeds.as_slice(),
            node,
            Blank::new(1),
        )?;
        let number = self.states.len();
        let left = left_input(&held.state.node);
        let right = right_input(&held.state.node);
        lengthen_all(&mut self.walks, &left, &right, number)?;
        mark_read(&mut self.states, left);
        mark_read(&mut self.states, right);
        self.states.push(held)?;
        self.made.push(Items::new(alloc))?;
        self.live = true;
        Ok(number)
    }

    /// The rows of the node with this number, in their order. An error is want of memory.
    pub fn table(&self, alloc: Global, node: usize) -> Result<RowsOf<C>, AllocError>
        requires live { IsTrue self.now.live }
        requires range { node < length self.now.nodes }
        ensures { IfOk result (λ rows. rows ≡ val C.cmp node self.now.nodes self.now.feeds) }
    {
        let rows = table_of_node::<C, Brand>(
            alloc,
            self.states.as_slice(),
            self.feeds.as_slice(),
            node,
            Blank::new(1),
        )?;
        Ok(rows)
    }

    /// Whether the node with this number has the row. An error is want of memory; a unit, a scan, a difference, a projection and a
    /// union take none.
    pub fn has(&self, alloc: Global, node: usize, row: &Row<C>) -> Result<bool, AllocError>
        requires live { IsTrue self.now.live }
        requires range { node < length self.now.nodes }
        ensures value { IfOk result (λ found. found ≡ has (slice_cmp C.cmp) (val C.cmp node self.now.nodes self.now.feeds) row.now) }
        ensures sure { (d : NodeOf C) → IsDirect (slice_index_or self.now.nodes node d) → IsOk result }
    {
        has_row::<C, Brand>(
            alloc,
            self.states.as_slice(),
            self.feeds.as_slice(),
            node,
            row,
            Blank::new(1),
        )
    }

    /// Whether the node with this number has no rows. An error is want of memory; a unit, a scan, a difference, a projection and a
    /// union take none. Of a difference it looks at the rows of the left input, up to the first that the right one doesn't have.
    pub fn is_empty(&self, alloc: Global, node: usize) -> Result<bool, AllocError>
        requires live { IsTrue self.now.live }
        requires range { node < length self.now.nodes }
        ensures value { IfOk result (λ empty. IsTrue empty ↔ (val C.cmp node self.now.nodes self.now.feeds ≡ [])) }
        ensures sure { (d : NodeOf C) → IsCounted (slice_index_or self.now.nodes node d) → IsOk result }
        ensures told { (d : NodeOf C) → IsDirect (slice_index_or self.now.nodes node d) → IsOk result }
    {
        has_none::<C, Brand>(
            alloc,
            self.states.as_slice(),
            self.feeds.as_slice(),
            node,
            Blank::new(1),
        )
    }
}
