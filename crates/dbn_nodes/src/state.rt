ghost use Rattle.std.specs.Prelude.{◌≡◌, ◌+◌, ◌*◌, ◌≤◌, ◌↔◌, ◌&&◌, List, [], not, length, IfOk, OnOk, IsSome, IsTrue};
ghost use Rattle.std.specs.Option.{IfSome};
ghost use Rattle.std.specs.Cmp.Lexicographic.{slice_cmp};
ghost use Rattle.dbn_nodes.specs.Answering.{AreRowsAt, IsLookedUp};
ghost use Rattle.dbn_nodes.specs.Tables.{has};
ghost use Rattle.dbn_nodes.specs.Values.{value_of};
ghost use Rattle.dbn_nodes.specs.Stands.{Stands, FollowsLeft, FollowsRight, LeadsLeft, LeadsRight};

use super::answering::{
    copied, empty_row, extended_rows, joined_rows, left_over, selected_rows, supported_rows,
};
use super::changes::{
    diff_left, diff_right, extend_left, join_left, join_right, project_left, scan_left,
    select_left, union,
};
use super::counts::{holds, holds_all};
use super::event::{Event, Events};
use super::following::{
    follow_diff_left, follow_diff_right, follow_join_left, follow_join_right, follow_project,
    follow_union,
};
use super::keyed::Keyed;
use super::node::Node;
use super::steps::Steps;
use dbn_value::{Cell, Row, RowsOf};
use std::alloc::{AllocError, Global};
use std::sync::ledger::Ledger;

/// The tables of a node. Those that its kind does not use stay empty.
#[derive(Drop)]
pub struct Kept<C: Cell> {
    /// The rows of the left input: of a join under the cells that it compares, of a difference under the key without cells.
    pub lefts: Keyed<C>,
    /// The rows of the right input, in the same way.
    pub rights: Keyed<C>,
    /// Of a projection each row with the number of rows that it is picked from, of a union with the number of inputs that have it.
    pub supports: Keyed<C>,
}

/// A node with what it keeps.
#[derive(Drop)]
pub struct NodeState<C: Cell> {
    /// The node.
    pub node: Node<C>,
    /// What it keeps.
    pub kept: Kept<C>,
}

/// Whether the one holds and not the other.
fn alone(there: bool, gone: bool) -> bool
    ensures { result ≡ (there && not gone) }
{
    there && !gone
}

impl<C: Cell> NodeState<C> {
    /// The node over inputs without rows.
    pub fn new(alloc: Global, node: Node<C>) -> NodeState<C>
        ensures node { result.node ≡ node }
        ensures stands { Stands C.cmp node result.kept [] [] }
    {
        let kept = Kept {
            lefts: Keyed::new(alloc),
            rights: Keyed::new(alloc),
            supports: Keyed::new(alloc),
        };
        NodeState { node, kept }
    }

    /// A change of the left input; of a scan its feed counts as that. The events that are appended, each at its turn, lead from the
    /// node's rows before to those after it. An error is want of memory, or a count that would pass 2^64-1; the node then stands
    /// for nothing.
    pub fn left<L: Ledger>(
        &mut self,
        alloc: Global,
        event: &Event<C>,
        out: &mut Events<C>,
        steps: &mut Steps<L>,
    ) -> Result<(), AllocError>
        ensures node { self.new.node ≡ self.old.node }
        ensures stands { OnOk result (FollowsLeft C.cmp self.old.node self.old.kept self.new.kept event.now) }
        ensures leads { OnOk result (LeadsLeft C.cmp self.old.node self.old.kept event.now out.old out.new) }
        ensures cost { OnOk result (steps.new + 2 * length out.old ≤ steps.old + 4 + 2 * length out.new) }
    {
        let kept = &mut self.kept;
        match &self.node {
            Node::Unit => {
                return Ok(());
            }
            Node::Scan { feed: _ } => {
                scan_left(alloc, kept, event, out)?;
                return Ok(());
            }
            Node::Select { from: _, tests } => {
                select_left(alloc, tests, kept, event, out)?;
                return Ok(());
            }
            Node::Join {
                left: _,
                right: _,
                on,
            } => {
                join_left(alloc, on, kept, event, out, steps)?;
                return Ok(());
            }
            Node::Diff { left: _, right: _ } => {
                diff_left(alloc, kept, event, out, steps)?;
                return Ok(());
            }
            Node::Project { from: _, cols } => {
                project_left(alloc, cols, kept, event, out, steps)?;
                return Ok(());
            }
            Node::Union { left: _, right: _ } => {
                union(alloc, kept, event, out, steps)?;
                return Ok(());
            }
            Node::Extend { from: _, with } => {
                extend_left(alloc, with, kept, event, out)?;
                return Ok(());
            }
        }
    }

    /// A change of the right input; a node without one does nothing. The events and errors are as with the left input.
    pub fn right<L: Ledger>(
        &mut self,
        alloc: Global,
        event: &Event<C>,
        out: &mut Events<C>,
        steps: &mut Steps<L>,
    ) -> Result<(), AllocError>
        ensures node { self.new.node ≡ self.old.node }
        ensures stands { OnOk result (FollowsRight C.cmp self.old.node self.old.kept self.new.kept event.now) }
        ensures leads { OnOk result (LeadsRight C.cmp self.old.node self.old.kept event.now out.old out.new) }
        ensures cost { OnOk result (steps.new + 2 * length out.old ≤ steps.old + 4 + 2 * length out.new) }
    {
        let kept = &mut self.kept;
        match &self.node {
            Node::Join {
                left: _,
                right: _,
                on,
            } => {
                join_right(alloc, on, kept, event, out, steps)?;
                return Ok(());
            }
            Node::Diff { left: _, right: _ } => {
                diff_right(alloc, kept, event, out, steps)?;
                return Ok(());
            }
            Node::Union { left: _, right: _ } => {
                union(alloc, kept, event, out, steps)?;
                return Ok(());
            }
            _ => {
                return Ok(());
            }
        }
    }

    /// A change of the left input of a node that no other node reads: it makes no events, and a join looks at no other row.
    pub fn follow_left<L: Ledger>(
        &mut self,
        alloc: Global,
        event: &Event<C>,
        steps: &mut Steps<L>,
    ) -> Result<(), AllocError>
        ensures node { self.new.node ≡ self.old.node }
        ensures stands { OnOk result (FollowsLeft C.cmp self.old.node self.old.kept self.new.kept event.now) }
        ensures cost { OnOk result (steps.new ≤ steps.old + 4) }
    {
        let kept = &mut self.kept;
        match &self.node {
            Node::Join {
                left: _,
                right: _,
                on,
            } => {
                follow_join_left(alloc, on, kept, event, steps)?;
                return Ok(());
            }
            Node::Diff { left: _, right: _ } => {
                follow_diff_left(alloc, kept, event, steps)?;
                return Ok(());
            }
            Node::Project { from: _, cols } => {
                follow_project(alloc, cols, kept, event, steps)?;
                return Ok(());
            }
            Node::Union { left: _, right: _ } => {
                follow_union(alloc, kept, event, steps)?;
                return Ok(());
            }
            _ => {
                return Ok(());
            }
        }
    }

    /// A change of the right input of a node that no other node reads.
    pub fn follow_right<L: Ledger>(
        &mut self,
        alloc: Global,
        event: &Event<C>,
        steps: &mut Steps<L>,
    ) -> Result<(), AllocError>
        ensures node { self.new.node ≡ self.old.node }
        ensures stands { OnOk result (FollowsRight C.cmp self.old.node self.old.kept self.new.kept event.now) }
        ensures cost { OnOk result (steps.new ≤ steps.old + 4) }
    {
        let kept = &mut self.kept;
        match &self.node {
            Node::Join {
                left: _,
                right: _,
                on,
            } => {
                follow_join_right(alloc, on, kept, event, steps)?;
                return Ok(());
            }
            Node::Diff { left: _, right: _ } => {
                follow_diff_right(alloc, kept, event, steps)?;
                return Ok(());
            }
            Node::Union { left: _, right: _ } => {
                follow_union(alloc, kept, event, steps)?;
                return Ok(());
            }
            _ => {
                return Ok(());
            }
        }
    }

    /// The node's rows, in their order. The rows of its left input are handed in, which a scan, a selection, a join and an extended
    /// node do not keep in their order. An error is want of memory.
    pub fn rows<L: Ledger>(
        &self,
        alloc: Global,
        lefts: &[Row<C>],
        steps: &mut Steps<L>,
    ) -> Result<RowsOf<C>, AllocError>
        ensures { IfOk result (λ rows. AreRowsAt C.cmp self.now.node self.now.kept lefts.now rows) }
    {
        match &self.node {
            Node::Unit => {
                let rows = empty_row(alloc)?;
                return Ok(rows);
            }
            Node::Scan { feed: _ } => {
                let rows = copied(alloc, lefts)?;
                return Ok(rows);
            }
            Node::Select { from: _, tests } => {
                let rows = selected_rows(alloc, tests.as_slice(), lefts)?;
                return Ok(rows);
            }
            Node::Join {
                left: _,
                right: _,
                on,
            } => {
                let rows = joined_rows(alloc, on.as_slice(), &self.kept.rights, lefts, steps)?;
                return Ok(rows);
            }
            Node::Diff { left: _, right: _ } => {
                let rows = left_over(alloc, &self.kept, steps)?;
                return Ok(rows);
            }
            Node::Project { from: _, cols: _ } => {
                let rows = supported_rows(alloc, &self.kept.supports, steps)?;
                return Ok(rows);
            }
            Node::Union { left: _, right: _ } => {
                let rows = supported_rows(alloc, &self.kept.supports, steps)?;
                return Ok(rows);
            }
            Node::Extend { from: _, with } => {
                let rows = extended_rows(alloc, with, lefts)?;
                return Ok(rows);
            }
        }
    }

    /// Whether the node has the row, where one look-up or two tell it: of a unit, a difference, a projection and a union. It takes
    /// no memory.
    pub fn has<L: Ledger>(&self, alloc: Global, row: &Row<C>, steps: &mut Steps<L>) -> Option<bool>
        ensures tells { IsLookedUp self.now.node → IsSome result }
        ensures value { IfSome result (λ found. (s t : List (List C)) → Stands C.cmp self.now.node self.now.kept s t → found ≡ has (slice_cmp C.cmp) (value_of C.cmp self.now.node s t) row.now) }
    {
        match &self.node {
            Node::Unit => {
                return Some(row.is_empty());
            }
            Node::Diff { left: _, right: _ } => {
                let there = holds(alloc, &self.kept.lefts, row, steps);
                let gone = holds(alloc, &self.kept.rights, row, steps);
                return Some(alone(there, gone));
            }
            Node::Project { from: _, cols: _ } => {
                return Some(holds(alloc, &self.kept.supports, row, steps));
            }
            Node::Union { left: _, right: _ } => {
                return Some(holds(alloc, &self.kept.supports, row, steps));
            }
            _ => {
                return None;
            }
        }
    }

    /// Whether the node has no rows, where what it keeps tells it: of a unit, a projection and a union at once, of a difference by a
    /// look-up for each row of its left input, up to the first that the right one doesn't have. It takes no memory.
    pub fn is_empty(&self, alloc: Global) -> Option<bool>
        ensures tells { IsLookedUp self.now.node → IsSome result }
        ensures value { IfSome result (λ empty. (s t : List (List C)) → Stands C.cmp self.now.node self.now.kept s t → IsTrue empty ↔ (value_of C.cmp self.now.node s t ≡ [])) }
    {
        match &self.node {
            Node::Unit => {
                return Some(false);
            }
            Node::Diff { left: _, right: _ } => {
                return Some(holds_all(alloc, &self.kept.rights, &self.kept.lefts));
            }
            Node::Project { from: _, cols: _ } => {
                return Some(self.kept.supports.is_empty());
            }
            Node::Union { left: _, right: _ } => {
                return Some(self.kept.supports.is_empty());
            }
            _ => {
                return None;
            }
        }
    }
}
