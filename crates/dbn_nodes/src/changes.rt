ghost use Rattle.std.specs.Prelude.{◌≡◌, ◌+◌, ◌*◌, ◌≤◌, ◌++◌, map, length, OnOk, ℕ};
ghost use Rattle.dbn_nodes.specs.Changes.{row_in, comes, signed, maybe};
ghost use Rattle.dbn_nodes.specs.Stands.{FollowsLeft, FollowsRight, LeadsLeft, LeadsRight};
ghost use Rattle.dbn_nodes.specs.declared.node.Node.TheVariants as node;

use super::counts::{count_again, holds, mark};
use super::event::{Event, Events};
use super::node::{Added, ColTests, Pairs};
use super::rows::{cells_at, left_key, passes_all, right_key, with_last};
use super::shelf::Way;
use super::state::Kept;
use super::steps::Steps;
use dbn_value::{Cell, CopyIn, Nums, Row};
use std::alloc::{AllocError, Global};
use std::sync::ledger::Ledger;

/// Appends the event that a copy of the row comes or goes, where it is wanted.
fn push_row<C: Cell>(
    alloc: Global,
    row: &Row<C>,
    comes: bool,
    wanted: bool,
    out: &mut Events<C>,
) -> Result<(), AllocError>
    ensures { OnOk result (out.new ≡ out.old ++ map (signed comes) (maybe wanted row.now)) }
{
    if wanted {
        out.push(Event::new(row.copy_in(alloc)?, comes))?;
    }
    Ok(())
}

/// A change of a feed, passed on.
pub(crate) fn scan_left<C: Cell>(
    alloc: Global,
    kept: &Kept<C>,
    event: &Event<C>,
    out: &mut Events<C>,
) -> Result<(), AllocError>
    ensures leads { OnOk result ((feed : ℕ) → LeadsLeft C.cmp (node.Scan feed) kept.now event.now out.old out.new) }
    ensures more { OnOk result (length out.old ≤ length out.new) }
{
    push_row(alloc, event.row(), event.comes(), true, out)?;
    Ok(())
}

/// A change of the input of a selection.
pub(crate) fn select_left<C: Cell>(
    alloc: Global,
    tests: &ColTests<C>,
    kept: &Kept<C>,
    event: &Event<C>,
    out: &mut Events<C>,
) -> Result<(), AllocError>
    ensures leads { OnOk result ((from : ℕ) → LeadsLeft C.cmp (node.Select from tests.now) kept.now event.now out.old out.new) }
    ensures more { OnOk result (length out.old ≤ length out.new) }
{
    let wanted = passes_all(event.row(), tests.as_slice());
    push_row(alloc, event.row(), event.comes(), wanted, out)?;
    Ok(())
}

/// A change of the left input of a difference.
pub(crate) fn diff_left<C: Cell, L: Ledger>(
    alloc: Global,
    kept: &mut Kept<C>,
    event: &Event<C>,
    out: &mut Events<C>,
    steps: &mut Steps<L>,
) -> Result<(), AllocError>
    ensures stands { OnOk result ((l r : ℕ) → FollowsLeft C.cmp (node.Diff l r) kept.old kept.new event.now) }
    ensures leads { OnOk result ((l r : ℕ) → LeadsLeft C.cmp (node.Diff l r) kept.old event.now out.old out.new) }
    ensures cost { OnOk result (steps.new + 2 * length out.old ≤ steps.old + 4 + 2 * length out.new) }
{
    let there = holds(alloc, &kept.rights, event.row(), steps);
    push_row(alloc, event.row(), event.comes(), !there, out)?;
    let key = Row::from_vec(Vec::new(alloc));
    mark(alloc, &mut kept.lefts, key, event, steps)?;
    Ok(())
}

/// A change of the right input of a difference: a row that comes there goes from the difference.
pub(crate) fn diff_right<C: Cell, L: Ledger>(
    alloc: Global,
    kept: &mut Kept<C>,
    event: &Event<C>,
    out: &mut Events<C>,
    steps: &mut Steps<L>,
) -> Result<(), AllocError>
    ensures stands { OnOk result ((l r : ℕ) → FollowsRight C.cmp (node.Diff l r) kept.old kept.new event.now) }
    ensures leads { OnOk result ((l r : ℕ) → LeadsRight C.cmp (node.Diff l r) kept.old event.now out.old out.new) }
    ensures cost { OnOk result (steps.new + 2 * length out.old ≤ steps.old + 4 + 2 * length out.new) }
{
    let there = holds(alloc, &kept.lefts, event.row(), steps);
    push_row(alloc, event.row(), !event.comes(), there, out)?;
    let key = Row::from_vec(Vec::new(alloc));
    mark(alloc, &mut kept.rights, key, event, steps)?;
    Ok(())
}

/// A change of the left input of a join: the row is joined to each right row under its key.
pub(crate) fn join_left<C: Cell, L: Ledger>(
    alloc: Global,
    on: &Pairs,
    kept: &mut Kept<C>,
    event: &Event<C>,
    out: &mut Events<C>,
    steps: &mut Steps<L>,
) -> Result<(), AllocError>
    ensures stands { OnOk result ((l r : ℕ) → FollowsLeft C.cmp (node.Join l r on.now) kept.old kept.new event.now) }
    ensures leads { OnOk result ((l r : ℕ) → LeadsLeft C.cmp (node.Join l r on.now) kept.old event.now out.old out.new) }
    ensures cost { OnOk result (steps.new + 2 * length out.old ≤ steps.old + 4 + 2 * length out.new) }
{
    let key = left_key(alloc, event.row(), on.as_slice())?;
    let way = Way {
        front: true,
        comes: event.comes(),
    };
    kept.rights.join(alloc, &key, event.row(), way, out, steps)?;
    mark(alloc, &mut kept.lefts, key, event, steps)?;
    Ok(())
}

/// A change of the right input of a join: each left row under its key is joined to the row.
pub(crate) fn join_right<C: Cell, L: Ledger>(
    alloc: Global,
    on: &Pairs,
    kept: &mut Kept<C>,
    event: &Event<C>,
    out: &mut Events<C>,
    steps: &mut Steps<L>,
) -> Result<(), AllocError>
    ensures stands { OnOk result ((l r : ℕ) → FollowsRight C.cmp (node.Join l r on.now) kept.old kept.new event.now) }
    ensures leads { OnOk result ((l r : ℕ) → LeadsRight C.cmp (node.Join l r on.now) kept.old event.now out.old out.new) }
    ensures cost { OnOk result (steps.new + 2 * length out.old ≤ steps.old + 4 + 2 * length out.new) }
{
    let key = right_key(alloc, event.row(), on.as_slice())?;
    let way = Way {
        front: false,
        comes: event.comes(),
    };
    kept.lefts.join(alloc, &key, event.row(), way, out, steps)?;
    mark(alloc, &mut kept.rights, key, event, steps)?;
    Ok(())
}

/// A change of either input of a union.
pub(crate) fn union<C: Cell, L: Ledger>(
    alloc: Global,
    kept: &mut Kept<C>,
    event: &Event<C>,
    out: &mut Events<C>,
    steps: &mut Steps<L>,
) -> Result<(), AllocError>
    ensures stands_left { OnOk result ((l r : ℕ) → FollowsLeft C.cmp (node.Union l r) kept.old kept.new event.now) }
    ensures stands_right { OnOk result ((l r : ℕ) → FollowsRight C.cmp (node.Union l r) kept.old kept.new event.now) }
    ensures leads_left { OnOk result ((l r : ℕ) → LeadsLeft C.cmp (node.Union l r) kept.old event.now out.old out.new) }
    ensures leads_right { OnOk result ((l r : ℕ) → LeadsRight C.cmp (node.Union l r) kept.old event.now out.old out.new) }
    ensures cost { OnOk result (steps.new + 2 * length out.old ≤ steps.old + 4 + 2 * length out.new) }
{
    let turned = count_again(alloc, &mut kept.supports, event.row(), event.comes(), steps)?;
    push_row(alloc, event.row(), event.comes(), turned, out)?;
    Ok(())
}

/// A change of the input of a projection.
pub(crate) fn project_left<C: Cell, L: Ledger>(
    alloc: Global,
    cols: &Nums,
    kept: &mut Kept<C>,
    event: &Event<C>,
    out: &mut Events<C>,
    steps: &mut Steps<L>,
) -> Result<(), AllocError>
    ensures stands { OnOk result ((from : ℕ) → FollowsLeft C.cmp (node.Project from cols.now) kept.old kept.new event.now) }
    ensures leads { OnOk result ((from : ℕ) → LeadsLeft C.cmp (node.Project from cols.now) kept.old event.now out.old out.new) }
    ensures cost { OnOk result (steps.new + 2 * length out.old ≤ steps.old + 4 + 2 * length out.new) }
{
    let part = cells_at(alloc, event.row(), cols.as_slice())?;
    let turned = count_again(alloc, &mut kept.supports, &part, event.comes(), steps)?;
    push_row(alloc, &part, event.comes(), turned, out)?;
    Ok(())
}

/// A change of the input of an extended node.
pub(crate) fn extend_left<C: Cell>(
    alloc: Global,
    with: &Added<C>,
    kept: &Kept<C>,
    event: &Event<C>,
    out: &mut Events<C>,
) -> Result<(), AllocError>
    ensures leads { OnOk result ((from : ℕ) → LeadsLeft C.cmp (node.Extend from with.now) kept.now event.now out.old out.new) }
    ensures more { OnOk result (length out.old ≤ length out.new) }
{
    let longer = with_last(alloc, event.row(), with)?;
    out.push(Event::new(longer, event.comes()))?;
    Ok(())
}
