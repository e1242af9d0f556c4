ghost use Rattle.std.specs.Prelude.{◌≡◌, ◌+◌, OnOk, ℕ};
ghost use Rattle.dbn_nodes.specs.Stands.{FollowsLeft, FollowsRight};
ghost use Rattle.dbn_nodes.specs.declared.node.Node.TheVariants as node;

use super::counts::{count_again, mark};
use super::event::Event;
use super::node::Pairs;
use super::rows::{cells_at, left_key, right_key};
use super::state::Kept;
use super::steps::Steps;
use dbn_value::{Cell, Nums, Row};
use std::alloc::{AllocError, Global};
use std::sync::ledger::Ledger;

/// What a difference keeps follows a change of its left input.
pub(crate) fn follow_diff_left<C: Cell, L: Ledger>(
    alloc: Global,
    kept: &mut Kept<C>,
    event: &Event<C>,
    steps: &mut Steps<L>,
) -> Result<(), AllocError>
    ensures stands { OnOk result ((l r : ℕ) → FollowsLeft C.cmp (node.Diff l r) kept.old kept.new event.now) }
    ensures cost { OnOk result (steps.new ≡ steps.old + 1) }
{
    let key = Row::from_vec(Vec::new(alloc));
    mark(alloc, &mut kept.lefts, key, event, steps)?;
    Ok(())
}

/// What a difference keeps follows a change of its right input.
pub(crate) fn follow_diff_right<C: Cell, L: Ledger>(
    alloc: Global,
    kept: &mut Kept<C>,
    event: &Event<C>,
    steps: &mut Steps<L>,
) -> Result<(), AllocError>
    ensures stands { OnOk result ((l r : ℕ) → FollowsRight C.cmp (node.Diff l r) kept.old kept.new event.now) }
    ensures cost { OnOk result (steps.new ≡ steps.old + 1) }
{
    let key = Row::from_vec(Vec::new(alloc));
    mark(alloc, &mut kept.rights, key, event, steps)?;
    Ok(())
}

/// What a join keeps follows a change of its left input.
pub(crate) fn follow_join_left<C: Cell, L: Ledger>(
    alloc: Global,
    on: &Pairs,
    kept: &mut Kept<C>,
    event: &Event<C>,
    steps: &mut Steps<L>,
) -> Result<(), AllocError>
    ensures stands { OnOk result ((l r : ℕ) → FollowsLeft C.cmp (node.Join l r on.now) kept.old kept.new event.now) }
    ensures cost { OnOk result (steps.new ≡ steps.old + 1) }
{
    let key = left_key(alloc, event.row(), on.as_slice())?;
    mark(alloc, &mut kept.lefts, key, event, steps)?;
    Ok(())
}

/// What a join keeps follows a change of its right input.
pub(crate) fn follow_join_right<C: Cell, L: Ledger>(
    alloc: Global,
    on: &Pairs,
    kept: &mut Kept<C>,
    event: &Event<C>,
    steps: &mut Steps<L>,
) -> Result<(), AllocError>
    ensures stands { OnOk result ((l r : ℕ) → FollowsRight C.cmp (node.Join l r on.now) kept.old kept.new event.now) }
    ensures cost { OnOk result (steps.new ≡ steps.old + 1) }
{
    let key = right_key(alloc, event.row(), on.as_slice())?;
    mark(alloc, &mut kept.rights, key, event, steps)?;
    Ok(())
}

/// What a union keeps follows a change of either input.
pub(crate) fn follow_union<C: Cell, L: Ledger>(
    alloc: Global,
    kept: &mut Kept<C>,
    event: &Event<C>,
    steps: &mut Steps<L>,
) -> Result<(), AllocError>
    ensures stands_left { OnOk result ((l r : ℕ) → FollowsLeft C.cmp (node.Union l r) kept.old kept.new event.now) }
    ensures stands_right { OnOk result ((l r : ℕ) → FollowsRight C.cmp (node.Union l r) kept.old kept.new event.now) }
    ensures cost { OnOk result (steps.new ≡ steps.old + 2) }
{
    let _turned = count_again(alloc, &mut kept.supports, event.row(), event.comes(), steps)?;
    Ok(())
}

/// What a projection keeps follows a change of its input.
pub(crate) fn follow_project<C: Cell, L: Ledger>(
    alloc: Global,
    cols: &Nums,
    kept: &mut Kept<C>,
    event: &Event<C>,
    steps: &mut Steps<L>,
) -> Result<(), AllocError>
    ensures stands { OnOk result ((from : ℕ) → FollowsLeft C.cmp (node.Project from cols.now) kept.old kept.new event.now) }
    ensures cost { OnOk result (steps.new ≡ steps.old + 2) }
{
    let part = cells_at(alloc, event.row(), cols.as_slice())?;
    let _turned = count_again(alloc, &mut kept.supports, &part, event.comes(), steps)?;
    Ok(())
}
