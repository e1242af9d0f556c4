ghost use Rattle.std.specs.Prelude.{◌≡◌, ◌+◌, ◌*◌, ◌≤◌, true, false, length, OnOk};
ghost use Rattle.dbn_nodes.specs.Stands.{FollowsLeft, FollowsRight, LeadsLeft, LeadsRight};
ghost use Rattle.dbn_network.specs.Passes.{SameHeld, RunsLeft, RunsRight};

use super::held::Held;
use dbn_nodes::{Event, Events, Steps};
use dbn_value::Cell;
use std::alloc::{AllocError, Global};
use std::sync::ledger::Ledger;

/// One event of the left input. A node that nothing reads makes no events.
pub(crate) fn one_left<C: Cell, L: Ledger>(
    alloc: Global,
    held: &mut Held<C>,
    event: &Event<C>,
    out: &mut Events<C>,
    steps: &mut Steps<L>,
) -> Result<(), AllocError>
    ensures same { SameHeld held.new held.old }
    ensures stands { OnOk result (FollowsLeft C.cmp held.old.state.node held.old.state.kept held.new.state.kept event.now) }
    ensures leads { OnOk result (held.old.read ≡ true → LeadsLeft C.cmp held.old.state.node held.old.state.kept event.now out.old out.new) }
    ensures quiet { OnOk result (held.old.read ≡ false → out.new ≡ out.old) }
    ensures cost { OnOk result (steps.new + 2 * length out.old ≤ steps.old + 4 + 2 * length out.new) }
{
    if held.read {
        held.state.left(alloc, event, out, steps)?;
        return Ok(());
    }
    held.state.follow_left(alloc, event, steps)?;
    Ok(())
}

/// One event of the right input.
pub(crate) fn one_right<C: Cell, L: Ledger>(
    alloc: Global,
    held: &mut Held<C>,
    event: &Event<C>,
    out: &mut Events<C>,
    steps: &mut Steps<L>,
) -> Result<(), AllocError>
    ensures same { SameHeld held.new held.old }
    ensures stands { OnOk result (FollowsRight C.cmp held.old.state.node held.old.state.kept held.new.state.kept event.now) }
    ensures leads { OnOk result (held.old.read ≡ true → LeadsRight C.cmp held.old.state.node held.old.state.kept event.now out.old out.new) }
    ensures quiet { OnOk result (held.old.read ≡ false → out.new ≡ out.old) }
    ensures cost { OnOk result (steps.new + 2 * length out.old ≤ steps.old + 4 + 2 * length out.new) }
{
    if held.read {
        held.state.right(alloc, event, out, steps)?;
        return Ok(());
    }
    held.state.follow_right(alloc, event, steps)?;
    Ok(())
}

/// All events of the left input, the first of them first.
pub(crate) fn all_left<C: Cell, L: Ledger>(
    alloc: Global,
    held: &mut Held<C>,
    events: &[Event<C>],
    out: &mut Events<C>,
    steps: &mut Steps<L>,
) -> Result<(), AllocError>
    ensures same { SameHeld held.new held.old }
    ensures ok { OnOk result (RunsLeft C.cmp held.old held.new events.now out.old out.new steps.old steps.new) }
{
    for event in events {
        one_left(alloc, held, event, out, steps)?;
    }
    Ok(())
}

/// All events of the right input, the first of them first.
pub(crate) fn all_right<C: Cell, L: Ledger>(
    alloc: Global,
    held: &mut Held<C>,
    events: &[Event<C>],
    out: &mut Events<C>,
    steps: &mut Steps<L>,
) -> Result<(), AllocError>
    ensures same { SameHeld held.new held.old }
    ensures ok { OnOk result (RunsRight C.cmp held.old held.new events.now out.old out.new steps.old steps.new) }
{
    for event in events {
        one_right(alloc, held, event, out, steps)?;
    }
    Ok(())
}
