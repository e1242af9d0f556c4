ghost use Rattle.std.specs.Prelude.{◌≡◌, ◌+◌, ◌-◌, ◌<◌, ◌==◌, ◌&&◌, ◌↔◌, List, [], if◌then◌else◌, nat_lt, IfOk, OnOk, IsTrue};
ghost use Rattle.std.specs.Ordering.{eq_by_cmp};
ghost use Rattle.std.specs.Cmp.Lexicographic.{slice_cmp};
ghost use Rattle.dbn_nodes.specs.Changes.{row_in, comes};
ghost use Rattle.dbn_nodes.specs.Tables.{choose, count_at};

use super::event::Event;
use super::keyed::Keyed;
use super::steps::Steps;
use dbn_value::{Cell, CopyIn, Row};
use std::alloc::{AllocError, Global};
use std::sync::ledger::Ledger;

/// Whether the row is under the key without cells, in one step.
pub fn holds<C: Cell, L: Ledger>(
    alloc: Global,
    table: &Keyed<C>,
    row: &Row<C>,
    steps: &mut Steps<L>,
) -> bool
    ensures value { result ≡ nat_lt 0 (count_at (slice_cmp C.cmp) table.now [] row.now) }
    ensures cost { steps.new ≡ steps.old + 1 }
{
    let key = Row::from_vec(Vec::new(alloc));
    table.count(&key, row, steps) > 0
}

/// Whether each row that is under the key without cells is under it in the other table too.
pub(crate) fn holds_all<C: Cell>(alloc: Global, table: &Keyed<C>, rows: &Keyed<C>) -> bool
    ensures { IsTrue result ↔ ((r : List C) → 0 < count_at (slice_cmp C.cmp) rows.now [] r → 0 < count_at (slice_cmp C.cmp) table.now [] r) }
{
    let key = Row::from_vec(Vec::new(alloc));
    rows.is_within(table, &key)
}

/// Puts the row under the key where it comes, and takes it out where it goes, in one step.
pub fn mark<C: Cell, L: Ledger>(
    alloc: Global,
    table: &mut Keyed<C>,
    key: Row<C>,
    event: &Event<C>,
    steps: &mut Steps<L>,
) -> Result<(), AllocError>
    ensures counts { OnOk result ((k r : List C) → count_at (slice_cmp C.cmp) table.new k r ≡ (if eq_by_cmp (slice_cmp C.cmp) key k && eq_by_cmp (slice_cmp C.cmp) (row_in event.now) r then choose (comes event.now) 1 0 else count_at (slice_cmp C.cmp) table.old k r)) }
    ensures cost { OnOk result (steps.new ≡ steps.old + 1) }
{
    match event {
        Event::Plus(row) => {
            table.set(alloc, key, row.copy_in(alloc)?, 1, steps)?;
            return Ok(());
        }
        Event::Minus(row) => {
            table.remove(&key, row, steps);
            return Ok(());
        }
    }
}

/// Counts the row once more or once less, in two steps, and tells whether it is new, or gone. An error is want of memory, or a
/// count that would pass 2^64-1.
pub(crate) fn count_again<C: Cell, L: Ledger>(
    alloc: Global,
    table: &mut Keyed<C>,
    row: &Row<C>,
    comes: bool,
    steps: &mut Steps<L>,
) -> Result<bool, AllocError>
    ensures counts { OnOk result ((k r : List C) → count_at (slice_cmp C.cmp) table.new k r ≡ (if eq_by_cmp (slice_cmp C.cmp) [] k && eq_by_cmp (slice_cmp C.cmp) row.now r then choose comes (count_at (slice_cmp C.cmp) table.old [] row.now + 1) (count_at (slice_cmp C.cmp) table.old [] row.now - 1) else count_at (slice_cmp C.cmp) table.old k r)) }
    ensures turned { IfOk result (λ turned. turned ≡ (count_at (slice_cmp C.cmp) table.old [] row.now == choose comes 0 1)) }
    ensures cost { OnOk result (steps.new ≡ steps.old + 2) }
{
    let key = Row::from_vec(Vec::new(alloc));
    if comes {
        let many = table.raise(alloc, &key, row, steps)?;
        return Ok(many == 0);
    }
    let many = table.take(&key, row, steps);
    if many <= 1 {
        steps.tick();
        return Ok(many == 1);
    }
    table.set(alloc, key, row.copy_in(alloc)?, many - 1, steps)?;
    Ok(false)
}
