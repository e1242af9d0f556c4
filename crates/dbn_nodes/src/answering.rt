ghost use Rattle.std.specs.Prelude.{◌≡◌, ◌++◌, List, [], ◌∷◌, not, map, nat_lt, IfOk, OnOk};
ghost use Rattle.std.specs.Cmp.Lexicographic.{slice_cmp};
ghost use Rattle.std.specs.List.{filter};
ghost use Rattle.dbn_value.specs.Ascending.{ascending};
ghost use Rattle.dbn_nodes.specs.Changes.{maybe};
ghost use Rattle.dbn_nodes.specs.Tables.{count_at, AreRowsOf};
ghost use Rattle.dbn_nodes.specs.Values.{selected, joined, extended};
ghost use Rattle.dbn_nodes.specs.Answering.{JoinsWith};

use super::counts::holds;
use super::keyed::Keyed;
use super::node::{Added, ColTest};
use super::rows::{left_key, passes_all, with_last};
use super::state::Kept;
use super::steps::Steps;
use dbn_value::{Cell, CopyIn, Row, RowsOf, join_rows};
use sqlite_items::Items;
use std::alloc::{AllocError, Global};
use std::collections::BTreeSet;
use std::sync::ledger::Ledger;

/// Appends a copy of the row, where it is wanted.
fn push_copy<C: Cell>(
    alloc: Global,
    row: &Row<C>,
    wanted: bool,
    out: &mut RowsOf<C>,
) -> Result<(), AllocError>
    ensures { OnOk result (out.new ≡ out.old ++ maybe wanted row.now) }
{
    if wanted {
        out.push(row.copy_in(alloc)?)?;
    }
    Ok(())
}

/// Copies of the rows.
pub(crate) fn copied<C: Cell>(alloc: Global, rows: &[Row<C>]) -> Result<RowsOf<C>, AllocError>
    ensures { IfOk result (λ out. out ≡ rows.now) }
{
    let mut out = Items::new(alloc);
    for row in rows {
        out.push(row.copy_in(alloc)?)?;
    }
    Ok(out)
}

/// The rows of a set, in their order.
fn listed<C: Cell>(alloc: Global, set: &BTreeSet<Row<C>>) -> Result<RowsOf<C>, AllocError>
    ensures { IfOk result (λ rows. rows ≡ set.now.keys) }
{
    let mut rows = Items::new(alloc);
    for row in set {
        rows.push(row.copy_in(alloc)?)?;
    }
    Ok(rows)
}

/// The one row without cells.
pub(crate) fn empty_row<C: Cell>(alloc: Global) -> Result<RowsOf<C>, AllocError>
    ensures { IfOk result (λ rows. rows ≡ [] ∷ []) }
{
    let mut rows = Items::new(alloc);
    rows.push(Row::from_vec(Vec::new(alloc)))?;
    Ok(rows)
}

/// The rows of a selection: those that meet all tests.
pub(crate) fn selected_rows<C: Cell>(
    alloc: Global,
    tests: &[ColTest<C>],
    lefts: &[Row<C>],
) -> Result<RowsOf<C>, AllocError>
    ensures { IfOk result (λ rows. rows ≡ selected C.cmp tests.now lefts.now) }
{
    let mut out = Items::new(alloc);
    for row in lefts {
        push_copy(alloc, row, passes_all(row, tests), &mut out)?;
    }
    Ok(out)
}

/// The rows of an extended node.
pub(crate) fn extended_rows<C: Cell>(
    alloc: Global,
    with: &Added<C>,
    lefts: &[Row<C>],
) -> Result<RowsOf<C>, AllocError>
    ensures { IfOk result (λ rows. rows ≡ extended C.cmp with.now lefts.now) }
{
    let mut longer = BTreeSet::new(alloc);
    for row in lefts {
        longer.insert(with_last(alloc, row, with)?)?;
    }
    let rows = listed(alloc, &longer)?;
    Ok(rows)
}

/// The rows under the key without cells.
pub(crate) fn supported_rows<C: Cell, L: Ledger>(
    alloc: Global,
    supports: &Keyed<C>,
    steps: &mut Steps<L>,
) -> Result<RowsOf<C>, AllocError>
    ensures { IfOk result (λ rows. AreRowsOf (slice_cmp C.cmp) supports.now [] rows) }
{
    let key = Row::from_vec(Vec::new(alloc));
    let rows = supports.rows_of(alloc, &key, steps)?;
    Ok(rows)
}

/// The rows that have no count in the table.
fn missing_rows<C: Cell, L: Ledger>(
    alloc: Global,
    table: &Keyed<C>,
    lefts: &[Row<C>],
    steps: &mut Steps<L>,
) -> Result<RowsOf<C>, AllocError>
    ensures { IfOk result (λ rows. rows ≡ filter (λ row. not (nat_lt 0 (count_at (slice_cmp C.cmp) table.now [] row))) lefts.now) }
{
    let mut out = Items::new(alloc);
    for row in lefts {
        let there = holds(alloc, table, row, steps);
        push_copy(alloc, row, !there, &mut out)?;
    }
    Ok(out)
}

/// The rows of a difference: those of the left input that have no count in the right one.
pub(crate) fn left_over<C: Cell, L: Ledger>(
    alloc: Global,
    kept: &Kept<C>,
    steps: &mut Steps<L>,
) -> Result<RowsOf<C>, AllocError>
    ensures { IfOk result (λ rows. (lefts : List (List C)) × AreRowsOf (slice_cmp C.cmp) kept.now.lefts [] lefts × (rows ≡ filter (λ row. not (nat_lt 0 (count_at (slice_cmp C.cmp) kept.now.rights [] row))) lefts)) }
{
    let lefts = supported_rows(alloc, &kept.lefts, steps)?;
    let rows = missing_rows(alloc, &kept.rights, lefts.as_slice(), steps)?;
    Ok(rows)
}

/// Adds the row, joined to each of the others.
fn add_joined<C: Cell>(
    alloc: Global,
    row: &Row<C>,
    others: &[Row<C>],
    set: &mut BTreeSet<Row<C>>,
) -> Result<(), AllocError>
    ensures { OnOk result ((xs : List (List C)) → set.old.keys ≡ ascending (slice_cmp C.cmp) xs → set.new.keys ≡ ascending (slice_cmp C.cmp) (xs ++ map (λ b. row.now ++ b) others.now)) }
{
    for other in others {
        set.insert(join_rows(alloc, row, other)?)?;
    }
    Ok(())
}

/// The rows of a join.
pub(crate) fn joined_rows<C: Cell, L: Ledger>(
    alloc: Global,
    on: &[(usize, usize)],
    rights: &Keyed<C>,
    lefts: &[Row<C>],
    steps: &mut Steps<L>,
) -> Result<RowsOf<C>, AllocError>
    ensures { IfOk result (λ rows. (t : List (List C)) → JoinsWith C.cmp on.now rights.now lefts.now t → rows ≡ joined C.cmp on.now lefts.now t) }
{
    let mut set = BTreeSet::new(alloc);
    for row in lefts {
        let key = left_key(alloc, row, on)?;
        let others = rights.rows_of(alloc, &key, steps)?;
        add_joined(alloc, row, others.as_slice(), &mut set)?;
    }
    let rows = listed(alloc, &set)?;
    Ok(rows)
}
