ghost use Rattle.std.specs.Prelude.{◌≡◌, ◌+◌, ◌<◌, ◌++◌, ◌↔◌, List, [], ◌∷◌, if◌then◌else◌, true, false, None, Some, map, length, nat_lt, IfOk, OnOk, OnErr, IsTrue};
ghost use Rattle.std.specs.List.{list_all};
ghost use Rattle.std.specs.List.Sorted.{IsStrictlySortedBy};
ghost use Rattle.std.specs.Cmp.Lexicographic.{slice_cmp};
ghost use Rattle.std.specs.BTreeMap.{is_at};
ghost use Rattle.std.specs.Map.{keys_of, lookup};
ghost use Rattle.dbn_nodes.specs.Tables.{shelf_count, IsShelf, IsFilled};
ghost use Rattle.dbn_nodes.specs.Changes.{signed, paired};

use super::event::{Event, Events};
use super::steps::Steps;
use dbn_value::{Cell, CopyIn, Row, RowsOf, join_rows};
use sqlite_items::Items;
use std::alloc::{AllocError, Global};
use std::collections::BTreeMap;
use std::marker::Model;
use std::sync::ledger::Ledger;

/// The rows of one key with their counts: most keys have one row, which is held in place.
#[derive(Drop)]
pub(crate) enum Inner<C: Cell> {
    /// One row.
    One(Row<C>, u64),
    /// Rows in their order.
    Many(BTreeMap<Row<C>, u64>),
}

/// The rows of one key, each with a count of at least 1.
#[derive(Drop)]
pub(crate) struct Shelf<C: Cell> {
    inner: Inner<C>,
}

impl<C: Cell> Model for Shelf<C> {
    ghost use Rattle.std.specs.Prelude.{List, ℕ};
    ghost use Rattle.std.specs.Coded.{coded_list, coded×, coded_ℕ};
    ghost use Rattle.std.specs.Cmp.Lexicographic.{slice_cmp};
    ghost use Rattle.dbn_nodes.specs.Tables.{IsShelf};
    ghost use Rattle.dbn_nodes.specs.Entries.{entries_in};

    ghost Value = { List (List C × ℕ) };

    ghost coded = { coded_list (coded× (coded_list C.code) coded_ℕ) };

    ghost view = { λ s. entries_in s.inner };

    ghost invariant = { λ s. IsShelf (slice_cmp C.cmp) (entries_in s.inner) };
}

impl<C: Cell> Shelf<C> {
    /// The count of the row, 0 where it is not there.
    pub(crate) fn count(&self, row: &Row<C>) -> u64
        ensures { result ≡ shelf_count (slice_cmp C.cmp) self.now row.now }
    {
        match &self.inner {
            Inner::One(own, many) => { if row.cmp(own).is_eq() { *many } else { 0 } }
            Inner::Many(rows) => rows.get(row).copied().unwrap_or(0),
        }
    }

    /// The shelf of this row alone.
    pub(crate) fn one(row: Row<C>, many: u64) -> Shelf<C>
        requires some { 0 < many }
        ensures { (q : List C) → shelf_count (slice_cmp C.cmp) result q ≡ (if is_at (slice_cmp C.cmp row) q then many else 0) }
    {
        Shelf {
            inner: Inner::One(row, many),
        }
    }

    /// Gives the row this count. An error is want of memory, and then nothing changed.
    pub(crate) fn set(&mut self, alloc: Global, row: Row<C>, many: u64) -> Result<(), AllocError>
        requires some { 0 < many }
        ensures ok { OnOk result ((q : List C) → shelf_count (slice_cmp C.cmp) self.new q ≡ (if is_at (slice_cmp C.cmp row) q then many else shelf_count (slice_cmp C.cmp) self.old q)) }
        ensures err { OnErr result (self.new ≡ self.old) }
    {
        match &mut self.inner {
            Inner::One(own, held) => {
                if row.cmp(own).is_eq() {
                    *held = many;
                    return Ok(());
                }
                let rows = both_rows(alloc, own, *held, row, many)?;
                self.inner = Inner::Many(rows);
                Ok(())
            }
            Inner::Many(rows) => {
                rows.insert(row, many)?;
                Ok(())
            }
        }
    }

    /// Counts the row once more and tells its count before. A row that is there is searched once and not copied. An error is want
    /// of memory, or a count that would pass 2^64-1, and then nothing changed.
    pub(crate) fn raise(&mut self, alloc: Global, row: &Row<C>) -> Result<u64, AllocError>
        ensures told { IfOk result (λ many. many ≡ shelf_count (slice_cmp C.cmp) self.old row.now) }
        ensures ok { OnOk result ((q : List C) → shelf_count (slice_cmp C.cmp) self.new q ≡ (if is_at (slice_cmp C.cmp row.now) q then shelf_count (slice_cmp C.cmp) self.old row.now + 1 else shelf_count (slice_cmp C.cmp) self.old q)) }
        ensures err { OnErr result (self.new ≡ self.old) }
    {
        match &mut self.inner {
            Inner::One(own, held) => {
                if row.cmp(own).is_eq() {
                    let many = *held;
                    if many == u64::MAX {
                        return Err(AllocError);
                    }
                    *held = many + 1;
                    return Ok(many);
                }
                let rows = both_rows(alloc, own, *held, row.copy_in(alloc)?, 1)?;
                self.inner = Inner::Many(rows);
                Ok(0)
            }
            Inner::Many(rows) => {
                let many = raise_in(alloc, rows, row)?;
                Ok(many)
            }
        }
    }

    /// Takes the row out and tells its count, in one search. Where no other row is there, the shelf is to be let go.
    pub(crate) fn take(&mut self, row: &Row<C>) -> Taken
        ensures told { result.many ≡ shelf_count (slice_cmp C.cmp) self.old row.now }
        ensures gone { result.last ≡ true → (q : List C) → shelf_count (slice_cmp C.cmp) self.old q ≡ (if is_at (slice_cmp C.cmp row.now) q then shelf_count (slice_cmp C.cmp) self.old row.now else 0) }
        ensures left { result.last ≡ false → (q : List C) → shelf_count (slice_cmp C.cmp) self.new q ≡ (if is_at (slice_cmp C.cmp row.now) q then 0 else shelf_count (slice_cmp C.cmp) self.old q) }
        ensures some { result.last ≡ false → IsFilled (slice_cmp C.cmp) self.new }
    {
        match &mut self.inner {
            Inner::One(own, held) => {
                let same = row.cmp(own).is_eq();
                let many = count_if(same, *held);
                return Taken { many, last: same };
            }
            Inner::Many(rows) => {
                let many = rows.remove(row).unwrap_or(0);
                let empty = rows.is_empty();
                return Taken { many, last: empty };
            }
        }
    }

    /// Whether each row is on the other shelf too: one look-up for each, up to the first that is not there.
    pub(crate) fn is_within(&self, other: &Shelf<C>) -> bool
        ensures { IsTrue result ↔ ((q : List C) → 0 < shelf_count (slice_cmp C.cmp) self.now q → 0 < shelf_count (slice_cmp C.cmp) other.now q) }
    {
        match &self.inner {
            Inner::One(own, _) => other.count(own) > 0,
            Inner::Many(rows) => are_on(rows, other),
        }
    }

    /// The rows, ascending, one step for each. An error is want of memory.
    pub(crate) fn rows<L: Ledger>(
        &self,
        alloc: Global,
        steps: &mut Steps<L>,
    ) -> Result<RowsOf<C>, AllocError>
        ensures rows { IfOk result (λ rows. rows ≡ keys_of self.now) }
        ensures held { OnOk result (IsShelf (slice_cmp C.cmp) self.now) }
        ensures cost { IfOk result (λ rows. steps.new ≡ steps.old + length rows) }
    {
        match &self.inner {
            Inner::One(own, _) => {
                let mut rows = Items::new(alloc);
                rows.push(own.copy_in(alloc)?)?;
                steps.tick();
                return Ok(rows);
            }
            Inner::Many(all) => {
                let rows = copy_rows(alloc, all, steps)?;
                return Ok(rows);
            }
        }
    }

    /// Appends for each row, joined to the given one, the event that it comes or goes, one step each. An error is want of memory.
    pub(crate) fn join<L: Ledger>(
        &self,
        alloc: Global,
        row: &Row<C>,
        way: Way,
        out: &mut Events<C>,
        steps: &mut Steps<L>,
    ) -> Result<(), AllocError>
        ensures out { OnOk result (out.new ≡ out.old ++ map (signed way.comes) (map (paired way.front row.now) (keys_of self.now))) }
        ensures held { OnOk result (IsShelf (slice_cmp C.cmp) self.now) }
        ensures cost { OnOk result (steps.new ≡ steps.old + length (keys_of self.now)) }
    {
        match &self.inner {
            Inner::One(own, _) => {
                push_pair(alloc, row, own, way, out)?;
                steps.tick();
                return Ok(());
            }
            Inner::Many(all) => {
                push_pairs(alloc, row, all, way, out, steps)?;
                return Ok(());
            }
        }
    }
}

/// What a row that is taken out of a shelf had, and left.
#[derive(Clone, Copy, Debug)]
pub(crate) struct Taken {
    /// Its count, 0 where it was not there.
    pub many: u64,
    /// Whether no other row was there.
    pub last: bool,
}

/// The count of a row that is there.
fn count_if(there: bool, many: u64) -> u64
    ensures { result ≡ (if there then many else 0) }
{
    if there { many } else { 0 }
}

/// A row of a shelf and another one, with their counts.
fn both_rows<C: Cell>(
    alloc: Global,
    own: &Row<C>,
    held: u64,
    row: Row<C>,
    many: u64,
) -> Result<BTreeMap<Row<C>, u64>, AllocError>
    ensures found { IfOk result (λ rows. (q : List C) → lookup (is_at (slice_cmp C.cmp q)) rows.entries ≡ (if is_at (slice_cmp C.cmp row) q then Some many else (if is_at (slice_cmp C.cmp own.now) q then Some held else None))) }
    ensures ordered { IfOk result (λ rows. IsStrictlySortedBy (slice_cmp C.cmp) (keys_of rows.entries)) }
{
    let first = own.copy_in(alloc)?;
    let mut rows = BTreeMap::new(alloc);
    rows.insert(first, held)?;
    rows.insert(row, many)?;
    Ok(rows)
}

/// Counts the row once more and tells its count before.
fn raise_in<C: Cell>(
    alloc: Global,
    rows: &mut BTreeMap<Row<C>, u64>,
    row: &Row<C>,
) -> Result<u64, AllocError>
    ensures told { IfOk result (λ many. many ≡ shelf_count (slice_cmp C.cmp) rows.old.entries row.now) }
    ensures found { OnOk result ((q : List C) → lookup (is_at (slice_cmp C.cmp q)) rows.new.entries ≡ (if is_at (slice_cmp C.cmp row.now) q then Some (shelf_count (slice_cmp C.cmp) rows.old.entries row.now + 1) else lookup (is_at (slice_cmp C.cmp q)) rows.old.entries)) }
    ensures err { OnErr result (rows.new.entries ≡ rows.old.entries) }
    ensures ordered { OnOk result (IsStrictlySortedBy (slice_cmp C.cmp) (keys_of rows.new.entries)) }
{
    match rows.get_mut(row) {
        Some(count) => {
            let many = *count;
            if many == u64::MAX {
                return Err(AllocError);
            }
            *count = many + 1;
            return Ok(many);
        }
        None => {
            rows.insert(row.copy_in(alloc)?, 1)?;
            return Ok(0);
        }
    }
}

/// Whether each of the rows is on the shelf.
fn are_on<C: Cell>(rows: &BTreeMap<Row<C>, u64>, shelf: &Shelf<C>) -> bool
    ensures { result ≡ list_all (λ row. nat_lt 0 (shelf_count (slice_cmp C.cmp) shelf.now row)) (keys_of rows.now.entries) }
{
    rows.keys().all(|row| shelf.count(row) > 0)
}

/// How a row is joined to another one, and whether the joined row comes.
#[derive(Clone, Copy, Debug)]
pub(crate) struct Way {
    /// Whether it stands before the other one; else behind it.
    pub front: bool,
    /// Whether the joined row comes; else it goes.
    pub comes: bool,
}

/// Appends the event that the row, joined to the other one, comes or goes.
fn push_pair<C: Cell>(
    alloc: Global,
    row: &Row<C>,
    other: &Row<C>,
    way: Way,
    out: &mut Events<C>,
) -> Result<(), AllocError>
    ensures { OnOk result (out.new ≡ out.old ++ signed way.comes (paired way.front row.now other.now) ∷ []) }
{
    let joined = if way.front {
        join_rows(alloc, row, other)?
    } else {
        join_rows(alloc, other, row)?
    };
    out.push(Event::new(joined, way.comes))?;
    Ok(())
}

/// The same for each of the rows, one step each.
fn push_pairs<C: Cell, L: Ledger>(
    alloc: Global,
    row: &Row<C>,
    all: &BTreeMap<Row<C>, u64>,
    way: Way,
    out: &mut Events<C>,
    steps: &mut Steps<L>,
) -> Result<(), AllocError>
    ensures out { OnOk result (out.new ≡ out.old ++ map (signed way.comes) (map (paired way.front row.now) (keys_of all.now.entries))) }
    ensures cost { OnOk result (steps.new ≡ steps.old + length (keys_of all.now.entries)) }
{
    for (other, _many) in all {
        push_pair(alloc, row, other, way, out)?;
        steps.tick();
    }
    Ok(())
}

/// Copies of the rows, one step for each.
fn copy_rows<C: Cell, L: Ledger>(
    alloc: Global,
    all: &BTreeMap<Row<C>, u64>,
    steps: &mut Steps<L>,
) -> Result<RowsOf<C>, AllocError>
    ensures rows { IfOk result (λ rows. rows ≡ keys_of all.now.entries) }
    ensures cost { IfOk result (λ rows. steps.new ≡ steps.old + length rows) }
{
    let mut rows = Items::new(alloc);
    for (row, _many) in all {
        rows.push(row.copy_in(alloc)?)?;
        steps.tick();
    }
    Ok(rows)
}
