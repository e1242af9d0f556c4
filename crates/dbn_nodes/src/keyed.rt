ghost use Rattle.std.specs.Prelude.{◌≡◌, ◌+◌, ◌<◌, ◌&&◌, ◌↔◌, ◌++◌, List, [], if◌then◌else◌, map, length, ℕ, None, Some, IfOk, OnOk, OnErr, IsTrue};
ghost use Rattle.std.specs.Ordering.{eq_by_cmp};
ghost use Rattle.std.specs.Cmp.Lexicographic.{slice_cmp};
ghost use Rattle.std.specs.Map.{lookup};
ghost use Rattle.std.specs.BTreeMap.{is_at};
ghost use Rattle.dbn_nodes.specs.Tables.{shelf_count, count_at, AreRowsOf};
ghost use Rattle.dbn_nodes.specs.Changes.{signed, paired};

use super::behind::is_behind;
use super::event::Events;
use super::shelf::{Shelf, Way};
use super::steps::Steps;
use dbn_value::{Cell, CopyIn, Row, RowsOf};
use sqlite_items::Items;
use std::alloc::{AllocError, Global};
use std::collections::BTreeMap;
use std::marker::Model;
use std::sync::ledger::Ledger;

/// A table of rows under keys, each pair of a key and a row once, with a count of at least 1.
#[derive(Drop)]
pub struct Keyed<C: Cell> {
    shelves: BTreeMap<Row<C>, Shelf<C>>,
}

impl<C: Cell> Model for Keyed<C> {
    ghost use Rattle.std.specs.Prelude.{List, ℕ};
    ghost use Rattle.std.specs.Coded.{coded_list, coded×, coded_ℕ};
    ghost use Rattle.std.specs.Cmp.Lexicographic.{slice_cmp};
    ghost use Rattle.dbn_nodes.specs.Tables.{IsTable};

    ghost Value = { List (List C × List (List C × ℕ)) };

    ghost coded = { coded_list (coded× (coded_list C.code) (coded_list (coded× (coded_list C.code) coded_ℕ))) };

    ghost view = { λ t. t.shelves.entries };

    ghost invariant = { λ t. IsTable (slice_cmp C.cmp) t.shelves.entries };
}

impl<C: Cell> Keyed<C> {
    /// The table without rows.
    pub fn new(alloc: Global) -> Keyed<C>
        ensures empty { result ≡ [] }
        ensures counts { (k r : List C) → count_at (slice_cmp C.cmp) result k r ≡ 0 }
    {
        Keyed {
            shelves: BTreeMap::new(alloc),
        }
    }

    /// The count of the row under the key, 0 where it is not there. It takes one step.
    pub fn count<L: Ledger>(&self, key: &Row<C>, row: &Row<C>, steps: &mut Steps<L>) -> u64
        ensures value { result ≡ count_at (slice_cmp C.cmp) self.now key.now row.now }
        ensures cost { steps.new ≡ steps.old + 1 }
    {
        steps.tick();
        match self.shelves.get(key) {
            Some(shelf) => shelf.count(row),
            None => 0,
        }
    }

    /// Whether the table has no rows. It takes no step.
    pub fn is_empty(&self) -> bool
        ensures { IsTrue result ↔ ((k r : List C) → count_at (slice_cmp C.cmp) self.now k r ≡ 0) }
    {
        self.shelves.is_empty()
    }

    /// Whether each row under the key is under it in the other table too: one look-up for each, up to the first that is not there. It
    /// takes no step.
    pub(crate) fn is_within(&self, other: &Keyed<C>, key: &Row<C>) -> bool
        ensures { IsTrue result ↔ ((r : List C) → 0 < count_at (slice_cmp C.cmp) self.now key.now r → 0 < count_at (slice_cmp C.cmp) other.now key.now r) }
    {
        match self.shelves.get(key) {
            Some(shelf) => match other.shelves.get(key) {
                Some(others) => shelf.is_within(others),
                None => false,
            },
            None => true,
        }
    }

    /// Gives the row under the key this count; all other counts stay. It takes one step. An error is want of memory, and then
    /// nothing changed.
    pub fn set<L: Ledger>(
        &mut self,
        alloc: Global,
        key: Row<C>,
        row: Row<C>,
        many: u64,
        steps: &mut Steps<L>,
    ) -> Result<(), AllocError>
        requires some { 0 < many }
        ensures ok { OnOk result ((k r : List C) → count_at (slice_cmp C.cmp) self.new k r ≡ (if eq_by_cmp (slice_cmp C.cmp) key k && eq_by_cmp (slice_cmp C.cmp) row r then many else count_at (slice_cmp C.cmp) self.old k r)) }
        ensures err { OnErr result (self.new ≡ self.old) }
        ensures cost { steps.new ≡ steps.old + 1 }
    {
        steps.tick();
        if is_behind(&self.shelves, &key) {
            self.shelves.insert(key, Shelf::one(row, many))?;
            return Ok(());
        }
        match self.shelves.get_mut(&key) {
            Some(shelf) => {
                shelf.set(alloc, row, many)?;
                return Ok(());
            }
            None => {
                self.shelves.insert(key, Shelf::one(row, many))?;
                return Ok(());
            }
        }
    }

    /// Counts the row under the key once more and tells its count before; all other counts stay. A row that is there is searched
    /// once and not copied. It takes two steps, those of a look-up and a change. An error is want of memory, or a
    /// count that would pass 2^64-1.
    pub(crate) fn raise<L: Ledger>(
        &mut self,
        alloc: Global,
        key: &Row<C>,
        row: &Row<C>,
        steps: &mut Steps<L>,
    ) -> Result<u64, AllocError>
        ensures told { IfOk result (λ many. many ≡ count_at (slice_cmp C.cmp) self.old key.now row.now) }
        ensures counts { OnOk result ((k r : List C) → count_at (slice_cmp C.cmp) self.new k r ≡ (if eq_by_cmp (slice_cmp C.cmp) key.now k && eq_by_cmp (slice_cmp C.cmp) row.now r then count_at (slice_cmp C.cmp) self.old key.now row.now + 1 else count_at (slice_cmp C.cmp) self.old k r)) }
        ensures cost { steps.new ≡ steps.old + 2 }
    {
        steps.tick();
        steps.tick();
        match self.shelves.get_mut(key) {
            Some(shelf) => {
                let many = shelf.raise(alloc, row)?;
                return Ok(many);
            }
            None => {
                first_row(alloc, &mut self.shelves, key, row)?;
                return Ok(0);
            }
        }
    }

    /// Takes the row under the key out, and tells its count, in one search; all other counts stay. It takes one step.
    pub(crate) fn take<L: Ledger>(
        &mut self,
        key: &Row<C>,
        row: &Row<C>,
        steps: &mut Steps<L>,
    ) -> u64
        ensures told { result ≡ count_at (slice_cmp C.cmp) self.old key.now row.now }
        ensures counts { (k r : List C) → count_at (slice_cmp C.cmp) self.new k r ≡ (if eq_by_cmp (slice_cmp C.cmp) key.now k && eq_by_cmp (slice_cmp C.cmp) row.now r then 0 else count_at (slice_cmp C.cmp) self.old k r) }
        ensures cost { steps.new ≡ steps.old + 1 }
    {
        steps.tick();
        match self.shelves.get_mut(key) {
            Some(shelf) => {
                let taken = shelf.take(row);
                let last = taken.last;
                if last {
                    take_out(&mut self.shelves, key);
                }
                return taken.many;
            }
            None => {
                return 0;
            }
        }
    }

    /// Takes the row under the key out, and tells whether it was there; all other counts stay. It takes one step.
    pub fn remove<L: Ledger>(&mut self, key: &Row<C>, row: &Row<C>, steps: &mut Steps<L>) -> bool
        ensures there { IsTrue result ↔ (0 < count_at (slice_cmp C.cmp) self.old key.now row.now) }
        ensures counts { (k r : List C) → count_at (slice_cmp C.cmp) self.new k r ≡ (if eq_by_cmp (slice_cmp C.cmp) key.now k && eq_by_cmp (slice_cmp C.cmp) row.now r then 0 else count_at (slice_cmp C.cmp) self.old k r) }
        ensures cost { steps.new ≡ steps.old + 1 }
    {
        self.take(key, row, steps) > 0
    }

    /// The rows under the key, ascending. It takes one step, and one more for each row. An error is want of memory.
    pub fn rows_of<L: Ledger>(
        &self,
        alloc: Global,
        key: &Row<C>,
        steps: &mut Steps<L>,
    ) -> Result<RowsOf<C>, AllocError>
        ensures rows { IfOk result (λ rows. AreRowsOf (slice_cmp C.cmp) self.now key.now rows) }
        ensures cost { IfOk result (λ rows. steps.new ≡ steps.old + 1 + length rows) }
    {
        steps.tick();
        match self.shelves.get(key) {
            Some(shelf) => {
                let rows = shelf.rows(alloc, steps)?;
                return Ok(rows);
            }
            None => {
                return Ok(Items::new(alloc));
            }
        }
    }

    /// Appends for each row under the key, joined to the given one, the event that it comes or goes. It takes one step, and one
    /// more for each row; no row is copied but into the events. An error is want of memory.
    pub(crate) fn join<L: Ledger>(
        &self,
        alloc: Global,
        key: &Row<C>,
        row: &Row<C>,
        way: Way,
        out: &mut Events<C>,
        steps: &mut Steps<L>,
    ) -> Result<(), AllocError>
        ensures out { OnOk result ((others : List (List C)) × AreRowsOf (slice_cmp C.cmp) self.now key.now others × (out.new ≡ out.old ++ map (signed way.comes) (map (paired way.front row.now) others))) }
        ensures cost { OnOk result (steps.new + length out.old ≡ steps.old + 1 + length out.new) }
    {
        steps.tick();
        match self.shelves.get(key) {
            Some(shelf) => {
                shelf.join(alloc, row, way, out, steps)?;
                return Ok(());
            }
            None => {
                return Ok(());
            }
        }
    }
}

/// Takes the key out.
fn take_out<C: Cell>(shelves: &mut BTreeMap<Row<C>, Shelf<C>>, key: &Row<C>)
    ensures { (q : List C) → lookup (is_at (slice_cmp C.cmp q)) shelves.new.entries ≡ (if is_at (slice_cmp C.cmp key.now) q then None else lookup (is_at (slice_cmp C.cmp q)) shelves.old.entries) }
{
    shelves.remove(key);
}

/// Puts a key in that was not there, with a row of count 1.
fn first_row<C: Cell>(
    alloc: Global,
    shelves: &mut BTreeMap<Row<C>, Shelf<C>>,
    key: &Row<C>,
    row: &Row<C>,
) -> Result<(), AllocError>
    ensures ok { OnOk result ((shelf : List (List C × ℕ)) × ((r : List C) → shelf_count (slice_cmp C.cmp) shelf r ≡ (if is_at (slice_cmp C.cmp row.now) r then 1 else 0)) × ((k : List C) → lookup (is_at (slice_cmp C.cmp k)) shelves.new.entries ≡ (if is_at (slice_cmp C.cmp key.now) k then Some shelf else lookup (is_at (slice_cmp C.cmp k)) shelves.old.entries))) }
    ensures err { OnErr result (shelves.new.entries ≡ shelves.old.entries) }
{
    let own = key.copy_in(alloc)?;
    let first = row.copy_in(alloc)?;
    shelves.insert(own, Shelf::one(first, 1))?;
    Ok(())
}
