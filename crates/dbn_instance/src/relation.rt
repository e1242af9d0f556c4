ghost use Rattle.std.specs.Prelude.{◌≡◌, [], not, IfOk, OnOk, OnErr};
ghost use Rattle.std.specs.List.{list_any};
ghost use Rattle.std.specs.List.Sorted.{IsStrictlySortedBy};
ghost use Rattle.std.specs.BTreeMap.{is_at};
ghost use Rattle.std.specs.BTreeSet.{insert_key};
ghost use Rattle.std.specs.Set.{remove_key};
ghost use Rattle.std.specs.Cmp.Lexicographic.{slice_cmp};

use dbn_value::{Cell, CopyIn, Row, RowsOf};
use sqlite_items::Items;
use std::alloc::{AllocError, Global};
use std::collections::BTreeSet;
use std::marker::Model;

/// The rows of one relation.
#[derive(Debug, Drop)]
pub(crate) struct Relation<C: Cell> {
    rows: BTreeSet<Row<C>>,
}

impl<C: Cell> Model for Relation<C> {
    ghost use Rattle.std.specs.Prelude.{List};
    ghost use Rattle.std.specs.Coded.{coded_list};

    ghost Value = { List (List C) };

    ghost coded = { coded_list (coded_list C.code) };

    ghost view = { λ r. r.rows.keys };
}

impl<C: Cell> Relation<C> {
    /// A relation without rows.
    pub(crate) fn new(alloc: Global) -> Relation<C>
        ensures { result ≡ [] }
    {
        Relation {
            rows: BTreeSet::new(alloc),
        }
    }

    /// Whether the row is there.
    pub(crate) fn has(&self, row: &Row<C>) -> bool
        ensures { result ≡ list_any (is_at (slice_cmp C.cmp row.now)) self.now }
    {
        self.rows.contains(row)
    }

    /// The rows in the order of the cells. An error is want of memory.
    pub(crate) fn rows(&self, alloc: Global) -> Result<RowsOf<C>, AllocError>
        ensures { IfOk result (λ rows. rows ≡ self.now) }
    {
        let mut rows = Items::new(alloc);
        for row in &self.rows {
            rows.push(row.copy_in(alloc)?)?;
        }
        Ok(rows)
    }

    /// Adds the row, unless it is there, and tells whether it is new. After want of memory nothing changed.
    pub(crate) fn insert(&mut self, row: Row<C>) -> Result<bool, AllocError>
        ensures ok { OnOk result (self.new ≡ insert_key (slice_cmp C.cmp) self.old row) }
        ensures new { IfOk result (λ new. new ≡ not (list_any (is_at (slice_cmp C.cmp row)) self.old)) }
        ensures err { OnErr result (self.new ≡ self.old) }
    {
        let new = self.rows.insert(row)?;
        Ok(new)
    }

    /// The rows as they stand, in the order of the cells.
    pub(crate) fn row_set(&self) -> &BTreeSet<Row<C>>
        ensures { result.now.keys ≡ self.now }
    {
        &self.rows
    }

    /// Takes the row out, where it is there.
    pub(crate) fn remove(&mut self, row: &Row<C>)
        ensures { self.new ≡ remove_key (is_at (slice_cmp C.cmp row.now)) self.old }
    {
        self.rows.remove(row);
    }
}

impl<C: Cell> CopyIn for Relation<C> {
    fn copy_in(&self, alloc: Global) -> Result<Relation<C>, AllocError> {
        // The call tells the proof that the rows ascend.
        let _count = self.rows.len();
        let mut rows = BTreeSet::new(alloc);
        for row in &self.rows {
            rows.insert(row.copy_in(alloc)?)?;
        }
        Ok(Relation { rows })
    }
}
