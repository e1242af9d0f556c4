ghost use Rattle.std.specs.Prelude.{◌≡◌, ◌+◌, ◌-◌, ◌<◌, ◌≤◌, ◌^◌, ◌==◌, ◌↔◌, List, [], if◌then◌else◌, IfOk, OnOk, OnErr, IsOk, IsErrOf};
ghost use Rattle.std.specs.Cmp.Lexicographic.{slice_cmp};
ghost use Rattle.std.specs.BTreeMap.{is_at};
ghost use Rattle.dbn_marking.specs.Counts.{count_of, added, taken, IsCounted};

use dbn_value::{Cell, CopyIn, Row};
use sqlite_items::Items;
use std::alloc::{AllocError, Global};
use std::collections::BTreeMap;
use std::marker::Model;

/// Rows with their counts.
pub type CountedRows<C> = Items<(Row<C>, u64)>;

/// Why tokens were not added.
#[derive(Debug, Clone, Copy, PartialEq, Eq, Drop)]
pub enum AddFault {
    /// The count of the row would pass 4,294,967,295.
    CountLimit,
    /// Want of memory.
    Memory,
}

/// The greatest count of a row in a place.
pub const MAX_COUNT: u64 = 4_294_967_295;

/// The tokens of one place: its rows with their counts.
#[derive(Debug, Drop)]
pub(crate) struct Held<C: Cell> {
    rows: BTreeMap<Row<C>, u64>,
}

impl<C: Cell> Model for Held<C> {
    ghost use Rattle.std.specs.Prelude.{List, ℕ};
    ghost use Rattle.std.specs.Coded.{coded_list, coded×, coded_ℕ};
    ghost use Rattle.std.specs.Cmp.Lexicographic.{slice_cmp};
    ghost use Rattle.dbn_marking.specs.Counts.{IsCounted};

    ghost Value = { List (List C × ℕ) };

    ghost coded = { coded_list (coded× (coded_list C.code) coded_ℕ) };

    ghost view = { λ h. h.rows.entries };

    ghost invariant = { λ h. IsCounted (slice_cmp C.cmp) h.rows.entries };
}

impl<C: Cell> Held<C> {
    /// A place without tokens.
    pub(crate) fn new(alloc: Global) -> Held<C>
        ensures { result ≡ [] }
    {
        Held {
            rows: BTreeMap::new(alloc),
        }
    }

    /// How many tokens of the row there are.
    pub(crate) fn count(&self, row: &Row<C>) -> u64
        ensures value { result ≡ count_of (slice_cmp C.cmp) self.now row.now }
        ensures small { result < 2 ^ 32 }
    {
        self.rows.get(row).copied().unwrap_or(0)
    }

    /// The rows with their counts, as they stand.
    pub(crate) fn counts(&self) -> &BTreeMap<Row<C>, u64>
        ensures rows { result.now.entries ≡ self.now }
        ensures counted { IsCounted (slice_cmp C.cmp) self.now }
    {
        &self.rows
    }

    /// The rows with their counts. An error is want of memory.
    pub(crate) fn rows(&self, alloc: Global) -> Result<CountedRows<C>, AllocError>
        ensures rows { IfOk result (λ rows. rows ≡ self.now) }
        ensures counted { IfOk result (λ rows. IsCounted (slice_cmp C.cmp) rows) }
    {
        let mut rows = Items::new(alloc);
        for (row, count) in &self.rows {
            rows.push((row.copy_in(alloc)?, *count))?;
        }
        Ok(rows)
    }

    /// Adds `many` tokens of the row, and tells whether it is new. `CountLimit` comes exactly where the count would pass
    /// 4,294,967,295, and `Memory` only for a new row. After both nothing changed.
    pub(crate) fn add(&mut self, row: Row<C>, many: u64) -> Result<bool, AddFault>
        requires some { 0 < many }
        requires small { many < 2 ^ 32 }
        ensures ok { OnOk result (self.new ≡ added (slice_cmp C.cmp) self.old row many) }
        ensures counts { OnOk result ((q : List C) → count_of (slice_cmp C.cmp) self.new q ≡ (if is_at (slice_cmp C.cmp row) q then count_of (slice_cmp C.cmp) self.old row + many else count_of (slice_cmp C.cmp) self.old q)) }
        ensures new { IfOk result (λ new. new ≡ (count_of (slice_cmp C.cmp) self.old row == 0)) }
        ensures limit { IsErrOf result AddFault.CountLimit ↔ (2 ^ 32 ≤ count_of (slice_cmp C.cmp) self.old row + many) }
        ensures held { IsErrOf result AddFault.Memory → count_of (slice_cmp C.cmp) self.old row ≡ 0 }
        ensures err { OnErr result (self.new ≡ self.old) }
        ensures counted { IsCounted (slice_cmp C.cmp) self.new }
    {
        let count = self.count(&row);
        if count + many > MAX_COUNT {
            return Err(AddFault::CountLimit);
        }
        match self.rows.insert(row, count + many) {
            Ok(_) => Ok(count == 0),
            Err(_) => Err(AddFault::Memory),
        }
    }

    /// Takes `many` tokens of the row, and tells whether the row is gone.
    pub(crate) fn take(&mut self, row: &Row<C>, many: u64) -> bool
        requires some { 0 < many }
        requires there { many ≤ count_of (slice_cmp C.cmp) self.old row.now }
        ensures left { self.new ≡ taken (slice_cmp C.cmp) self.old row.now many }
        ensures counts { (q : List C) → count_of (slice_cmp C.cmp) self.new q ≡ (if is_at (slice_cmp C.cmp row.now) q then count_of (slice_cmp C.cmp) self.old row.now - many else count_of (slice_cmp C.cmp) self.old q) }
        ensures gone { result ≡ (count_of (slice_cmp C.cmp) self.old row.now == many) }
        ensures counted { IsCounted (slice_cmp C.cmp) self.new }
    {
        let count = self.count(row);
        if count == many {
            self.rows.remove(row);
            return true;
        }
        if let Some(held) = self.rows.get_mut(row) {
            *held = count - many;
        }
        false
    }
}

impl<C: Cell> CopyIn for Held<C> {
    fn copy_in(&self, alloc: Global) -> Result<Held<C>, AllocError> {
        let mut rows = BTreeMap::new(alloc);
        for (row, count) in &self.rows {
            rows.insert(row.copy_in(alloc)?, *count)?;
        }
        Ok(Held { rows })
    }
}
