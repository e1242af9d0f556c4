ghost use Rattle.std.specs.Prelude.{◌≡◌, ◌+◌, ◌-◌, ◌<◌, ◌≤◌, ◌^◌, ◌==◌, ◌&&◌, ◌↔◌, ◌++◌, ◌∷◌, ℕ, List, [], if◌then◌else◌, length, replicate, IfOk, OnOk, OnErr, IsErrOf};
ghost use Rattle.std.specs.Cmp.Lexicographic.{slice_cmp};
ghost use Rattle.std.specs.BTreeMap.{is_at};
ghost use Rattle.dbn_marking.specs.Counts.{place_of, count_at, with_tokens, without_tokens, IsCounted, IsMarking};

use super::held::{AddFault, CountedRows, Held};
use dbn_value::{Cell, CopyIn, Row};
use std::alloc::{AllocError, Global};
use std::collections::BTreeMap;
use std::marker::Model;

/// A marking: for each place, numbered from 0, the rows that lie there with their counts, each from 1 to 4,294,967,295.
/// The rows of a place are in the order of the cells.
#[derive(Debug, Drop)]
pub struct Marking<C: Cell> {
    places: Vec<Held<C>>,
}

impl<C: Cell> Model for Marking<C> {
    ghost use Rattle.std.specs.Prelude.{List, ℕ};
    ghost use Rattle.std.specs.Coded.{coded_list, coded×, coded_ℕ};
    ghost use Rattle.std.specs.Cmp.Lexicographic.{slice_cmp};
    ghost use Rattle.dbn_marking.specs.Counts.{IsMarking};

    ghost Value = { List (List (List C × ℕ)) };

    ghost coded = { coded_list (coded_list (coded× (coded_list C.code) coded_ℕ)) };

    ghost view = { λ m. m.places.items };

    ghost invariant = { λ m. IsMarking (slice_cmp C.cmp) m.places.items };
}

impl<C: Cell> Marking<C> {
    /// The marking of that many places without tokens. An error is want of memory.
    pub fn new(alloc: Global, places: usize) -> Result<Marking<C>, AllocError>
        ensures { IfOk result (λ m. m ≡ replicate places []) }
    {
        let mut held = Vec::with_capacity(alloc, places)?;
        for _ in 0..places {
            held.push(Held::new(alloc))?;
        }
        Ok(Marking { places: held })
    }

    /// How many places there are. The rows of each are counted.
    pub fn places(&self) -> usize
        ensures count { result ≡ length self.now }
        ensures counted { IsMarking (slice_cmp C.cmp) self.now }
    {
        self.places.len()
    }

    /// Adds a place without tokens behind the others. An error is want of memory, and then nothing changed.
    pub fn add_place(&mut self, alloc: Global) -> Result<(), AllocError>
        ensures ok { OnOk result (self.new ≡ self.old ++ [] ∷ []) }
        ensures err { OnErr result (self.new ≡ self.old) }
    {
        self.places.push(Held::new(alloc))?;
        Ok(())
    }

    /// How many tokens of the row lie in the place: at most 4,294,967,295.
    pub fn count(&self, place: usize, row: &Row<C>) -> u64
        requires { place < length self.now }
        ensures value { result ≡ count_at (slice_cmp C.cmp) self.now place row.now }
        ensures small { result < 2 ^ 32 }
    {
        self.places[place].count(row)
    }

    /// The rows of the place with their counts as they stand, in the order of the cells. This takes no memory.
    pub fn counts(&self, place: usize) -> &BTreeMap<Row<C>, u64>
        requires { place < length self.now }
        ensures rows { result.now.entries ≡ place_of self.now place }
        ensures counted { IsCounted (slice_cmp C.cmp) (place_of self.now place) }
    {
        self.places[place].counts()
    }

    /// The rows of the place with their counts, in the order of the cells. An error is want of memory.
    pub fn rows(&self, alloc: Global, place: usize) -> Result<CountedRows<C>, AllocError>
        requires { place < length self.now }
        ensures rows { IfOk result (λ rows. rows ≡ place_of self.now place) }
        ensures counted { IfOk result (λ rows. IsCounted (slice_cmp C.cmp) rows) }
    {
        self.places[place].rows(alloc)
    }

    /// Adds `many` tokens of the row to the place, and tells whether the row is new there. `CountLimit` comes exactly where
    /// the count would pass 4,294,967,295, and `Memory`, want of memory, only for a row that is new. After both nothing changed.
    pub fn add(
        &mut self,
        _alloc: Global,
        place: usize,
        row: Row<C>,
        many: u64,
    ) -> Result<bool, AddFault>
        requires place { place < length self.old }
        requires some { 0 < many }
        requires small { many < 2 ^ 32 }
        ensures ok { OnOk result (self.new ≡ with_tokens (slice_cmp C.cmp) self.old place row many) }
        ensures counts { OnOk result ((p : ℕ) (q : List C) → count_at (slice_cmp C.cmp) self.new p q ≡ (if p == place && is_at (slice_cmp C.cmp row) q then count_at (slice_cmp C.cmp) self.old place row + many else count_at (slice_cmp C.cmp) self.old p q)) }
        ensures new { IfOk result (λ new. new ≡ (count_at (slice_cmp C.cmp) self.old place row == 0)) }
        ensures limit { IsErrOf result AddFault.CountLimit ↔ (2 ^ 32 ≤ count_at (slice_cmp C.cmp) self.old place row + many) }
        ensures held { IsErrOf result AddFault.Memory → count_at (slice_cmp C.cmp) self.old place row ≡ 0 }
        ensures err { OnErr result (self.new ≡ self.old) }
    {
        let held = &mut self.places[place];
        held.add(row, many)
    }

    /// Takes `many` tokens of the row from the place, where that many are, and tells whether the row is gone.
    pub fn take(&mut self, place: usize, row: &Row<C>, many: u64) -> bool
        requires place { place < length self.old }
        requires some { 0 < many }
        requires there { many ≤ count_at (slice_cmp C.cmp) self.old place row.now }
        ensures left { self.new ≡ without_tokens (slice_cmp C.cmp) self.old place row.now many }
        ensures counts { (p : ℕ) (q : List C) → count_at (slice_cmp C.cmp) self.new p q ≡ (if p == place && is_at (slice_cmp C.cmp row.now) q then count_at (slice_cmp C.cmp) self.old place row.now - many else count_at (slice_cmp C.cmp) self.old p q) }
        ensures gone { result ≡ (count_at (slice_cmp C.cmp) self.old place row.now == many) }
    {
        let held = &mut self.places[place];
        held.take(row, many)
    }
}

impl<C: Cell> CopyIn for Marking<C> {
    fn copy_in(&self, alloc: Global) -> Result<Marking<C>, AllocError> {
        let mut places = Vec::with_capacity(alloc, self.places.len())?;
        for held in &self.places {
            places.push(held.copy_in(alloc)?)?;
        }
        Ok(Marking { places })
    }
}
