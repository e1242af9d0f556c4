ghost use Rattle.std.specs.Prelude.{◌≡◌, ◌<◌, ◌++◌, ◌∷◌, ℕ, List, [], length, replicate, if◌then◌else◌, not, IfOk, OnOk, OnErr, IsTrue};
ghost use Rattle.std.specs.BTreeMap.{is_at};
ghost use Rattle.std.specs.List.{All, list_any};
ghost use Rattle.std.specs.List.Sorted.{IsStrictlySortedBy};
ghost use Rattle.std.specs.Cmp.Lexicographic.{slice_cmp};
ghost use Rattle.dbn_instance.specs.Facts.{rows_of, fact_of, comes, has_fact, with_fact, without_fact, changed, after_changes, taken_back, StoppedAt, AllFit, IsInstance};

use super::fact::{Change, Changes, Fact};
use super::relation::Relation;
use dbn_value::{Cell, CopyIn, Row, RowsOf};
use std::alloc::{AllocError, Global};
use std::collections::BTreeSet;
use std::marker::Model;

/// An instance: for each relation, numbered from 0, its rows, each once, in the order of the cells.
#[derive(Debug, Drop)]
pub struct Instance<C: Cell> {
    relations: Vec<Relation<C>>,
}

impl<C: Cell> Model for Instance<C> {
    ghost use Rattle.std.specs.Prelude.{List};
    ghost use Rattle.std.specs.Coded.{coded_list};
    ghost use Rattle.dbn_instance.specs.Facts.{IsInstance};

    ghost Value = { List (List (List C)) };

    ghost coded = { coded_list (coded_list (coded_list C.code)) };

    ghost view = { λ i. i.relations.items };

    ghost invariant = { λ i. IsInstance C.cmp i.relations.items };
}

impl<C: Cell> Instance<C> {
    /// The instance of that many relations without rows. An error is want of memory.
    pub fn new(alloc: Global, relations: usize) -> Result<Instance<C>, AllocError>
        ensures { IfOk result (λ i. i ≡ replicate relations []) }
    {
        let mut empty = Vec::with_capacity(alloc, relations)?;
        for _ in 0..relations {
            empty.push(Relation::new(alloc))?;
        }
        Ok(Instance { relations: empty })
    }

    /// How many relations there are. The rows of each ascend.
    pub fn relations(&self) -> usize
        ensures count { result ≡ length self.now }
        ensures ascending { IsInstance C.cmp self.now }
    {
        self.relations.len()
    }

    /// Adds a relation without rows behind the others. An error is want of memory, and then nothing changed.
    pub fn add_relation(&mut self, alloc: Global) -> Result<(), AllocError>
        ensures ok { OnOk result (self.new ≡ self.old ++ [] ∷ []) }
        ensures err { OnErr result (self.new ≡ self.old) }
    {
        self.relations.push(Relation::new(alloc))?;
        Ok(())
    }

    /// Whether the fact is there.
    pub fn has(&self, fact: &Fact<C>) -> bool
        requires { fact.now.rel < length self.now }
        ensures { result ≡ has_fact C.cmp self.now fact.now }
    {
        self.relations[fact.rel].has(&fact.row)
    }

    /// Whether the row is one of the relation's.
    pub fn has_row(&self, rel: usize, row: &Row<C>) -> bool
        requires { rel < length self.now }
        ensures { result ≡ list_any (is_at (slice_cmp C.cmp row.now)) (rows_of self.now rel) }
    {
        self.relations[rel].has(row)
    }

    /// The rows of the relation as they stand, in the order of the cells. This takes no memory.
    pub fn row_set(&self, rel: usize) -> &BTreeSet<Row<C>>
        requires { rel < length self.now }
        ensures { result.now.keys ≡ rows_of self.now rel }
    {
        self.relations[rel].row_set()
    }

    /// Adds the fact, unless it is there, and tells whether it is new. After want of memory nothing changed.
    pub fn insert(&mut self, _alloc: Global, fact: Fact<C>) -> Result<bool, AllocError>
        requires { fact.rel < length self.old }
        ensures ok { OnOk result (self.new ≡ with_fact C.cmp self.old fact) }
        ensures new { IfOk result (λ new. new ≡ not (has_fact C.cmp self.old fact)) }
        ensures err { OnErr result (self.new ≡ self.old) }
    {
        let Fact { rel, row } = fact;
        let relation = &mut self.relations[rel];
        let new = relation.insert(row)?;
        Ok(new)
    }

    /// The rows of the relation, in the order of the cells. An error is want of memory.
    pub fn rows(&self, alloc: Global, rel: usize) -> Result<RowsOf<C>, AllocError>
        requires { rel < length self.now }
        ensures rows { IfOk result (λ rows. rows ≡ rows_of self.now rel) }
        ensures ascending { IfOk result (λ rows. IsStrictlySortedBy (slice_cmp C.cmp) rows) }
    {
        self.relations[rel].rows(alloc)
    }

    /// Makes the change: a Plus adds its fact, unless it is there, and a Minus takes its fact out. After want of memory,
    /// which only a Plus meets, the instance is unchanged.
    pub fn apply(&mut self, alloc: Global, change: &Change<C>) -> Result<(), AllocError>
        requires { (fact_of change.now).rel < length self.old }
        ensures ok { OnOk result (self.new ≡ changed C.cmp self.old change.now) }
        ensures relations { length self.new ≡ length self.old }
        ensures room { OnErr result (IsTrue (comes change.now)) }
        ensures err { OnErr result (self.new ≡ self.old) }
    {
        self.put(alloc, change.fact(), change.comes())
    }

    /// Takes changes back, the last of them first: changes that were just made, each where it fitted, are undone.
    /// After want of memory it stopped at a Minus, since only a fact that comes again takes memory: exactly the changes
    /// behind it are taken back.
    pub fn revert(&mut self, alloc: Global, changes: &Changes<C>) -> Result<(), AllocError>
        requires { All (λ c. (fact_of c).rel < length self.old) changes.now }
        ensures ok { OnOk result (self.new ≡ taken_back C.cmp changes.now self.old) }
        ensures back { OnOk result ((before : List (List (List C))) → IsInstance C.cmp before → AllFit C.cmp changes.now before → self.old ≡ after_changes C.cmp changes.now before → self.new ≡ before) }
        ensures relations { length self.new ≡ length self.old }
        ensures err { OnErr result ((at : ℕ) × StoppedAt C.cmp at changes.now self.old self.new) }
    {
        self.undo_all(alloc, changes.as_slice())
    }

    fn undo_all(&mut self, alloc: Global, changes: &[Change<C>]) -> Result<(), AllocError>
        requires { All (λ c. (fact_of c).rel < length self.old) changes.now }
        ensures ok { OnOk result (self.new ≡ taken_back C.cmp changes.now self.old) }
        ensures relations { length self.new ≡ length self.old }
        ensures err { OnErr result ((at : ℕ) × StoppedAt C.cmp at changes.now self.old self.new) }
    {
        for done in 0..changes.len() {
            let last = &changes[changes.len() - 1 - done];
            self.put(alloc, last.fact(), !last.comes())?;
        }
        Ok(())
    }

    /// Makes the fact be there, or not be there. After want of memory, which only a fact that comes meets, the instance
    /// is unchanged.
    fn put(&mut self, alloc: Global, fact: &Fact<C>, there: bool) -> Result<(), AllocError>
        requires { fact.now.rel < length self.old }
        ensures ok { OnOk result (self.new ≡ (if there then with_fact C.cmp self.old fact.now else without_fact C.cmp self.old fact.now)) }
        ensures room { OnErr result (IsTrue there) }
        ensures err { OnErr result (self.new ≡ self.old) }
    {
        if there {
            self.add(alloc, fact)
        } else {
            self.remove(fact);
            Ok(())
        }
    }

    fn add(&mut self, alloc: Global, fact: &Fact<C>) -> Result<(), AllocError>
        requires { fact.now.rel < length self.old }
        ensures ok { OnOk result (self.new ≡ with_fact C.cmp self.old fact.now) }
        ensures err { OnErr result (self.new ≡ self.old) }
    {
        let row = fact.row.copy_in(alloc)?;
        let relation = &mut self.relations[fact.rel];
        relation.insert(row)?;
        Ok(())
    }

    fn remove(&mut self, fact: &Fact<C>)
        requires { fact.now.rel < length self.old }
        ensures { self.new ≡ without_fact C.cmp self.old fact.now }
    {
        let relation = &mut self.relations[fact.rel];
        relation.remove(&fact.row);
    }
}

impl<C: Cell> CopyIn for Instance<C> {
    fn copy_in(&self, alloc: Global) -> Result<Instance<C>, AllocError> {
        let mut relations = Vec::with_capacity(alloc, self.relations.len())?;
        for relation in &self.relations {
            relations.push(relation.copy_in(alloc)?)?;
        }
        Ok(Instance { relations })
    }
}
