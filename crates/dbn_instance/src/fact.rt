ghost use Rattle.std.specs.Prelude.{◌≡◌, refl};
ghost use Rattle.std.specs.Ordering.{eq_by_cmp, as_partial_cmp};
ghost use Rattle.std.specs.Cmp.{partial_equiv_from_equiv, eq_by_cmp_equiv, partial_order_from_total};
ghost use Rattle.std.specs.Cmp.Lexicographic.{slice_cmp, lists_total};
ghost use Rattle.dbn_instance.specs.FactOrder.{fact_cmp, fact_total};
ghost use Rattle.dbn_instance.specs.Facts.{fact_of, comes};

use dbn_value::{Cell, CopyIn, Name, Row, Terms, TypedVars};
use sqlite_items::Items;
use std::alloc::{AllocError, Global};
use std::cmp::Ordering;

/// A row of a relation, which goes by its number. Facts are ordered by relation and then by row.
#[derive(Debug, Drop)]
pub struct Fact<C> {
    /// The number of the relation, from 0 on.
    pub rel: usize,
    /// The row, with one cell for each column.
    pub row: Row<C>,
}

/// A list of facts.
pub type Facts<C> = Items<Fact<C>>;

/// A fact that comes or goes.
#[derive(Debug, Drop)]
pub enum Change<C> {
    /// The fact comes.
    Plus(Fact<C>),
    /// The fact goes.
    Minus(Fact<C>),
}

/// A list of changes, of which the first comes first.
pub type Changes<C> = Items<Change<C>>;

impl<C> Change<C> {
    /// The fact that comes or goes.
    pub fn fact(&self) -> &Fact<C>
        ensures { result.now ≡ fact_of self.now }
    {
        match self {
            Change::Plus(fact) => fact,
            Change::Minus(fact) => fact,
        }
    }

    /// Whether the fact comes; else it goes.
    pub fn comes(&self) -> bool
        ensures { result ≡ comes self.now }
    {
        matches!(self, Change::Plus(_))
    }
}

/// A fact with terms in place of cells.
#[derive(Debug, Drop)]
pub struct FactPattern {
    /// The number of the relation, from 0 on.
    pub rel: usize,
    /// The term at each column.
    pub terms: Terms,
}

/// A list of patterns.
pub type FactPatterns = Items<FactPattern>;

/// An action: the facts that it deletes and then those that it adds, for arguments in the place of its parameters.
#[derive(Debug, Drop)]
pub struct Action {
    /// The name by which it is called.
    pub name: Name,
    /// The parameters with their types, in the order of the arguments.
    pub params: TypedVars,
    /// The facts that go.
    pub deletes: FactPatterns,
    /// The facts that come, also those that are deleted.
    pub adds: FactPatterns,
}

impl<C: Ord> PartialEq for Fact<C> {
    ghost eq = { eq_by_cmp (fact_cmp C.cmp) };

    ghost laws = { partial_equiv_from_equiv (eq_by_cmp_equiv (fact_total C.total)) };

    fn eq(&self, other: &Fact<C>) -> bool {
        self.cmp(other).is_eq()
    }
}

impl<C: Ord> Eq for Fact<C> {
    ghost laws = { eq_by_cmp_equiv (fact_total C.total) };
}

impl<C: Ord> PartialOrd for Fact<C> {
    ghost partial_cmp = { as_partial_cmp (fact_cmp C.cmp) };

    ghost laws = { partial_order_from_total (fact_total C.total) };

    fn partial_cmp(&self, other: &Fact<C>) -> Option<Ordering> {
        Some(self.cmp(other))
    }
}

impl<C: Ord> Ord for Fact<C> {
    ghost cmp = { fact_cmp C.cmp };

    ghost total = { fact_total C.total };

    ghost matches_partial_cmp = { λ x y. refl };

    ghost matches_eq = { λ x y. refl };

    fn cmp(&self, other: &Fact<C>) -> Ordering {
        self.rel
            .cmp(&other.rel)
            .then_with(|| self.row.cmp(&other.row))
    }
}

impl<C: Cell> CopyIn for Fact<C> {
    fn copy_in(&self, alloc: Global) -> Result<Fact<C>, AllocError> {
        Ok(Fact {
            rel: self.rel,
            row: self.row.copy_in(alloc)?,
        })
    }
}

impl CopyIn for FactPattern {
    fn copy_in(&self, alloc: Global) -> Result<FactPattern, AllocError> {
        Ok(FactPattern {
            rel: self.rel,
            terms: self.terms.copy_in(alloc)?,
        })
    }
}

impl CopyIn for Action {
    fn copy_in(&self, alloc: Global) -> Result<Action, AllocError> {
        Ok(Action {
            name: self.name.copy_in(alloc)?,
            params: self.params.copy_in(alloc)?,
            deletes: self.deletes.copy_in(alloc)?,
            adds: self.adds.copy_in(alloc)?,
        })
    }
}
