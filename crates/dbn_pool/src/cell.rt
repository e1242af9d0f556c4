//! What stands in the rows of a table for a value.

ghost use Rattle.std.specs.Prelude.{◌≡◌, refl};
ghost use Rattle.std.specs.Ordering.{eq_by_cmp, as_partial_cmp};
ghost use Rattle.std.specs.Cmp.{partial_equiv_from_equiv, eq_by_cmp_equiv, partial_order_from_total};
ghost use Rattle.dbn_pool.specs.Cells.{cell_cmp, cell_rank, cell_whole, cell_number, cell_total, cell_type, cell_int, exact_cells, ints_have_numbers, ints_by_number};

use dbn_value::{Cell, ColType, CopyIn, IdNo};
use std::alloc::{AllocError, Global};
use std::cmp::Ordering;

/// What stands in a row for a value: an int and an id for themselves, and a text by its symbol. Ints come before ids and ids
/// before symbols, each by number.
#[derive(Debug, Clone, Copy, Drop)]
pub enum SymCell {
    /// The int itself.
    Int(i64),
    /// The id itself.
    Id(IdNo),
    /// The symbol of a text: its number in the pool, in the order in which the texts were put, from 0 on.
    Sym(u64),
}

/// The place of the kind of a cell: ints before ids before symbols.
fn rank(cell: &SymCell) -> u8
    ensures { result ≡ cell_rank cell.now }
{
    match cell {
        SymCell::Int(_) => 0,
        SymCell::Id(_) => 1,
        SymCell::Sym(_) => 2,
    }
}

/// The number of an int, and 0 of another cell.
fn whole(cell: &SymCell) -> i64
    ensures { result ≡ cell_whole cell.now }
{
    match cell {
        SymCell::Int(n) => *n,
        SymCell::Id(_) => 0,
        SymCell::Sym(_) => 0,
    }
}

/// The number of an id or of a symbol, and 0 of an int.
fn number(cell: &SymCell) -> u64
    ensures { result ≡ cell_number cell.now }
{
    match cell {
        SymCell::Int(_) => 0,
        SymCell::Id(id) => id.number(),
        SymCell::Sym(symbol) => *symbol,
    }
}

/// The order of cells: ints before ids before symbols, each by number. Cells of one kind, which a table mostly compares, take one
/// comparison of their numbers; a match of each kind with each is several times as long.
fn compare(a: &SymCell, b: &SymCell) -> Ordering
    ensures { result ≡ cell_cmp a.now b.now }
{
    let kind = rank(a);
    let other = rank(b);
    if kind != other {
        return kind.cmp(&other);
    }
    if kind == 0 {
        return whole(a).cmp(&whole(b));
    }
    number(a).cmp(&number(b))
}

impl PartialEq for SymCell {
    ghost eq = { eq_by_cmp cell_cmp };

    ghost laws = { partial_equiv_from_equiv (eq_by_cmp_equiv cell_total) };

    fn eq(&self, other: &SymCell) -> bool {
        compare(self, other).is_eq()
    }
}

impl Eq for SymCell {
    ghost laws = { eq_by_cmp_equiv cell_total };
}

impl PartialOrd for SymCell {
    ghost partial_cmp = { as_partial_cmp cell_cmp };

    ghost laws = { partial_order_from_total cell_total };

    fn partial_cmp(&self, other: &SymCell) -> Option<Ordering> {
        Some(compare(self, other))
    }
}

impl Ord for SymCell {
    ghost cmp = { cell_cmp };

    ghost total = { cell_total };

    ghost matches_partial_cmp = { λ x y. refl };

    ghost matches_eq = { λ x y. refl };

    fn cmp(&self, other: &SymCell) -> Ordering {
        compare(self, other)
    }
}

impl CopyIn for SymCell {
    /// The cell again, which takes no memory.
    fn copy_in(&self, _alloc: Global) -> Result<SymCell, AllocError> {
        Ok(*self)
    }
}

impl Cell for SymCell {
    ghost type_of = { cell_type };

    ghost int_of = { cell_int };

    fn col_type(&self) -> ColType {
        match self {
            SymCell::Int(_) => ColType::Int,
            SymCell::Id(_) => ColType::Id,
            SymCell::Sym(_) => ColType::Text,
        }
    }

    fn order(&self, other: &SymCell) -> Ordering {
        self.cmp(other)
    }

    fn same(&self, other: &SymCell) -> bool {
        self.cmp(other).is_eq()
    }

    ghost exact = { exact_cells };

    ghost have_numbers = { ints_have_numbers };

    ghost by_number = { ints_by_number };
}
