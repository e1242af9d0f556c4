ghost use Rattle.std.specs.Prelude.{◌≡◌, ◌==◌, ◌↔◌, ◌<◌, ◌++◌, refl, length, slice_get, IfOk, IsTrue, All};
ghost use Rattle.std.specs.Option.{option_copied};
ghost use Rattle.std.specs.Ordering.{eq_by_cmp, as_partial_cmp};
ghost use Rattle.std.specs.Cmp.{partial_equiv_from_equiv, eq_by_cmp_equiv, partial_order_from_total};
ghost use Rattle.std.specs.Cmp.Lexicographic.{slice_cmp, lists_total};
ghost use Rattle.dbn_value.specs.Picked.{picked};
ghost use Rattle.dbn_value.specs.Shape.{HasShape};

use super::cell::Cell;
use super::copying::{CopyIn, copy_all, push_copies};
use super::lists::Shape;
use super::value::ColType;
use std::alloc::{AllocError, Global};
use std::cmp::Ordering;
use std::marker::Model;

/// A row: a list of cells, ordered lexicographically, with a proper prefix first.
#[derive(Debug, Drop)]
pub struct Row<C> {
    cells: Vec<C>,
}

impl<C> Model for Row<C> {
    ghost use Rattle.std.specs.Prelude.{List};
    ghost use Rattle.std.specs.Coded.{coded_list};

    ghost Value = { List C };

    ghost coded = { coded_list C.code };

    ghost view = { λ r. r.cells.items };
}

impl<C> Row<C> {
    /// The row of these cells.
    pub fn from_vec(cells: Vec<C>) -> Row<C>
        ensures { result ≡ cells.items }
    {
        Row { cells }
    }

    /// The cells as a slice.
    pub fn as_slice(&self) -> &[C]
        ensures { result.now ≡ self.now }
    {
        self.cells.as_slice()
    }

    /// The vector of the cells; this takes no memory.
    pub fn into_vec(self) -> Vec<C>
        ensures { result.items ≡ self }
    {
        self.cells
    }

    /// The cell at the column, and `None` exactly where the row has no such column.
    pub fn get(&self, column: usize) -> Option<&C>
        ensures { option_copied result ≡ slice_get self.now column }
    {
        self.cells.get(column)
    }

    /// Whether the row has no cells.
    pub fn is_empty(&self) -> bool
        ensures { result ≡ (length self.now == 0) }
    {
        self.cells.is_empty()
    }

    /// How many cells the row has.
    pub fn len(&self) -> usize
        ensures { result ≡ length self.now }
    {
        self.cells.len()
    }
}

impl<C: Ord> PartialEq for Row<C> {
    ghost eq = { eq_by_cmp (slice_cmp C.cmp) };

    ghost laws = { partial_equiv_from_equiv (eq_by_cmp_equiv (lists_total C.total)) };

    fn eq(&self, other: &Row<C>) -> bool {
        self.cells.cmp(&other.cells).is_eq()
    }
}

impl<C: Ord> Eq for Row<C> {
    ghost laws = { eq_by_cmp_equiv (lists_total C.total) };
}

impl<C: Ord> PartialOrd for Row<C> {
    ghost partial_cmp = { as_partial_cmp (slice_cmp C.cmp) };

    ghost laws = { partial_order_from_total (lists_total C.total) };

    fn partial_cmp(&self, other: &Row<C>) -> Option<Ordering> {
        Some(self.cells.cmp(&other.cells))
    }
}

impl<C: Ord> Ord for Row<C> {
    ghost cmp = { slice_cmp C.cmp };

    ghost total = { lists_total C.total };

    ghost matches_partial_cmp = { λ x y. refl };

    ghost matches_eq = { λ x y. refl };

    fn cmp(&self, other: &Row<C>) -> Ordering {
        self.cells.cmp(&other.cells)
    }
}

impl<C: Cell> CopyIn for Row<C> {
    fn copy_in(&self, alloc: Global) -> Result<Row<C>, AllocError> {
        let cells = copy_all(alloc, self.cells.as_slice())?;
        Ok(Row { cells })
    }
}

/// A row of copies of the cells of the one, and behind them copies of those of the other; an error is want of memory.
pub fn join_rows<C: Cell>(
    alloc: Global,
    left: &Row<C>,
    right: &Row<C>,
) -> Result<Row<C>, AllocError>
    ensures { IfOk result (λ row. row ≡ left.now ++ right.now) }
{
    let mut cells = Vec::with_capacity(alloc, left.len().saturating_add(right.len()))?;
    push_copies(alloc, &mut cells, left.as_slice())?;
    push_copies(alloc, &mut cells, right.as_slice())?;
    Ok(Row { cells })
}

/// The cells of the row at these columns, in the order of the columns; an error is want of memory.
pub fn pick<C: Cell>(alloc: Global, row: &Row<C>, columns: &[usize]) -> Result<Row<C>, AllocError>
    requires { All (λ column. column < length row.now) columns.now }
    ensures { IfOk result (λ cells. cells ≡ picked columns.now row.now) }
{
    let cells = pick_cells(alloc, row.as_slice(), columns)?;
    Ok(Row { cells })
}

/// The cells at these columns.
fn pick_cells<C: Cell>(alloc: Global, cells: &[C], columns: &[usize]) -> Result<Vec<C>, AllocError>
    requires { All (λ column. column < length cells.now) columns.now }
    ensures { IfOk result (λ chosen. chosen.items ≡ picked columns.now cells.now) }
{
    let mut chosen = Vec::with_capacity(alloc, columns.len())?;
    for column in columns {
        chosen.push(cells[*column].copy_in(alloc)?)?;
    }
    Ok(chosen)
}

/// Whether the cells of the row have these types, one for each column.
pub fn has_shape<C: Cell>(row: &Row<C>, shape: &Shape) -> bool
    ensures { IsTrue result ↔ HasShape C.type_of row.now shape.now }
{
    row.len() == shape.len() && have_types(row.as_slice(), shape.as_slice())
}

/// Whether the cells have these types.
fn have_types<C: Cell>(cells: &[C], types: &[ColType]) -> bool
    requires { length cells.now ≡ length types.now }
    ensures { IsTrue result ↔ HasShape C.type_of cells.now types.now }
{
    for (i, cell) in cells.iter().enumerate() {
        if cell.col_type() != types[i] {
            return false;
        }
    }
    true
}
