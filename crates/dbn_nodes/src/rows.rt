ghost use Rattle.std.specs.Prelude.{◌≡◌, ◌++◌, [], IfOk, OnOk};
ghost use Rattle.std.specs.Option.{option_copied};
ghost use Rattle.std.specs.List.{list_all, cons_option};
ghost use Rattle.dbn_value.specs.Picked.{picked};
ghost use Rattle.dbn_nodes.specs.Stands.{firsts, seconds};
ghost use Rattle.dbn_nodes.specs.Values.{cells_meet, passes, added_cells};

use super::node::{Added, ColTest};
use dbn_value::{Cell, Cmp, CopyIn, Row};
use std::alloc::{AllocError, Global};

/// Whether the comparison holds of two cells, both of which are there.
fn cells_meet<C: Cell>(cmp: Cmp, left: Option<&C>, right: Option<&C>) -> bool
    ensures { result ≡ cells_meet C.cmp cmp (option_copied left.entry) (option_copied right.entry) }
{
    match left {
        Some(left) => match right {
            Some(right) => cmp.meets(left.order(right)),
            None => false,
        },
        None => false,
    }
}

/// Whether the row meets the test.
fn passes<C: Cell>(row: &Row<C>, test: &ColTest<C>) -> bool
    ensures { result ≡ passes C.cmp row.now test.now }
{
    match test {
        ColTest::Columns { cmp, left, right } => cells_meet(*cmp, row.get(*left), row.get(*right)),
        ColTest::Constant { cmp, col, cell } => cells_meet(*cmp, row.get(*col), Some(cell)),
    }
}

/// Whether the row meets all tests.
pub(crate) fn passes_all<C: Cell>(row: &Row<C>, tests: &[ColTest<C>]) -> bool
    ensures { result ≡ list_all (passes C.cmp row.now) tests.now }
{
    tests.iter().all(|test| passes(row, test))
}

/// Appends a copy of the cell, if there is one.
fn push_cell<C: Cell>(alloc: Global, cells: &mut Vec<C>, cell: Option<&C>) -> Result<(), AllocError>
    ensures { OnOk result (cells.new.items ≡ cells.old.items ++ cons_option (option_copied cell.entry) []) }
{
    if let Some(cell) = cell {
        cells.push(cell.copy_in(alloc)?)?;
    }
    Ok(())
}

/// The cells at these columns, in the order of the columns; a column that the row does not have gives none.
pub(crate) fn cells_at<C: Cell>(
    alloc: Global,
    row: &Row<C>,
    columns: &[usize],
) -> Result<Row<C>, AllocError>
    ensures { IfOk result (λ cells. cells ≡ picked columns.now row.now) }
{
    let mut cells = Vec::with_capacity(alloc, columns.len())?;
    for column in columns {
        push_cell(alloc, &mut cells, row.get(*column))?;
    }
    Ok(Row::from_vec(cells))
}

/// The cells of a left row that a join compares.
pub(crate) fn left_key<C: Cell>(
    alloc: Global,
    row: &Row<C>,
    on: &[(usize, usize)],
) -> Result<Row<C>, AllocError>
    ensures { IfOk result (λ cells. cells ≡ picked (firsts on.now) row.now) }
{
    let mut cells = Vec::with_capacity(alloc, on.len())?;
    for pair in on {
        push_cell(alloc, &mut cells, row.get(pair.0))?;
    }
    Ok(Row::from_vec(cells))
}

/// The cells of a right row that a join compares.
pub(crate) fn right_key<C: Cell>(
    alloc: Global,
    row: &Row<C>,
    on: &[(usize, usize)],
) -> Result<Row<C>, AllocError>
    ensures { IfOk result (λ cells. cells ≡ picked (seconds on.now) row.now) }
{
    let mut cells = Vec::with_capacity(alloc, on.len())?;
    for pair in on {
        push_cell(alloc, &mut cells, row.get(pair.1))?;
    }
    Ok(Row::from_vec(cells))
}

/// The row with its last column.
pub(crate) fn with_last<C: Cell>(
    alloc: Global,
    row: &Row<C>,
    with: &Added<C>,
) -> Result<Row<C>, AllocError>
    ensures { IfOk result (λ longer. longer ≡ row.now ++ added_cells with.now row.now) }
{
    let mut cells = row.copy_in(alloc)?.into_vec();
    match with {
        Added::Copied(column) => {
            push_cell(alloc, &mut cells, row.get(*column))?;
            return Ok(Row::from_vec(cells));
        }
        Added::Constant(cell) => {
            cells.push(cell.copy_in(alloc)?)?;
            return Ok(Row::from_vec(cells));
        }
    }
}
