ghost use Rattle.std.specs.Prelude.{◌≡◌, ◌≢◌, Option, Some, List, map, IfOk};
ghost use Rattle.std.specs.Option.{option_map};
ghost use Rattle.dbn_value.specs.declared.value.Value.{Value as Val};
ghost use Rattle.dbn_value.specs.Coding.{Extends, cells_of};
ghost use Rattle.dbn_value.specs.Members.{In};

use super::coder::Coder;
use super::row::Row;
use super::value::Value;
use std::alloc::{AllocError, Global};

/// The cells of a row of values, each of which has one from then on, and no other value gets one. An error is want of
/// memory: then some of the values may have got their cells.
pub fn put_row<P: Coder>(
    alloc: Global,
    coder: &mut P,
    row: &Row<Value>,
) -> Result<Row<P::Cell>, AllocError>
    ensures cells { IfOk result (λ cells. cells_of (P.cell_of coder.new) row.now ≡ Some cells) }
    ensures grows { Extends (P.cell_of coder.old) (P.cell_of coder.new) }
    ensures alone { (v : Val) → (In v row.now → ⊥) → P.cell_of coder.new v ≡ P.cell_of coder.old v }
{
    Ok(Row::from_vec(put_values(alloc, coder, row.as_slice())?))
}

/// The cells of the values, which they have from then on.
fn put_values<P: Coder>(
    alloc: Global,
    coder: &mut P,
    row: &[Value],
) -> Result<Vec<P::Cell>, AllocError>
    ensures cells { IfOk result (λ cells. cells_of (P.cell_of coder.new) row.now ≡ Some cells.items) }
    ensures grows { Extends (P.cell_of coder.old) (P.cell_of coder.new) }
    ensures alone { (v : Val) → (In v row.now → ⊥) → P.cell_of coder.new v ≡ P.cell_of coder.old v }
{
    let mut cells = Vec::with_capacity(alloc, row.len())?;
    for value in row {
        cells.push(coder.put(alloc, value)?)?;
    }
    Ok(cells)
}

/// The cells of a row of values, and `None` exactly where one of them has none. An error is want of memory.
pub fn find_row<P: Coder>(
    alloc: Global,
    coder: &P,
    row: &Row<Value>,
) -> Result<Option<Row<P::Cell>>, AllocError>
    ensures { IfOk result (λ found. found ≡ cells_of (P.cell_of coder.now) row.now) }
{
    let found = find_values(alloc, coder, row.as_slice())?;
    Ok(found.map(|cells| Row::from_vec(cells)))
}

/// The cells of the values, where each of them has one.
fn find_values<P: Coder>(
    alloc: Global,
    coder: &P,
    row: &[Value],
) -> Result<Option<Vec<P::Cell>>, AllocError>
    ensures { IfOk result (λ found. option_map (λ cells. cells.items) found ≡ cells_of (P.cell_of coder.now) row.now) }
{
    let mut cells = Vec::with_capacity(alloc, row.len())?;
    for value in row {
        match coder.find(alloc, value)? {
            Some(cell) => cells.push(cell)?,
            None => return Ok(None),
        }
    }
    Ok(Some(cells))
}

/// The values of a row of cells of this coder. An error is want of memory.
pub fn get_row<P: Coder>(
    alloc: Global,
    coder: &P,
    cells: &Row<P::Cell>,
) -> Result<Row<Value>, AllocError>
    requires { (values : List Val) × (cells_of (P.cell_of coder.now) values ≡ Some cells.now) }
    ensures { IfOk result (λ row. row ≡ map (P.value_of coder.now) cells.now) }
{
    Ok(Row::from_vec(get_values(alloc, coder, cells.as_slice())?))
}

/// The values of the cells.
fn get_values<P: Coder>(
    alloc: Global,
    coder: &P,
    cells: &[P::Cell],
) -> Result<Vec<Value>, AllocError>
    requires { (values : List Val) × (cells_of (P.cell_of coder.now) values ≡ Some cells.now) }
    ensures { IfOk result (λ values. values.items ≡ map (P.value_of coder.now) cells.now) }
{
    let mut values = Vec::with_capacity(alloc, cells.len())?;
    for cell in cells {
        values.push(coder.get(alloc, cell)?)?;
    }
    Ok(values)
}
