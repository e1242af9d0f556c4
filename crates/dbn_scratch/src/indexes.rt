ghost use Rattle.std.specs.Prelude.{◌≡◌, ◌++◌, ◌∷◌, ◌<◌, List, [], map, length, pos, slice_index_or, if◌then◌else◌, IfOk, IfSome, OnOk};
ghost use Rattle.std.specs.BTreeMap.{is_at};
ghost use Rattle.dbn_value.specs.Order.{row_cmp};
ghost use Rattle.dbn_value.specs.Scope.{value_of};
ghost use Rattle.dbn_value.specs.declared.value.Value.{Value as SpecValue};
ghost use Rattle.dbn_formula.specs.Solve.{has_value};
ghost use Rattle.dbn_scratch.specs.Envs.{env_of};
ghost use Rattle.dbn_scratch.specs.Indexes.{key_of, shown, rows_under, IsIndex, IsKept};

use super::bindings::{has_value, value_at};
use dbn_instance::Instance;
use dbn_value::{CopyIn, Row, Term, Value, Var};
use std::alloc::{AllocError, Global};
use std::collections::{BTreeMap, BTreeSet};
use std::marker::Model;

/// The rows of a relation by their cells at some columns, under each key in the order of the relation.
pub(crate) type Index<'x> = BTreeMap<Row<Value>, Vec<&'x Row<Value>>>;

/// A relation and which of its columns have a value.
pub(crate) type Spot = (usize, Vec<bool>);

/// Indexes of the relations of an instance, made as they are asked for.
#[derive(Drop)]
pub(crate) struct Indexes<'x> {
    instance: &'x Instance<Value>,
    /// With nothing where a spot was asked for once: only a second look-up pays for an index.
    kept: BTreeMap<Spot, Option<Index<'x>>>,
}

impl<'x> Model for Indexes<'x> {
    ghost use Rattle.std.specs.Prelude.{List};
    ghost use Rattle.std.specs.Coded.{codes};
    ghost use Rattle.dbn_value.specs.declared.value.Value.{Value as OneValue};
    ghost use Rattle.dbn_value.specs.contracts.value.Value as value;
    ghost use Rattle.dbn_scratch.specs.Indexes.{AreKept};

    ghost Value = { List (List (List OneValue)) };

    ghost coded = { Prim.hlevel (codes, value.the_row.coded) };

    ghost view = { λ i. i.instance.now };

    ghost invariant = { λ i. AreKept i.instance.now i.kept.entries };
}

impl<'x> Indexes<'x> {
    /// No index yet.
    pub(crate) fn new(alloc: Global, instance: &'x Instance<Value>) -> Indexes<'x>
        ensures { result ≡ instance.now }
    {
        Indexes {
            instance,
            kept: BTreeMap::new(alloc),
        }
    }

    /// The index at the spot, where there is one.
    pub(crate) fn get(&self, spot: &Spot) -> Option<&Index<'x>>
        ensures { IfSome result (λ index. IsIndex (slice_index_or self.now spot.now.0 []) spot.now.1.items index.now.entries) }
    {
        match self.kept.get(spot) {
            Some(Some(index)) => Some(index),
            _ => None,
        }
    }

    /// Notes that the spot was asked for; the second time its index is made.
    pub(crate) fn note(&mut self, alloc: Global, spot: Spot) -> Result<(), AllocError>
        requires { spot.0 < length self.old }
        ensures { self.new ≡ self.old }
    {
        let again = self.kept.contains_key(&spot) && has_mark(spot.1.as_slice());
        let rows = self.instance.row_set(spot.0);
        let index = made_if(alloc, again, rows, spot.1.as_slice())?;
        self.kept.insert(spot, index)?;
        Ok(())
    }
}

fn has_mark(marks: &[bool]) -> bool {
    marks.iter().any(|mark| *mark)
}

/// The index, where it is wanted.
fn made_if<'x>(
    alloc: Global,
    wanted: bool,
    rows: &'x BTreeSet<Row<Value>>,
    marks: &[bool],
) -> Result<Option<Index<'x>>, AllocError>
    ensures { IfOk result (λ made. IfSome made (λ index. IsIndex rows.now.keys marks.now index.entries)) }
{
    if wanted {
        Ok(Some(indexed(alloc, rows, marks)?))
    } else {
        Ok(None)
    }
}

/// The rows by their cells at the marked columns.
fn indexed<'x>(
    alloc: Global,
    rows: &'x BTreeSet<Row<Value>>,
    marks: &[bool],
) -> Result<Index<'x>, AllocError>
    ensures { IfOk result (λ index. IsIndex rows.now.keys marks.now index.entries) }
{
    let mut index = BTreeMap::new(alloc);
    for row in rows {
        let key = cells_at(alloc, marks, row.as_slice())?;
        put(alloc, &mut index, key, row)?;
    }
    Ok(index)
}

/// The cells of the row at the marked columns.
fn cells_at(alloc: Global, marks: &[bool], row: &[Value]) -> Result<Row<Value>, AllocError>
    ensures { IfOk result (λ key. key ≡ key_of marks.now row.now) }
{
    let mut cells = Vec::new(alloc);
    for (mark, cell) in marks.iter().zip(row) {
        push_if(alloc, &mut cells, *mark, cell)?;
    }
    Ok(Row::from_vec(cells))
}

fn push_if(
    alloc: Global,
    cells: &mut Vec<Value>,
    wanted: bool,
    cell: &Value,
) -> Result<(), AllocError>
    ensures { OnOk result (cells.new.items ≡ cells.old.items ++ (if wanted then cell.now ∷ [] else [])) }
{
    if wanted {
        cells.push(cell.copy_in(alloc)?)?;
    }
    Ok(())
}

/// Puts the row behind the others under the key.
fn put<'x>(
    alloc: Global,
    index: &mut Index<'x>,
    key: Row<Value>,
    row: &'x Row<Value>,
) -> Result<(), AllocError>
    ensures { OnOk result ((k : List SpecValue) → rows_under index.new.entries k ≡ rows_under index.old.entries k ++ (if is_at (row_cmp key) k then row.now ∷ [] else [])) }
{
    match index.get_mut(&key) {
        Some(rows) => {
            rows.push(row)?;
            return Ok(());
        }
        None => {
            let mut rows = Vec::with_capacity(alloc, 1)?;
            rows.push(row)?;
            index.insert(key, rows)?;
            return Ok(());
        }
    }
}

/// The rows under the key.
pub(crate) fn rows_at<'x>(
    alloc: Global,
    index: &Index<'x>,
    key: &Row<Value>,
) -> Result<Vec<&'x Row<Value>>, AllocError>
    ensures { IfOk result (λ rows. shown rows.items ≡ rows_under index.now.entries key.now) }
{
    match index.get(key) {
        Some(rows) => Ok(Vec::from_slice(alloc, rows.as_slice())?),
        None => Ok(Vec::new(alloc)),
    }
}

/// Which of the terms have a value.
pub(crate) fn marks_of<'x>(
    alloc: Global,
    terms: &[Term],
    env: &[(&'x Var, &'x Value)],
) -> Result<Vec<bool>, AllocError>
    ensures { IfOk result (λ marks. marks.items ≡ map (has_value (env_of env.now)) terms.now) }
{
    let mut marks = Vec::with_capacity(alloc, terms.len())?;
    for term in terms {
        marks.push(has_value(env, term))?;
    }
    Ok(marks)
}

/// The values of the marked terms.
pub(crate) fn values_at<'x>(
    alloc: Global,
    marks: &[bool],
    terms: &'x [Term],
    env: &[(&'x Var, &'x Value)],
    zero: &'x Value,
) -> Result<Row<Value>, AllocError>
    requires { zero.now ≡ Value.Int (pos 0) }
    ensures { IfOk result (λ key. key ≡ key_of marks.now (map (value_of (env_of env.now)) terms.now)) }
{
    let mut cells = Vec::new(alloc);
    for (mark, term) in marks.iter().zip(terms) {
        push_if(alloc, &mut cells, *mark, value_at(term, env, zero))?;
    }
    Ok(Row::from_vec(cells))
}
