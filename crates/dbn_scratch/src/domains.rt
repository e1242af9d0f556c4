ghost use Rattle.std.specs.Prelude.{◌≡◌, ◌++◌, ◌∷◌, ◌||◌, if◌then◌else◌, map, IfOk, OnOk};
ghost use Rattle.std.specs.BTreeSet.{insert_key};
ghost use Rattle.std.specs.List.{flat_map, list_any};
ghost use Rattle.dbn_value.specs.Ascending.{rows_over};
ghost use Rattle.dbn_value.specs.Order.{value_cmp, value_type, type_eq};
ghost use Rattle.dbn_value.specs.declared.value.ColType.{ColType as Column};
ghost use Rattle.dbn_formula.specs.Answers.{domain, values_in};
ghost use Rattle.dbn_scratch.specs.Given.{of_type, kept_of, row_of, rows_of};

use dbn_formula::{Formula, constants};
use dbn_instance::Instance;
use dbn_value::{Cell, ColType, CopyIn, Row, Value, same_type};
use sqlite_items::Items;
use std::alloc::{AllocError, Global};
use std::collections::BTreeSet;

/// The values of each type in a domain.
#[derive(Drop)]
pub(crate) struct Domains {
    pub ints: BTreeSet<Value>,
    pub texts: BTreeSet<Value>,
    pub ids: BTreeSet<Value>,
}

/// The domain of the formula over the instance.
pub(crate) fn gathered(
    alloc: Global,
    f: &Formula,
    instance: &Instance<Value>,
) -> Result<Domains, AllocError>
    ensures { IfOk result (λ d. (type : Column) → kept_of d type ≡ domain f.now instance.now type) }
{
    let written = constants(alloc, f)?;
    let mut values = Vec::new(alloc);
    add_values_in(&mut values, instance)?;
    add_values(&mut values, written.as_slice())?;
    Ok(Domains {
        ints: of_type(alloc, values.as_slice(), ColType::Int)?,
        texts: of_type(alloc, values.as_slice(), ColType::Text)?,
        ids: of_type(alloc, values.as_slice(), ColType::Id)?,
    })
}

/// Appends the values of the instance.
#[tactic(auto, using(crate::proofs::SolvingLaws::viewed))]
fn add_values_in<'x>(
    out: &mut Vec<&'x Value>,
    instance: &'x Instance<Value>,
) -> Result<(), AllocError>
    ensures { OnOk result (row_of out.new.items ≡ row_of out.old.items ++ values_in instance.now) }
{
    for rel in 0..instance.relations() {
        add_values_of(out, instance.row_set(rel))?;
    }
    Ok(())
}

#[tactic(auto, using(crate::proofs::SolvingLaws::viewed))]
fn add_values_of<'x>(
    out: &mut Vec<&'x Value>,
    rows: &'x BTreeSet<Row<Value>>,
) -> Result<(), AllocError>
    ensures { OnOk result (row_of out.new.items ≡ row_of out.old.items ++ flat_map (λ row. row) rows.now.keys) }
{
    for row in rows {
        add_values(out, row.as_slice())?;
    }
    Ok(())
}

#[tactic(auto, using(crate::proofs::SolvingLaws::viewed))]
fn add_values<'x>(out: &mut Vec<&'x Value>, values: &'x [Value]) -> Result<(), AllocError>
    ensures { OnOk result (row_of out.new.items ≡ row_of out.old.items ++ values.now) }
{
    for value in values {
        out.push(value)?;
    }
    Ok(())
}

/// The values of the type, each once.
fn of_type(alloc: Global, values: &[&Value], column: ColType) -> Result<BTreeSet<Value>, AllocError>
    ensures { IfOk result (λ set. set.keys ≡ of_type (row_of values.now) column) }
{
    let mut set = BTreeSet::new(alloc);
    for value in values {
        keep(
            alloc,
            &mut set,
            *value,
            same_type((*value).col_type(), column),
        )?;
    }
    Ok(set)
}

/// Adds a copy of the value, where it is wanted.
fn keep(
    alloc: Global,
    set: &mut BTreeSet<Value>,
    value: &Value,
    wanted: bool,
) -> Result<(), AllocError>
    ensures { OnOk result (set.new.keys ≡ (if wanted then insert_key value_cmp set.old.keys value.now else set.old.keys)) }
{
    if wanted {
        set.insert(value.copy_in(alloc)?)?;
    }
    Ok(())
}

/// The values of the type.
pub(crate) fn column<'x>(
    alloc: Global,
    domains: &'x Domains,
    column: ColType,
) -> Result<Vec<&'x Value>, AllocError>
    ensures { IfOk result (λ values. row_of values.items ≡ kept_of domains.now column) }
{
    match column {
        ColType::Int => listed(alloc, &domains.ints),
        ColType::Text => listed(alloc, &domains.texts),
        ColType::Id => listed(alloc, &domains.ids),
    }
}

#[tactic(auto, using(crate::proofs::SolvingLaws::viewed))]
fn listed<'x>(alloc: Global, set: &'x BTreeSet<Value>) -> Result<Vec<&'x Value>, AllocError>
    ensures { IfOk result (λ values. row_of values.items ≡ set.now.keys) }
{
    let mut values = Vec::new(alloc);
    for value in set {
        values.push(value)?;
    }
    Ok(values)
}

/// Whether the domain of the formula over the instance has a value of the type.
#[tactic(auto, using(crate::proofs::DomainLaws::some_in_domain))]
pub(crate) fn occurs(written: &[Value], instance: &Instance<Value>, column: ColType) -> bool
    ensures { result ≡ (list_any (λ v. type_eq (value_type v) column) (values_in instance.now) || list_any (λ v. type_eq (value_type v) column) written.now) }
{
    occurs_in(instance, column) || has_type(written, column)
}

fn occurs_in(instance: &Instance<Value>, column: ColType) -> bool
    ensures { result ≡ list_any (λ v. type_eq (value_type v) column) (values_in instance.now) }
{
    for rel in 0..instance.relations() {
        if rows_have_type(instance.row_set(rel), column) {
            return true;
        }
    }
    false
}

fn rows_have_type(rows: &BTreeSet<Row<Value>>, column: ColType) -> bool
    ensures { result ≡ list_any (λ v. type_eq (value_type v) column) (flat_map (λ row. row) rows.now.keys) }
{
    for row in rows {
        if has_type(row.as_slice(), column) {
            return true;
        }
    }
    false
}

fn has_type(values: &[Value], column: ColType) -> bool
    ensures { result ≡ list_any (λ v. type_eq (value_type v) column) values.now }
{
    values
        .iter()
        .any(|value| same_type(value.col_type(), column))
}

// ---- rows over columns

/// All rows with one value from each of the columns; the first one changes slowest.
pub(crate) fn rows_over<'x>(
    alloc: Global,
    columns: &[Vec<&'x Value>],
) -> Result<Items<Vec<&'x Value>>, AllocError>
    ensures { IfOk result (λ rows. rows_of rows ≡ rows_over (rows_of columns.now)) }
{
    let mut rows = Items::new(alloc);
    rows.push(Vec::new(alloc))?;
    for done in 0..columns.len() {
        let column = columns[columns.len() - 1 - done].as_slice();
        rows = extended(alloc, column, rows.as_slice())?;
    }
    Ok(rows)
}

/// Each of the rows behind each of the values.
#[tactic(auto, using(crate::proofs::SolvingLaws::viewed))]
fn extended<'x>(
    alloc: Global,
    column: &[&'x Value],
    rows: &[Vec<&'x Value>],
) -> Result<Items<Vec<&'x Value>>, AllocError>
    ensures { IfOk result (λ made. rows_of made ≡ flat_map (λ v. map (λ row. v.now ∷ row_of row.items) rows.now) column.now) }
{
    let mut made = Items::new(alloc);
    for value in column {
        add_behind(alloc, &mut made, *value, rows)?;
    }
    Ok(made)
}

#[tactic(auto, using(crate::proofs::SolvingLaws::viewed))]
fn add_behind<'x>(
    alloc: Global,
    out: &mut Items<Vec<&'x Value>>,
    value: &'x Value,
    rows: &[Vec<&'x Value>],
) -> Result<(), AllocError>
    ensures { OnOk result (rows_of out.new ≡ rows_of out.old ++ map (λ row. value.now ∷ row_of row.items) rows.now) }
{
    for row in rows {
        out.push(behind(alloc, value, row.as_slice())?)?;
    }
    Ok(())
}

#[tactic(auto, using(crate::proofs::SolvingLaws::viewed))]
fn behind<'x>(
    alloc: Global,
    value: &'x Value,
    row: &[&'x Value],
) -> Result<Vec<&'x Value>, AllocError>
    ensures { IfOk result (λ made. row_of made.items ≡ value.now ∷ row_of row.now) }
{
    let mut made = Vec::from_slice(alloc, row)?;
    made.insert(0, value)?;
    Ok(made)
}
