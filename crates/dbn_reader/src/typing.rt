//! The test of types.

ghost use Rattle.std.specs.Prelude.{◌≡◌, [], ◌∷◌, ◌++◌, true, IfOk, OnOk};
ghost use Rattle.std.specs.Option.{option_map_or};
ghost use Rattle.dbn_formula.specs.Typing.{types_fit};
ghost use Rattle.dbn_net.specs.Judging.{row_fits, types_eq, picked_types, is_typed};

use super::formula_types::formula_fits;
use super::numbers::columns;
use super::terms::{TermTest, action_passes, transition_passes};
use dbn_formula::{Formula, types_fit};
use dbn_net::{Decl, Entry, Net, Transition};
use dbn_value::{Cell, ColType, Shape, Shapes, Value, Var, same_type};
use sqlite_items::{Items, at};
use std::alloc::{AllocError, Global};

/// Whether each constant, value and variable has the type of its position. An error is want of memory.
pub(crate) fn is_typed(alloc: Global, net: &Net, entry: &Entry) -> Result<bool, AllocError>
    ensures { IfOk result (λ ok. ok ≡ is_typed net.now entry.now) }
{
    match entry {
        Entry::Part(decl) => part_is_typed(alloc, net, decl),
        Entry::Fact { rel, row } => {
            let shape = columns(net.rel_shapes(), *rel);
            Ok(row_fits(row.as_slice(), shape))
        }
        Entry::Tokens {
            place,
            many: _,
            row,
        } => {
            let shape = columns(net.place_shapes(), *place);
            Ok(row_fits(row.as_slice(), shape))
        }
    }
}

/// The same of a declaration of the net.
fn part_is_typed(alloc: Global, net: &Net, decl: &Decl) -> Result<bool, AllocError>
    ensures { IfOk result (λ ok. ok ≡ is_typed net.now (Entry.Part decl.now)) }
{
    match decl {
        Decl::Relation { .. } | Decl::Key { .. } | Decl::Site(_) => Ok(true),
        Decl::Foreign {
            rel,
            fields,
            to,
            to_fields,
        } => {
            let rels = net.rel_shapes();
            let types = picked_types(alloc, columns(rels, *rel), fields.as_slice())?;
            let others = picked_types(alloc, columns(rels, *to), to_fields.as_slice())?;
            Ok(types_eq(types.as_slice(), others.as_slice()))
        }
        Decl::Always { name: _, body } => formula_fits(alloc, body, &[], net.rel_shapes()),
        Decl::Query {
            name: _,
            vars,
            body,
        } => formula_fits(alloc, body, vars.as_slice(), net.rel_shapes()),
        Decl::Act(action) => Ok(action_passes(TermTest::Fit, net, action)),
        Decl::Trans(transition) => transition_is_typed(alloc, net, transition),
    }
}

/// The same of a transition.
fn transition_is_typed(
    alloc: Global,
    net: &Net,
    transition: &Transition,
) -> Result<bool, AllocError>
    ensures { IfOk result (λ ok. ok ≡ is_typed net.now (Entry.Part (Decl.Trans transition.now))) }
{
    if !transition_passes(alloc, net, TermTest::Fit, transition)? {
        return Ok(false);
    }
    Ok(guard_is_typed(alloc, &transition.guard, transition.bound.as_slice()))
}

/// Whether each term of the guard, if there is one, has the type of its position. This takes no memory.
fn guard_is_typed(alloc: Global, guard: &Option<Formula>, bound: &[(Var, ColType)]) -> bool
    ensures { result ≡ option_map_or (λ g. types_fit [] g bound.now) guard.now true }
{
    let no_relations: Shapes = Items::new(alloc);
    match guard {
        None => true,
        Some(body) => types_fit(body, bound, &no_relations),
    }
}

/// Whether each value has the type of its column; where one list is longer, the rest of it fits.
fn row_fits(row: &[Value], shape: &[ColType]) -> bool
    ensures { result ≡ row_fits row.now shape.now }
{
    for (value, kind) in row.iter().zip(shape) {
        if !same_type(value.col_type(), *kind) {
            return false;
        }
    }
    true
}

/// Whether the types are the same; where one list is longer, the rest of it fits.
fn types_eq(types: &[ColType], others: &[ColType]) -> bool
    ensures { result ≡ types_eq types.now others.now }
{
    for (kind, other) in types.iter().zip(others) {
        if !same_type(*kind, *other) {
            return false;
        }
    }
    true
}

/// The types of these columns; a number without a column has none. An error is want of memory.
fn picked_types(alloc: Global, shape: &[ColType], fields: &[usize]) -> Result<Shape, AllocError>
    ensures { IfOk result (λ types. types ≡ picked_types shape.now fields.now) }
{
    let mut types = Items::new(alloc);
    for field in fields {
        add_type(&mut types, shape, *field)?;
    }
    Ok(types)
}

/// Appends the type of the column, if there is one. An error is want of memory.
fn add_type(types: &mut Shape, shape: &[ColType], field: usize) -> Result<(), AllocError>
    ensures { OnOk result (types.new ≡ types.old ++ picked_types shape.now (field ∷ [])) }
{
    match at(shape, field) {
        Some(kind) => types.push(*kind),
        None => Ok(()),
    }
}
