//! Declarations as S-expressions, with names in the place of numbers.

ghost use Rattle.std.specs.Prelude.{◌≡◌, ◌++◌, ◌∷◌, [], codes, map, IfOk, OnOk};
ghost use Rattle.dbn_value.specs.Text.{IsName};
ghost use Rattle.dbn_net.specs.Tables.{field_names};
ghost use Rattle.dbn_net.specs.Naming.{name_at, written_fact, named};
ghost use Rattle.dbn_net.specs.Printing.{word, form, type_sexp, typed_sexp, names_sexp, written_atom_sexp, sexp_of};
ghost use Rattle.dbn_writer.specs.Known.{FieldsKnown, FormulaKnown, FactsKnown, PlaceKnown, Known};

use super::formulas::{atom, formula};
use super::naming::{field_name, query_name, relation_name};
use super::transitions::transition;
use super::words::{begun, list, name, scope, type_word, typed};
use dbn_formula::Formula;
use dbn_instance::{Action, FactPattern};
use dbn_net::{Decl, Net, Place};
use dbn_sexp::{Sexp, SexpList};
use dbn_value::{ColType, Name, Var};
use sqlite_items::Items;
use std::alloc::{AllocError, Global};

/// Adds the columns with their types.
fn add_columns(
    alloc: Global,
    out: &mut SexpList,
    fields: &[(Name, ColType)],
) -> Result<(), AllocError>
    ensures { OnOk result (out.new ≡ out.old ++ map typed_sexp fields.now) }
{
    for field in fields {
        out.push(typed(alloc, &field.0, field.1)?)?;
    }
    Ok(())
}

/// A relation.
#[tactic(auto, unfolding(dbn_value::specs::Text::is_name))]
fn relation(alloc: Global, declared: &Name, fields: &[(Name, ColType)]) -> Result<Sexp, AllocError>
    ensures { IfOk result (λ one. one ≡ form (codes "relation") (word declared.now ∷ map typed_sexp fields.now)) }
{
    let mut parts = begun(alloc, b"relation".as_slice())?;
    parts.push(name(alloc, declared)?)?;
    add_columns(alloc, &mut parts, fields)?;
    Ok(list(parts))
}

/// Adds the names of the columns of a relation with these numbers.
fn add_fields(
    alloc: Global,
    net: &Net,
    out: &mut SexpList,
    rel: usize,
    fields: &[usize],
) -> Result<(), AllocError>
    requires { FieldsKnown net.now rel fields.now }
    ensures { OnOk result (out.new ≡ out.old ++ map word (map (name_at (field_names net.now rel)) fields.now)) }
{
    for field in fields {
        out.push(name(alloc, field_name(net, rel, *field))?)?;
    }
    Ok(())
}

/// A key of a relation.
#[tactic(auto, unfolding(dbn_value::specs::Text::is_name))]
fn key(alloc: Global, net: &Net, rel: usize, fields: &[usize]) -> Result<Sexp, AllocError>
    requires { FieldsKnown net.now rel fields.now }
    ensures { IfOk result (λ one. one ≡ sexp_of (named net.now (Decl.Key rel fields.now))) }
{
    let mut parts = begun(alloc, b"key".as_slice())?;
    parts.push(name(alloc, relation_name(net, rel))?)?;
    add_fields(alloc, net, &mut parts, rel, fields)?;
    Ok(list(parts))
}

/// A list of columns of a relation.
fn side(alloc: Global, net: &Net, rel: usize, fields: &[usize]) -> Result<Sexp, AllocError>
    requires { FieldsKnown net.now rel fields.now }
    ensures { IfOk result (λ one. one ≡ names_sexp (map (name_at (field_names net.now rel)) fields.now)) }
{
    let mut parts = Items::new(alloc);
    add_fields(alloc, net, &mut parts, rel, fields)?;
    Ok(list(parts))
}

/// A foreign key from a relation to another one.
#[tactic(auto, unfolding(dbn_value::specs::Text::is_name))]
fn foreign(
    alloc: Global,
    net: &Net,
    rel: usize,
    fields: &[usize],
    to: usize,
    to_fields: &[usize],
) -> Result<Sexp, AllocError>
    requires from { FieldsKnown net.now rel fields.now }
    requires to { FieldsKnown net.now to to_fields.now }
    ensures { IfOk result (λ one. one ≡ sexp_of (named net.now (Decl.Foreign rel fields.now to to_fields.now))) }
{
    let mut parts = begun(alloc, b"foreign".as_slice())?;
    parts.push(name(alloc, relation_name(net, rel))?)?;
    parts.push(side(alloc, net, rel, fields)?)?;
    parts.push(name(alloc, relation_name(net, to))?)?;
    parts.push(side(alloc, net, to, to_fields)?)?;
    Ok(list(parts))
}

/// A sentence that has to hold.
#[tactic(auto, unfolding(dbn_value::specs::Text::is_name))]
fn always(alloc: Global, net: &Net, declared: &Name, body: &Formula) -> Result<Sexp, AllocError>
    requires { FormulaKnown net.now body.now }
    ensures { IfOk result (λ one. one ≡ sexp_of (named net.now (Decl.Always declared.now body.now))) }
{
    let mut parts = begun(alloc, b"always".as_slice())?;
    parts.push(name(alloc, declared)?)?;
    parts.push(formula(alloc, net, body)?)?;
    Ok(list(parts))
}

/// A query.
#[tactic(auto, unfolding(dbn_value::specs::Text::is_name))]
fn query(
    alloc: Global,
    net: &Net,
    declared: &Name,
    vars: &[(Var, ColType)],
    body: &Formula,
) -> Result<Sexp, AllocError>
    requires { FormulaKnown net.now body.now }
    ensures { IfOk result (λ one. one ≡ sexp_of (named net.now (Decl.Query declared.now vars.now body.now))) }
{
    let mut parts = begun(alloc, b"query".as_slice())?;
    parts.push(name(alloc, declared)?)?;
    parts.push(scope(alloc, vars)?)?;
    parts.push(formula(alloc, net, body)?)?;
    Ok(list(parts))
}

/// Facts with terms behind a word.
fn effect(alloc: Global, net: &Net, first: &[u8], facts: &[FactPattern]) -> Result<Sexp, AllocError>
    requires word { IsName first.now }
    requires known { FactsKnown net.now facts.now }
    ensures { IfOk result (λ one. one ≡ form first.now (map written_atom_sexp (map (written_fact net.now) facts.now))) }
{
    let mut parts = begun(alloc, first)?;
    for fact in facts {
        parts.push(atom(alloc, net, fact.rel, fact.terms.as_slice())?)?;
    }
    Ok(list(parts))
}

/// An action.
#[tactic(auto, unfolding(dbn_value::specs::Text::is_name))]
fn action(alloc: Global, net: &Net, action: &Action) -> Result<Sexp, AllocError>
    requires deletes { FactsKnown net.now action.now.deletes }
    requires adds { FactsKnown net.now action.now.adds }
    ensures { IfOk result (λ one. one ≡ sexp_of (named net.now (Decl.Act action.now))) }
{
    let mut parts = begun(alloc, b"action".as_slice())?;
    parts.push(name(alloc, &action.name)?)?;
    parts.push(scope(alloc, action.params.as_slice())?)?;
    parts.push(effect(alloc, net, b"delete".as_slice(), action.deletes.as_slice())?)?;
    parts.push(effect(alloc, net, b"add".as_slice(), action.adds.as_slice())?)?;
    Ok(list(parts))
}

/// Adds the types.
fn add_types(alloc: Global, out: &mut SexpList, shape: &[ColType]) -> Result<(), AllocError>
    ensures { OnOk result (out.new ≡ out.old ++ map type_sexp shape.now) }
{
    for of_type in shape {
        out.push(type_word(alloc, *of_type)?)?;
    }
    Ok(())
}

/// A place that holds tokens.
#[tactic(auto, unfolding(dbn_value::specs::Text::is_name))]
fn control(alloc: Global, declared: &Name, shape: &[ColType]) -> Result<Sexp, AllocError>
    ensures { IfOk result (λ one. one ≡ form (codes "place") (word declared.now ∷ map type_sexp shape.now)) }
{
    let mut parts = begun(alloc, b"place".as_slice())?;
    parts.push(name(alloc, declared)?)?;
    add_types(alloc, &mut parts, shape)?;
    Ok(list(parts))
}

/// A place that shows the answers of a query.
#[tactic(auto, unfolding(dbn_value::specs::Text::is_name))]
fn view(alloc: Global, declared: &Name, query: &Name) -> Result<Sexp, AllocError>
    ensures { IfOk result (λ one. one ≡ form (codes "view") (word declared.now ∷ word query.now ∷ [])) }
{
    let mut parts = begun(alloc, b"view".as_slice())?;
    parts.push(name(alloc, declared)?)?;
    parts.push(name(alloc, query)?)?;
    Ok(list(parts))
}

/// A place.
fn place(alloc: Global, net: &Net, place: &Place) -> Result<Sexp, AllocError>
    requires { PlaceKnown net.now place.now }
    ensures { IfOk result (λ one. one ≡ sexp_of (named net.now (Decl.Site place.now))) }
{
    match place {
        Place::Control { name, shape } => control(alloc, name, shape.as_slice()),
        Place::View { name, query } => view(alloc, name, query_name(net, *query)),
    }
}

/// A declaration of the net.
pub(crate) fn declaration(alloc: Global, net: &Net, decl: &Decl) -> Result<Sexp, AllocError>
    requires { Known net.now decl.now }
    ensures { IfOk result (λ one. one ≡ sexp_of (named net.now decl.now)) }
{
    match decl {
        Decl::Relation { name, fields } => relation(alloc, name, fields.as_slice()),
        Decl::Key { rel, fields } => key(alloc, net, *rel, fields.as_slice()),
        Decl::Foreign {
            rel,
            fields,
            to,
            to_fields,
        } => foreign(
            alloc,
            net,
            *rel,
            fields.as_slice(),
            *to,
            to_fields.as_slice(),
        ),
        Decl::Always { name, body } => always(alloc, net, name, body),
        Decl::Query { name, vars, body } => query(alloc, net, name, vars.as_slice(), body),
        Decl::Act(a) => action(alloc, net, a),
        Decl::Site(p) => place(alloc, net, p),
        Decl::Trans(t) => transition(alloc, net, t),
    }
}
