//! The sentences of keys and foreign keys, and what a declaration adds to the tables of a net.

ghost use Rattle.std.specs.Prelude.{◌≡◌, ◌++◌, ◌∷◌, [], ℕ, map, slice_index_or, IfOk, OnOk};
ghost use Rattle.dbn_value.specs.Text.{IsName};
ghost use Rattle.dbn_formula.specs.declared.formula.Formula.{Formula};
ghost use Rattle.dbn_net.specs.declared.violation.Label.{Label};
ghost use Rattle.dbn_net.specs.declared.tables.Line.{Line};
ghost use Rattle.dbn_net.specs.Tables.{columns, place_shape, place_name, shape_of};
ghost use Rattle.dbn_net.specs.Sentences.{column_var, row_vars, as_terms, same_at, columns_from, key_sentence, partner, paired_var, paired_terms, own_var, own_vars, some_of, foreign_sentence, labelled, denied};
ghost use Rattle.dbn_net.specs.Kept.{headed, line_of};

use super::decl::{Decl, Place};
use super::rules::Transition;
use super::tables::{Head, Line};
use super::violation::{Label, Named};
use dbn_formula::{Formula, Formulas, normal_denied};
use dbn_value::{
    Bytes, Cmp, ColType, CopyIn, Name, Shape, Shapes, Term, Terms, TypedVars, Var, copy_items,
};
use sqlite_items::{Boxed, Items};
use std::alloc::{AllocError, Global};

/// The variable in a column of a row, which goes by its letter.
fn column_var(alloc: Global, letter: u8, column: usize) -> Result<Var, AllocError>
    requires { IsName (letter ∷ []) }
    ensures { IfOk result (λ x. x ≡ column_var letter column) }
{
    let mut name = Vec::new(alloc);
    name.push(letter)?;
    Ok(Var {
        name: Name::from_vec(name),
        mark: column as u64,
    })
}

/// The variables of a row of this shape.
fn row_vars(alloc: Global, letter: u8, shape: &[ColType]) -> Result<TypedVars, AllocError>
    requires { IsName (letter ∷ []) }
    ensures { IfOk result (λ vars. vars ≡ row_vars (column_var letter) 0 shape.now) }
{
    let mut vars = Items::new(alloc);
    for (column, of_type) in shape.iter().enumerate() {
        vars.push((column_var(alloc, letter, column)?, *of_type))?;
    }
    Ok(vars)
}

fn as_terms(alloc: Global, vars: &[(Var, ColType)]) -> Result<Terms, AllocError>
    ensures { IfOk result (λ terms. terms ≡ as_terms vars.now) }
{
    let mut terms = Items::new(alloc);
    for var in vars {
        terms.push(Term::Var(var.0.copy_in(alloc)?))?;
    }
    Ok(terms)
}

/// The two rows have the same cell in the column.
#[tactic(auto, using(crate::proofs::SentenceLaws::x_is_name, crate::proofs::SentenceLaws::y_is_name))]
fn same_at(alloc: Global, column: usize) -> Result<Formula, AllocError>
    ensures { IfOk result (λ f. f ≡ same_at column) }
{
    let left = Term::Var(column_var(alloc, b'x', column)?);
    let right = Term::Var(column_var(alloc, b'y', column)?);
    Ok(Formula::Test {
        cmp: Cmp::Eq,
        left,
        right,
    })
}

/// Adds that the two rows have the same cell in each of the columns.
fn add_same(alloc: Global, out: &mut Formulas, columns: &[usize]) -> Result<(), AllocError>
    ensures { OnOk result (out.new ≡ out.old ++ map same_at columns.now) }
{
    for column in columns {
        out.push(same_at(alloc, *column)?)?;
    }
    Ok(())
}

/// The two rows have the same cells in all columns.
fn all_same(alloc: Global, shape: &[ColType]) -> Result<Formulas, AllocError>
    ensures { IfOk result (λ fs. fs ≡ map same_at (columns_from 0 shape.now)) }
{
    let mut parts = Items::new(alloc);
    for (column, _) in shape.iter().enumerate() {
        parts.push(same_at(alloc, column)?)?;
    }
    Ok(parts)
}

/// Two rows of the relation that agree on the fields.
fn agreeing(
    alloc: Global,
    rel: usize,
    fields: &[usize],
    first: &[(Var, ColType)],
    second: &[(Var, ColType)],
) -> Result<Formula, AllocError>
    ensures { IfOk result (λ f. f ≡ Formula.And (Formula.Atom rel (as_terms first.now) ∷ map same_at fields.now ++ Formula.Atom rel (as_terms second.now) ∷ [])) }
{
    let mut parts = Items::new(alloc);
    let terms = as_terms(alloc, first)?;
    parts.push(Formula::Atom { rel, terms })?;
    add_same(alloc, &mut parts, fields)?;
    let terms = as_terms(alloc, second)?;
    parts.push(Formula::Atom { rel, terms })?;
    Ok(Formula::And(parts))
}

/// Two rows that agree on the fields are equal.
#[tactic(auto, using(crate::proofs::SentenceLaws::x_is_name, crate::proofs::SentenceLaws::y_is_name))]
fn key_sentence(
    alloc: Global,
    shape: &[ColType],
    rel: usize,
    fields: &[usize],
) -> Result<Formula, AllocError>
    ensures { IfOk result (λ f. f ≡ key_sentence shape.now rel fields.now) }
{
    let mut vars = row_vars(alloc, b'x', shape)?;
    let second = row_vars(alloc, b'y', shape)?;
    let agree = agreeing(alloc, rel, fields, vars.as_slice(), second.as_slice())?;
    let agree = Boxed::new(alloc, agree)?;
    let same = Boxed::new(alloc, Formula::And(all_same(alloc, shape)?))?;
    vars.append(second)?;
    let body = Boxed::new(alloc, Formula::Implies(agree, same))?;
    Ok(Formula::Forall { vars, body })
}

/// The column of the first row that is paired with this one of the second.
fn partner(fields: &[usize], to_fields: &[usize], column: usize) -> Option<usize>
    ensures { result ≡ partner fields.now to_fields.now column }
{
    for (field, to_field) in fields.iter().zip(to_fields) {
        if *to_field == column {
            return Some(*field);
        }
    }
    None
}

/// The variable in a column of the second row: that of its partner, or its own.
#[tactic(auto, using(crate::proofs::SentenceLaws::x_is_name, crate::proofs::SentenceLaws::y_is_name))]
fn paired_var(alloc: Global, partner: Option<usize>, column: usize) -> Result<Var, AllocError>
    ensures { IfOk result (λ x. x ≡ paired_var partner column) }
{
    match partner {
        Some(field) => column_var(alloc, b'x', field),
        None => column_var(alloc, b'y', column),
    }
}

fn paired_terms(
    alloc: Global,
    fields: &[usize],
    to_fields: &[usize],
    shape: &[ColType],
) -> Result<Terms, AllocError>
    ensures { IfOk result (λ terms. terms ≡ paired_terms fields.now to_fields.now 0 shape.now) }
{
    let mut terms = Items::new(alloc);
    for (column, _) in shape.iter().enumerate() {
        let var = paired_var(alloc, partner(fields, to_fields, column), column)?;
        terms.push(Term::Var(var))?;
    }
    Ok(terms)
}

/// Adds the variable of a column of the second row, unless it has a partner.
#[tactic(auto, using(crate::proofs::SentenceLaws::y_is_name))]
fn add_own(
    alloc: Global,
    out: &mut TypedVars,
    partner: Option<usize>,
    column: usize,
    of_type: ColType,
) -> Result<(), AllocError>
    ensures { OnOk result (out.new ≡ out.old ++ own_var partner column of_type) }
{
    match partner {
        Some(_) => Ok(()),
        None => {
            let var = column_var(alloc, b'y', column)?;
            out.push((var, of_type))?;
            Ok(())
        }
    }
}

/// The variables of the second row that have no partner.
fn own_vars(
    alloc: Global,
    fields: &[usize],
    to_fields: &[usize],
    shape: &[ColType],
) -> Result<TypedVars, AllocError>
    ensures { IfOk result (λ vars. vars ≡ own_vars fields.now to_fields.now 0 shape.now) }
{
    let mut vars = Items::new(alloc);
    for (column, of_type) in shape.iter().enumerate() {
        let partner = partner(fields, to_fields, column);
        add_own(alloc, &mut vars, partner, column, *of_type)?;
    }
    Ok(vars)
}

/// `exists` over the variables; the body alone where there are none.
fn some_of(alloc: Global, vars: TypedVars, body: Formula) -> Result<Formula, AllocError>
    ensures { IfOk result (λ f. f ≡ some_of vars body) }
{
    if vars.is_empty() {
        return Ok(body);
    }
    let body = Boxed::new(alloc, body)?;
    Ok(Formula::Exists { vars, body })
}

/// For each row of the one relation there is a row of the other with the same cells at the paired columns.
#[tactic(auto, using(crate::proofs::SentenceLaws::x_is_name, crate::proofs::SentenceLaws::y_is_name))]
fn foreign_sentence(
    alloc: Global,
    shape: &[ColType],
    to_shape: &[ColType],
    rel: usize,
    fields: &[usize],
    to: usize,
    to_fields: &[usize],
) -> Result<Formula, AllocError>
    ensures { IfOk result (λ f. f ≡ foreign_sentence shape.now to_shape.now rel fields.now to to_fields.now) }
{
    let vars = row_vars(alloc, b'x', shape)?;
    let terms = as_terms(alloc, vars.as_slice())?;
    let premise = Boxed::new(alloc, Formula::Atom { rel, terms })?;
    let own = own_vars(alloc, fields, to_fields, to_shape)?;
    let terms = paired_terms(alloc, fields, to_fields, to_shape)?;
    let there = some_of(alloc, own, Formula::Atom { rel: to, terms })?;
    let there = Boxed::new(alloc, there)?;
    let body = Boxed::new(alloc, Formula::Implies(premise, there))?;
    Ok(Formula::Forall { vars, body })
}

/// The types at a number, or none.
pub(crate) fn columns(shapes: &Shapes, n: usize) -> &[ColType]
    ensures { result.now ≡ slice_index_or shapes.now n [] }
{
    match shapes.get(n) {
        Some(shape) => shape.as_slice(),
        None => &[],
    }
}

/// The denial of a sentence, in normal form.
fn denial(alloc: Global, label: Label, sentence: &Formula) -> Result<Named, AllocError>
    ensures { IfOk result (λ v. v ≡ denied (labelled label sentence.now)) }
{
    let item = normal_denied(alloc, sentence)?;
    Ok(Named { label, item })
}

fn types_of<T>(alloc: Global, pairs: &[(T, ColType)]) -> Result<Shape, AllocError>
    ensures { IfOk result (λ types. types ≡ map (λ p. p.1) pairs.now) }
{
    let mut types = Items::new(alloc);
    for pair in pairs {
        types.push(pair.1)?;
    }
    Ok(types)
}

/// The types of the bound variables of a transition and then of its asked ones.
#[tactic(auto, using(crate::proofs::SentenceLaws::types_joined))]
fn given_types(alloc: Global, transition: &Transition) -> Result<Shape, AllocError>
    ensures { IfOk result (λ types. types ≡ shape_of transition.now) }
{
    let mut types = types_of(alloc, transition.bound.as_slice())?;
    types.append(types_of(alloc, transition.asked.as_slice())?)?;
    Ok(types)
}

/// The columns of a place: those that are declared, or those of its query.
fn place_types(alloc: Global, asks: &Shapes, place: &Place) -> Result<Shape, AllocError>
    ensures { IfOk result (λ types. types ≡ place_shape asks.now place.now) }
{
    match place {
        Place::Control { shape, .. } => shape.copy_in(alloc),
        Place::View { query, .. } => copy_items(alloc, columns(asks, *query)),
    }
}

fn place_name(place: &Place) -> &Name
    ensures { result.now ≡ place_name place.now }
{
    match place {
        Place::Control { name, .. } => name,
        Place::View { name, .. } => name,
    }
}

fn bytes_of(alloc: Global, name: &Name) -> Result<Bytes, AllocError>
    ensures { IfOk result (λ bytes. bytes ≡ name.now) }
{
    Ok(Bytes::from_vec(Vec::from_slice(alloc, name.as_bytes())?))
}

fn head(alloc: Global, name: &Name, types: Shape) -> Result<Head, AllocError>
    ensures { IfOk result (λ h. h ≡ headed name.now types) }
{
    let name = bytes_of(alloc, name)?;
    Ok(Head { name, types })
}

fn key_line(alloc: Global, rels: &Shapes, rel: usize, fields: &[usize]) -> Result<Line, AllocError>
    ensures { IfOk result (λ line. line ≡ Line.Sentence (denied (labelled (Label.Key rel) (key_sentence (columns rels.now rel) rel fields.now)))) }
{
    let sentence = key_sentence(alloc, columns(rels, rel), rel, fields)?;
    Ok(Line::Sentence(denial(alloc, Label::Key(rel), &sentence)?))
}

fn foreign_line(
    alloc: Global,
    rels: &Shapes,
    rel: usize,
    fields: &[usize],
    to: usize,
    to_fields: &[usize],
) -> Result<Line, AllocError>
    ensures { IfOk result (λ line. line ≡ Line.Sentence (denied (labelled (Label.Foreign rel to) (foreign_sentence (columns rels.now rel) (columns rels.now to) rel fields.now to to_fields.now)))) }
{
    let shape = columns(rels, rel);
    let sentence = foreign_sentence(alloc, shape, columns(rels, to), rel, fields, to, to_fields)?;
    Ok(Line::Sentence(denial(alloc, Label::Foreign(rel, to), &sentence)?))
}

fn always_line(alloc: Global, name: &Name, body: &Formula) -> Result<Line, AllocError>
    ensures { IfOk result (λ line. line ≡ Line.Always name.now (denied (labelled (Label.Always name.now) body.now))) }
{
    let bytes = bytes_of(alloc, name)?;
    let label = Label::Always(name.copy_in(alloc)?);
    Ok(Line::Always(bytes, denial(alloc, label, body)?))
}

/// What the declaration adds to the tables, over the columns of the relations and of the queries.
pub(crate) fn line_of(
    alloc: Global,
    rels: &Shapes,
    asks: &Shapes,
    decl: &Decl,
) -> Result<Line, AllocError>
    ensures { IfOk result (λ line. line ≡ line_of rels.now asks.now decl.now) }
{
    match decl {
        Decl::Relation { name, fields } => {
            let types = types_of(alloc, fields.as_slice())?;
            Ok(Line::Relation(head(alloc, name, types)?))
        }
        Decl::Key { rel, fields } => key_line(alloc, rels, *rel, fields.as_slice()),
        Decl::Foreign {
            rel,
            fields,
            to,
            to_fields,
        } => {
            foreign_line(
                alloc,
                rels,
                *rel,
                fields.as_slice(),
                *to,
                to_fields.as_slice(),
            )
        }
        Decl::Always { name, body } => always_line(alloc, name, body),
        Decl::Query { name, vars, .. } => {
            let types = types_of(alloc, vars.as_slice())?;
            Ok(Line::Query(head(alloc, name, types)?))
        }
        Decl::Act(action) => {
            let types = types_of(alloc, action.params.as_slice())?;
            Ok(Line::Action(head(alloc, &action.name, types)?))
        }
        Decl::Site(place) => {
            let types = place_types(alloc, asks, place)?;
            Ok(Line::Place(head(alloc, place_name(place), types)?))
        }
        Decl::Trans(transition) => {
            let types = given_types(alloc, transition)?;
            Ok(Line::Transition(head(alloc, &transition.name, types)?))
        }
    }
}
