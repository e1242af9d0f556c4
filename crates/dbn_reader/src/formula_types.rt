//! The types of the terms of a formula, at places under quantifiers too.

ghost use Rattle.std.specs.Prelude.{◌≡◌, ◌&&◌, IfOk};
ghost use Rattle.std.specs.List.{list_all};
ghost use Rattle.dbn_formula.specs.Typing.{agree, entered, sides_fit, term_type, terms_fit, type_in, types_fit};
ghost use Rattle.dbn_reader.specs.Scopes.{entries};

use super::numbers::columns;
use super::quantified::Quantified;
use dbn_formula::Formula;
use dbn_value::{Cell, Cmp, ColType, Shapes, Term, Var, same_type};
use std::alloc::{AllocError, Global};

/// The typed variables at a place of a formula: those that were given, and those of the quantifiers around the place.
#[derive(Drop)]
pub(crate) enum Scope<'a> {
    /// The variables that were given.
    Given(&'a [(Var, ColType)]),
    /// Those of the innermost quantifier, and the scope around it.
    Inner(&'a Quantified, &'a Scope<'a>),
}

/// The type of the first entry of the variable.
fn first_type(vars: &[(Var, ColType)], var: &Var) -> Option<ColType>
    ensures { result ≡ type_in vars.now var.now }
{
    for entry in vars {
        if var.same(&entry.0) {
            return Some(entry.1);
        }
    }
    None
}

/// The type of the variable at a place with this scope, if it has one there.
#[tactic(auto, using(dbn_formula::proofs::TypeFaults::type_entered))]
fn type_in<'x>(scope: &'x Scope<'x>, var: &'x Var) -> Option<ColType>
    ensures { result ≡ type_in (entries scope.now) var.now }
{
    match scope {
        Scope::Given(vars) => first_type(vars, var),
        Scope::Inner(quantified, outer) => match quantified.find(var) {
            Some(kind) => Some(kind),
            None => type_in(&**outer, &*var),
        },
    }
}

/// The type of the term at a place with this scope; a variable that isn't in the scope has none.
fn term_type(scope: &Scope, term: &Term) -> Option<ColType>
    ensures { result ≡ term_type (entries scope.now) term.now }
{
    match term {
        Term::Var(var) => type_in(scope, var),
        Term::Const(value) => Some(value.col_type()),
    }
}

/// Whether both have one type, where both have a type.
fn agree(a: Option<ColType>, b: Option<ColType>) -> bool
    ensures { result ≡ agree a b }
{
    match a {
        Some(a) => match b {
            Some(b) => same_type(a, b),
            None => true,
        },
        None => true,
    }
}

/// Whether the sides of a comparison that have a type have one type, and int where they are compared by order.
fn sides_fit(cmp: Cmp, left: Option<ColType>, right: Option<ColType>) -> bool
    ensures { result ≡ sides_fit cmp left right }
{
    match cmp {
        Cmp::Eq | Cmp::Ne => agree(left, right),
        Cmp::Lt | Cmp::Le | Cmp::Gt | Cmp::Ge => agree(left, Some(ColType::Int))
            && agree(right, Some(ColType::Int)),
    }
}

/// Whether each term that has a type has that of its column; where one list is longer, the rest of it fits.
fn terms_fit(terms: &[Term], shape: &[ColType], scope: &Scope) -> bool
    ensures { result ≡ terms_fit (entries scope.now) terms.now shape.now }
{
    for (term, column) in terms.iter().zip(shape) {
        if !agree(term_type(scope, term), Some(*column)) {
            return false;
        }
    }
    true
}

/// Whether each term that has a type under the scope and over relations of these shapes has the type of its position. An error
/// is want of memory.
pub(crate) fn formula_fits(
    alloc: Global,
    f: &Formula,
    scope: &[(Var, ColType)],
    rels: &Shapes,
) -> Result<bool, AllocError>
    ensures { IfOk result (λ ok. ok ≡ types_fit rels.now f.now scope.now) }
{
    types_fit_at(alloc, f, &Scope::Given(scope), rels)
}

/// Whether each term that has a type where it stands has the type of its position.
#[cycle(types)]
#[tactic(auto, using(dbn_formula::proofs::TypingLaws::typing_laws, dbn_formula::proofs::Weights::weight_laws))]
fn types_fit_at<'x>(
    alloc: Global,
    f: &'x Formula,
    scope: &'x Scope<'x>,
    rels: &'x Shapes,
) -> Result<bool, AllocError>
    ensures { IfOk result (λ ok. ok ≡ types_fit rels.now f.now (entries scope.now)) }
{
    match f {
        Formula::Atom { rel, terms } => {
            Ok(terms_fit(terms.as_slice(), columns(rels, *rel), scope))
        }
        Formula::Test { cmp, left, right } => Ok(sides_fit(
            *cmp,
            term_type(scope, left),
            term_type(scope, right),
        )),
        Formula::And(parts) => each_types_fit(alloc, parts.as_slice(), &*scope, &*rels),
        Formula::Or(parts) => each_types_fit(alloc, parts.as_slice(), &*scope, &*rels),
        Formula::Not(part) => types_fit_at(alloc, part.get(), &*scope, &*rels),
        Formula::Implies(left, right) => {
            if !types_fit_at(alloc, left.get(), &*scope, &*rels)? {
                return Ok(false);
            }
            types_fit_at(alloc, right.get(), &*scope, &*rels)
        }
        Formula::Exists { vars, body } => {
            types_fit_inside(alloc, vars.as_slice(), body.get(), &*scope, &*rels)
        }
        Formula::Forall { vars, body } => {
            types_fit_inside(alloc, vars.as_slice(), body.get(), &*scope, &*rels)
        }
    }
}

/// The same inside a quantifier.
#[cycle(types)]
fn types_fit_inside<'x>(
    alloc: Global,
    vars: &'x [(Var, ColType)],
    body: &'x Formula,
    scope: &'x Scope<'x>,
    rels: &'x Shapes,
) -> Result<bool, AllocError>
    ensures { IfOk result (λ ok. ok ≡ types_fit rels.now body.now (entered vars.now (entries scope.now))) }
{
    let quantified = Quantified::new(alloc, vars)?;
    let inner = Scope::Inner(&quantified, &*scope);
    types_fit_at(alloc, &*body, &inner, &*rels)
}

#[cycle(types)]
fn each_types_fit<'x>(
    alloc: Global,
    parts: &'x [Formula],
    scope: &'x Scope<'x>,
    rels: &'x Shapes,
) -> Result<bool, AllocError>
    ensures { IfOk result (λ ok. ok ≡ list_all (λ f. types_fit rels.now f (entries scope.now)) parts.now) }
{
    for part in parts {
        if !types_fit_at(alloc, part, &*scope, &*rels)? {
            return Ok(false);
        }
    }
    Ok(true)
}
