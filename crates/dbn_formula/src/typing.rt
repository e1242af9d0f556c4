ghost use Rattle.std.specs.Prelude.{◌≡◌, ◌⊎◌, [], Option, Some, None, slice_index_or, IfOk, IfErr, OnOk};
ghost use Rattle.std.specs.List.{list_all};
ghost use Rattle.dbn_formula.specs.Variables.{binds};
ghost use Rattle.dbn_formula.specs.Typing.{arity_fits, entered, type_in, type_under, term_type, agree, terms_fit, sides_fit, types_fit, all_bound, type_fault};
ghost use Rattle.dbn_formula.specs.Scope.{entries};

use super::formula::Formula;
use super::variables::{binds, free};
use dbn_value::{Cell, Cmp, ColType, Shapes, Term, TypedVars, Var};
use std::alloc::{AllocError, Global};

/// Why a formula isn't well typed, in the order in which the kinds are looked for.
#[derive(Debug, Clone, Copy, PartialEq, Eq, Drop)]
pub enum TypeFault {
    /// An atom has another number of terms than its relation has columns.
    Arity,
    /// A term hasn't the type of its column, the sides of a comparison have two types, or one that is compared by order is no int.
    TypeClash,
    /// A variable is neither quantified where it stands nor in the scope.
    Unbound,
    /// Memory ran out.
    Memory,
}

impl From<AllocError> for TypeFault {
    ghost use Rattle.dbn_formula.specs.declared.typing.TypeFault.{TypeFault as Fault};
    ghost use Rattle.dbn_formula.specs.declared.typing.TypeFault.TheVariants.{Memory};

    ghost from_gives = { λ _ f. f ≡ Memory };

    fn from(_error: AllocError) -> TypeFault {
        TypeFault::Memory
    }
}

/// The typed variables at a place of a formula: those that were given, and those of the quantifiers around the place, the innermost first.
#[derive(Drop)]
pub(crate) enum Scope<'a> {
    /// The variables that were given.
    Given(&'a [(Var, ColType)]),
    /// Those of the innermost quantifier, and the scope around it.
    Inner(&'a [(Var, ColType)], &'a Scope<'a>),
}

/// Whether the formula is well typed under the scope and over relations of these shapes.
///
/// The fault is the first of `Arity`, `TypeClash` and `Unbound`, in this order, that stands anywhere in the formula.
/// The numbers of its relations are numbers of `rels`; a number out of their range is taken for a relation without columns.
pub fn type_check(
    alloc: Global,
    f: &Formula,
    scope: &TypedVars,
    rels: &Shapes,
) -> Result<(), TypeFault>
    ensures ok { OnOk result (type_fault rels.now f.now scope.now ≡ None) }
    ensures fault { IfErr result (λ e. (e ≡ TypeFault.Memory) ⊎ (type_fault rels.now f.now scope.now ≡ Some e)) }
{
    if !arity_fits(f, rels) {
        return Err(TypeFault::Arity);
    }
    if !types_fit(f, scope.as_slice(), rels) {
        return Err(TypeFault::TypeClash);
    }
    if !all_bound(alloc, f, scope.as_slice())? {
        return Err(TypeFault::Unbound);
    }
    Ok(())
}

/// Whether each term that has a type under the scope and over relations of these shapes has the type of its position: that of
/// its column, or that of the other side of its comparison. A variable without a type fits. This takes no memory.
pub fn types_fit(f: &Formula, scope: &[(Var, ColType)], rels: &Shapes) -> bool
    ensures { result ≡ types_fit rels.now f.now scope.now }
{
    types_fit_at(f, &Scope::Given(scope), rels)
}

/// Whether each term that has a type under the scope has that of its column; where one list is longer, the rest of it fits.
/// This takes no memory.
pub fn terms_fit(terms: &[Term], shape: &[ColType], scope: &[(Var, ColType)]) -> bool
    ensures { result ≡ terms_fit scope.now terms.now shape.now }
{
    terms_fit_at(terms, shape, &Scope::Given(scope))
}

/// Whether each free variable of the formula is in the scope. An error is want of memory.
#[tactic(auto, using(crate::proofs::VariableLaws::all_firsts))]
pub fn all_bound(alloc: Global, f: &Formula, scope: &[(Var, ColType)]) -> Result<bool, AllocError>
    ensures { IfOk result (λ ok. ok ≡ all_bound f.now scope.now) }
{
    let used = free(alloc, f)?;
    Ok(are_bound(used.as_slice(), scope))
}

/// The types of the columns of the relation.
fn columns(rels: &Shapes, rel: usize) -> &[ColType]
    ensures { result.now ≡ slice_index_or rels.now rel [] }
{
    match rels.get(rel) {
        Some(shape) => shape.as_slice(),
        None => &[],
    }
}

/// Whether each atom has as many terms as its relation of `rels` has columns; a number out of their range is taken for a
/// relation without columns. This takes no memory.
#[cycle(arity)]
#[tactic(auto, using(crate::proofs::TypingLaws::typing_laws))]
pub fn arity_fits(f: &Formula, rels: &Shapes) -> bool
    ensures { result ≡ arity_fits rels.now f.now }
{
    match f {
        Formula::Atom { rel, terms } => terms.len() == columns(rels, *rel).len(),
        Formula::Test { .. } => true,
        Formula::And(parts) => each_arity_fits(parts.as_slice(), rels),
        Formula::Or(parts) => each_arity_fits(parts.as_slice(), rels),
        Formula::Not(part) => arity_fits(part.get(), rels),
        Formula::Implies(left, right) => arity_fits(left.get(), rels)
            && arity_fits(right.get(), rels),
        Formula::Exists { vars: _, body } => arity_fits(body.get(), rels),
        Formula::Forall { vars: _, body } => arity_fits(body.get(), rels),
    }
}

#[cycle(arity)]
fn each_arity_fits(parts: &[Formula], rels: &Shapes) -> bool
    ensures { result ≡ list_all (arity_fits rels.now) parts.now }
{
    for part in parts {
        if !arity_fits(part, rels) {
            return false;
        }
    }
    true
}

/// Whether each term that has a type where it stands has the type of its position.
#[cycle(types)]
#[tactic(auto, using(crate::proofs::TypingLaws::typing_laws))]
fn types_fit_at<'x>(f: &'x Formula, scope: &'x Scope<'x>, rels: &'x Shapes) -> bool
    ensures { result ≡ types_fit rels.now f.now (entries scope.now) }
{
    match f {
        Formula::Atom { rel, terms } => terms_fit_at(terms.as_slice(), columns(rels, *rel), scope),
        Formula::Test { cmp, left, right } => sides_fit(
            *cmp,
            term_type(scope, left),
            term_type(scope, right),
        ),
        Formula::And(parts) => each_types_fit(parts.as_slice(), &*scope, &*rels),
        Formula::Or(parts) => each_types_fit(parts.as_slice(), &*scope, &*rels),
        Formula::Not(part) => types_fit_at(part.get(), &*scope, &*rels),
        Formula::Implies(left, right) => types_fit_at(left.get(), &*scope, &*rels)
            && types_fit_at(right.get(), &*scope, &*rels),
        Formula::Exists { vars, body } => types_fit_at(
            body.get(),
            &Scope::Inner(vars.as_slice(), &*scope),
            &*rels,
        ),
        Formula::Forall { vars, body } => types_fit_at(
            body.get(),
            &Scope::Inner(vars.as_slice(), &*scope),
            &*rels,
        ),
    }
}

#[cycle(types)]
fn each_types_fit<'x>(parts: &'x [Formula], scope: &'x Scope<'x>, rels: &'x Shapes) -> bool
    ensures { result ≡ list_all (λ f. types_fit rels.now f (entries scope.now)) parts.now }
{
    for part in parts {
        if !types_fit_at(part, &*scope, &*rels) {
            return false;
        }
    }
    true
}

/// Whether each term that has a type has that of its column.
fn terms_fit_at(terms: &[Term], shape: &[ColType], scope: &Scope) -> bool
    ensures { result ≡ terms_fit (entries scope.now) terms.now shape.now }
{
    match terms {
        [] => true,
        [term, terms @ ..] => match shape {
            [] => true,
            [column, shape @ ..] => agree(term_type(scope, term), Some(*column))
                && terms_fit_at(terms, shape, scope),
        },
    }
}

/// Whether the sides of a comparison that have a type have one type, and int where they are compared by order.
fn sides_fit(cmp: Cmp, left: Option<ColType>, right: Option<ColType>) -> bool
    ensures { result ≡ sides_fit cmp left right }
{
    match cmp {
        Cmp::Eq | Cmp::Ne => agree(left, right),
        Cmp::Lt | Cmp::Le | Cmp::Gt | Cmp::Ge => agree(left, Some(ColType::Int))
            && agree(right, Some(ColType::Int)),
    }
}

/// Whether both have one type, where both have a type.
fn agree(a: Option<ColType>, b: Option<ColType>) -> bool
    ensures { result ≡ agree a b }
{
    match a {
        Some(a) => match b {
            Some(b) => a == b,
            None => true,
        },
        None => true,
    }
}

/// The type of the term at a place with this scope; a variable that isn't in the scope has none.
fn term_type(scope: &Scope, term: &Term) -> Option<ColType>
    ensures { result ≡ term_type (entries scope.now) term.now }
{
    match term {
        Term::Var(var) => type_in(scope, var),
        Term::Const(value) => Some(value.col_type()),
    }
}

/// The type of the variable at a place with this scope.
#[tactic(auto, using(crate::proofs::TypeFaults::type_entered))]
fn type_in<'x>(scope: &'x Scope<'x>, var: &'x Var) -> Option<ColType>
    ensures { result ≡ type_in (entries scope.now) var.now }
{
    match scope {
        Scope::Given(vars) => first_type(vars, var),
        Scope::Inner(vars, outer) => {
            let found = type_in(&**outer, &*var);
            type_under(vars, var, found)
        }
    }
}

/// The type of the first entry of the variable.
fn first_type(vars: &[(Var, ColType)], var: &Var) -> Option<ColType>
    ensures { result ≡ type_in vars.now var.now }
{
    for entry in vars {
        if var.same(&entry.0) {
            return Some(entry.1);
        }
    }
    None
}

/// The type of the variable inside a quantifier, where it has the type `outside` around it.
fn type_under(vars: &[(Var, ColType)], var: &Var, outside: Option<ColType>) -> Option<ColType>
    ensures { result ≡ type_under vars.now var.now outside }
{
    let mut found = outside;
    for entry in vars {
        if var.same(&entry.0) {
            found = Some(entry.1);
        }
    }
    found
}

/// Whether each variable is in the scope.
fn are_bound(used: &[Var], scope: &[(Var, ColType)]) -> bool
    ensures { result ≡ list_all (binds scope.now) used.now }
{
    used.iter().all(|var| binds(scope, var))
}
