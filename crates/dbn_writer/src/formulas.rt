//! Formulas as S-expressions, with the names of their relations.

ghost use Rattle.std.specs.Prelude.{◌≡◌, ◌<◌, ◌++◌, ◌∷◌, [], length, map, IfOk, OnOk};
ghost use Rattle.std.specs.List.{AllPass};
ghost use Rattle.dbn_value.specs.Text.{IsName};
ghost use Rattle.dbn_formula.specs.Written.{of_first};
ghost use Rattle.dbn_net.specs.Tables.{relations, relation_names};
ghost use Rattle.dbn_net.specs.Naming.{name_at, named_formula};
ghost use Rattle.dbn_net.specs.Printing.{form, term_sexp, comparison_word, formula_sexp};
ghost use Rattle.dbn_writer.specs.Known.{FormulaKnown};

use super::naming::relation_name;
use super::words::{add_terms, begun, list, name, scope, term};
use dbn_formula::Formula;
use dbn_net::Net;
use dbn_sexp::{Sexp, SexpList};
use dbn_value::{Cmp, Term};
use sqlite_items::Items;
use std::alloc::{AllocError, Global};

/// A list of a word and one more part.
pub(crate) fn one_part(alloc: Global, first: &[u8], part: Sexp) -> Result<Sexp, AllocError>
    requires { IsName first.now }
    ensures { IfOk result (λ one. one ≡ form first.now (part ∷ [])) }
{
    let mut parts = begun(alloc, first)?;
    parts.push(part)?;
    Ok(list(parts))
}

/// A list of a word and two more parts.
pub(crate) fn two_parts(
    alloc: Global,
    first: &[u8],
    left: Sexp,
    right: Sexp,
) -> Result<Sexp, AllocError>
    requires { IsName first.now }
    ensures { IfOk result (λ one. one ≡ form first.now (left ∷ right ∷ [])) }
{
    let mut parts = begun(alloc, first)?;
    parts.push(left)?;
    parts.push(right)?;
    Ok(list(parts))
}

/// A list of a word and more parts.
fn all_parts(alloc: Global, first: &[u8], more: SexpList) -> Result<Sexp, AllocError>
    requires { IsName first.now }
    ensures { IfOk result (λ one. one ≡ form first.now more) }
{
    let mut parts = begun(alloc, first)?;
    parts.append(more)?;
    Ok(list(parts))
}

/// An atom of the n-th relation.
pub(crate) fn atom(alloc: Global, net: &Net, n: usize, terms: &[Term]) -> Result<Sexp, AllocError>
    requires { n < length (relations net.now) }
    ensures { IfOk result (λ one. one ≡ form (name_at (relation_names net.now) n) (map term_sexp terms.now)) }
{
    let mut parts = Items::new(alloc);
    parts.push(name(alloc, relation_name(net, n))?)?;
    add_terms(alloc, &mut parts, terms)?;
    Ok(list(parts))
}

/// A comparison of two sides.
#[tactic(auto, unfolding(dbn_value::specs::Text::is_name))]
fn comparison(alloc: Global, cmp: Cmp, left: Sexp, right: Sexp) -> Result<Sexp, AllocError>
    ensures { IfOk result (λ one. one ≡ form (comparison_word cmp) (left ∷ right ∷ [])) }
{
    match cmp {
        Cmp::Eq => two_parts(alloc, b"=".as_slice(), left, right),
        Cmp::Ne => two_parts(alloc, b"!=".as_slice(), left, right),
        Cmp::Lt => two_parts(alloc, b"<".as_slice(), left, right),
        Cmp::Le => two_parts(alloc, b"<=".as_slice(), left, right),
        Cmp::Gt => two_parts(alloc, b">".as_slice(), left, right),
        Cmp::Ge => two_parts(alloc, b">=".as_slice(), left, right),
    }
}

/// A formula over relations of the net.
#[cycle(formulas)]
#[tactic(auto, using(crate::proofs::FormulaLaws::shown_laws, crate::proofs::FormulaLaws::known_atom), unfolding(dbn_value::specs::Text::is_name))]
pub(crate) fn formula(alloc: Global, net: &Net, f: &Formula) -> Result<Sexp, AllocError>
    requires { FormulaKnown net.now f.now }
    ensures { IfOk result (λ one. one ≡ formula_sexp (named_formula (relation_names net.now) f.now)) }
{
    match f {
        Formula::Atom { rel, terms } => atom(alloc, net, *rel, terms.as_slice()),
        Formula::Test { cmp, left, right } => {
            let left = term(alloc, left)?;
            let right = term(alloc, right)?;
            comparison(alloc, *cmp, left, right)
        }
        Formula::And(parts) => {
            let parts = formulas(alloc, net, parts.as_slice())?;
            all_parts(alloc, b"and".as_slice(), parts)
        }
        Formula::Or(parts) => {
            let parts = formulas(alloc, net, parts.as_slice())?;
            all_parts(alloc, b"or".as_slice(), parts)
        }
        Formula::Not(part) => {
            let part = formula(alloc, net, part.get())?;
            one_part(alloc, b"not".as_slice(), part)
        }
        Formula::Implies(left, right) => {
            let left = formula(alloc, net, left.get())?;
            let right = formula(alloc, net, right.get())?;
            two_parts(alloc, b"implies".as_slice(), left, right)
        }
        Formula::Exists { vars, body } => {
            let vars = scope(alloc, vars.as_slice())?;
            let body = formula(alloc, net, body.get())?;
            two_parts(alloc, b"exists".as_slice(), vars, body)
        }
        Formula::Forall { vars, body } => {
            let vars = scope(alloc, vars.as_slice())?;
            let body = formula(alloc, net, body.get())?;
            two_parts(alloc, b"forall".as_slice(), vars, body)
        }
    }
}

/// Formulas over relations of the net.
#[cycle(formulas)]
fn formulas(alloc: Global, net: &Net, parts: &[Formula]) -> Result<SexpList, AllocError>
    requires { AllPass (of_first (length (relations net.now))) parts.now }
    ensures { IfOk result (λ list. list ≡ map (λ f. formula_sexp (named_formula (relation_names net.now) f)) parts.now) }
{
    let mut out = Items::new(alloc);
    for part in parts {
        out.push(formula(alloc, net, part)?)?;
    }
    Ok(out)
}
