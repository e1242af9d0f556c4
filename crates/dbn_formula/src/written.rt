ghost use Rattle.std.specs.Prelude.{◌≡◌, ◌++◌, ◌==◌, nat_le, IfOk, OnOk};
ghost use Rattle.std.specs.List.{flat_map, list_all};
ghost use Rattle.dbn_formula.specs.Answers.{constant_of, constants};
ghost use Rattle.dbn_formula.specs.Free.{variable_of};
ghost use Rattle.dbn_formula.specs.Written.{written, of_first, depth_of};

use super::formula::Formula;
use dbn_value::{ColType, CopyIn, Term, Value, Var};
use sqlite_items::Items;
use std::alloc::{AllocError, Global};

/// The values that the formula writes, in reading order, as often as they stand there. An error is want of memory.
pub fn constants(alloc: Global, f: &Formula) -> Result<Items<Value>, AllocError>
    ensures { IfOk result (λ values. values ≡ constants f.now) }
{
    let mut found = Items::new(alloc);
    add_constants(alloc, &mut found, f)?;
    Ok(found)
}

/// Appends the values that the formula writes.
#[cycle(constants)]
#[tactic(auto, using(crate::proofs::ConstantsLaws::constants_laws, crate::proofs::FreeLaws::joining))]
fn add_constants(alloc: Global, out: &mut Items<Value>, f: &Formula) -> Result<(), AllocError>
    ensures { OnOk result (out.new ≡ out.old ++ constants f.now) }
{
    match f {
        Formula::Atom { rel: _, terms } => add_constants_of_terms(alloc, out, terms.as_slice()),
        Formula::Test {
            cmp: _,
            left,
            right,
        } => {
            add_constant(alloc, out, left)?;
            add_constant(alloc, out, right)
        }
        Formula::And(parts) => add_each(alloc, out, parts.as_slice()),
        Formula::Or(parts) => add_each(alloc, out, parts.as_slice()),
        Formula::Not(part) => add_constants(alloc, out, part.get()),
        Formula::Implies(left, right) => {
            add_constants(alloc, out, left.get())?;
            add_constants(alloc, out, right.get())
        }
        Formula::Exists { vars: _, body } => add_constants(alloc, out, body.get()),
        Formula::Forall { vars: _, body } => add_constants(alloc, out, body.get()),
    }
}

#[cycle(constants)]
fn add_each(alloc: Global, out: &mut Items<Value>, parts: &[Formula]) -> Result<(), AllocError>
    ensures { OnOk result (out.new ≡ out.old ++ flat_map constants parts.now) }
{
    for part in parts {
        add_constants(alloc, out, part)?;
    }
    Ok(())
}

/// Appends the value, if the term is one.
fn add_constant(alloc: Global, out: &mut Items<Value>, term: &Term) -> Result<(), AllocError>
    ensures { OnOk result (out.new ≡ out.old ++ constant_of term.now) }
{
    match term {
        Term::Var(_) => Ok(()),
        Term::Const(value) => out.push(value.copy_in(alloc)?),
    }
}

fn add_constants_of_terms(
    alloc: Global,
    out: &mut Items<Value>,
    terms: &[Term],
) -> Result<(), AllocError>
    ensures { OnOk result (out.new ≡ out.old ++ flat_map constant_of terms.now) }
{
    for term in terms {
        add_constant(alloc, out, term)?;
    }
    Ok(())
}

/// Whether the text of the formula nests parentheses no deeper than this: an atom or a comparison stands between one pair,
/// and a quantifier nests two for its variables. This takes no memory.
#[cycle(depth)]
#[tactic(auto, using(crate::proofs::WrittenTests::depth_tests))]
pub fn nests_within(f: &Formula, most: usize) -> bool
    ensures { result ≡ nat_le (depth_of f.now) most }
{
    match f {
        Formula::Atom { .. } => 0 < most,
        Formula::Test { .. } => 0 < most,
        Formula::And(parts) => 0 < most && each_nests_within(parts.as_slice(), most - 1),
        Formula::Or(parts) => 0 < most && each_nests_within(parts.as_slice(), most - 1),
        Formula::Not(part) => 0 < most && nests_within(part.get(), most - 1),
        Formula::Implies(left, right) => 0 < most
            && nests_within(left.get(), most - 1)
            && nests_within(right.get(), most - 1),
        Formula::Exists { vars: _, body } => 2 < most && nests_within(body.get(), most - 1),
        Formula::Forall { vars: _, body } => 2 < most && nests_within(body.get(), most - 1),
    }
}

#[cycle(depth)]
fn each_nests_within(parts: &[Formula], most: usize) -> bool
    ensures { result ≡ list_all (λ f. nat_le (depth_of f) most) parts.now }
{
    for part in parts {
        if !nests_within(part, most) {
            return false;
        }
    }
    true
}

/// Whether each atom is of one of the first `count` relations. This takes no memory.
#[cycle(relations)]
#[tactic(auto, using(crate::proofs::WrittenTests::relations_tests))]
pub fn relations_below(f: &Formula, count: usize) -> bool
    ensures { result ≡ of_first count f.now }
{
    match f {
        Formula::Atom { rel, terms: _ } => *rel < count,
        Formula::Test { .. } => true,
        Formula::And(parts) => each_relations_below(parts.as_slice(), count),
        Formula::Or(parts) => each_relations_below(parts.as_slice(), count),
        Formula::Not(part) => relations_below(part.get(), count),
        Formula::Implies(left, right) => relations_below(left.get(), count)
            && relations_below(right.get(), count),
        Formula::Exists { vars: _, body } => relations_below(body.get(), count),
        Formula::Forall { vars: _, body } => relations_below(body.get(), count),
    }
}

#[cycle(relations)]
fn each_relations_below(parts: &[Formula], count: usize) -> bool
    ensures { result ≡ list_all (of_first count) parts.now }
{
    for part in parts {
        if !relations_below(part, count) {
            return false;
        }
    }
    true
}

/// Whether every variable that the formula writes, quantified or not, has the mark 0, as in the text of a net. This takes no memory.
#[cycle(unmarked)]
#[tactic(auto, using(crate::proofs::WrittenTests::unmarked_tests))]
pub fn is_unmarked(f: &Formula) -> bool
    ensures { result ≡ list_all (λ x. x.mark == 0) (written f.now) }
{
    match f {
        Formula::Atom { rel: _, terms } => terms_unmarked(terms.as_slice()),
        Formula::Test {
            cmp: _,
            left,
            right,
        } => term_unmarked(left) && term_unmarked(right),
        Formula::And(parts) => each_unmarked(parts.as_slice()),
        Formula::Or(parts) => each_unmarked(parts.as_slice()),
        Formula::Not(part) => is_unmarked(part.get()),
        Formula::Implies(left, right) => is_unmarked(left.get()) && is_unmarked(right.get()),
        Formula::Exists { vars, body } => vars_unmarked(vars.as_slice()) && is_unmarked(body.get()),
        Formula::Forall { vars, body } => vars_unmarked(vars.as_slice()) && is_unmarked(body.get()),
    }
}

#[cycle(unmarked)]
fn each_unmarked(parts: &[Formula]) -> bool
    ensures { result ≡ list_all (λ f. list_all (λ x. x.mark == 0) (written f)) parts.now }
{
    for part in parts {
        if !is_unmarked(part) {
            return false;
        }
    }
    true
}

fn term_unmarked(term: &Term) -> bool
    ensures { result ≡ list_all (λ x. x.mark == 0) (variable_of term.now) }
{
    match term {
        Term::Var(var) => var.mark == 0,
        Term::Const(_) => true,
    }
}

fn terms_unmarked(terms: &[Term]) -> bool
    ensures { result ≡ list_all (λ a. list_all (λ x. x.mark == 0) (variable_of a)) terms.now }
{
    terms.iter().all(|term| term_unmarked(term))
}

fn vars_unmarked(vars: &[(Var, ColType)]) -> bool
    ensures { result ≡ list_all (λ x. x.0.mark == 0) vars.now }
{
    vars.iter().all(|var| var.0.mark == 0)
}
