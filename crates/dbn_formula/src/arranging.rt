ghost use Rattle.std.specs.Prelude.{◌≡◌, ◌++◌, map, length, IfOk, OnOk};
ghost use Rattle.dbn_formula.specs.Safe.{outside, arranged};
ghost use Rattle.dbn_formula.specs.Conjuncts.{order, arranged_along};

use super::formula::{Formula, Formulas};
use super::normal_form::{choice, denial};
use super::safety::{hides_bound, in_turns, outside};
use super::var_list::{VarList, list_of};
use super::variables::bind;
use dbn_value::{ColType, CopyIn, TypedVars, Var, Vars};
use sqlite_items::{Boxed, Items};
use std::alloc::{AllocError, Global};

/// The formula with the parts of each `And` in the order in which the safety test takes them where these variables are bound:
/// each time the first one that is safe for what is bound so far.
///
/// Where no part that is left is safe, these follow as they stand. The meaning stays the same. An error is want of memory.
pub fn arrange(alloc: Global, f: &Formula, bound: &Vars) -> Result<Formula, AllocError>
    ensures { IfOk result (λ g. g ≡ arranged f.now bound.now) }
{
    let bound = list_of(alloc, bound.as_slice())?;
    arranged_at(alloc, f, &bound)
}

#[cycle(arranged)]
#[tactic(auto, using(crate::proofs::SafeLaws::safe_laws, crate::proofs::OrderOfParts::order_is, crate::proofs::Weights::weight_laws))]
fn arranged_at(alloc: Global, f: &Formula, bound: &VarList) -> Result<Formula, AllocError>
    ensures { IfOk result (λ g. g ≡ arranged f.now bound.now) }
{
    match f {
        Formula::Atom { .. } => f.copy_in(alloc),
        Formula::Test { .. } => f.copy_in(alloc),
        Formula::And(parts) => Ok(Formula::And(in_order(alloc, parts.as_slice(), bound)?)),
        Formula::Or(parts) => {
            let mut made = Items::new(alloc);
            add_arranged(alloc, &mut made, parts.as_slice(), bound)?;
            Ok(Formula::Or(made))
        }
        Formula::Not(part) => denial(alloc, arranged_at(alloc, part.get(), bound)?),
        Formula::Implies(left, right) => {
            let left = arranged_at(alloc, left.get(), bound)?;
            let right = arranged_at(alloc, right.get(), bound)?;
            implication(alloc, left, right)
        }
        Formula::Exists { vars, body } => {
            let body = arranged_inside(alloc, vars.as_slice(), body.get(), bound)?;
            choice(alloc, vars, body)
        }
        Formula::Forall { vars, body } => {
            let body = arranged_inside(alloc, vars.as_slice(), body.get(), bound)?;
            generality(alloc, vars, body)
        }
    }
}

/// Arranges a formula inside a quantifier. What is bound is copied only where the quantifier hides some of it.
#[cycle(arranged)]
fn arranged_inside(
    alloc: Global,
    vars: &[(Var, ColType)],
    body: &Formula,
    bound: &VarList,
) -> Result<Formula, AllocError>
    ensures { IfOk result (λ g. g ≡ arranged body.now (outside vars.now bound.now)) }
{
    if hides_bound(vars, bound) {
        let outside = outside(alloc, vars, bound)?;
        return arranged_at(alloc, body, &outside);
    }
    arranged_at(alloc, body, bound)
}

/// Appends each part, arranged, as they stand.
#[cycle(arranged)]
#[tactic(auto, using(crate::proofs::FreeLaws::joining))]
fn add_arranged(
    alloc: Global,
    out: &mut Formulas,
    parts: &[Formula],
    bound: &VarList,
) -> Result<(), AllocError>
    ensures { OnOk result (out.new ≡ out.old ++ map (λ g. arranged g bound.now) parts.now) }
{
    for part in parts {
        out.push(arranged_at(alloc, part, bound)?)?;
    }
    Ok(())
}

/// The parts, arranged, in the order in which the safety test takes them.
#[cycle(arranged)]
fn in_order(alloc: Global, parts: &[Formula], bound: &VarList) -> Result<Formulas, AllocError>
    ensures { IfOk result (λ made. made ≡ order (length parts.now) parts.now bound.now) }
{
    let turns = in_turns(alloc, parts, bound)?;
    let mut made = Items::new(alloc);
    add_in_turns(
        alloc,
        &mut made,
        turns.taken.as_slice(),
        turns.waiting.as_slice(),
        bound,
    )?;
    Ok(made)
}

/// Appends the taken parts, each arranged for what is bound before it, and then those that wait, for all that is bound.
#[cycle(arranged)]
fn add_in_turns(
    alloc: Global,
    out: &mut Formulas,
    taken: &[&Formula],
    waiting: &[&Formula],
    bound: &VarList,
) -> Result<(), AllocError>
    ensures { OnOk result (out.new ≡ out.old ++ arranged_along (map (λ f. f.now) taken.now) (map (λ f. f.now) waiting.now) bound.now) }
{
    let mut bound = bound.copy_in(alloc)?;
    for part in taken {
        out.push(arranged_at(alloc, *part, &bound)?)?;
        bind(alloc, &mut bound, *part)?;
    }
    add_waiting(alloc, out, waiting, &bound)
}

/// Appends each part, arranged, as they stand.
#[cycle(arranged)]
#[tactic(auto, using(crate::proofs::FreeLaws::joining))]
fn add_waiting(
    alloc: Global,
    out: &mut Formulas,
    parts: &[&Formula],
    bound: &VarList,
) -> Result<(), AllocError>
    ensures { OnOk result (out.new ≡ out.old ++ map (λ g. arranged g.now bound.now) parts.now) }
{
    for part in parts {
        out.push(arranged_at(alloc, *part, bound)?)?;
    }
    Ok(())
}

fn implication(alloc: Global, left: Formula, right: Formula) -> Result<Formula, AllocError>
    ensures { IfOk result (λ g. g ≡ Formula.Implies left right) }
{
    let left = Boxed::new(alloc, left)?;
    let right = Boxed::new(alloc, right)?;
    Ok(Formula::Implies(left, right))
}

fn generality(alloc: Global, vars: &TypedVars, body: Formula) -> Result<Formula, AllocError>
    ensures { IfOk result (λ g. g ≡ Formula.Forall vars.now body) }
{
    let vars = vars.copy_in(alloc)?;
    let body = Boxed::new(alloc, body)?;
    Ok(Formula::Forall { vars, body })
}
