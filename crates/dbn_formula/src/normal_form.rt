ghost use Rattle.std.specs.Prelude.{◌≡◌, [], ◌∷◌, map, if◌then◌else◌, IfOk};
ghost use Rattle.dbn_formula.specs.Normal.{denied_cmp, normal_at, normal};

use super::formula::{Formula, Formulas};
use dbn_value::{Cmp, CopyIn, TypedVars};
use sqlite_items::{Boxed, Items};
use std::alloc::{AllocError, Global};

/// The normal form of the formula: no `Implies` and no `Forall`, and `Not` only before an atom or an `Exists`. An error is want of memory.
pub fn normal(alloc: Global, f: &Formula) -> Result<Formula, AllocError>
    ensures { IfOk result (λ g. g ≡ normal f.now) }
{
    normal_at(alloc, f, true)
}

/// The normal form of the formula's negation. An error is want of memory.
#[tactic(auto, using(crate::proofs::NormalLaws::normal_laws, crate::proofs::NormalLaws::either_laws))]
pub fn normal_denied(alloc: Global, f: &Formula) -> Result<Formula, AllocError>
    ensures { IfOk result (λ g. g ≡ normal (Formula.Not f.now)) }
{
    normal_at(alloc, f, false)
}

/// The normal form of the formula, or of its negation.
#[cycle(normal)]
#[tactic(auto, using(crate::proofs::NormalLaws::normal_laws, crate::proofs::NormalLaws::either_laws))]
fn normal_at(alloc: Global, f: &Formula, keep: bool) -> Result<Formula, AllocError>
    ensures { IfOk result (λ g. g ≡ normal_at f.now keep) }
{
    match f {
        Formula::Atom { rel, terms } => {
            let terms = terms.copy_in(alloc)?;
            let atom = Formula::Atom { rel: *rel, terms };
            if keep { Ok(atom) } else { denial(alloc, atom) }
        }
        Formula::Test { cmp, left, right } => {
            let left = left.copy_in(alloc)?;
            let right = right.copy_in(alloc)?;
            let cmp = if keep { *cmp } else { denied(*cmp) };
            Ok(Formula::Test { cmp, left, right })
        }
        Formula::And(parts) => Ok(joined(each_normal(alloc, parts.as_slice(), keep)?, keep)),
        Formula::Or(parts) => Ok(joined(each_normal(alloc, parts.as_slice(), keep)?, !keep)),
        Formula::Not(part) => normal_at(alloc, part.get(), !keep),
        Formula::Implies(left, right) => {
            let left = normal_at(alloc, left.get(), !keep)?;
            let right = normal_at(alloc, right.get(), keep)?;
            Ok(joined(pair(alloc, left, right)?, !keep))
        }
        Formula::Exists { vars, body } => {
            let body = normal_at(alloc, body.get(), true)?;
            let some = choice(alloc, vars, body)?;
            if keep { Ok(some) } else { denial(alloc, some) }
        }
        Formula::Forall { vars, body } => {
            let body = normal_at(alloc, body.get(), false)?;
            let some = choice(alloc, vars, body)?;
            if keep { denial(alloc, some) } else { Ok(some) }
        }
    }
}

#[cycle(normal)]
fn each_normal(alloc: Global, parts: &[Formula], keep: bool) -> Result<Formulas, AllocError>
    ensures { IfOk result (λ made. made ≡ map (λ f. normal_at f keep) parts.now) }
{
    let mut made = Items::new(alloc);
    for part in parts {
        made.push(normal_at(alloc, part, keep)?)?;
    }
    Ok(made)
}

/// The conjunction of the parts, or their disjunction.
fn joined(parts: Formulas, every: bool) -> Formula
    ensures { result ≡ (if every then Formula.And parts else Formula.Or parts) }
{
    if every {
        Formula::And(parts)
    } else {
        Formula::Or(parts)
    }
}

/// The comparison that holds exactly where the other doesn't.
fn denied(cmp: Cmp) -> Cmp
    ensures { result ≡ denied_cmp cmp }
{
    match cmp {
        Cmp::Eq => Cmp::Ne,
        Cmp::Ne => Cmp::Eq,
        Cmp::Lt => Cmp::Ge,
        Cmp::Le => Cmp::Gt,
        Cmp::Gt => Cmp::Le,
        Cmp::Ge => Cmp::Lt,
    }
}

/// The negation of the formula.
pub(crate) fn denial(alloc: Global, f: Formula) -> Result<Formula, AllocError>
    ensures { IfOk result (λ g. g ≡ Formula.Not f) }
{
    Ok(Formula::Not(Boxed::new(alloc, f)?))
}

/// The formula under `Exists` over these variables.
pub(crate) fn choice(alloc: Global, vars: &TypedVars, body: Formula) -> Result<Formula, AllocError>
    ensures { IfOk result (λ g. g ≡ Formula.Exists vars.now body) }
{
    let vars = vars.copy_in(alloc)?;
    let body = Boxed::new(alloc, body)?;
    Ok(Formula::Exists { vars, body })
}

fn pair(alloc: Global, left: Formula, right: Formula) -> Result<Formulas, AllocError>
    ensures { IfOk result (λ parts. parts ≡ left ∷ right ∷ []) }
{
    let mut parts = Items::new(alloc);
    parts.push(left)?;
    parts.push(right)?;
    Ok(parts)
}
