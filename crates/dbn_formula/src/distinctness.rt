ghost use Rattle.std.specs.Prelude.{◌≡◌, IfOk};
ghost use Rattle.std.specs.List.{list_all};
ghost use Rattle.dbn_formula.specs.Distinct.{distinct_vars, distinct};

use super::formula::Formula;
use dbn_value::{ColType, Var};
use std::alloc::{AllocError, Global};
use std::collections::BTreeSet;

/// Whether every quantifier of the formula names each of its variables once. An error is want of memory.
#[cycle(distinct)]
#[tactic(auto, using(crate::proofs::DistinctLaws::distinct_laws))]
pub fn distinct(alloc: Global, f: &Formula) -> Result<bool, AllocError>
    ensures { IfOk result (λ once. once ≡ distinct f.now) }
{
    match f {
        Formula::Atom { .. } => Ok(true),
        Formula::Test { .. } => Ok(true),
        Formula::And(parts) => each_distinct(alloc, parts.as_slice()),
        Formula::Or(parts) => each_distinct(alloc, parts.as_slice()),
        Formula::Not(part) => distinct(alloc, part.get()),
        Formula::Implies(left, right) => {
            if !distinct(alloc, left.get())? {
                return Ok(false);
            }
            distinct(alloc, right.get())
        }
        Formula::Exists { vars, body } => {
            if !distinct_vars(alloc, vars.as_slice())? {
                return Ok(false);
            }
            distinct(alloc, body.get())
        }
        Formula::Forall { vars, body } => {
            if !distinct_vars(alloc, vars.as_slice())? {
                return Ok(false);
            }
            distinct(alloc, body.get())
        }
    }
}

#[cycle(distinct)]
fn each_distinct(alloc: Global, parts: &[Formula]) -> Result<bool, AllocError>
    ensures { IfOk result (λ once. once ≡ list_all distinct parts.now) }
{
    for part in parts {
        if !distinct(alloc, part)? {
            return Ok(false);
        }
    }
    Ok(true)
}

/// Whether no variable stands twice in the list. An error is want of memory.
pub fn distinct_vars(alloc: Global, vars: &[(Var, ColType)]) -> Result<bool, AllocError>
    ensures { IfOk result (λ once. once ≡ distinct_vars vars.now) }
{
    let mut seen = BTreeSet::new(alloc);
    for var in vars {
        if !seen.insert(&var.0)? {
            return Ok(false);
        }
    }
    Ok(true)
}
