ghost use Rattle.std.specs.Prelude.{◌≡◌, IfOk};

use super::formula::{Formula, Formulas};
use dbn_value::CopyIn;
use sqlite_items::{Boxed, Items};
use std::alloc::{AllocError, Global};

impl CopyIn for Formula {
    #[cycle(copied)]
    fn copy_in(&self, alloc: Global) -> Result<Formula, AllocError> {
        match self {
            Formula::Atom { rel, terms } => {
                let terms = terms.copy_in(alloc)?;
                Ok(Formula::Atom { rel: *rel, terms })
            }
            Formula::Test { cmp, left, right } => {
                let left = left.copy_in(alloc)?;
                let right = right.copy_in(alloc)?;
                Ok(Formula::Test {
                    cmp: *cmp,
                    left,
                    right,
                })
            }
            Formula::And(parts) => Ok(Formula::And(each_copied(alloc, parts.as_slice())?)),
            Formula::Or(parts) => Ok(Formula::Or(each_copied(alloc, parts.as_slice())?)),
            Formula::Not(part) => Ok(Formula::Not(Boxed::new(alloc, part.get().copy_in(alloc)?)?)),
            Formula::Implies(left, right) => {
                let left = Boxed::new(alloc, left.get().copy_in(alloc)?)?;
                let right = Boxed::new(alloc, right.get().copy_in(alloc)?)?;
                Ok(Formula::Implies(left, right))
            }
            Formula::Exists { vars, body } => {
                let vars = vars.copy_in(alloc)?;
                let body = Boxed::new(alloc, body.get().copy_in(alloc)?)?;
                Ok(Formula::Exists { vars, body })
            }
            Formula::Forall { vars, body } => {
                let vars = vars.copy_in(alloc)?;
                let body = Boxed::new(alloc, body.get().copy_in(alloc)?)?;
                Ok(Formula::Forall { vars, body })
            }
        }
    }
}

#[cycle(copied)]
fn each_copied(alloc: Global, parts: &[Formula]) -> Result<Formulas, AllocError>
    ensures { IfOk result (λ copies. copies ≡ parts.now) }
{
    let mut copies = Items::new(alloc);
    for part in parts {
        copies.push(part.copy_in(alloc)?)?;
    }
    Ok(copies)
}
