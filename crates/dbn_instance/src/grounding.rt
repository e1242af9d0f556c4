ghost use Rattle.std.specs.Prelude.{◌≡◌, IfOk};
ghost use Rattle.dbn_instance.specs.Grounding.{grounded};

use super::fact::{Fact, FactPattern, FactPatterns, Facts};
use dbn_value::{ColType, Row, TypedVars, Value, Var, row_of};
use sqlite_items::Items;
use std::alloc::{AllocError, Global};

/// The facts of the patterns, in their order, with the arguments in the place of the parameters.
/// A variable that is no parameter stands for the int 0; of a parameter that stands twice the last argument counts.
/// An error is want of memory.
pub fn ground(
    alloc: Global,
    patterns: &FactPatterns,
    params: &TypedVars,
    args: &Row<Value>,
) -> Result<Facts<Value>, AllocError>
    ensures { IfOk result (λ facts. facts ≡ grounded params.now args.now patterns.now) }
{
    ground_all(alloc, patterns.as_slice(), params.as_slice(), args)
}

/// The same, of slices.
fn ground_all(
    alloc: Global,
    patterns: &[FactPattern],
    params: &[(Var, ColType)],
    args: &Row<Value>,
) -> Result<Facts<Value>, AllocError>
    ensures { IfOk result (λ facts. facts ≡ grounded params.now args.now patterns.now) }
{
    let mut facts = Items::new(alloc);
    for pattern in patterns {
        let row = row_of(alloc, pattern.terms.as_slice(), params, args)?;
        facts.push(Fact {
            rel: pattern.rel,
            row,
        })?;
    }
    Ok(facts)
}
