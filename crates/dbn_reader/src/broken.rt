//! Sentences that the initial facts don't meet.

ghost use Rattle.std.specs.Prelude.{◌≡◌, IfOk};
ghost use Rattle.std.specs.List.{zip};
ghost use Rattle.dbn_formula.specs.Solutions.{HasShapes};
ghost use Rattle.dbn_net.specs.Tables.{relation_shapes};
ghost use Rattle.dbn_net.specs.Sentences.{sentences};
ghost use Rattle.dbn_net.specs.Texts.{first_broken};

use dbn_instance::Instance;
use dbn_net::{Net, violations};
use dbn_scratch::holds;
use dbn_value::Value;
use std::alloc::{AllocError, Global};

/// The line of the first sentence of the net that doesn't hold over the facts, if there is one. The lines are those of the
/// sentences, in order. An error is want of memory.
pub(crate) fn first_broken(
    alloc: Global,
    net: &Net,
    lines: &[u64],
    facts: &Instance<Value>,
) -> Result<Option<u64>, AllocError>
    requires { HasShapes (relation_shapes net.now) facts.now }
    ensures { IfOk result (λ found. found ≡ first_broken facts.now (zip lines.now (sentences net.now))) }
{
    let _net = net.decls();
    for (line, violation) in lines.iter().zip(violations(net).as_slice()) {
        if holds(alloc, &violation.item, facts)? {
            return Ok(Some(*line));
        }
    }
    Ok(None)
}
