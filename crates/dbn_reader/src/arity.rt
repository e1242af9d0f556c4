//! The test of numbers of terms, arguments and values.

ghost use Rattle.std.specs.Prelude.{◌≡◌, IfOk};
ghost use Rattle.dbn_net.specs.Judging.{has_arity};

use super::numbers::columns;
use super::terms::{TermTest, action_passes, transition_passes};
use dbn_formula::arity_fits;
use dbn_net::{Decl, Entry, Net};
use std::alloc::{AllocError, Global};

/// Whether there are as many terms, arguments and values as were declared, and both lists of a foreign key are equally long.
/// An error is want of memory.
pub(crate) fn has_arity(alloc: Global, net: &Net, entry: &Entry) -> Result<bool, AllocError>
    ensures { IfOk result (λ ok. ok ≡ has_arity net.now entry.now) }
{
    match entry {
        Entry::Part(decl) => part_has_arity(alloc, net, decl),
        Entry::Fact { rel, row } => {
            let shape = columns(net.rel_shapes(), *rel);
            Ok(row.len() == shape.len())
        }
        Entry::Tokens {
            place,
            many: _,
            row,
        } => {
            let shape = columns(net.place_shapes(), *place);
            Ok(row.len() == shape.len())
        }
    }
}

/// The same of a declaration of the net.
fn part_has_arity(alloc: Global, net: &Net, decl: &Decl) -> Result<bool, AllocError>
    ensures { IfOk result (λ ok. ok ≡ has_arity net.now (Entry.Part decl.now)) }
{
    match decl {
        Decl::Relation { .. } | Decl::Key { .. } | Decl::Site(_) => Ok(true),
        Decl::Foreign {
            rel: _,
            fields,
            to: _,
            to_fields,
        } => Ok(fields.as_slice().len() == to_fields.as_slice().len()),
        Decl::Always { name: _, body } => Ok(arity_fits(body, net.rel_shapes())),
        Decl::Query {
            name: _,
            vars: _,
            body,
        } => Ok(arity_fits(body, net.rel_shapes())),
        Decl::Act(action) => Ok(action_passes(TermTest::AsMany, net, action)),
        Decl::Trans(transition) => transition_passes(alloc, net, TermTest::AsMany, transition),
    }
}
