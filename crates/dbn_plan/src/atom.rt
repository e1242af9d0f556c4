ghost use Rattle.std.specs.Prelude.{◌≡◌, ◌<◌, length, IfOk};
ghost use Rattle.dbn_formula.specs.declared.formula.Formula.{Formula};
ghost use Rattle.dbn_plan.specs.Meaning.{vars_of};
ghost use Rattle.dbn_plan.specs.Making.{IsOpen, Placed, AreSources, IsReady, Made};

use super::columns::tests_of;
use super::context::Context;
use super::sources::{Sources, scan_of};
use super::steps::{joined, nothing, selected};
use dbn_network::Network;
use dbn_value::{Coder, CopyIn, Terms};
use std::alloc::{AllocError, Global};

/// The rows of the context with those of the relation that the atom names. A relation that isn't there has no rows.
pub(crate) fn atom<P: Coder>(
    alloc: Global,
    rel: usize,
    terms: &Terms,
    at: &Context,
    sources: &Sources,
    coder: &P,
    network: &mut Network<P::Cell>,
) -> Result<Context, AllocError>
    requires open { IsOpen network.old }
    requires placed { Placed network.old at.now.node at.now.labels }
    requires sources { AreSources network.old sources.now }
    requires ready { IsReady (P.cell_of coder.now) network.old.rels (vars_of at.now.labels) (Formula.Atom rel terms.now) }
    ensures { IfOk result (λ b. Made P.Cell.cmp P.Cell.int_of (P.cell_of coder.now) sources.now.consts (Formula.Atom rel terms.now) network.old network.new at.now.node at.now.labels b.node b.labels) }
{
    if rel < network.rels().len() {
        return atom_there(alloc, rel, terms, at, sources, coder, network);
    }
    let node = nothing(alloc, at, network)?;
    let labels = at.labels.copy_in(alloc)?;
    Ok(Context { node, labels })
}

/// The same of a relation that is there: the tests of its terms stand right behind its scan.
fn atom_there<P: Coder>(
    alloc: Global,
    rel: usize,
    terms: &Terms,
    at: &Context,
    sources: &Sources,
    coder: &P,
    network: &mut Network<P::Cell>,
) -> Result<Context, AllocError>
    requires open { IsOpen network.old }
    requires placed { Placed network.old at.now.node at.now.labels }
    requires sources { AreSources network.old sources.now }
    requires range { rel < length network.old.rels }
    requires ready { IsReady (P.cell_of coder.now) network.old.rels (vars_of at.now.labels) (Formula.Atom rel terms.now) }
    ensures { IfOk result (λ b. Made P.Cell.cmp P.Cell.int_of (P.cell_of coder.now) sources.now.consts (Formula.Atom rel terms.now) network.old network.new at.now.node at.now.labels b.node b.labels) }
{
    let scan = scan_of(alloc, rel, sources, network)?;
    let tests = tests_of(alloc, terms.as_slice(), coder)?;
    let from = selected(alloc, scan, tests, network)?;
    let made = joined(alloc, at, from, terms, sources, network)?;
    Ok(made)
}
