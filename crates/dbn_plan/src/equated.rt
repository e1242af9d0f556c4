ghost use Rattle.std.specs.Prelude.{◌≡◌, ◌<◌, ◌∷◌, [], true, take, length, IfOk, IfSome, IfNone, Some, slice_get};
ghost use Rattle.std.specs.List.{list_all, flat_map};
ghost use Rattle.dbn_value.specs.declared.term.Term.{Term as OfTerm};
ghost use Rattle.dbn_value.specs.declared.term.Cmp.TheVariants as cmp;
ghost use Rattle.dbn_formula.specs.Answers.{constants};
ghost use Rattle.dbn_formula.specs.Typing.{arity_fits};
ghost use Rattle.dbn_formula.specs.declared.formula.Formula.{Formula};
ghost use Rattle.dbn_plan.specs.Columns.{HaveCells};
ghost use Rattle.dbn_plan.specs.Making.{IsOpen, Placed, AreSources};
ghost use Rattle.dbn_plan.specs.Equated.{PairFor, JoinedBy, AllMade};

use super::columns::{pairs_of, position_of, tests_of};
use super::context::Context;
use super::sources::{Sources, scan_of};
use super::steps::selected;
use dbn_formula::Formula;
use dbn_network::Network;
use dbn_nodes::Node;
use dbn_value::{Cell, Cmp, Coder, CopyIn, Term, Terms};
use std::alloc::{AllocError, Global};

/// The column of the labels and the position among the terms of two variables.
fn pair_at(labels: &[Term], known: &Term, terms: &[Term], other: &Term) -> Option<(usize, usize)>
    ensures { IfSome result (λ pair. (slice_get labels.now pair.0 ≡ Some known.now) × (slice_get terms.now pair.1 ≡ Some other.now)) }
{
    if let Term::Var(x) = known {
        if let Term::Var(y) = other {
            if let Some(column) = position_of(labels, x) {
                if let Some(place) = position_of(terms, y) {
                    return Some((column, place));
                }
            }
        }
    }
    None
}

/// The columns that an equation makes equal: that of its one side among the labels, and that of the other among the terms.
fn pair_between(
    labels: &[Term],
    left: &Term,
    right: &Term,
    terms: &[Term],
) -> Option<(usize, usize)>
    ensures { IfSome result (λ pair. PairFor labels.now terms.now left.now right.now pair) }
{
    if let Some(pair) = pair_at(labels, left, terms, right) {
        return Some(pair);
    }
    pair_at(labels, right, terms, left)
}

/// The join of the context with the other node, on all variables that both have and on these two columns.
fn joined_by<C: Cell>(
    alloc: Global,
    pair: (usize, usize),
    at: &Context,
    other: usize,
    others: &Terms,
    network: &mut Network<C>,
) -> Result<Context, AllocError>
    requires open { IsOpen network.old }
    requires placed { Placed network.old at.now.node at.now.labels }
    requires other { Placed network.old other others.now }
    requires left { pair.0 < length at.now.labels }
    requires right { pair.1 < length others.now }
    ensures { IfOk result (λ b. JoinedBy C.cmp C.int_of network.old network.new at.now.node at.now.labels other others.now pair b.node b.labels) }
{
    let mut on = pairs_of(alloc, at.labels.as_slice(), others.as_slice())?;
    on.push(pair)?;
    let mut labels = at.labels.copy_in(alloc)?;
    labels.append(others.copy_in(alloc)?)?;
    let node = network.add(
        alloc,
        Node::Join {
            left: at.node,
            right: other,
            on,
        },
    )?;
    Ok(Context { node, labels })
}

/// The rows of the context with those of the relation that the atom names, where the two columns are the same.
fn atom_where<P: Coder>(
    alloc: Global,
    rel: usize,
    terms: &Terms,
    pair: (usize, usize),
    at: &Context,
    sources: &Sources,
    coder: &P,
    network: &mut Network<P::Cell>,
) -> Result<Context, AllocError>
    requires open { IsOpen network.old }
    requires placed { Placed network.old at.now.node at.now.labels }
    requires sources { AreSources network.old sources.now }
    requires range { rel < length network.old.rels }
    requires arity { arity_fits network.old.rels (Formula.Atom rel terms.now) ≡ true }
    requires cells { HaveCells (P.cell_of coder.now) (constants (Formula.Atom rel terms.now)) }
    requires left { pair.0 < length at.now.labels }
    requires right { pair.1 < length terms.now }
    ensures { IfOk result (λ b. (left right : OfTerm) → PairFor at.now.labels terms.now left right pair → AllMade P.Cell.cmp P.Cell.int_of (P.cell_of coder.now) sources.now.consts (Formula.Test cmp.Eq left right ∷ Formula.Atom rel terms.now ∷ []) network.old network.new at.now.node at.now.labels b.node b.labels) }
{
    let scan = scan_of(alloc, rel, sources, network)?;
    let tests = tests_of(alloc, terms.as_slice(), coder)?;
    let from = selected(alloc, scan, tests, network)?;
    let made = joined_by(alloc, pair, at, from, terms, network)?;
    Ok(made)
}

/// The join for the first two parts, where they are an equation and the atom that has its other side: no column is added.
pub(crate) fn equated_atom<P: Coder>(
    alloc: Global,
    parts: &[Formula],
    at: &Context,
    sources: &Sources,
    coder: &P,
    network: &mut Network<P::Cell>,
) -> Result<Option<Context>, AllocError>
    requires open { IsOpen network.old }
    requires placed { Placed network.old at.now.node at.now.labels }
    requires sources { AreSources network.old sources.now }
    requires arity { list_all (arity_fits network.old.rels) parts.now ≡ true }
    requires cells { HaveCells (P.cell_of coder.now) (flat_map constants parts.now) }
    ensures none { IfOk result (λ made. IfNone made (network.new ≡ network.old)) }
    ensures some { IfOk result (λ made. IfSome made (λ b. (1 < length parts.now) × AllMade P.Cell.cmp P.Cell.int_of (P.cell_of coder.now) sources.now.consts (take 2 parts.now) network.old network.new at.now.node at.now.labels b.node b.labels)) }
{
    if parts.len() < 2 {
        return Ok(None);
    }
    if let Formula::Test { cmp, left, right } = &parts[0] {
        if let Cmp::Eq = *cmp {
            if let Formula::Atom { rel, terms } = &parts[1] {
                if *rel < network.rels().len() {
                    if let Some(pair) = pair_between(
                        at.labels.as_slice(),
                        left,
                        right,
                        terms.as_slice(),
                    ) {
                        let made = atom_where(
                            alloc, *rel, terms, pair, at, sources, coder, network,
                        )?;
                        return Ok(Some(made));
                    }
                }
            }
        }
    }
    Ok(None)
}
