ghost use Rattle.std.specs.Prelude.{◌≡◌, ◌<◌, true, map, IfOk, [], ◌∷◌, length};
ghost use Rattle.std.specs.List.{flat_map};
ghost use Rattle.dbn_value.specs.Members.{In};
ghost use Rattle.dbn_formula.specs.Free.{occurrences};
ghost use Rattle.dbn_formula.specs.declared.formula.Formula.{Formula};
ghost use Rattle.dbn_plan.specs.Meaning.{vars_of};
ghost use Rattle.dbn_plan.specs.Making.{IsOpen, Placed, AreSources, IsReady, IsUnion, Made, SomeMade, WithVars};

use super::atom::atom;
use super::comparison::comparison;
use super::context::{Context, copy_context};
use super::equated::equated_atom;
use super::labels::{chosen_labels, labels_behind};
use super::room::with_room;
use super::sources::Sources;
use super::steps::{nothing, shown};
use dbn_formula::Formula;
use dbn_network::Network;
use dbn_nodes::Node;
use dbn_value::{Coder, CopyIn, Terms, TypedVars};
use std::alloc::{AllocError, Global};

/// The nodes of a formula behind a context: its rows that satisfy the formula, with columns for the variables of the formula.
#[cycle(compiled)]
pub(crate) fn compile_at<P: Coder>(
    alloc: Global,
    f: &Formula,
    at: &Context,
    sources: &Sources,
    coder: &P,
    network: &mut Network<P::Cell>,
) -> Result<Context, AllocError>
    requires open { IsOpen network.old }
    requires placed { Placed network.old at.now.node at.now.labels }
    requires sources { AreSources network.old sources.now }
    requires ready { IsReady (P.cell_of coder.now) network.old.rels (vars_of at.now.labels) f.now }
    ensures { IfOk result (λ b. Made P.Cell.cmp P.Cell.int_of (P.cell_of coder.now) sources.now.consts f.now network.old network.new at.now.node at.now.labels b.node b.labels) }
{
    match f {
        Formula::Atom { rel, terms } => atom(alloc, *rel, terms, at, sources, coder, network),
        Formula::Test { cmp, left, right } => comparison(
            alloc, *cmp, left, right, at, coder, network,
        ),
        Formula::And(parts) => all_parts(alloc, parts.as_slice(), at, sources, coder, network),
        Formula::Or(parts) => some_part(alloc, parts.as_slice(), at, sources, coder, network),
        Formula::Not(part) => denied(alloc, part.get(), at, sources, coder, network),
        Formula::Implies(_, _) => unreachable!(),
        Formula::Exists { vars, body } => {
            chosen(alloc, vars, body.get(), at, sources, coder, network)
        }
        Formula::Forall { .. } => unreachable!(),
    }
}

/// One part behind the other.
#[cycle(compiled)]
pub(crate) fn all_parts<P: Coder>(
    alloc: Global,
    parts: &[Formula],
    at: &Context,
    sources: &Sources,
    coder: &P,
    network: &mut Network<P::Cell>,
) -> Result<Context, AllocError>
    requires open { IsOpen network.old }
    requires placed { Placed network.old at.now.node at.now.labels }
    requires sources { AreSources network.old sources.now }
    requires ready { IsReady (P.cell_of coder.now) network.old.rels (vars_of at.now.labels) (Formula.And parts.now) }
    ensures { IfOk result (λ b. Made P.Cell.cmp P.Cell.int_of (P.cell_of coder.now) sources.now.consts (Formula.And parts.now) network.old network.new at.now.node at.now.labels b.node b.labels) }
{
    let mut now = copy_context(alloc, at)?;
    let mut done = 0;
    while done < parts.len() {
        match equated_atom(alloc, &parts[done..], &now, sources, coder, network)? {
            Some(next) => {
                now = next;
                done = done + 2;
            }
            None => {
                now = compile_at(alloc, &parts[done], &now, sources, coder, network)?;
                done = done + 1;
            }
        }
    }
    Ok(now)
}

/// The rows of the context for which the part doesn't hold.
#[cycle(compiled)]
fn denied<P: Coder>(
    alloc: Global,
    part: &Formula,
    at: &Context,
    sources: &Sources,
    coder: &P,
    network: &mut Network<P::Cell>,
) -> Result<Context, AllocError>
    requires open { IsOpen network.old }
    requires placed { Placed network.old at.now.node at.now.labels }
    requires sources { AreSources network.old sources.now }
    requires ready { IsReady (P.cell_of coder.now) network.old.rels (vars_of at.now.labels) (Formula.Not part.now) }
    ensures { IfOk result (λ b. Made P.Cell.cmp P.Cell.int_of (P.cell_of coder.now) sources.now.consts (Formula.Not part.now) network.old network.new at.now.node at.now.labels b.node b.labels) }
{
    let inner = compile_at(alloc, part, at, sources, coder, network)?;
    let back = shown(alloc, inner.node, &inner.labels, &at.labels, network)?;
    let labels = at.labels.copy_in(alloc)?;
    let node = network.add(
        alloc,
        Node::Diff {
            left: at.node,
            right: back,
        },
    )?;
    Ok(Context { node, labels })
}

/// The rows of the context for which the body holds with some values of the variables.
#[cycle(compiled)]
fn chosen<P: Coder>(
    alloc: Global,
    vars: &TypedVars,
    body: &Formula,
    at: &Context,
    sources: &Sources,
    coder: &P,
    network: &mut Network<P::Cell>,
) -> Result<Context, AllocError>
    requires open { IsOpen network.old }
    requires placed { Placed network.old at.now.node at.now.labels }
    requires sources { AreSources network.old sources.now }
    requires ready { IsReady (P.cell_of coder.now) network.old.rels (vars_of at.now.labels) (Formula.Exists vars.now body.now) }
    ensures { IfOk result (λ b. Made P.Cell.cmp P.Cell.int_of (P.cell_of coder.now) sources.now.consts (Formula.Exists vars.now body.now) network.old network.new at.now.node at.now.labels b.node b.labels) }
{
    let inner = compile_at(alloc, body, at, sources, coder, network)?;
    let from = with_room(
        alloc,
        vars.as_slice(),
        body,
        &inner,
        sources,
        coder,
        network,
    )?;
    let labels = chosen_labels(alloc, vars.as_slice(), body, &at.labels)?;
    let node = shown(alloc, from, &inner.labels, &labels, network)?;
    Ok(Context { node, labels })
}

/// The rows of the context for which one of the parts holds.
#[cycle(compiled)]
fn some_part<P: Coder>(
    alloc: Global,
    parts: &[Formula],
    at: &Context,
    sources: &Sources,
    coder: &P,
    network: &mut Network<P::Cell>,
) -> Result<Context, AllocError>
    requires open { IsOpen network.old }
    requires placed { Placed network.old at.now.node at.now.labels }
    requires sources { AreSources network.old sources.now }
    requires ready { IsReady (P.cell_of coder.now) network.old.rels (vars_of at.now.labels) (Formula.Or parts.now) }
    ensures { IfOk result (λ b. Made P.Cell.cmp P.Cell.int_of (P.cell_of coder.now) sources.now.consts (Formula.Or parts.now) network.old network.new at.now.node at.now.labels b.node b.labels) }
{
    if parts.is_empty() {
        let none = nothing(alloc, at, network)?;
        let same = at.labels.copy_in(alloc)?;
        return Ok(Context {
            node: none,
            labels: same,
        });
    }
    let labels = labels_behind(alloc, &parts[0], &at.labels)?;
    let node = any_of(alloc, parts, at, &labels, sources, coder, network)?;
    Ok(Context { node, labels })
}

/// The rows of all parts, over the same labels: of two or more a union.
#[cycle(compiled)]
pub(crate) fn any_of<P: Coder>(
    alloc: Global,
    parts: &[Formula],
    at: &Context,
    wanted: &Terms,
    sources: &Sources,
    coder: &P,
    network: &mut Network<P::Cell>,
) -> Result<usize, AllocError>
    requires open { IsOpen network.old }
    requires placed { Placed network.old at.now.node at.now.labels }
    requires sources { AreSources network.old sources.now }
    requires ready { IsReady (P.cell_of coder.now) network.old.rels (vars_of at.now.labels) (Formula.Or parts.now) }
    requires labels { WithVars (flat_map occurrences parts.now) at.now.labels wanted.now }
    requires some { 0 < length parts.now }
    ensures made { IfOk result (λ made. SomeMade P.Cell.cmp P.Cell.int_of (P.cell_of coder.now) sources.now.consts parts.now parts.now network.old network.new at.now.node at.now.labels made wanted.now) }
    ensures kept { IfOk result (λ made. 1 < length parts.now → IsUnion network.new made) }
{
    let mut made = one_of(alloc, parts, &parts[0], at, wanted, sources, coder, network)?;
    for i in 1..parts.len() {
        let right = one_of(alloc, parts, &parts[i], at, wanted, sources, coder, network)?;
        made = network.add(alloc, Node::Union { left: made, right })?;
    }
    Ok(made)
}

/// The rows of one part, over the labels of all.
#[cycle(compiled)]
fn one_of<P: Coder>(
    alloc: Global,
    parts: &[Formula],
    part: &Formula,
    at: &Context,
    wanted: &Terms,
    sources: &Sources,
    coder: &P,
    network: &mut Network<P::Cell>,
) -> Result<usize, AllocError>
    requires open { IsOpen network.old }
    requires placed { Placed network.old at.now.node at.now.labels }
    requires sources { AreSources network.old sources.now }
    requires ready { IsReady (P.cell_of coder.now) network.old.rels (vars_of at.now.labels) (Formula.Or parts.now) }
    requires labels { WithVars (flat_map occurrences parts.now) at.now.labels wanted.now }
    requires part { In part.now parts.now }
    ensures { IfOk result (λ made. SomeMade P.Cell.cmp P.Cell.int_of (P.cell_of coder.now) sources.now.consts parts.now (part.now ∷ []) network.old network.new at.now.node at.now.labels made wanted.now) }
{
    let inner = compile_at(alloc, part, at, sources, coder, network)?;
    let made = shown(alloc, inner.node, &inner.labels, wanted, network)?;
    Ok(made)
}
