ghost use Rattle.std.specs.Prelude.{◌≡◌, ◌<◌, [], length, IfOk};
ghost use Rattle.dbn_value.specs.Members.{In};
ghost use Rattle.dbn_value.specs.declared.term.Term.{Term as OfTerm};
ghost use Rattle.dbn_nodes.specs.declared.node.ColTest.{ColTest as Test};
ghost use Rattle.dbn_network.specs.States.{TestIn, state_widths, width_at};
ghost use Rattle.dbn_plan.specs.Making.{IsOpen, Placed, AreSources, Selected, Joined, Shown, NoneMade, IsProjection};

use super::columns::{columns_of, pairs_of, same_terms};
use super::context::Context;
use super::sources::Sources;
use dbn_network::Network;
use dbn_nodes::{ColTests, Node};
use dbn_value::{Cell, CopyIn, Terms};
use std::alloc::{AllocError, Global};

/// The rows of the node that meet the tests.
pub(crate) fn selected<C: Cell>(
    alloc: Global,
    node: usize,
    tests: ColTests<C>,
    network: &mut Network<C>,
) -> Result<usize, AllocError>
    requires open { IsOpen network.old }
    requires there { node < length network.old.nodes }
    requires fits { (x : Test C) → In x tests → TestIn (width_at (state_widths network.old) node) x }
    ensures { IfOk result (λ made. Selected C.cmp network.old network.new node tests made) }
{
    if tests.is_empty() {
        return Ok(node);
    }
    let made = network.add(alloc, Node::Select { from: node, tests })?;
    Ok(made)
}

/// The rows of the context, each with the rows of the other node that it goes with. Behind the unit these are the other node's.
pub(crate) fn joined<C: Cell>(
    alloc: Global,
    at: &Context,
    other: usize,
    others: &Terms,
    sources: &Sources,
    network: &mut Network<C>,
) -> Result<Context, AllocError>
    requires open { IsOpen network.old }
    requires placed { Placed network.old at.now.node at.now.labels }
    requires other { Placed network.old other others.now }
    requires sources { AreSources network.old sources.now }
    ensures { IfOk result (λ b. Joined C.cmp C.int_of network.old network.new at.now.node at.now.labels other others.now b.node b.labels) }
{
    if at.node == sources.unit {
        return Ok(Context {
            node: other,
            labels: others.copy_in(alloc)?,
        });
    }
    join_behind(alloc, at, other, others, network)
}

/// The join of the context with the other node, on all variables that both have.
fn join_behind<C: Cell>(
    alloc: Global,
    at: &Context,
    other: usize,
    others: &Terms,
    network: &mut Network<C>,
) -> Result<Context, AllocError>
    requires open { IsOpen network.old }
    requires placed { Placed network.old at.now.node at.now.labels }
    requires other { Placed network.old other others.now }
    ensures { IfOk result (λ b. Joined C.cmp C.int_of network.old network.new at.now.node at.now.labels other others.now b.node b.labels) }
{
    let on = pairs_of(alloc, at.labels.as_slice(), others.as_slice())?;
    let mut labels = at.labels.copy_in(alloc)?;
    labels.append(others.copy_in(alloc)?)?;
    let node = network.add(
        alloc,
        Node::Join {
            left: at.node,
            right: other,
            on,
        },
    )?;
    Ok(Context { node, labels })
}

/// The rows of the node at these labels: the node itself, where they are all of its own.
pub(crate) fn shown<C: Cell>(
    alloc: Global,
    node: usize,
    labels: &Terms,
    wanted: &Terms,
    network: &mut Network<C>,
) -> Result<usize, AllocError>
    requires open { IsOpen network.old }
    requires placed { Placed network.old node labels.now }
    requires there { (a : OfTerm) → In a wanted.now → In a labels.now }
    ensures { IfOk result (λ made. Shown C.cmp C.int_of network.old network.new node labels.now made wanted.now) }
{
    if same_terms(labels.as_slice(), wanted.as_slice()) {
        return Ok(node);
    }
    projected(alloc, node, labels, wanted, network)
}

/// A projection of the node to these labels.
pub(crate) fn projected<C: Cell>(
    alloc: Global,
    node: usize,
    labels: &Terms,
    wanted: &Terms,
    network: &mut Network<C>,
) -> Result<usize, AllocError>
    requires open { IsOpen network.old }
    requires placed { Placed network.old node labels.now }
    requires there { (a : OfTerm) → In a wanted.now → In a labels.now }
    ensures shown { IfOk result (λ made. Shown C.cmp C.int_of network.old network.new node labels.now made wanted.now) }
    ensures kept { IfOk result (λ made. IsProjection network.new made) }
{
    let cols = columns_of(alloc, labels.as_slice(), wanted.as_slice())?;
    let made = network.add(alloc, Node::Project { from: node, cols })?;
    Ok(made)
}

/// No rows, in the columns of the context.
pub(crate) fn nothing<C: Cell>(
    alloc: Global,
    at: &Context,
    network: &mut Network<C>,
) -> Result<usize, AllocError>
    requires open { IsOpen network.old }
    requires placed { Placed network.old at.now.node at.now.labels }
    ensures { IfOk result (λ made. NoneMade C.cmp C.int_of network.old network.new at.now.node at.now.labels made) }
{
    let made = network.add(
        alloc,
        Node::Diff {
            left: at.node,
            right: at.node,
        },
    )?;
    Ok(made)
}
