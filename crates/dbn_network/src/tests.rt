//! What no clause says: that calls succeed, and that a network has the same rows after many changes as one that gets its nodes at
//! their end.

ghost use Rattle.std.specs.Prelude.{◌≡◌, ◌<◌, ◌≤◌, ◌++◌, [], length, slice_index_or, IfOk, OnOk, IsTrue};
ghost use Rattle.dbn_value.specs.Shape.{HasShape};
ghost use Rattle.dbn_nodes.specs.Changes.{row_in};
ghost use Rattle.dbn_instance.specs.Facts.{Fits as FitsNow, changed};
ghost use Rattle.dbn_network.specs.States.{feed_widths, with_feeds, change_at};
ghost use Rattle.dbn_network.specs.Worked.{columns, scans, lacking, other_kinds, AllFit, IsReady, SameNodes};

use super::Network;
use dbn_nodes::{Added, ColTest, Event, Node, Steps};
use dbn_value::{
    Cell, Cmp, Coder, ColType, CopyIn, Nums, PlainCoder, Row, Shape, Shapes, Value, has_shape,
};
use sqlite_items::Items;
use std::alloc::{AllocError, Global};
use std::marker::Brand;
use std::sync::ledger::{Blank, Ledger};
use std::test::Fail;

/// What stands in the rows of the plain core.
type Plain = <PlainCoder as Coder>::Cell;

/// One column of ints.
fn one_int(alloc: Global) -> Result<Shape, AllocError>
    ensures { IfOk result (λ shape. length shape ≡ 1) }
{
    let mut shape = Items::new(alloc);
    shape.push(ColType::Int)?;
    Ok(shape)
}

/// Two columns of ints.
fn two_ints(alloc: Global) -> Result<Shape, AllocError>
    ensures { IfOk result (λ shape. length shape ≡ 2) }
{
    let mut shape = one_int(alloc)?;
    shape.push(ColType::Int)?;
    Ok(shape)
}

/// People, skills, who has which skill, numbers, and pairs of numbers.
fn relations(alloc: Global) -> Result<Shapes, AllocError>
    ensures { IfOk result (λ shapes. feed_widths shapes ≡ columns) }
{
    let mut shapes = Items::new(alloc);
    shapes.push(one_int(alloc)?)?;
    shapes.push(one_int(alloc)?)?;
    shapes.push(two_ints(alloc)?)?;
    shapes.push(one_int(alloc)?)?;
    shapes.push(two_ints(alloc)?)?;
    Ok(shapes)
}

/// A scan of each relation.
fn scan_nodes<C: Cell>(alloc: Global) -> Result<Vec<Node<C>>, AllocError>
    ensures { IfOk result (λ nodes. nodes.items ≡ scans) }
{
    let mut nodes = Vec::new(alloc);
    nodes.push(Node::Scan { feed: 0 })?;
    nodes.push(Node::Scan { feed: 1 })?;
    nodes.push(Node::Scan { feed: 2 })?;
    nodes.push(Node::Scan { feed: 3 })?;
    nodes.push(Node::Scan { feed: 4 })?;
    Ok(nodes)
}

/// Rows that go where others are, and the columns of those that stay.
fn lacking_nodes<C: Cell>(alloc: Global) -> Result<Vec<Node<C>>, AllocError>
    ensures { IfOk result (λ nodes. nodes.items ≡ lacking) }
{
    let mut nodes = Vec::new(alloc);
    nodes.push(Node::Diff { left: 3, right: 3 })?;
    nodes.push(Node::Join {
        left: 0,
        right: 1,
        on: Items::new(alloc),
    })?;
    nodes.push(Node::Diff { left: 6, right: 2 })?;
    nodes.push(Node::Project {
        from: 7,
        cols: Nums::from_slice(alloc, &[0])?,
    })?;
    nodes.push(Node::Diff { left: 0, right: 8 })?;
    Ok(nodes)
}

/// The other kinds.
fn other_nodes<C: Cell>(alloc: Global) -> Result<Vec<Node<C>>, AllocError>
    ensures { IfOk result (λ nodes. nodes.items ≡ other_kinds) }
{
    let mut tests = Items::new(alloc);
    tests.push(ColTest::Columns {
        cmp: Cmp::Lt,
        left: 0,
        right: 1,
    })?;
    let mut on = Items::new(alloc);
    on.push((1, 0))?;
    let mut nodes = Vec::new(alloc);
    nodes.push(Node::Project {
        from: 4,
        cols: Nums::from_slice(alloc, &[0])?,
    })?;
    nodes.push(Node::Unit)?;
    nodes.push(Node::Union { left: 2, right: 4 })?;
    nodes.push(Node::Select { from: 12, tests })?;
    nodes.push(Node::Join {
        left: 13,
        right: 10,
        on,
    })?;
    nodes.push(Node::Extend {
        from: 14,
        with: Added::Copied(2),
    })?;
    Ok(nodes)
}

/// Adds the nodes, the first of them first.
fn add_all<C: Cell>(
    alloc: Global,
    network: &mut Network<C>,
    nodes: Vec<Node<C>>,
) -> Result<(), AllocError>
    requires live { IsTrue network.old.live }
    requires fit { AllFit (feed_widths network.old.shapes) network.old.nodes nodes.items }
    ensures live { OnOk result (IsTrue network.new.live) }
    ensures nodes { OnOk result (network.new.nodes ≡ network.old.nodes ++ nodes.items) }
    ensures rels { OnOk result (network.new.rels ≡ network.old.rels) }
    ensures shapes { OnOk result (network.new.shapes ≡ network.old.shapes) }
    ensures feeds { OnOk result (network.new.feeds ≡ network.old.feeds) }
{
    for node in nodes {
        network.add(alloc, node)?;
    }
    Ok(())
}

/// A network with the scans alone.
fn with_scans<C: Cell>(alloc: Global) -> Result<Network<C>, AllocError>
    ensures ready { IfOk result IsReady }
    ensures nodes { IfOk result (λ n. n.nodes ≡ scans) }
{
    let relations = relations(alloc)?;
    let places = Items::new(alloc);
    let mut network = Network::new(alloc, relations, places)?;
    let scans = scan_nodes(alloc)?;
    add_all(alloc, &mut network, scans)?;
    Ok(network)
}

/// Adds the first nodes upon the scans.
fn add_lacking<C: Cell>(alloc: Global, network: &mut Network<C>) -> Result<(), AllocError>
    requires ready { IsReady network.old }
    requires nodes { network.old.nodes ≡ scans }
    ensures ready { OnOk result (IsReady network.new) }
    ensures nodes { OnOk result (network.new.nodes ≡ scans ++ lacking) }
{
    let lacking = lacking_nodes(alloc)?;
    add_all(alloc, network, lacking)?;
    Ok(())
}

/// Adds the last nodes.
fn add_kinds<C: Cell>(alloc: Global, network: &mut Network<C>) -> Result<(), AllocError>
    requires ready { IsReady network.old }
    requires nodes { network.old.nodes ≡ scans ++ lacking }
    ensures ready { OnOk result (IsReady network.new) }
    ensures nodes { OnOk result (network.new.nodes ≡ scans ++ lacking ++ other_kinds) }
{
    let others = other_nodes(alloc)?;
    add_all(alloc, network, others)?;
    Ok(())
}

/// Adds all nodes upon the scans.
fn add_others<C: Cell>(alloc: Global, network: &mut Network<C>) -> Result<(), AllocError>
    requires ready { IsReady network.old }
    requires nodes { network.old.nodes ≡ scans }
    ensures ready { OnOk result (IsReady network.new) }
    ensures count { OnOk result (length network.new.nodes ≡ 16) }
{
    add_lacking(alloc, network)?;
    add_kinds(alloc, network)?;
    Ok(())
}

/// The event of a relation, with a counter of its own.
fn apply_one<C: Cell, L: Ledger>(
    alloc: Global,
    network: &mut Network<C>,
    relation: usize,
    event: &Event<C>,
    blank: Blank,
) -> Result<(), AllocError>
    requires name { blank.name ≡ L.name }
    requires parts { blank.parts ≡ L.parts }
    requires some { 0 < blank.parts }
    requires live { IsTrue network.old.live }
    requires range { relation < length network.old.feeds }
    requires shape { HasShape C.type_of (row_in event.now) (slice_index_or network.old.shapes relation []) }
    requires fits { FitsNow C.cmp network.old.feeds (change_at relation event.now) }
    ensures { OnOk result (network.new ≡ with_feeds network.old (changed C.cmp network.old.feeds (change_at relation event.now))) }
{
    let mut steps: Steps<L> = Steps::new(blank);
    network.apply(alloc, relation, event, &mut steps)?;
    Ok(())
}

/// The row comes to the relation where it is not there, and goes where it is.
fn turn<C: Cell>(
    alloc: Global,
    network: &mut Network<C>,
    relation: usize,
    row: Row<C>,
) -> Result<(), Fail>
    requires ready { IsReady network.old }
    requires range { relation < 5 }
    ensures { OnOk result (SameNodes network.new network.old) }
{
    let shape = &network.rels().as_slice()[relation];
    if !has_shape(&row, shape) {
        return Err(Fail::new("a row of another shape"));
    }
    let there = network.has(alloc, relation, &row)?;
    let event = Event::new(row, !there);
    apply_one::<C, Brand>(alloc, network, relation, &event, Blank::new(1))?;
    Ok(())
}

/// How many rows the node has.
fn count<C: Cell>(alloc: Global, network: &Network<C>, node: usize) -> Result<usize, AllocError>
    requires live { IsTrue network.now.live }
    requires range { node < length network.now.nodes }
{
    Ok(network.table(alloc, node)?.len())
}

/// Whether the node has the same rows in both networks.
fn same_rows<C: Cell>(
    alloc: Global,
    a: &Network<C>,
    b: &Network<C>,
    node: usize,
) -> Result<bool, AllocError>
    requires live_a { IsTrue a.now.live }
    requires live_b { IsTrue b.now.live }
    requires range_a { node < length a.now.nodes }
    requires range_b { node < length b.now.nodes }
{
    Ok(a.table(alloc, node)?.as_slice() == b.table(alloc, node)?.as_slice())
}

/// The rows of the relation come to the other network.
fn copy_rows<C: Cell>(
    alloc: Global,
    from: &Network<C>,
    to: &mut Network<C>,
    relation: usize,
) -> Result<(), Fail>
    requires from { IsReady from.now }
    requires to { IsReady to.old }
    requires range { relation < 5 }
    ensures { OnOk result (SameNodes to.new to.old) }
{
    for row in from.table(alloc, relation)?.as_slice() {
        turn(alloc, to, relation, row.copy_in(alloc)?)?;
    }
    Ok(())
}

/// A network over the same rows, which gets its other nodes when the rows are there.
fn rebuilt<C: Cell>(alloc: Global, network: &Network<C>) -> Result<Network<C>, Fail>
    requires { IsReady network.now }
    ensures ready { IfOk result IsReady }
    ensures count { IfOk result (λ n. length n.nodes ≡ 16) }
{
    let mut other = with_scans(alloc)?;
    for relation in 0..5 {
        copy_rows(alloc, network, &mut other, relation)?;
    }
    add_others(alloc, &mut other)?;
    Ok(other)
}

/// The row of these numbers.
fn numbers(alloc: Global, cells: &[i64]) -> Result<Row<Plain>, AllocError> {
    let mut row = Vec::new(alloc);
    for cell in cells {
        row.push(Value::Int(*cell))?;
    }
    Ok(Row::from_vec(row))
}

/// A row of small numbers for the relation, by the high bits of the seed.
fn row_of(alloc: Global, seed: u64, relation: usize) -> Result<Row<Plain>, AllocError> {
    let x = ((seed >> 33) % 6) as i64;
    let y = ((seed >> 43) % 6) as i64;
    if relation == 2 || relation == 4 {
        numbers(alloc, &[x, y])
    } else {
        numbers(alloc, &[x])
    }
}

/// So many changes of small rows, one behind the other, and the next seed.
fn turn_many(
    alloc: Global,
    network: &mut Network<Plain>,
    start: u64,
    count: u64,
) -> Result<u64, Fail>
    requires { IsReady network.old }
    ensures { OnOk result (SameNodes network.new network.old) }
{
    let mut seed = start;
    for _ in 0..count {
        seed = seed
            .wrapping_mul(6364136223846793005)
            .wrapping_add(1442695040888963407);
        let relation = ((seed >> 53) % 5) as usize;
        turn(alloc, network, relation, row_of(alloc, seed, relation)?)?;
    }
    Ok(seed)
}

/// A network with every kind of node.
fn whole(alloc: Global) -> Result<Network<Plain>, Fail>
    ensures ready { IfOk result IsReady }
    ensures count { IfOk result (λ n. length n.nodes ≡ 16) }
{
    let mut network = with_scans(alloc)?;
    add_others(alloc, &mut network)?;
    Ok(network)
}

/// The relation and the numbers of a row that comes or goes, and how many rows the nodes 9 and 10 have then.
const CHANGES: [(usize, &[i64], usize, usize); 11] = [
    (0, &[7], 1, 0),
    (1, &[1], 0, 0),
    (2, &[7, 1], 1, 0),
    (1, &[2], 0, 0),
    (1, &[2], 1, 0),
    (3, &[5], 1, 0),
    (3, &[5], 1, 0),
    (4, &[1, 2], 1, 1),
    (4, &[1, 3], 1, 1),
    (4, &[1, 2], 1, 1),
    (4, &[1, 3], 1, 0),
];

#[test]
fn rows_come_and_go(rt: HostRuntime) -> Result<(), Fail> {
    let alloc = rt.alloc();
    let mut network = whole(alloc)?;
    for (relation, cells, skilled, firsts) in CHANGES {
        if relation >= 5 {
            return Err(Fail::new("no such relation"));
        }
        turn(alloc, &mut network, relation, numbers(alloc, cells)?)?;
        assert!(rt; network.is_empty(alloc, 5)?);
        assert!(rt; count(alloc, &network, 9)? == skilled);
        assert!(rt; count(alloc, &network, 10)? == firsts);
        assert!(rt; network.is_empty(alloc, 10)? == (firsts == 0));
    }
    Ok(())
}

#[test]
fn many_changes_lead_to_the_rows_of_a_new_network(rt: HostRuntime) -> Result<(), Fail> {
    let alloc = rt.alloc();
    let mut network = whole(alloc)?;
    let mut seed = 1;
    for _ in 0..10 {
        seed = turn_many(alloc, &mut network, seed, 1000)?;
        let other = rebuilt(alloc, &network)?;
        for node in 0..16 {
            assert!(rt; same_rows(alloc, &network, &other, node)?);
        }
    }
    Ok(())
}
