ghost use Rattle.std.specs.Prelude.{◌≡◌, ◌<◌, [], ◌∷◌, length, slice_index_or, IfOk};
ghost use Rattle.dbn_formula.specs.Free.{free};
ghost use Rattle.dbn_formula.specs.Variables.{is_in};
ghost use Rattle.dbn_plan.specs.Making.{IsOpen, Placed, AreSources, FilledMade, RoomMade};
ghost use Rattle.dbn_plan.specs.Filling.{has_type, has_value, RowedMade, MoreMade, AnyMade};

use super::context::{Context, copy_context};
use super::sources::{Sources, scan_of};
use super::steps::{joined, nothing};
use dbn_formula::{Formula, free};
use dbn_network::Network;
use dbn_nodes::Node;
use dbn_value::{Cell, Coder, ColType, Nums, Shape, Value, Var, same_type};
use sqlite_items::Items;
use std::alloc::{AllocError, Global};

/// Whether one of the values has the type.
fn has_value(values: &[Value], of_type: ColType) -> bool
    ensures { result ≡ has_value of_type values.now }
{
    values
        .iter()
        .any(|value| same_type(value.col_type(), of_type))
}

/// Whether a column has the type.
fn has_column(shape: &[ColType], of_type: ColType) -> bool
    ensures { result ≡ has_type of_type shape.now }
{
    shape.iter().any(|column| same_type(*column, of_type))
}

/// Whether the relation has a column of the type.
fn has_column_at(rels: &[Shape], rel: usize, of_type: ColType) -> bool
    requires { rel < length rels.now }
    ensures { result ≡ has_type of_type (slice_index_or rels.now rel []) }
{
    has_column(rels[rel].as_slice(), of_type)
}

/// Whether the variable is one of these.
pub(crate) fn is_among(vars: &[Var], x: &Var) -> bool
    ensures { result ≡ is_in x.now vars.now }
{
    vars.iter().any(|y| x.same(y))
}

/// The one row without cells, where the relation has a row.
fn rowed<P: Coder>(
    alloc: Global,
    rel: usize,
    sources: &Sources,
    _coder: &P,
    network: &mut Network<P::Cell>,
) -> Result<usize, AllocError>
    requires open { IsOpen network.old }
    requires sources { AreSources network.old sources.now }
    requires range { rel < length network.old.rels }
    ensures { IfOk result (λ made. RowedMade P.Cell.cmp P.Cell.int_of (P.cell_of _coder.now) sources.now.consts rel network.old network.new made) }
{
    let scan = scan_of(alloc, rel, sources, network)?;
    let cols = Nums::from_vec(Vec::new(alloc));
    let made = network.add(alloc, Node::Project { from: scan, cols })?;
    Ok(made)
}

/// The one row without cells, where some relation with a column of the type has a row.
fn any_row<P: Coder>(
    alloc: Global,
    of_type: ColType,
    sources: &Sources,
    coder: &P,
    network: &mut Network<P::Cell>,
) -> Result<usize, AllocError>
    requires open { IsOpen network.old }
    requires sources { AreSources network.old sources.now }
    ensures { IfOk result (λ made. AnyMade P.Cell.cmp P.Cell.int_of (P.cell_of coder.now) sources.now.consts of_type (length network.old.rels) network.old network.new made) }
{
    let count = network.rels().len();
    let unit = Context {
        node: sources.unit,
        labels: Items::new(alloc),
    };
    let mut made = nothing(alloc, &unit, network)?;
    for rel in 0..count {
        let more = or_row(alloc, rel, of_type, made, sources, coder, network)?;
        made = more;
    }
    Ok(made)
}

/// The one row without cells, where it was there or the relation has a column of the type and a row.
fn or_row<P: Coder>(
    alloc: Global,
    rel: usize,
    of_type: ColType,
    before: usize,
    sources: &Sources,
    coder: &P,
    network: &mut Network<P::Cell>,
) -> Result<usize, AllocError>
    requires open { IsOpen network.old }
    requires placed { Placed network.old before [] }
    requires sources { AreSources network.old sources.now }
    requires range { rel < length network.old.rels }
    ensures { IfOk result (λ made. MoreMade P.Cell.cmp P.Cell.int_of (P.cell_of coder.now) sources.now.consts rel of_type network.old network.new before made) }
{
    if has_column_at(network.rels().as_slice(), rel, of_type) {
        let right = rowed(alloc, rel, sources, coder, network)?;
        let made = network.add(
            alloc,
            Node::Union {
                left: before,
                right,
            },
        )?;
        return Ok(made);
    }
    Ok(before)
}

/// The rows of the context, where the type has a value.
fn filled<P: Coder>(
    alloc: Global,
    of_type: ColType,
    at: &Context,
    sources: &Sources,
    coder: &P,
    network: &mut Network<P::Cell>,
) -> Result<usize, AllocError>
    requires open { IsOpen network.old }
    requires placed { Placed network.old at.now.node at.now.labels }
    requires sources { AreSources network.old sources.now }
    ensures { IfOk result (λ made. FilledMade P.Cell.cmp P.Cell.int_of (P.cell_of coder.now) sources.now.consts of_type network.old network.new at.now.node at.now.labels made) }
{
    if has_value(sources.consts.as_slice(), of_type) {
        return Ok(at.node);
    }
    let some = any_row(alloc, of_type, sources, coder, network)?;
    let none = Items::new(alloc);
    let made = joined(alloc, at, some, &none, sources, network)?;
    Ok(made.node)
}

/// The rows of the context, where the quantified variable occurs in the body or its type has a value.
fn roomed<P: Coder>(
    alloc: Global,
    var: &(Var, ColType),
    occurring: &[Var],
    _body: &Formula,
    at: &Context,
    sources: &Sources,
    coder: &P,
    network: &mut Network<P::Cell>,
) -> Result<usize, AllocError>
    requires open { IsOpen network.old }
    requires placed { Placed network.old at.now.node at.now.labels }
    requires sources { AreSources network.old sources.now }
    requires occurring { occurring.now ≡ free _body.now }
    ensures { IfOk result (λ made. RoomMade P.Cell.cmp P.Cell.int_of (P.cell_of coder.now) sources.now.consts (var.now ∷ []) _body.now network.old network.new at.now.node at.now.labels made) }
{
    if is_among(occurring, &var.0) {
        return Ok(at.node);
    }
    let made = filled(alloc, var.1, at, sources, coder, network)?;
    Ok(made)
}

/// The rows of the context, where the type of each quantified variable that occurs nowhere has a value.
pub(crate) fn with_room<P: Coder>(
    alloc: Global,
    vars: &[(Var, ColType)],
    body: &Formula,
    at: &Context,
    sources: &Sources,
    coder: &P,
    network: &mut Network<P::Cell>,
) -> Result<usize, AllocError>
    requires open { IsOpen network.old }
    requires placed { Placed network.old at.now.node at.now.labels }
    requires sources { AreSources network.old sources.now }
    ensures { IfOk result (λ made. RoomMade P.Cell.cmp P.Cell.int_of (P.cell_of coder.now) sources.now.consts vars.now body.now network.old network.new at.now.node at.now.labels made) }
{
    let occurring = free(alloc, body)?;
    let mut now = copy_context(alloc, at)?;
    for var in vars {
        let node = roomed(
            alloc,
            var,
            occurring.as_slice(),
            body,
            &now,
            sources,
            coder,
            network,
        )?;
        now.node = node;
    }
    Ok(now.node)
}
