//! What places show.

ghost use Rattle.std.specs.Prelude.{◌≡◌, ◌<◌, map, length, IfOk};
ghost use Rattle.dbn_formula.specs.Solutions.{HasShapes};
ghost use Rattle.dbn_net.specs.Tables.{queries, places, relation_shapes};
ghost use Rattle.dbn_net.specs.Enabled.{query_rows, view_rows, shown};

use dbn_instance::Instance;
use dbn_marking::CountedRows;
use dbn_net::{Decl, Net, Place, Snapshot};
use dbn_scratch::answers;
use dbn_value::{CopyIn, Row, Rows, Value};
use sqlite_items::Items;
use std::alloc::{AllocError, Global};

/// The rows that the place shows as a view, ascending; one that holds tokens shows none. An error is want of memory.
#[tactic(auto, using(crate::proofs::ViewLaws::query_within))]
pub(crate) fn view_rows(
    alloc: Global,
    net: &Net,
    instance: &Instance<Value>,
    place: usize,
) -> Result<Rows, AllocError>
    requires place { place < length (places net.now) }
    requires fits { HasShapes (relation_shapes net.now) instance.now }
    ensures { IfOk result (λ rows. rows ≡ view_rows net.now instance.now place) }
{
    let _net = net.decls();
    match net.place_at(place) {
        Place::Control { name: _, shape: _ } => Ok(Items::new(alloc)),
        Place::View { name: _, query } => query_rows(alloc, net, instance, *query),
    }
}

/// The answers of the query. An error is want of memory.
fn query_rows(
    alloc: Global,
    net: &Net,
    instance: &Instance<Value>,
    query: usize,
) -> Result<Rows, AllocError>
    requires query { query < length (queries net.now) }
    requires fits { HasShapes (relation_shapes net.now) instance.now }
    ensures { IfOk result (λ rows. rows ≡ query_rows net.now instance.now query) }
{
    match net.query_at(query) {
        Decl::Query {
            name: _,
            vars,
            body,
        } => answers(alloc, body, vars, instance),
        _ => unreachable!(),
    }
}

/// The counted rows that the place shows: its tokens, or each answer of its query once. An error is want of memory.
#[tactic(auto, using(crate::proofs::ViewLaws::query_within))]
pub(crate) fn shown(
    alloc: Global,
    net: &Net,
    at: &Snapshot,
    place: usize,
) -> Result<CountedRows<Value>, AllocError>
    requires place { place < length (places net.now) }
    requires places { length at.now.marking ≡ length (places net.now) }
    requires fits { HasShapes (relation_shapes net.now) at.now.instance }
    ensures { IfOk result (λ rows. rows ≡ shown net.now at.now.instance at.now.marking place) }
{
    let _net = net.decls();
    match net.place_at(place) {
        Place::Control { name: _, shape: _ } => at.marking.rows(alloc, place),
        Place::View { name: _, query } => {
            let rows = query_rows(alloc, net, &at.instance, *query)?;
            each_once(alloc, rows.as_slice())
        }
    }
}

/// Each row with the count 1. An error is want of memory.
fn each_once(alloc: Global, rows: &[Row<Value>]) -> Result<CountedRows<Value>, AllocError>
    ensures { IfOk result (λ counted. counted ≡ map (λ row. (row, 1)) rows.now) }
{
    let mut counted = Items::new(alloc);
    for row in rows {
        counted.push((row.copy_in(alloc)?, 1))?;
    }
    Ok(counted)
}
