ghost use Rattle.std.specs.Prelude.{◌≡◌, ◌<◌, IfOk, length};
ghost use Rattle.dbn_plan.specs.Making.{IsOpen, AreSources, ScanMade};

use dbn_network::Network;
use dbn_nodes::Node;
use dbn_value::{Cell, Value};
use sqlite_items::Items;
use std::alloc::{AllocError, Global};
use std::collections::BTreeMap;

/// What stands before the first node of a formula.
#[derive(Drop)]
pub(crate) struct Sources {
    /// The node with the one row without cells.
    pub(crate) unit: usize,
    /// Scans of relations, by their numbers.
    pub(crate) scans: BTreeMap<usize, usize>,
    /// The values that the formula writes; each has a cell.
    pub(crate) consts: Items<Value>,
}

/// A node that scans the relation: the one that is there, or a new one.
pub(crate) fn scan_of<C: Cell>(
    alloc: Global,
    rel: usize,
    sources: &Sources,
    network: &mut Network<C>,
) -> Result<usize, AllocError>
    requires open { IsOpen network.old }
    requires sources { AreSources network.old sources.now }
    requires range { rel < length network.old.rels }
    ensures { IfOk result (λ made. ScanMade network.old network.new rel made) }
{
    if let Some(scan) = sources.scans.get(&rel) {
        return Ok(*scan);
    }
    let made = network.add(alloc, Node::Scan { feed: rel })?;
    Ok(made)
}
