ghost use Rattle.std.specs.Prelude.{◌≡◌, ◌≤◌, ◌+◌, length, map, OnOk};
ghost use Rattle.dbn_formula.specs.Size.{total, size};
ghost use Rattle.dbn_plan.specs.Making.{IsOpen, AreScans, ScansMade};

use dbn_formula::Formula;
use dbn_network::Network;
use dbn_nodes::Node;
use dbn_value::Cell;
use sqlite_items::Items;
use std::alloc::{AllocError, Global};
use std::collections::BTreeMap;

/// Appends the relations that the formula names, as often as it names them.
#[cycle(relations)]
#[tactic(auto, using(dbn_formula::proofs::SizeLaws::size_laws))]
pub(crate) fn add_relations(out: &mut Items<usize>, f: &Formula) -> Result<(), AllocError>
    ensures { OnOk result (length out.new ≤ length out.old + size f.now) }
{
    match f {
        Formula::Atom { rel, terms: _ } => out.push(*rel),
        Formula::Test { .. } => Ok(()),
        Formula::And(parts) => add_all(out, parts.as_slice()),
        Formula::Or(parts) => add_all(out, parts.as_slice()),
        Formula::Not(part) => add_relations(out, part.get()),
        Formula::Implies(left, right) => {
            add_relations(out, left.get())?;
            add_relations(out, right.get())
        }
        Formula::Exists { vars: _, body } => add_relations(out, body.get()),
        Formula::Forall { vars: _, body } => add_relations(out, body.get()),
    }
}

#[cycle(relations)]
fn add_all(out: &mut Items<usize>, parts: &[Formula]) -> Result<(), AllocError>
    ensures { OnOk result (length out.new ≤ length out.old + total (map size parts.now)) }
{
    for part in parts {
        add_relations(out, part)?;
    }
    Ok(())
}

/// Scans each of these relations once; one that isn't there is passed over.
pub(crate) fn scan_each<C: Cell>(
    alloc: Global,
    rels: &[usize],
    scans: &mut BTreeMap<usize, usize>,
    network: &mut Network<C>,
) -> Result<(), AllocError>
    requires open { IsOpen network.old }
    requires scans { AreScans network.old scans.old }
    ensures { OnOk result (ScansMade network.old network.new scans.new (length rels.now)) }
{
    for rel in rels {
        scan_once(alloc, *rel, scans, network)?;
    }
    Ok(())
}

/// Scans the relation, unless it is scanned or isn't there.
fn scan_once<C: Cell>(
    alloc: Global,
    rel: usize,
    scans: &mut BTreeMap<usize, usize>,
    network: &mut Network<C>,
) -> Result<(), AllocError>
    requires open { IsOpen network.old }
    requires scans { AreScans network.old scans.old }
    ensures { OnOk result (ScansMade network.old network.new scans.new 1) }
{
    if rel >= network.rels().len() || scans.contains_key(&rel) {
        return Ok(());
    }
    let node = network.add(alloc, Node::Scan { feed: rel })?;
    scans.insert(rel, node)?;
    Ok(())
}
