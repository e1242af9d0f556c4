ghost use Rattle.std.specs.Prelude.{◌≡◌, ◌<◌, ◌≤◌, ◌+◌, ◌*◌, [], true, OnOk, IfOk, IfSome, IsTrue, length, slice_index_or};
ghost use Rattle.dbn_value.specs.Members.{In};
ghost use Rattle.dbn_value.specs.Coding.{Extends};
ghost use Rattle.dbn_value.specs.declared.term.Var.{Var as OfVar};
ghost use Rattle.dbn_formula.specs.declared.formula.Formula.{Formula};
ghost use Rattle.dbn_formula.specs.Answers.{constants};
ghost use Rattle.dbn_formula.specs.Free.{occurrences};
ghost use Rattle.dbn_formula.specs.Size.{size};
ghost use Rattle.dbn_formula.specs.Solutions.{AcceptsQuery};
ghost use Rattle.dbn_formula.specs.Variables.{binds};
ghost use Rattle.dbn_nodes.specs.declared.node.Node.{Node as NodeOf};
ghost use Rattle.dbn_network.specs.Holding.{IsDirect};
ghost use Rattle.dbn_nodes.specs.Answering.{IsCounted};
ghost use Rattle.dbn_plan.specs.Columns.{HaveCells};
ghost use Rattle.dbn_plan.specs.Making.{IsOpen, Grown, AreSources, IsReady, Sourced, columns};
ghost use Rattle.dbn_plan.specs.Answering.{AnswersAt, Planned, Rooted, Finished, IsWhole, var_labels};

use super::columns::{same_terms, tests_of};
use super::context::Context;
use super::easing::eased;
use super::forms::{any_of, compile_at};
use super::labels::labels_of;
use super::referring::{denied_parts, difference_rows, is_closed, lacking_parts, rows_without};
use super::room::with_room;
use super::scans::{add_relations, scan_each};
use super::sources::Sources;
use super::steps::projected;
use dbn_formula::{Formula, constants, solvable};
use dbn_network::Network;
use dbn_nodes::Node;
use dbn_value::{Cell, Coder, Terms, TypedVars, Value};
use sqlite_items::Items;
use std::alloc::{AllocError, Global};
use std::collections::BTreeMap;

/// Adds the nodes of an accepted query to a network with the relations of its shapes, and gives the number of the node whose rows
/// are the answers, in the order of the variables: in the cells of this coder and of each that it grows into, for all rows that the
/// feeds may ever have. A sentence is a query without variables: it holds where the node has a row. What the formula writes gets its
/// cells. An error is want of memory; then the network isn't live, unless it came before the first node.
pub fn compile<P: Coder>(
    alloc: Global,
    f: &Formula,
    vars: &TypedVars,
    coder: &mut P,
    network: &mut Network<P::Cell>,
) -> Result<usize, AllocError>
    requires open { IsOpen network.old }
    requires accepted { AcceptsQuery network.old.rels vars.now f.now }
    ensures grown { OnOk result (Grown network.old network.new) }
    ensures coder { Extends (P.cell_of coder.old) (P.cell_of coder.new) }
    ensures answers { IfOk result (λ node. AnswersAt P.Cell.cmp P.Cell.int_of (P.cell_of coder.new) network.new.rels f.now vars.now network.new.nodes node) }
    ensures range { IfOk result (λ node. node < length network.new.nodes) }
    ensures direct { IfOk result (λ node. (d : NodeOf P.Cell) → IsDirect (slice_index_or network.new.nodes node d)) }
    ensures counted { IfOk result (λ node. vars.now ≡ [] → (d : NodeOf P.Cell) → IsCounted (slice_index_or network.new.nodes node d)) }
    ensures few { OnOk result (length network.new.nodes ≤ length network.old.nodes + 64 * (size f.now + 1) * (size f.now + columns network.old.rels + 1)) }
{
    let whole = solvable(alloc, f)?;
    let form = eased(alloc, &whole)?;
    let consts = constants(alloc, &form)?;
    put_all(alloc, consts.as_slice(), coder)?;
    let node = plan(alloc, &form, vars, consts, &*coder, network)?;
    Ok(node)
}

/// The nodes of a formula as it is solved, and the columns of the variables.
fn plan<P: Coder>(
    alloc: Global,
    form: &Formula,
    vars: &TypedVars,
    consts: Items<Value>,
    coder: &P,
    network: &mut Network<P::Cell>,
) -> Result<usize, AllocError>
    requires open { IsOpen network.old }
    requires ready { IsReady (P.cell_of coder.now) network.old.rels [] form.now }
    requires consts { consts ≡ constants form.now }
    requires occurring { (x : OfVar) → binds vars.now x ≡ true → In x (occurrences form.now) }
    requires bound { (x : OfVar) → In x (occurrences form.now) → binds vars.now x ≡ true }
    ensures { IfOk result (λ node. Planned P.Cell.cmp P.Cell.int_of (P.cell_of coder.now) form.now vars.now network.old network.new node) }
{
    let sources = first_sources(alloc, form, consts, network)?;
    let wanted = labels_of(alloc, vars.as_slice())?;
    let whole = relation_itself(alloc, form, vars, &wanted, &sources, coder, &*network)?;
    match whole {
        Some(scan) => Ok(scan),
        None => {
            let node = query_rows(alloc, form, vars, &wanted, &sources, coder, network)?;
            Ok(node)
        }
    }
}

/// The scan of a relation, where the query asks for its rows as they are.
fn relation_itself<P: Coder>(
    alloc: Global,
    form: &Formula,
    vars: &TypedVars,
    wanted: &Terms,
    sources: &Sources,
    coder: &P,
    network: &Network<P::Cell>,
) -> Result<Option<usize>, AllocError>
    requires open { IsOpen network.now }
    requires sources { AreSources network.now sources.now }
    requires ready { IsReady (P.cell_of coder.now) network.now.rels [] form.now }
    requires wanted { wanted.now ≡ var_labels vars.now }
    ensures { IfOk result (λ found. IfSome found (λ node. Finished P.Cell.cmp P.Cell.int_of (P.cell_of coder.now) sources.now.consts form.now vars.now network.now network.now node wanted.now)) }
{
    match form {
        Formula::Atom { rel, terms } => {
            scan_itself(
                alloc, form, *rel, terms, vars, wanted, sources, coder, network,
            )
        }
        _ => Ok(None),
    }
}

/// The same of an atom.
fn scan_itself<P: Coder>(
    alloc: Global,
    form: &Formula,
    rel: usize,
    terms: &Terms,
    vars: &TypedVars,
    wanted: &Terms,
    sources: &Sources,
    coder: &P,
    network: &Network<P::Cell>,
) -> Result<Option<usize>, AllocError>
    requires open { IsOpen network.now }
    requires sources { AreSources network.now sources.now }
    requires atom { form.now ≡ Formula.Atom rel terms.now }
    requires ready { IsReady (P.cell_of coder.now) network.now.rels [] form.now }
    requires wanted { wanted.now ≡ var_labels vars.now }
    ensures { IfOk result (λ found. IfSome found (λ node. Finished P.Cell.cmp P.Cell.int_of (P.cell_of coder.now) sources.now.consts form.now vars.now network.now network.now node wanted.now)) }
{
    if rel >= network.rels().len() {
        return Ok(None);
    }
    if !is_whole(alloc, terms, wanted, coder)? {
        return Ok(None);
    }
    match sources.scans.get(&rel) {
        Some(scan) => Ok(Some(*scan)),
        None => Ok(None),
    }
}

/// Whether the terms are all that is wanted, and ask nothing of the columns.
fn is_whole<P: Coder>(
    alloc: Global,
    terms: &Terms,
    wanted: &Terms,
    coder: &P,
) -> Result<bool, AllocError>
    ensures { IfOk result (λ whole. IsTrue whole → IsWhole (P.cell_of coder.now) terms.now wanted.now) }
{
    if wanted.is_empty() {
        return Ok(false);
    }
    if !same_terms(terms.as_slice(), wanted.as_slice()) {
        return Ok(false);
    }
    let tests = tests_of(alloc, terms.as_slice(), coder)?;
    Ok(tests.is_empty())
}

/// The formula with its columns in the order of the variables. Where its last part is denied, or one of several parts holds, the
/// columns are put in order before.
fn query_rows<P: Coder>(
    alloc: Global,
    form: &Formula,
    vars: &TypedVars,
    wanted: &Terms,
    sources: &Sources,
    coder: &P,
    network: &mut Network<P::Cell>,
) -> Result<usize, AllocError>
    requires open { IsOpen network.old }
    requires sources { AreSources network.old sources.now }
    requires ready { IsReady (P.cell_of coder.now) network.old.rels [] form.now }
    requires occurring { (x : OfVar) → binds vars.now x ≡ true → In x (occurrences form.now) }
    requires bound { (x : OfVar) → In x (occurrences form.now) → binds vars.now x ≡ true }
    requires wanted { wanted.now ≡ var_labels vars.now }
    ensures { IfOk result (λ node. Finished P.Cell.cmp P.Cell.int_of (P.cell_of coder.now) sources.now.consts form.now vars.now network.old network.new node wanted.now) }
{
    if let Some((front, right)) = denied_parts(form) {
        if !wanted.is_empty() {
            return rows_without(alloc, front, right, vars, wanted, sources, coder, network);
        }
    }
    if let Some(parts) = several_parts(form) {
        return union_rows(alloc, parts, vars, wanted, sources, coder, network);
    }
    in_order(alloc, form, vars, wanted, sources, coder, network)
}

/// The parts of a disjunction of two or more.
fn several_parts(form: &Formula) -> Option<&[Formula]>
    ensures is { IfSome result (λ parts. form.now ≡ Formula.Or parts.now) }
    ensures several { IfSome result (λ parts. 1 < length parts.now) }
{
    match form {
        Formula::Or(parts) => two_or_more(parts.as_slice()),
        _ => None,
    }
}

/// The parts, unless there is one alone or none.
fn two_or_more(parts: &[Formula]) -> Option<&[Formula]>
    ensures is { IfSome result (λ some. some.now ≡ parts.now) }
    ensures several { IfSome result (λ some. 1 < length some.now) }
{
    if parts.len() > 1 { Some(parts) } else { None }
}

/// The rows of the parts of a disjunction, each with its columns in the order of the variables.
fn union_rows<P: Coder>(
    alloc: Global,
    parts: &[Formula],
    vars: &TypedVars,
    wanted: &Terms,
    sources: &Sources,
    coder: &P,
    network: &mut Network<P::Cell>,
) -> Result<usize, AllocError>
    requires open { IsOpen network.old }
    requires sources { AreSources network.old sources.now }
    requires ready { IsReady (P.cell_of coder.now) network.old.rels [] (Formula.Or parts.now) }
    requires occurring { (x : OfVar) → binds vars.now x ≡ true → In x (occurrences (Formula.Or parts.now)) }
    requires bound { (x : OfVar) → In x (occurrences (Formula.Or parts.now)) → binds vars.now x ≡ true }
    requires wanted { wanted.now ≡ var_labels vars.now }
    requires several { 1 < length parts.now }
    ensures { IfOk result (λ node. Finished P.Cell.cmp P.Cell.int_of (P.cell_of coder.now) sources.now.consts (Formula.Or parts.now) vars.now network.old network.new node wanted.now) }
{
    let unit = Context {
        node: sources.unit,
        labels: Items::new(alloc),
    };
    let node = any_of(alloc, parts, &unit, wanted, sources, coder, network)?;
    Ok(node)
}

/// The formula behind the unit, and its columns in the order of the variables.
fn in_order<P: Coder>(
    alloc: Global,
    form: &Formula,
    vars: &TypedVars,
    wanted: &Terms,
    sources: &Sources,
    coder: &P,
    network: &mut Network<P::Cell>,
) -> Result<usize, AllocError>
    requires open { IsOpen network.old }
    requires sources { AreSources network.old sources.now }
    requires ready { IsReady (P.cell_of coder.now) network.old.rels [] form.now }
    requires occurring { (x : OfVar) → binds vars.now x ≡ true → In x (occurrences form.now) }
    requires wanted { wanted.now ≡ var_labels vars.now }
    ensures { IfOk result (λ node. Finished P.Cell.cmp P.Cell.int_of (P.cell_of coder.now) sources.now.consts form.now vars.now network.old network.new node wanted.now) }
{
    let made = behind_unit(alloc, form, sources, coder, network)?;
    let node = projected(alloc, made.node, &made.labels, wanted, network)?;
    Ok(node)
}

/// The unit, and a scan of each relation that the formula names.
fn first_sources<C: Cell>(
    alloc: Global,
    form: &Formula,
    consts: Items<Value>,
    network: &mut Network<C>,
) -> Result<Sources, AllocError>
    requires open { IsOpen network.old }
    ensures made { IfOk result (λ sources. Sourced network.old network.new sources (size form.now)) }
    ensures consts { IfOk result (λ sources. sources.consts ≡ consts) }
{
    let unit = network.add(alloc, Node::Unit)?;
    let mut rels = Items::new(alloc);
    add_relations(&mut rels, form)?;
    let mut scans = BTreeMap::new(alloc);
    scan_each(alloc, rels.as_slice(), &mut scans, network)?;
    Ok(Sources {
        unit,
        scans,
        consts,
    })
}

/// The formula behind the unit. A quantifier at its head needs no projection of its own.
fn behind_unit<P: Coder>(
    alloc: Global,
    form: &Formula,
    sources: &Sources,
    coder: &P,
    network: &mut Network<P::Cell>,
) -> Result<Context, AllocError>
    requires open { IsOpen network.old }
    requires sources { AreSources network.old sources.now }
    requires ready { IsReady (P.cell_of coder.now) network.old.rels [] form.now }
    ensures { IfOk result (λ b. Rooted P.Cell.cmp P.Cell.int_of (P.cell_of coder.now) sources.now.consts form.now network.old network.new b.node b.labels) }
{
    let unit = Context {
        node: sources.unit,
        labels: Items::new(alloc),
    };
    match form {
        Formula::Exists { vars, body } => {
            exists_behind(
                alloc,
                form,
                vars,
                body.get(),
                &unit,
                sources,
                coder,
                network,
            )
        }
        _ => plain_behind(alloc, form, &unit, sources, coder, network),
    }
}

/// A formula behind the unit as it stands.
fn plain_behind<P: Coder>(
    alloc: Global,
    form: &Formula,
    unit: &Context,
    sources: &Sources,
    coder: &P,
    network: &mut Network<P::Cell>,
) -> Result<Context, AllocError>
    requires open { IsOpen network.old }
    requires sources { AreSources network.old sources.now }
    requires unit { unit.now.node ≡ sources.now.unit }
    requires nothing { unit.now.labels ≡ [] }
    requires ready { IsReady (P.cell_of coder.now) network.old.rels [] form.now }
    ensures { IfOk result (λ b. Rooted P.Cell.cmp P.Cell.int_of (P.cell_of coder.now) sources.now.consts form.now network.old network.new b.node b.labels) }
{
    let made = compile_at(alloc, form, unit, sources, coder, network)?;
    Ok(made)
}

/// A formula with a quantifier at its head. Where it only asks whether some rows lack others, no join of the two is needed.
fn exists_behind<P: Coder>(
    alloc: Global,
    form: &Formula,
    vars: &TypedVars,
    body: &Formula,
    unit: &Context,
    sources: &Sources,
    coder: &P,
    network: &mut Network<P::Cell>,
) -> Result<Context, AllocError>
    requires open { IsOpen network.old }
    requires sources { AreSources network.old sources.now }
    requires unit { unit.now.node ≡ sources.now.unit }
    requires nothing { unit.now.labels ≡ [] }
    requires form { form.now ≡ Formula.Exists vars.now body.now }
    requires ready { IsReady (P.cell_of coder.now) network.old.rels [] (Formula.Exists vars.now body.now) }
    ensures { IfOk result (λ b. Rooted P.Cell.cmp P.Cell.int_of (P.cell_of coder.now) sources.now.consts (Formula.Exists vars.now body.now) network.old network.new b.node b.labels) }
{
    if let Some((front, right)) = lacking_parts(body) {
        if is_closed(alloc, form)? {
            return difference_rows(
                alloc, vars, body, front, right, unit, sources, coder, network,
            );
        }
    }
    chosen_behind(alloc, vars, body, unit, sources, coder, network)
}

/// A quantifier behind the unit, with the columns of its body.
fn chosen_behind<P: Coder>(
    alloc: Global,
    vars: &TypedVars,
    body: &Formula,
    unit: &Context,
    sources: &Sources,
    coder: &P,
    network: &mut Network<P::Cell>,
) -> Result<Context, AllocError>
    requires open { IsOpen network.old }
    requires sources { AreSources network.old sources.now }
    requires unit { unit.now.node ≡ sources.now.unit }
    requires nothing { unit.now.labels ≡ [] }
    requires ready { IsReady (P.cell_of coder.now) network.old.rels [] (Formula.Exists vars.now body.now) }
    ensures { IfOk result (λ b. Rooted P.Cell.cmp P.Cell.int_of (P.cell_of coder.now) sources.now.consts (Formula.Exists vars.now body.now) network.old network.new b.node b.labels) }
{
    let inner = compile_at(alloc, body, unit, sources, coder, network)?;
    let node = with_room(
        alloc,
        vars.as_slice(),
        body,
        &inner,
        sources,
        coder,
        network,
    )?;
    let labels = inner.labels;
    Ok(Context { node, labels })
}

/// Gives all values their cells.
fn put_all<P: Coder>(alloc: Global, values: &[Value], coder: &mut P) -> Result<(), AllocError>
    ensures grows { Extends (P.cell_of coder.old) (P.cell_of coder.new) }
    ensures cells { OnOk result (HaveCells (P.cell_of coder.new) values.now) }
{
    for value in values {
        coder.put(alloc, value)?;
    }
    Ok(())
}
