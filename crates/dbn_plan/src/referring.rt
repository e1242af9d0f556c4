ghost use Rattle.std.specs.Prelude.{◌≡◌, ◌++◌, ◌∷◌, true, List, [], IfOk, IfSome, IsTrue};
ghost use Rattle.std.specs.List.{list_all};
ghost use Rattle.dbn_value.specs.Members.{In};
ghost use Rattle.dbn_value.specs.declared.term.Var.{Var as OfVar};
ghost use Rattle.dbn_value.specs.declared.term.Term.{Term as OfTerm};
ghost use Rattle.dbn_formula.specs.declared.formula.Formula.{Formula};
ghost use Rattle.dbn_formula.specs.Free.{occurrences};
ghost use Rattle.dbn_formula.specs.Safe.{safe_in_order};
ghost use Rattle.dbn_formula.specs.Variables.{binds, is_in};
ghost use Rattle.dbn_plan.specs.Meaning.{vars_of};
ghost use Rattle.dbn_plan.specs.Making.{IsOpen, Placed, AreSources, IsReady};
ghost use Rattle.dbn_plan.specs.Answering.{Rooted, Finished, var_labels};
ghost use Rattle.dbn_plan.specs.Referring.{lacking, IsLacking, IsSolved, IsDifference, Difference, DeniedMade};

use super::context::Context;
use super::forms::{all_parts, compile_at};
use super::labels::labels_behind;
use super::room::{is_among, with_room};
use super::sources::Sources;
use super::steps::shown;
use dbn_formula::{Formula, free};
use dbn_network::Network;
use dbn_nodes::Node;
use dbn_value::{Cell, Coder, ColType, CopyIn, Terms, TypedVars, Var};
use sqlite_items::Items;
use std::alloc::{AllocError, Global};

/// Whether the formula is an atom.
fn is_atom(f: &Formula) -> bool
    ensures { IsTrue result → (bound : List OfVar) → safe_in_order f.now bound ≡ true }
{
    match f {
        Formula::Atom { .. } => true,
        _ => false,
    }
}

/// Whether the formula is an atom, or an `exists` over one: it is solved by itself.
fn is_plain(f: &Formula) -> bool
    ensures { IsTrue result → safe_in_order f.now [] ≡ true }
{
    match f {
        Formula::Atom { .. } => true,
        Formula::Exists { vars: _, body } => is_atom(body.get()),
        _ => false,
    }
}

/// Of a conjunction whose last part is denied the parts before it, and what is denied.
pub(crate) fn denied_parts(form: &Formula) -> Option<(&[Formula], &Formula)>
    ensures { IfSome result (λ p. form.now ≡ lacking p.0.now p.1.now) }
{
    match form {
        Formula::And(parts) => last_denied(parts.as_slice()),
        _ => None,
    }
}

/// The same of the parts of an `and`.
fn last_denied(parts: &[Formula]) -> Option<(&[Formula], &Formula)>
    ensures { IfSome result (λ p. Formula.And parts.now ≡ lacking p.0.now p.1.now) }
{
    match parts.split_last() {
        Some((last, front)) => denied_behind(front, last),
        None => None,
    }
}

/// The same of the last part and those before it.
fn denied_behind<'x>(
    front: &'x [Formula],
    last: &'x Formula,
) -> Option<(&'x [Formula], &'x Formula)>
    ensures { IfSome result (λ p. Formula.And (front.now ++ last.now ∷ []) ≡ lacking p.0.now p.1.now) }
{
    match last {
        Formula::Not(right) => Some((front, right.get())),
        _ => None,
    }
}

/// The same, where the last part denies what is solved by itself.
pub(crate) fn lacking_parts(body: &Formula) -> Option<(&[Formula], &Formula)>
    ensures { IfSome result (λ p. IsLacking body.now p.0.now p.1.now) }
{
    match denied_parts(body) {
        Some((front, right)) => plain_parts(front, right),
        None => None,
    }
}

/// The two, where the second one is solved by itself.
fn plain_parts<'x>(front: &'x [Formula], right: &'x Formula) -> Option<(&'x [Formula], &'x Formula)>
    ensures { IfSome result (λ p. IsLacking (lacking front.now right.now) p.0.now p.1.now) }
{
    if is_plain(right) {
        Some((front, right))
    } else {
        None
    }
}

/// Whether the formula has no free variable. An error is want of memory.
pub(crate) fn is_closed(alloc: Global, f: &Formula) -> Result<bool, AllocError>
    ensures { IfOk result (λ closed. IsTrue closed → occurrences f.now ≡ []) }
{
    let vars = free(alloc, f)?;
    Ok(vars.is_empty())
}

/// The rows behind the unit of `exists` over a body whose first parts hold and whose last part, solved by itself, doesn't: what a
/// projection of the first ones has and a projection of the last one hasn't. No join of the two is kept.
pub(crate) fn difference_rows<P: Coder>(
    alloc: Global,
    vars: &TypedVars,
    body: &Formula,
    front: &[Formula],
    right: &Formula,
    unit: &Context,
    sources: &Sources,
    coder: &P,
    network: &mut Network<P::Cell>,
) -> Result<Context, AllocError>
    requires open { IsOpen network.old }
    requires sources { AreSources network.old sources.now }
    requires unit { unit.now.node ≡ sources.now.unit }
    requires nothing { unit.now.labels ≡ [] }
    requires parts { IsLacking body.now front.now right.now }
    requires ready { IsReady (P.cell_of coder.now) network.old.rels [] (Formula.Exists vars.now body.now) }
    requires closed { occurrences (Formula.Exists vars.now body.now) ≡ [] }
    ensures { IfOk result (λ b. Rooted P.Cell.cmp P.Cell.int_of (P.cell_of coder.now) sources.now.consts (Formula.Exists vars.now body.now) network.old network.new b.node b.labels) }
{
    let first = all_parts(alloc, front, unit, sources, coder, network)?;
    let second = compile_at(alloc, right, unit, sources, coder, network)?;
    let wanted = labels_behind(alloc, right, &unit.labels)?;
    let less = difference(alloc, &first, &second, wanted, network)?;
    let node = with_room(alloc, vars.as_slice(), body, &less, sources, coder, network)?;
    let labels = less.labels;
    Ok(Context { node, labels })
}

/// What one node has at these labels, and the other hasn't.
fn difference<C: Cell>(
    alloc: Global,
    left: &Context,
    right: &Context,
    wanted: Terms,
    network: &mut Network<C>,
) -> Result<Context, AllocError>
    requires open { IsOpen network.old }
    requires left { Placed network.old left.now.node left.now.labels }
    requires right { Placed network.old right.now.node right.now.labels }
    requires in_left { (a : OfTerm) → In a wanted → In a left.now.labels }
    requires in_right { (a : OfTerm) → In a wanted → In a right.now.labels }
    ensures made { IfOk result (λ b. Difference C.cmp C.int_of network.old network.new left.now.node left.now.labels right.now.node right.now.labels b.node wanted) }
    ensures labels { IfOk result (λ b. b.labels ≡ wanted) }
    ensures kept { IfOk result (λ b. IsDifference network.new b.node) }
{
    let from = shown(alloc, left.node, &left.labels, &wanted, network)?;
    let other = shown(alloc, right.node, &right.labels, &wanted, network)?;
    let node = network.add(
        alloc,
        Node::Diff {
            left: from,
            right: other,
        },
    )?;
    Ok(Context {
        node,
        labels: wanted,
    })
}

/// Whether the formula is solved by itself, with a column for each of the variables. An error is want of memory.
fn is_solved_alone(alloc: Global, f: &Formula, vars: &TypedVars) -> Result<bool, AllocError>
    ensures { IfOk result (λ alone. IsTrue alone → IsSolved f.now vars.now) }
{
    if !is_plain(f) {
        return Ok(false);
    }
    let own = free(alloc, f)?;
    Ok(are_among(own.as_slice(), vars.as_slice()))
}

/// Whether each of the variables is one of these.
pub(crate) fn are_among(own: &[Var], vars: &[(Var, ColType)]) -> bool
    ensures { result ≡ list_all (λ v. is_in v.0 own.now) vars.now }
{
    vars.iter().all(|v| is_among(own, &v.0))
}

/// The rows that a part denies: those of the part by itself, where it has a column for each variable of the query, and else those
/// behind the first parts.
fn denied_rows<P: Coder>(
    alloc: Global,
    right: &Formula,
    vars: &TypedVars,
    unit: &Context,
    first: &Context,
    sources: &Sources,
    coder: &P,
    network: &mut Network<P::Cell>,
) -> Result<Context, AllocError>
    requires open { IsOpen network.old }
    requires placed { Placed network.old first.now.node first.now.labels }
    requires sources { AreSources network.old sources.now }
    requires unit { unit.now.node ≡ sources.now.unit }
    requires nothing { unit.now.labels ≡ [] }
    requires ready { IsReady (P.cell_of coder.now) network.old.rels (vars_of first.now.labels) right.now }
    ensures { IfOk result (λ b. DeniedMade P.Cell.cmp P.Cell.int_of (P.cell_of coder.now) sources.now.consts right.now vars.now network.old network.new unit.now.node unit.now.labels first.now.node first.now.labels b.node b.labels) }
{
    if is_solved_alone(alloc, right, vars)? {
        let alone = compile_at(alloc, right, unit, sources, coder, network)?;
        return Ok(alone);
    }
    let behind = compile_at(alloc, right, first, sources, coder, network)?;
    Ok(behind)
}

/// The rows of a query whose first parts hold and whose last part doesn't: what one node has in the order of the variables, and
/// another one hasn't.
pub(crate) fn rows_without<P: Coder>(
    alloc: Global,
    front: &[Formula],
    right: &Formula,
    vars: &TypedVars,
    wanted: &Terms,
    sources: &Sources,
    coder: &P,
    network: &mut Network<P::Cell>,
) -> Result<usize, AllocError>
    requires open { IsOpen network.old }
    requires sources { AreSources network.old sources.now }
    requires ready { IsReady (P.cell_of coder.now) network.old.rels [] (lacking front.now right.now) }
    requires occurring { (x : OfVar) → binds vars.now x ≡ true → In x (occurrences (lacking front.now right.now)) }
    requires bound { (x : OfVar) → In x (occurrences (lacking front.now right.now)) → binds vars.now x ≡ true }
    requires wanted { wanted.now ≡ var_labels vars.now }
    requires some { wanted.now ≡ [] → ⊥ }
    ensures { IfOk result (λ node. Finished P.Cell.cmp P.Cell.int_of (P.cell_of coder.now) sources.now.consts (lacking front.now right.now) vars.now network.old network.new node wanted.now) }
{
    let unit = Context {
        node: sources.unit,
        labels: Items::new(alloc),
    };
    let first = all_parts(alloc, front, &unit, sources, coder, network)?;
    let second = denied_rows(alloc, right, vars, &unit, &first, sources, coder, network)?;
    let columns = wanted.copy_in(alloc)?;
    let less = difference(alloc, &first, &second, columns, network)?;
    Ok(less.node)
}
