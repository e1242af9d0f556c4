ghost use Rattle.std.specs.Prelude.{◌≡◌, true, false, List, Some, IfOk};
ghost use Rattle.dbn_value.specs.Members.{In};
ghost use Rattle.dbn_value.specs.declared.value.Value.{Value as Val};
ghost use Rattle.dbn_value.specs.declared.term.Term.{Term as OfTerm};
ghost use Rattle.dbn_formula.specs.declared.formula.Formula.{Formula};
ghost use Rattle.dbn_formula.specs.Answers.{constant_of};
ghost use Rattle.dbn_formula.specs.Safe.{known};
ghost use Rattle.dbn_plan.specs.Meaning.{vars_of};
ghost use Rattle.dbn_plan.specs.Columns.{HaveCells};
ghost use Rattle.dbn_plan.specs.Making.{IsOpen, Placed, IsReady, Made};
ghost use Rattle.dbn_plan.specs.Comparing.{turned, AddedFor, Equated, Compared};

use super::columns::{column_of, position_of};
use super::context::Context;
use super::steps::{nothing, selected};
use dbn_network::Network;
use dbn_nodes::{Added, ColTest, Node};
use dbn_value::{Cell, Cmp, Coder, CopyIn, Term, Value, compare};
use sqlite_items::Items;
use std::alloc::{AllocError, Global};

/// Whether the term is a constant or has a column.
fn is_known(labels: &[Term], term: &Term) -> bool
    ensures { result ≡ known (vars_of labels.now) term.now }
{
    match term {
        Term::Var(x) => position_of(labels, x).is_some(),
        Term::Const(_) => true,
    }
}

/// The comparison with its sides changed.
fn turned(cmp: Cmp) -> Cmp
    ensures { result ≡ turned cmp }
{
    match cmp {
        Cmp::Eq => Cmp::Eq,
        Cmp::Ne => Cmp::Ne,
        Cmp::Lt => Cmp::Gt,
        Cmp::Le => Cmp::Ge,
        Cmp::Gt => Cmp::Lt,
        Cmp::Ge => Cmp::Le,
    }
}

/// The cell of a value that has one.
fn cell_of<P: Coder>(alloc: Global, value: &Value, coder: &P) -> Result<P::Cell, AllocError>
    requires { (c : P.Cell) × (P.cell_of coder.now value.now ≡ Some c) }
    ensures { IfOk result (λ c. P.cell_of coder.now value.now ≡ Some c) }
{
    match coder.find(alloc, value)? {
        Some(cell) => Ok(cell),
        None => unreachable!(),
    }
}

/// The rows of the context that meet the comparison. An equation whose other side isn't known gives it a column.
pub(crate) fn comparison<P: Coder>(
    alloc: Global,
    cmp: Cmp,
    left: &Term,
    right: &Term,
    at: &Context,
    coder: &P,
    network: &mut Network<P::Cell>,
) -> Result<Context, AllocError>
    requires open { IsOpen network.old }
    requires placed { Placed network.old at.now.node at.now.labels }
    requires ready { IsReady (P.cell_of coder.now) network.old.rels (vars_of at.now.labels) (Formula.Test cmp left.now right.now) }
    ensures { IfOk result (λ b. (consts : List Val) → Made P.Cell.cmp P.Cell.int_of (P.cell_of coder.now) consts (Formula.Test cmp left.now right.now) network.old network.new at.now.node at.now.labels b.node b.labels) }
{
    if !is_known(at.labels.as_slice(), left) {
        let made = equal_to(alloc, right, left, at, coder, network)?;
        return Ok(made);
    }
    if !is_known(at.labels.as_slice(), right) {
        let made = equal_to(alloc, left, right, at, coder, network)?;
        return Ok(made);
    }
    let node = compared(alloc, cmp, left, right, at, coder, network)?;
    let labels = at.labels.copy_in(alloc)?;
    Ok(Context { node, labels })
}

/// One more column, for a variable that isn't known, with the value of a term that is.
fn equal_to<P: Coder>(
    alloc: Global,
    by: &Term,
    added: &Term,
    at: &Context,
    coder: &P,
    network: &mut Network<P::Cell>,
) -> Result<Context, AllocError>
    requires open { IsOpen network.old }
    requires placed { Placed network.old at.now.node at.now.labels }
    requires known { known (vars_of at.now.labels) by.now ≡ true }
    requires unknown { known (vars_of at.now.labels) added.now ≡ false }
    requires cells { HaveCells (P.cell_of coder.now) (constant_of by.now) }
    ensures { IfOk result (λ b. Equated P.Cell.cmp P.Cell.int_of (P.cell_of coder.now) by.now added.now network.old network.new at.now.node at.now.labels b.node b.labels) }
{
    let with = added_for(alloc, by, at.labels.as_slice(), coder)?;
    let mut labels = at.labels.copy_in(alloc)?;
    labels.push(added.copy_in(alloc)?)?;
    let node = network.add(
        alloc,
        Node::Extend {
            from: at.node,
            with,
        },
    )?;
    Ok(Context { node, labels })
}

/// What the column holds that has the value of a known term.
fn added_for<P: Coder>(
    alloc: Global,
    by: &Term,
    labels: &[Term],
    coder: &P,
) -> Result<Added<P::Cell>, AllocError>
    requires known { known (vars_of labels.now) by.now ≡ true }
    requires cells { HaveCells (P.cell_of coder.now) (constant_of by.now) }
    ensures { IfOk result (λ with. AddedFor (P.cell_of coder.now) labels.now by.now with) }
{
    match by {
        Term::Var(_) => Ok(Added::Copied(column_of(labels, by))),
        Term::Const(value) => Ok(Added::Constant(cell_of(alloc, value, coder)?)),
    }
}

/// The rows of the context that meet a comparison of two known terms.
fn compared<P: Coder>(
    alloc: Global,
    cmp: Cmp,
    left: &Term,
    right: &Term,
    at: &Context,
    coder: &P,
    network: &mut Network<P::Cell>,
) -> Result<usize, AllocError>
    requires open { IsOpen network.old }
    requires placed { Placed network.old at.now.node at.now.labels }
    requires left { known (vars_of at.now.labels) left.now ≡ true }
    requires right { known (vars_of at.now.labels) right.now ≡ true }
    requires left_cells { HaveCells (P.cell_of coder.now) (constant_of left.now) }
    requires right_cells { HaveCells (P.cell_of coder.now) (constant_of right.now) }
    ensures { IfOk result (λ made. Compared P.Cell.cmp P.Cell.int_of (P.cell_of coder.now) cmp left.now right.now network.old network.new at.now.node at.now.labels made) }
{
    match (left, right) {
        (Term::Var(_), Term::Var(_)) => columns_compared(
            alloc, cmp, left, right, at, coder, network,
        ),
        (Term::Var(_), Term::Const(value)) => {
            column_compared(alloc, cmp, left, value, at, coder, network)
        }
        (Term::Const(value), Term::Var(_)) => {
            column_compared(alloc, turned(cmp), right, value, at, coder, network)
        }
        (Term::Const(v), Term::Const(w)) => constants_compared(
            alloc, cmp, v, w, at, coder, network,
        ),
    }
}

/// The rows of the context in which two columns compare so.
fn columns_compared<P: Coder>(
    alloc: Global,
    cmp: Cmp,
    left: &Term,
    right: &Term,
    at: &Context,
    _coder: &P,
    network: &mut Network<P::Cell>,
) -> Result<usize, AllocError>
    requires open { IsOpen network.old }
    requires placed { Placed network.old at.now.node at.now.labels }
    requires left { In left.now at.now.labels }
    requires right { In right.now at.now.labels }
    ensures { IfOk result (λ made. Compared P.Cell.cmp P.Cell.int_of (P.cell_of _coder.now) cmp left.now right.now network.old network.new at.now.node at.now.labels made) }
{
    let mut tests = Items::new(alloc);
    tests.push(ColTest::Columns {
        cmp,
        left: column_of(at.labels.as_slice(), left),
        right: column_of(at.labels.as_slice(), right),
    })?;
    let made = selected(alloc, at.node, tests, network)?;
    Ok(made)
}

/// The rows of the context in which a column and a value compare so.
fn column_compared<P: Coder>(
    alloc: Global,
    cmp: Cmp,
    left: &Term,
    right: &Value,
    at: &Context,
    coder: &P,
    network: &mut Network<P::Cell>,
) -> Result<usize, AllocError>
    requires open { IsOpen network.old }
    requires placed { Placed network.old at.now.node at.now.labels }
    requires left { In left.now at.now.labels }
    requires cell { (c : P.Cell) × (P.cell_of coder.now right.now ≡ Some c) }
    ensures { IfOk result (λ made. Compared P.Cell.cmp P.Cell.int_of (P.cell_of coder.now) cmp left.now (OfTerm.Const right.now) network.old network.new at.now.node at.now.labels made) }
{
    let mut tests = Items::new(alloc);
    let cell = cell_of(alloc, right, coder)?;
    tests.push(ColTest::Constant {
        cmp,
        col: column_of(at.labels.as_slice(), left),
        cell,
    })?;
    let made = selected(alloc, at.node, tests, network)?;
    Ok(made)
}

/// All rows of the context or none, as two values compare.
fn constants_compared<P: Coder>(
    alloc: Global,
    cmp: Cmp,
    left: &Value,
    right: &Value,
    at: &Context,
    _coder: &P,
    network: &mut Network<P::Cell>,
) -> Result<usize, AllocError>
    requires open { IsOpen network.old }
    requires placed { Placed network.old at.now.node at.now.labels }
    ensures { IfOk result (λ made. Compared P.Cell.cmp P.Cell.int_of (P.cell_of _coder.now) cmp (OfTerm.Const left.now) (OfTerm.Const right.now) network.old network.new at.now.node at.now.labels made) }
{
    if cmp.meets(compare(left, right)) {
        return Ok(at.node);
    }
    let made = nothing(alloc, at, network)?;
    Ok(made)
}
