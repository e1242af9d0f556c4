ghost use Rattle.std.specs.Prelude.{◌≡◌, ◌<◌, ◌++◌, ◌↔◌, [], take, length, slice_get, slice_index_or, Some, Option, IfOk, OnOk, IsTrue};
ghost use Rattle.dbn_value.specs.Members.{In};
ghost use Rattle.dbn_value.specs.declared.term.Term.{Term as OfTerm};
ghost use Rattle.dbn_plan.specs.Columns.{Labelled, term_eq, position, test_of, tests_after, pair_of, pairs_from};

use dbn_nodes::{ColTest, ColTests, Pairs};
use dbn_value::{Cmp, Coder, Nums, Term, Var, compare};
use sqlite_items::Items;
use std::alloc::{AllocError, Global};

/// Whether the two are the same term.
fn same_term(a: &Term, b: &Term) -> bool
    ensures { IsTrue result ↔ (a.now ≡ b.now) }
{
    match_terms(a, b)
}

/// The same by the test of their kinds.
fn match_terms(a: &Term, b: &Term) -> bool
    ensures { result ≡ term_eq a.now b.now }
{
    match (a, b) {
        (Term::Var(x), Term::Var(y)) => x.same(y),
        (Term::Const(v), Term::Const(w)) => compare(v, w).is_eq(),
        (Term::Var(_), Term::Const(_)) => false,
        (Term::Const(_), Term::Var(_)) => false,
    }
}

/// The first column with this label.
pub(crate) fn column_of(labels: &[Term], wanted: &Term) -> usize
    requires { In wanted.now labels.now }
    ensures { slice_get labels.now result ≡ Some wanted.now }
{
    for (i, label) in labels.iter().enumerate() {
        if same_term(label, wanted) {
            return i;
        }
    }
    labels.len()
}

/// The columns with these labels.
pub(crate) fn columns_of(
    alloc: Global,
    labels: &[Term],
    wanted: &[Term],
) -> Result<Nums, AllocError>
    requires { (a : OfTerm) → In a wanted.now → In a labels.now }
    ensures { IfOk result (λ cols. Labelled labels.now cols wanted.now) }
{
    let mut cols = Vec::with_capacity(alloc, wanted.len())?;
    for label in wanted {
        cols.push(column_of(labels, label))?;
    }
    Ok(Nums::from_vec(cols))
}

/// The first column whose label is the variable.
pub(crate) fn position_of(labels: &[Term], x: &Var) -> Option<usize>
    ensures { result ≡ position labels.now x.now }
{
    for (i, label) in labels.iter().enumerate() {
        if let Term::Var(y) = label {
            if x.same(y) {
                return Some(i);
            }
        }
    }
    None
}

/// Appends the test that a term asks of its column, behind the terms that stand before it.
fn push_test<P: Coder>(
    alloc: Global,
    out: &mut ColTests<P::Cell>,
    before: &[Term],
    term: &Term,
    coder: &P,
) -> Result<(), AllocError>
    ensures { OnOk result (out.new ≡ out.old ++ test_of (P.cell_of coder.now) before.now term.now) }
{
    match term {
        Term::Const(value) => match coder.find(alloc, value)? {
            Some(cell) => out.push(ColTest::Constant {
                cmp: Cmp::Eq,
                col: before.len(),
                cell,
            }),
            None => Ok(()),
        },
        Term::Var(x) => match position_of(before, x) {
            Some(left) => out.push(ColTest::Columns {
                cmp: Cmp::Eq,
                left,
                right: before.len(),
            }),
            None => Ok(()),
        },
    }
}

/// What the terms of an atom ask of the columns of its relation.
pub(crate) fn tests_of<P: Coder>(
    alloc: Global,
    terms: &[Term],
    coder: &P,
) -> Result<ColTests<P::Cell>, AllocError>
    ensures { IfOk result (λ tests. tests ≡ tests_after (P.cell_of coder.now) [] terms.now) }
{
    let mut tests = Items::new(alloc);
    for i in 0..terms.len() {
        push_test(alloc, &mut tests, &terms[..i], &terms[i], coder)?;
    }
    Ok(tests)
}

/// Appends the pair of a term at this position with the column of the labels that has the same variable.
fn push_pair(on: &mut Pairs, labels: &[Term], i: usize, term: &Term) -> Result<(), AllocError>
    ensures { OnOk result (on.new ≡ on.old ++ pair_of labels.now i term.now) }
{
    match term {
        Term::Const(_) => Ok(()),
        Term::Var(x) => match position_of(labels, x) {
            Some(column) => on.push((column, i)),
            None => Ok(()),
        },
    }
}

/// The pairs of columns of the labels and of the terms that have the same variable.
pub(crate) fn pairs_of(alloc: Global, labels: &[Term], terms: &[Term]) -> Result<Pairs, AllocError>
    ensures { IfOk result (λ on. on ≡ pairs_from labels.now 0 terms.now) }
{
    let mut on = Items::new(alloc);
    for i in 0..terms.len() {
        push_pair(&mut on, labels, i, &terms[i])?;
    }
    Ok(on)
}

/// Whether the lists are the same.
pub(crate) fn same_terms(a: &[Term], b: &[Term]) -> bool
    ensures { IsTrue result → a.now ≡ b.now }
{
    if a.len() != b.len() {
        return false;
    }
    for i in 0..a.len() {
        if !same_term(&a[i], &b[i]) {
            return false;
        }
    }
    true
}
