//! Tests of the terms of a declaration.

ghost use Rattle.std.specs.Prelude.{◌≡◌, ◌++◌, true, IfOk, OnOk};
ghost use Rattle.std.specs.List.{list_all};
ghost use Rattle.std.specs.Option.{option_map_or};
ghost use Rattle.dbn_formula.specs.Variables.{binds};
ghost use Rattle.dbn_formula.specs.Free.{variable_of};
ghost use Rattle.dbn_net.specs.Tables.{types_of, with_type, scope_of, columns, action_shapes};
ghost use Rattle.dbn_net.specs.Judging.{all_patterns, all_facts, all_terms};
ghost use Rattle.dbn_reader.specs.Terms.{tested, all_of_action, all_of_transition};

use super::numbers::columns;
use dbn_formula::{binds, terms_fit};
use dbn_instance::{Action, FactPattern};
use dbn_net::{Arc, Call, Net, Pattern, Read, Transition};
use dbn_value::{ColType, CopyIn, Shape, Shapes, Term, TypedVars, Var};
use sqlite_items::Items;
use std::alloc::{AllocError, Global};

/// A test of terms under a scope, against the columns at which they stand.
#[derive(Clone, Copy, Debug, PartialEq, Eq, Drop)]
pub(crate) enum TermTest {
    /// There are as many terms as columns.
    AsMany,
    /// Each term that has a type has that of its column.
    Fit,
    /// Each variable is in the scope.
    Bound,
}

/// Whether the variable, if the term is one, is in the scope.
fn term_bound(scope: &[(Var, ColType)], term: &Term) -> bool
    ensures { result ≡ list_all (binds scope.now) (variable_of term.now) }
{
    match term {
        Term::Var(var) => binds(scope, var),
        Term::Const(_) => true,
    }
}

fn terms_bound(scope: &[(Var, ColType)], terms: &[Term]) -> bool
    ensures { result ≡ list_all (λ t. list_all (binds scope.now) (variable_of t)) terms.now }
{
    for term in terms {
        if !term_bound(scope, term) {
            return false;
        }
    }
    true
}

/// Whether the terms pass the test. This takes no memory.
#[tactic(auto, using(crate::proofs::TermLaws::all_flat))]
fn passes(test: TermTest, scope: &[(Var, ColType)], terms: &[Term], shape: &[ColType]) -> bool
    ensures { result ≡ tested test scope.now terms.now shape.now }
{
    match test {
        TermTest::AsMany => terms.len() == shape.len(),
        TermTest::Fit => terms_fit(terms, shape, scope),
        TermTest::Bound => terms_bound(scope, terms),
    }
}

fn patterns_pass(
    test: TermTest,
    scope: &[(Var, ColType)],
    patterns: &[Pattern],
    shape: &[ColType],
) -> bool
    ensures { result ≡ list_all (λ p. tested test scope.now p.terms shape.now) patterns.now }
{
    for pattern in patterns {
        if !passes(test, scope, pattern.terms.as_slice(), shape) {
            return false;
        }
    }
    true
}

fn arcs_pass(test: TermTest, scope: &[(Var, ColType)], sites: &Shapes, arcs: &[Arc]) -> bool
    ensures { result ≡ all_patterns (tested test scope.now) sites.now arcs.now }
{
    for arc in arcs {
        let shape = columns(sites, arc.place);
        if !patterns_pass(test, scope, arc.patterns.as_slice(), shape) {
            return false;
        }
    }
    true
}

fn reads_pass(test: TermTest, scope: &[(Var, ColType)], sites: &Shapes, reads: &[Read]) -> bool
    ensures { result ≡ list_all (λ r. tested test scope.now r.terms (columns sites.now r.view)) reads.now }
{
    for read in reads {
        if !passes(
            test,
            scope,
            read.terms.as_slice(),
            columns(sites, read.view),
        ) {
            return false;
        }
    }
    true
}

/// Whether the terms of each fact pass the test, against the columns of its relation. This takes no memory.
fn facts_pass(
    test: TermTest,
    scope: &[(Var, ColType)],
    rels: &Shapes,
    facts: &[FactPattern],
) -> bool
    ensures { result ≡ all_facts (tested test scope.now) rels.now facts.now }
{
    for fact in facts {
        if !passes(test, scope, fact.terms.as_slice(), columns(rels, fact.rel)) {
            return false;
        }
    }
    true
}

/// Whether all terms of the action pass the test, under its parameters. This takes no memory.
pub(crate) fn action_passes(test: TermTest, net: &Net, action: &Action) -> bool
    ensures { result ≡ all_of_action test net.now action.now }
{
    let params = action.params.as_slice();
    let rels = net.rel_shapes();
    facts_pass(test, params, rels, action.deletes.as_slice())
        && facts_pass(test, params, rels, action.adds.as_slice())
}

/// The types of the variables. An error is want of memory.
fn types_of(alloc: Global, vars: &[(Var, ColType)]) -> Result<Shape, AllocError>
    ensures { IfOk result (λ shape. shape ≡ types_of vars.now) }
{
    let mut shape = Items::new(alloc);
    for var in vars {
        shape.push(var.1)?;
    }
    Ok(shape)
}

/// The types of the parameters of the action; none where there is no such action. An error is want of memory.
#[tactic(auto, using(crate::proofs::TermLaws::action_laws))]
fn parameter_types(alloc: Global, net: &Net, action: usize) -> Result<Shape, AllocError>
    ensures { IfOk result (λ shape. shape ≡ columns (action_shapes net.now) action) }
{
    if action < net.actions() {
        types_of(alloc, net.action_at(action).params.as_slice())
    } else {
        Ok(Items::new(alloc))
    }
}

fn call_passes(
    alloc: Global,
    net: &Net,
    test: TermTest,
    scope: &[(Var, ColType)],
    call: &Option<Call>,
) -> Result<bool, AllocError>
    ensures { IfOk result (λ ok. ok ≡ option_map_or (λ c. tested test scope.now c.args (columns (action_shapes net.now) c.action)) call.now true) }
{
    match call {
        None => Ok(true),
        Some(call) => {
            let shape = parameter_types(alloc, net, call.action)?;
            Ok(passes(test, scope, call.args.as_slice(), shape.as_slice()))
        }
    }
}

/// All variables of the transition. An error is want of memory.
fn scope_of(alloc: Global, transition: &Transition) -> Result<TypedVars, AllocError>
    ensures { IfOk result (λ scope. scope ≡ scope_of transition.now) }
{
    let mut scope = transition.bound.copy_in(alloc)?;
    scope.append(transition.asked.copy_in(alloc)?)?;
    add_fresh(alloc, &mut scope, transition.fresh.as_slice())?;
    Ok(scope)
}

fn add_fresh(alloc: Global, scope: &mut TypedVars, fresh: &[Var]) -> Result<(), AllocError>
    ensures { OnOk result (scope.new ≡ scope.old ++ with_type ColType.Id fresh.now) }
{
    for var in fresh {
        scope.push((var.copy_in(alloc)?, ColType::Id))?;
    }
    Ok(())
}

/// Whether all terms of the transition pass the test: those of `in` and `read` clauses under the scope `before`, those of the
/// others under the scope `after`. An error is want of memory.
fn terms_pass(
    alloc: Global,
    net: &Net,
    test: TermTest,
    before: &[(Var, ColType)],
    after: &[(Var, ColType)],
    transition: &Transition,
) -> Result<bool, AllocError>
    ensures { IfOk result (λ ok. ok ≡ all_terms (tested test before.now) (tested test after.now) net.now transition.now) }
{
    let sites = net.place_shapes();
    if !arcs_pass(test, before, sites, transition.ins.as_slice()) {
        return Ok(false);
    }
    if !reads_pass(test, before, sites, transition.reads.as_slice()) {
        return Ok(false);
    }
    if !call_passes(alloc, net, test, after, &transition.call)? {
        return Ok(false);
    }
    if !arcs_pass(test, after, sites, transition.outs.as_slice()) {
        return Ok(false);
    }
    Ok(arcs_pass(test, after, sites, transition.backs.as_slice()))
}

/// Whether all terms of the transition pass the test, each under the variables that have values where it stands. An error is
/// want of memory.
pub(crate) fn transition_passes(
    alloc: Global,
    net: &Net,
    test: TermTest,
    transition: &Transition,
) -> Result<bool, AllocError>
    ensures { IfOk result (λ ok. ok ≡ all_of_transition test net.now transition.now) }
{
    let scope = scope_of(alloc, transition)?;
    let bound = transition.bound.as_slice();
    terms_pass(alloc, net, test, bound, scope.as_slice(), transition)
}
