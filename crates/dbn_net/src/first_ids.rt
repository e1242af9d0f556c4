//! The first id that no value of a net or of a state has.

ghost use Rattle.std.specs.Prelude.{◌≡◌, ◌≤◌, ◌^◌, [], max, IfOk};
ghost use Rattle.std.specs.List.{flat_map};
ghost use Rattle.std.specs.Option.{option_map_or};
ghost use Rattle.dbn_formula.specs.Answers.{constant_of, constants, values_in};
ghost use Rattle.dbn_net.specs.Kept.{noted_of};
ghost use Rattle.dbn_net.specs.Values.{constants_of, arc_constants, fact_constants, transition_constants, decl_constants, token_values, past_id, past_ids};

use super::decl::Decl;
use super::rules::{Arc, Call, Pattern, Read, Transition};
use super::sentences::line_of;
use super::tables::Noted;
use dbn_formula::{Formula, constants};
use dbn_instance::{FactPattern, Instance};
use dbn_marking::Marking;
use dbn_value::{Row, Shapes, Term, Value};
use std::alloc::{AllocError, Global};
use std::collections::{BTreeMap, BTreeSet};

/// The greater of the two.
pub(crate) fn greater(a: u64, b: u64) -> u64
    ensures { result ≡ max a b }
{
    a.max(b)
}

/// One more than an id, and 0 for other values.
fn past_value(value: &Value) -> u64
    ensures value { result ≡ past_id value.now }
    ensures small { result ≤ 2 ^ 62 }
{
    match value {
        Value::Int(_) => 0,
        Value::Text(_) => 0,
        Value::Id(id) => id.number() + 1,
    }
}

#[tactic(auto, using(crate::proofs::NextLaws::past_append))]
fn past_values(values: &[Value]) -> u64
    ensures value { result ≡ past_ids values.now }
    ensures small { result ≤ 2 ^ 62 }
{
    let mut next = 0;
    for value in values {
        next = greater(next, past_value(value));
    }
    next
}

#[tactic(auto, using(crate::proofs::NextLaws::past_append))]
fn past_rows(rows: &BTreeSet<Row<Value>>) -> u64
    ensures value { result ≡ past_ids (flat_map (λ row. row) rows.now.keys) }
    ensures small { result ≤ 2 ^ 62 }
{
    let mut next = 0;
    for row in rows {
        next = greater(next, past_values(row.as_slice()));
    }
    next
}

#[tactic(auto, using(crate::proofs::NextLaws::past_append))]
fn past_counts(counts: &BTreeMap<Row<Value>, u64>) -> u64
    ensures value { result ≡ past_ids (flat_map (λ counted. counted.0) counts.now.entries) }
    ensures small { result ≤ 2 ^ 62 }
{
    let mut next = 0;
    for (row, _) in counts {
        next = greater(next, past_values(row.as_slice()));
    }
    next
}

/// One more than the greatest id of the facts, or 0 where there is none.
#[tactic(auto, using(crate::proofs::NextLaws::past_append, crate::proofs::NextLaws::past_more))]
pub(crate) fn past_instance(instance: &Instance<Value>) -> u64
    ensures value { result ≡ past_ids (values_in instance.now) }
    ensures small { result ≤ 2 ^ 62 }
{
    let mut next = 0;
    for rel in 0..instance.relations() {
        next = greater(next, past_rows(instance.row_set(rel)));
    }
    next
}

/// One more than the greatest id of the tokens, or 0 where there is none.
#[tactic(auto, using(crate::proofs::NextLaws::past_append, crate::proofs::NextLaws::past_more))]
pub(crate) fn past_marking(marking: &Marking<Value>) -> u64
    ensures value { result ≡ past_ids (token_values marking.now) }
    ensures small { result ≤ 2 ^ 62 }
{
    let mut next = 0;
    for place in 0..marking.places() {
        next = greater(next, past_counts(marking.counts(place)));
    }
    next
}

#[tactic(auto, using(crate::proofs::NextLaws::past_append))]
fn past_term(term: &Term) -> u64
    ensures value { result ≡ past_ids (constant_of term.now) }
    ensures small { result ≤ 2 ^ 62 }
{
    match term {
        Term::Var(_) => 0,
        Term::Const(value) => past_value(value),
    }
}

#[tactic(auto, using(crate::proofs::NextLaws::past_append))]
fn past_terms(terms: &[Term]) -> u64
    ensures value { result ≡ past_ids (constants_of terms.now) }
    ensures small { result ≤ 2 ^ 62 }
{
    let mut next = 0;
    for term in terms {
        next = greater(next, past_term(term));
    }
    next
}

#[tactic(auto, using(crate::proofs::NextLaws::past_append))]
fn past_patterns(patterns: &[Pattern]) -> u64
    ensures value { result ≡ past_ids (flat_map (λ p. constants_of p.terms) patterns.now) }
    ensures small { result ≤ 2 ^ 62 }
{
    let mut next = 0;
    for pattern in patterns {
        next = greater(next, past_terms(pattern.terms.as_slice()));
    }
    next
}

#[tactic(auto, using(crate::proofs::NextLaws::past_append))]
fn past_arcs(arcs: &[Arc]) -> u64
    ensures value { result ≡ past_ids (arc_constants arcs.now) }
    ensures small { result ≤ 2 ^ 62 }
{
    let mut next = 0;
    for arc in arcs {
        next = greater(next, past_patterns(arc.patterns.as_slice()));
    }
    next
}

#[tactic(auto, using(crate::proofs::NextLaws::past_append))]
fn past_reads(reads: &[Read]) -> u64
    ensures value { result ≡ past_ids (flat_map (λ r. constants_of r.terms) reads.now) }
    ensures small { result ≤ 2 ^ 62 }
{
    let mut next = 0;
    for read in reads {
        next = greater(next, past_terms(read.terms.as_slice()));
    }
    next
}

#[tactic(auto, using(crate::proofs::NextLaws::past_append))]
fn past_facts(patterns: &[FactPattern]) -> u64
    ensures value { result ≡ past_ids (fact_constants patterns.now) }
    ensures small { result ≤ 2 ^ 62 }
{
    let mut next = 0;
    for pattern in patterns {
        next = greater(next, past_terms(pattern.terms.as_slice()));
    }
    next
}

fn past_formula(alloc: Global, f: &Formula) -> Result<u64, AllocError>
    ensures value { IfOk result (λ next. next ≡ past_ids (constants f.now)) }
    ensures small { IfOk result (λ next. next ≤ 2 ^ 62) }
{
    let values = constants(alloc, f)?;
    Ok(past_values(values.as_slice()))
}

fn past_guard(alloc: Global, guard: &Option<Formula>) -> Result<u64, AllocError>
    ensures value { IfOk result (λ next. next ≡ past_ids (option_map_or constants guard.now [])) }
    ensures small { IfOk result (λ next. next ≤ 2 ^ 62) }
{
    match guard {
        Some(f) => past_formula(alloc, f),
        None => Ok(0),
    }
}

fn past_call(call: &Option<Call>) -> u64
    ensures value { result ≡ past_ids (option_map_or (λ c. constants_of c.args) call.now []) }
    ensures small { result ≤ 2 ^ 62 }
{
    match call {
        Some(call) => past_terms(call.args.as_slice()),
        None => 0,
    }
}

#[tactic(auto, using(crate::proofs::NextLaws::past_append))]
fn past_transition(alloc: Global, t: &Transition) -> Result<u64, AllocError>
    ensures value { IfOk result (λ next. next ≡ past_ids (transition_constants t.now)) }
    ensures small { IfOk result (λ next. next ≤ 2 ^ 62) }
{
    let taken = greater(past_arcs(t.ins.as_slice()), past_reads(t.reads.as_slice()));
    let judged = greater(past_guard(alloc, &t.guard)?, past_call(&t.call));
    let given = greater(past_arcs(t.outs.as_slice()), past_arcs(t.backs.as_slice()));
    Ok(greater(greater(taken, judged), given))
}

/// One more than the greatest id that is written in the declaration, or 0 where there is none.
#[tactic(auto, using(crate::proofs::NextLaws::past_append))]
fn past_decl(alloc: Global, decl: &Decl) -> Result<u64, AllocError>
    ensures value { IfOk result (λ next. next ≡ past_ids (decl_constants decl.now)) }
    ensures small { IfOk result (λ next. next ≤ 2 ^ 62) }
{
    match decl {
        Decl::Always { body, .. } => past_formula(alloc, body),
        Decl::Query { body, .. } => past_formula(alloc, body),
        Decl::Act(a) => {
            Ok(greater(
                past_facts(a.deletes.as_slice()),
                past_facts(a.adds.as_slice()),
            ))
        },
        Decl::Trans(t) => past_transition(alloc, t),
        Decl::Relation { .. } => Ok(0),
        Decl::Key { .. } => Ok(0),
        Decl::Foreign { .. } => Ok(0),
        Decl::Site(_) => Ok(0),
    }
}

/// What the declaration adds to the tables, over the columns of the relations and of the queries.
#[tactic(auto, unfolding(crate::specs::Kept::noted_of))]
pub(crate) fn noted(
    alloc: Global,
    rels: &Shapes,
    asks: &Shapes,
    decl: &Decl,
) -> Result<Noted, AllocError>
    ensures value { IfOk result (λ n. n ≡ noted_of rels.now asks.now decl.now) }
    ensures small { IfOk result (λ n. n.past ≤ 2 ^ 62) }
{
    let past = past_decl(alloc, decl)?;
    let line = line_of(alloc, rels, asks, decl)?;
    Ok(Noted { line, past })
}
