//! Names that are declared twice, and facts and tokens that were declared before.

ghost use Rattle.std.specs.Prelude.{◌≡◌, ◌++◌, ℕ, List, length, map, IfOk};
ghost use Rattle.std.specs.List.{list_all};
ghost use Rattle.dbn_value.specs.declared.value.Value.{Value as Amount};
ghost use Rattle.dbn_net.specs.Tables.{relations, relation_names, places};
ghost use Rattle.dbn_net.specs.Naming.{number_of, control_number};
ghost use Rattle.dbn_net.specs.Judging.{once, scope_names, var_names, quantifies_once, transition_once, fact_is_new, token_is_new, no_duplicate};
ghost use Rattle.dbn_reader.specs.Duplicates.{is_new_name, is_new_row, lists_once};

use super::bound::bound_of;
use super::names::{add_names, once};
use super::numbers::control_number;
use dbn_instance::Instance;
use dbn_marking::Marking;
use dbn_net::{Names, Net, Written, WrittenFormula, WrittenTransition};
use dbn_value::{ColType, Name, Row, Value, Var};
use sqlite_items::Items;
use std::alloc::{AllocError, Global};

/// Whether no declaration of the kind has the name of this one. This takes no memory.
#[tactic(auto, using(crate::proofs::NewLaws::new_laws))]
fn is_new_name(net: &Net, written: &Written) -> bool
    ensures { result ≡ is_new_name net.now written.now }
{
    match written {
        Written::Relation { name, .. } => net.relation(name.as_bytes()).is_none(),
        Written::Key { .. } => true,
        Written::Foreign { .. } => true,
        Written::Always { name, .. } => !net.has_always(name.as_bytes()),
        Written::Query { name, .. } => net.query(name.as_bytes()).is_none(),
        Written::Action { name, .. } => net.action(name.as_bytes()).is_none(),
        Written::Control { name, .. } => net.place(name.as_bytes()).is_none(),
        Written::View { name, .. } => net.place(name.as_bytes()).is_none(),
        Written::Transition(transition) => net.transition(transition.name.as_bytes()).is_none(),
        Written::Fact { .. } => true,
        Written::Token { .. } => true,
    }
}

/// Whether every quantifier names each variable once. An error is want of memory.
#[cycle(quantifiers)]
#[tactic(auto, using(crate::proofs::GuardLaws::once_laws))]
fn quantifies_once(alloc: Global, formula: &WrittenFormula) -> Result<bool, AllocError>
    ensures { IfOk result (λ ok. ok ≡ quantifies_once formula.now) }
{
    match formula {
        WrittenFormula::Atom { .. } => Ok(true),
        WrittenFormula::Test { .. } => Ok(true),
        WrittenFormula::And(parts) => each_quantifies_once(alloc, parts.as_slice()),
        WrittenFormula::Or(parts) => each_quantifies_once(alloc, parts.as_slice()),
        WrittenFormula::Not(part) => quantifies_once(alloc, part.get()),
        WrittenFormula::Implies(left, right) => {
            if !quantifies_once(alloc, left.get())? {
                return Ok(false);
            }
            quantifies_once(alloc, right.get())
        }
        WrittenFormula::Exists { vars, body } => {
            if !once::<(Var, ColType)>(alloc, vars.as_slice())? {
                return Ok(false);
            }
            quantifies_once(alloc, body.get())
        }
        WrittenFormula::Forall { vars, body } => {
            if !once::<(Var, ColType)>(alloc, vars.as_slice())? {
                return Ok(false);
            }
            quantifies_once(alloc, body.get())
        }
    }
}

#[cycle(quantifiers)]
fn each_quantifies_once(alloc: Global, parts: &[WrittenFormula]) -> Result<bool, AllocError>
    ensures { IfOk result (λ ok. ok ≡ list_all quantifies_once parts.now) }
{
    for part in parts {
        if !quantifies_once(alloc, part)? {
            return Ok(false);
        }
    }
    Ok(true)
}

/// Whether no name stands twice. An error is want of memory.
#[tactic(auto, using(crate::proofs::NewLaws::name_laws))]
fn names_once(alloc: Global, names: &[Name]) -> Result<bool, AllocError>
    ensures { IfOk result (λ ok. ok ≡ once names.now) }
{
    once::<Name>(alloc, names)
}

/// The names of the bound, asked and fresh variables. An error is want of memory.
fn variable_names(
    alloc: Global,
    bound: &[(Var, ColType)],
    transition: &WrittenTransition,
) -> Result<Names, AllocError>
    ensures { IfOk result (λ names. names ≡ scope_names bound.now ++ scope_names transition.now.asked ++ var_names transition.now.fresh) }
{
    let mut names = Items::new(alloc);
    add_names::<(Var, ColType)>(alloc, &mut names, bound)?;
    add_names::<(Var, ColType)>(alloc, &mut names, transition.asked.as_slice())?;
    add_names::<Var>(alloc, &mut names, transition.fresh.as_slice())?;
    Ok(names)
}

/// Whether these variables, the asked and the fresh ones all have names of their own. An error is want of memory.
fn variables_once(
    alloc: Global,
    bound: &[(Var, ColType)],
    transition: &WrittenTransition,
) -> Result<bool, AllocError>
    ensures { IfOk result (λ ok. ok ≡ once (scope_names bound.now ++ scope_names transition.now.asked ++ var_names transition.now.fresh)) }
{
    let names = variable_names(alloc, bound, transition)?;
    names_once(alloc, names.as_slice())
}

/// Whether the bound, asked and fresh variables all have names of their own. An error is want of memory.
fn transition_once(
    alloc: Global,
    net: &Net,
    transition: &WrittenTransition,
) -> Result<bool, AllocError>
    ensures { IfOk result (λ ok. ok ≡ transition_once transition.now) }
{
    let bound = bound_of(alloc, net, transition.inputs.as_slice())?;
    variables_once(alloc, bound.as_slice(), transition)
}

/// A fact of an unknown relation was not declared before. This takes no memory.
#[tactic(auto, using(crate::proofs::NumberLaws::number_laws))]
fn fact_is_new(net: &Net, facts: &Instance<Value>, rel: &Name, row: &Row<Value>) -> bool
    requires { length facts.now ≡ length (relations net.now) }
    ensures { (tokens : List (List (List Amount × ℕ))) → result ≡ fact_is_new (record { facts = facts.now; tokens = tokens }) row.now (number_of (relation_names net.now) rel.now) }
{
    match net.relation(rel.as_bytes()) {
        None => true,
        Some(n) => !facts.has_row(n, row),
    }
}

/// Tokens of an unknown place, or of a view, were not declared before. This takes no memory.
#[tactic(auto, using(crate::proofs::NumberLaws::number_laws))]
fn token_is_new(net: &Net, tokens: &Marking<Value>, place: &Name, row: &Row<Value>) -> bool
    requires { length tokens.now ≡ length (places net.now) }
    ensures { (facts : List (List (List Amount))) → result ≡ token_is_new (record { facts = facts; tokens = tokens.now }) row.now (control_number net.now place.now) }
{
    match control_number(net, place.as_bytes()) {
        None => true,
        Some(n) => tokens.count(n, row) == 0,
    }
}

/// Whether the fact, or the tokens of the row, were not declared before; those of an unknown relation or place were not. This
/// takes no memory.
fn is_new_row(
    net: &Net,
    facts: &Instance<Value>,
    tokens: &Marking<Value>,
    written: &Written,
) -> bool
    requires facts { length facts.now ≡ length (relations net.now) }
    requires tokens { length tokens.now ≡ length (places net.now) }
    ensures { result ≡ is_new_row net.now (record { facts = facts.now; tokens = tokens.now }) written.now }
{
    match written {
        Written::Fact { rel, row } => fact_is_new(net, facts, rel, row),
        Written::Token { place, row, .. } => token_is_new(net, tokens, place, row),
        _ => true,
    }
}

/// Whether no list of names has one twice. An error is want of memory.
fn lists_once(alloc: Global, net: &Net, written: &Written) -> Result<bool, AllocError>
    ensures { IfOk result (λ ok. ok ≡ lists_once written.now) }
{
    match written {
        Written::Relation { fields, .. } => once::<(Name, ColType)>(alloc, fields.as_slice()),
        Written::Key { fields, .. } => names_once(alloc, fields.as_slice()),
        Written::Foreign {
            fields,
            to_fields,
            ..
        } => {
            if !names_once(alloc, fields.as_slice())? {
                return Ok(false);
            }
            names_once(alloc, to_fields.as_slice())
        }
        Written::Always { body, .. } => quantifies_once(alloc, body),
        Written::Query { vars, body, .. } => {
            if !once::<(Var, ColType)>(alloc, vars.as_slice())? {
                return Ok(false);
            }
            quantifies_once(alloc, body)
        }
        Written::Action { params, .. } => once::<(Var, ColType)>(alloc, params.as_slice()),
        Written::Transition(transition) => transition_once(alloc, net, transition),
        _ => Ok(true),
    }
}

/// Whether the name is new in its kind, no list names something twice, and the fact or the tokens are new. An error is want of
/// memory.
#[tactic(auto, using(crate::proofs::NewLaws::three_tests))]
pub(crate) fn no_duplicate(
    alloc: Global,
    net: &Net,
    facts: &Instance<Value>,
    tokens: &Marking<Value>,
    written: &Written,
) -> Result<bool, AllocError>
    requires facts { length facts.now ≡ length (relations net.now) }
    requires tokens { length tokens.now ≡ length (places net.now) }
    ensures { IfOk result (λ ok. ok ≡ no_duplicate net.now (record { facts = facts.now; tokens = tokens.now }) written.now) }
{
    if !is_new_name(net, written) {
        return Ok(false);
    }
    if !is_new_row(net, facts, tokens, written) {
        return Ok(false);
    }
    lists_once(alloc, net, written)
}
