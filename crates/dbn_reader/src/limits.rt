//! The limits of a declaration: lengths of names and of lists, and how many of its kind there may be.

ghost use Rattle.std.specs.Prelude.{◌≡◌, ◌&&◌, true, nat_le, map, length, IfOk};
ghost use Rattle.std.specs.List.{list_all};
ghost use Rattle.std.specs.Option.{option_map_or};
ghost use Rattle.dbn_net.specs.Judging.{bound_vars, is_small, short_lists, transition_small, few_of_kind, within_limits};
ghost use Rattle.dbn_reader.specs.Short.{short_name, short_names, short_term, short_terms, short_formula, short_atom, short_pattern, short_arc, short_input, short_transition, short_written};

use super::bound::bound_of;
use super::names::Named;
use dbn_net::{
    Net, Written, WrittenArc, WrittenAtom, WrittenFormula, WrittenInput, WrittenPattern,
    WrittenTransition,
};
use dbn_value::{ColType, Name, Term, Var};
use std::alloc::{AllocError, Global};

/// How many bytes a name may have.
const MOST_BYTES: usize = 64;

/// How many columns, parameters, variables of a query, asked or fresh variables there may be.
const MOST_PARTS: usize = 16;

/// How many bound variables a transition may have.
const MOST_BOUND: usize = 64;

/// How many declarations of a kind there may be.
const MOST_OF_KIND: usize = 65_535;

fn short_name(name: &Name) -> bool
    ensures { result ≡ short_name name.now }
{
    name.as_bytes().len() <= MOST_BYTES
}

/// Whether the names are short. This takes no memory.
fn short_names<T: Named>(items: &[T]) -> bool
    ensures { result ≡ short_names (map T.name_of items.now) }
{
    for item in items {
        if !short_name(item.name()) {
            return false;
        }
    }
    true
}

fn short_term(term: &Term) -> bool
    ensures { result ≡ short_term term.now }
{
    match term {
        Term::Var(var) => short_name(&var.name),
        Term::Const(_) => true,
    }
}

fn short_terms(terms: &[Term]) -> bool
    ensures { result ≡ short_terms terms.now }
{
    terms.iter().all(|term| short_term(term))
}

/// Whether all names in the formula are short. This takes no memory.
#[cycle(short)]
#[tactic(auto, using(crate::proofs::ShortLaws::formula_laws))]
fn short_formula(formula: &WrittenFormula) -> bool
    ensures { result ≡ short_formula formula.now }
{
    match formula {
        WrittenFormula::Atom { rel, terms } => short_name(rel) && short_terms(terms.as_slice()),
        WrittenFormula::Test { left, right, .. } => short_term(left) && short_term(right),
        WrittenFormula::And(parts) => short_formulas(parts.as_slice()),
        WrittenFormula::Or(parts) => short_formulas(parts.as_slice()),
        WrittenFormula::Not(part) => short_formula(part.get()),
        WrittenFormula::Implies(left, right) => {
            short_formula(left.get()) && short_formula(right.get())
        }
        WrittenFormula::Exists { vars, body } => {
            short_names::<(Var, ColType)>(vars.as_slice()) && short_formula(body.get())
        }
        WrittenFormula::Forall { vars, body } => {
            short_names::<(Var, ColType)>(vars.as_slice()) && short_formula(body.get())
        }
    }
}

#[cycle(short)]
fn short_formulas(parts: &[WrittenFormula]) -> bool
    ensures { result ≡ list_all short_formula parts.now }
{
    for part in parts {
        if !short_formula(part) {
            return false;
        }
    }
    true
}

fn short_atom(atom: &WrittenAtom) -> bool
    ensures { result ≡ short_atom atom.now }
{
    short_name(&atom.name) && short_terms(atom.terms.as_slice())
}

fn short_atoms(atoms: &[WrittenAtom]) -> bool
    ensures { result ≡ list_all short_atom atoms.now }
{
    atoms.iter().all(|atom| short_atom(atom))
}

fn short_pattern(pattern: &WrittenPattern) -> bool
    ensures { result ≡ short_pattern pattern.now }
{
    short_terms(pattern.terms.as_slice())
}

fn short_patterns(patterns: &[WrittenPattern]) -> bool
    ensures { result ≡ list_all short_pattern patterns.now }
{
    patterns.iter().all(|pattern| short_pattern(pattern))
}

fn short_arc(arc: &WrittenArc) -> bool
    ensures { result ≡ short_arc arc.now }
{
    short_name(&arc.place) && short_patterns(arc.patterns.as_slice())
}

fn short_arcs(arcs: &[WrittenArc]) -> bool
    ensures { result ≡ list_all short_arc arcs.now }
{
    arcs.iter().all(|arc| short_arc(arc))
}

fn short_input(input: &WrittenInput) -> bool
    ensures { result ≡ short_input input.now }
{
    match input {
        WrittenInput::In(arc) => short_arc(arc),
        WrittenInput::Read(atom) => short_atom(atom),
    }
}

fn short_inputs(inputs: &[WrittenInput]) -> bool
    ensures { result ≡ list_all short_input inputs.now }
{
    inputs.iter().all(|input| short_input(input))
}

fn short_guard(guard: &Option<WrittenFormula>) -> bool
    ensures { result ≡ option_map_or short_formula guard.now true }
{
    match guard {
        None => true,
        Some(formula) => short_formula(formula),
    }
}

fn short_call(call: &Option<WrittenAtom>) -> bool
    ensures { result ≡ option_map_or short_atom call.now true }
{
    match call {
        None => true,
        Some(atom) => short_atom(atom),
    }
}

fn short_transition(transition: &WrittenTransition) -> bool
    ensures { result ≡ short_transition transition.now }
{
    short_name(&transition.name)
        && short_inputs(transition.inputs.as_slice())
        && short_guard(&transition.guard)
        && short_names::<(Var, ColType)>(transition.asked.as_slice())
        && short_names::<Var>(transition.fresh.as_slice())
        && short_call(&transition.call)
        && short_arcs(transition.outs.as_slice())
        && short_arcs(transition.backs.as_slice())
}

/// Whether all names in the declaration are short. This takes no memory.
#[tactic(auto, using(crate::proofs::NewLaws::name_laws))]
fn short_written(written: &Written) -> bool
    ensures { result ≡ short_written written.now }
{
    match written {
        Written::Relation { name, fields } => {
            short_name(name) && short_names::<(Name, ColType)>(fields.as_slice())
        }
        Written::Key { rel, fields } => short_name(rel) && short_names::<Name>(fields.as_slice()),
        Written::Foreign {
            rel,
            fields,
            to,
            to_fields,
        } => {
            short_name(rel)
                && short_names::<Name>(fields.as_slice())
                && short_name(to)
                && short_names::<Name>(to_fields.as_slice())
        }
        Written::Always { name, body } => short_name(name) && short_formula(body),
        Written::Query { name, vars, body } => {
            short_name(name)
                && short_names::<(Var, ColType)>(vars.as_slice())
                && short_formula(body)
        }
        Written::Action {
            name,
            params,
            deletes,
            adds,
        } => {
            short_name(name)
                && short_names::<(Var, ColType)>(params.as_slice())
                && short_atoms(deletes.as_slice())
                && short_atoms(adds.as_slice())
        }
        Written::Control { name, .. } => short_name(name),
        Written::View { name, query } => short_name(name) && short_name(query),
        Written::Transition(transition) => short_transition(transition),
        Written::Fact { rel, .. } => short_name(rel),
        Written::Token { place, .. } => short_name(place),
    }
}

/// How many bound variables the clauses have. An error is want of memory.
fn bound_count(alloc: Global, net: &Net, inputs: &[WrittenInput]) -> Result<usize, AllocError>
    ensures { IfOk result (λ count. count ≡ length (bound_vars inputs.now)) }
{
    let bound = bound_of(alloc, net, inputs)?;
    Ok(bound.len())
}

/// Whether a transition with so many bound variables has few variables.
fn few_variables(bound: usize, transition: &WrittenTransition) -> bool
    ensures { result ≡ (nat_le bound 64 && is_small transition.now.asked && is_small transition.now.fresh) }
{
    bound <= MOST_BOUND
        && transition.asked.len() <= MOST_PARTS
        && transition.fresh.len() <= MOST_PARTS
}

/// Whether the transition has few variables. An error is want of memory.
fn transition_small(
    alloc: Global,
    net: &Net,
    transition: &WrittenTransition,
) -> Result<bool, AllocError>
    ensures { IfOk result (λ ok. ok ≡ transition_small transition.now) }
{
    let bound = bound_count(alloc, net, transition.inputs.as_slice())?;
    Ok(few_variables(bound, transition))
}

/// Whether the lists of the declaration are short. An error is want of memory.
fn short_lists(alloc: Global, net: &Net, written: &Written) -> Result<bool, AllocError>
    ensures { IfOk result (λ ok. ok ≡ short_lists written.now) }
{
    match written {
        Written::Relation { fields, .. } => Ok(fields.len() <= MOST_PARTS),
        Written::Query { vars, .. } => Ok(vars.len() <= MOST_PARTS),
        Written::Action { params, .. } => Ok(params.len() <= MOST_PARTS),
        Written::Control { shape, .. } => Ok(shape.len() <= MOST_PARTS),
        Written::Transition(transition) => transition_small(alloc, net, transition),
        _ => Ok(true),
    }
}

/// Whether one more declaration of the kind may follow those of the net. This takes no memory.
fn few_of_kind(net: &Net, written: &Written) -> bool
    ensures { result ≡ few_of_kind net.now written.now }
{
    match written {
        Written::Relation { .. } => net.relations() < MOST_OF_KIND,
        Written::Key { .. } => net.sentences() < MOST_OF_KIND,
        Written::Foreign { .. } => net.sentences() < MOST_OF_KIND,
        Written::Always { .. } => net.sentences() < MOST_OF_KIND,
        Written::Query { .. } => net.queries() < MOST_OF_KIND,
        Written::Action { .. } => net.actions() < MOST_OF_KIND,
        Written::Control { .. } => net.places() < MOST_OF_KIND,
        Written::View { .. } => net.places() < MOST_OF_KIND,
        Written::Transition(_) => net.transitions() < MOST_OF_KIND,
        Written::Fact { .. } => true,
        Written::Token { .. } => true,
    }
}

/// Whether the declaration is within the limits behind those of the net. An error is want of memory.
#[tactic(auto, using(crate::proofs::ShortLaws::written_laws))]
pub(crate) fn within_limits(alloc: Global, net: &Net, written: &Written) -> Result<bool, AllocError>
    ensures { IfOk result (λ ok. ok ≡ within_limits net.now written.now) }
{
    if !short_written(written) {
        return Ok(false);
    }
    if !few_of_kind(net, written) {
        return Ok(false);
    }
    short_lists(alloc, net, written)
}
