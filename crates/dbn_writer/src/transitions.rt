//! Transitions as S-expressions, with the names of their places, views and actions.

ghost use Rattle.std.specs.Prelude.{◌≡◌, ◌<◌, ◌^◌, ◌++◌, ◌∷◌, [], pos, length, map, IfOk, OnOk};
ghost use Rattle.std.specs.List.{All};
ghost use Rattle.std.specs.Option.{option_map};
ghost use Rattle.dbn_value.specs.Text.{IsName};
ghost use Rattle.dbn_net.specs.Tables.{places};
ghost use Rattle.dbn_net.specs.Naming.{named_formula, written_arc, written_pattern, written_read, written_call, mixed, named};
ghost use Rattle.dbn_net.specs.Printing.{word, constant, form, term_sexp, variable_sexp, written_pattern_sexp, written_arc_parts, input_sexp, written_atom_parts, guard_sexps, ask_sexps, fresh_sexps, call_sexps, sexp_of};
ghost use Rattle.dbn_writer.specs.Known.{ArcKnown, GuardKnown, CallKnown, TransitionKnown};

use super::formulas::{formula, one_part};
use super::naming::{action_name, place_name};
use super::words::{add_terms, add_typed_variables, begun, list, name, number};
use dbn_formula::Formula;
use dbn_net::{Arc, Call, Decl, Net, Pattern, Read, Transition};
use dbn_sexp::{Sexp, SexpList};
use dbn_value::{ColType, Name, Term, Var};
use sqlite_items::Items;
use std::alloc::{AllocError, Global};

/// A number of tokens with the terms of their row.
fn pattern(alloc: Global, pattern: &Pattern) -> Result<Sexp, AllocError>
    requires { pattern.now.many < 2 ^ 32 }
    ensures { IfOk result (λ one. one ≡ written_pattern_sexp (written_pattern pattern.now)) }
{
    let mut parts = Items::new(alloc);
    parts.push(number(pattern.many))?;
    add_terms(alloc, &mut parts, pattern.terms.as_slice())?;
    Ok(list(parts))
}

/// An arc behind the word of its clause.
fn arc(alloc: Global, net: &Net, first: &[u8], arc: &Arc) -> Result<Sexp, AllocError>
    requires word { IsName first.now }
    requires known { ArcKnown net.now arc.now }
    ensures { IfOk result (λ one. one ≡ form first.now (written_arc_parts (written_arc net.now arc.now))) }
{
    let mut parts = begun(alloc, first)?;
    parts.push(name(alloc, place_name(net, arc.place))?)?;
    for tokens in arc.patterns.as_slice() {
        parts.push(pattern(alloc, tokens)?)?;
    }
    Ok(list(parts))
}

/// Adds the arcs, each behind the word of its clause.
fn add_arcs(
    alloc: Global,
    net: &Net,
    out: &mut SexpList,
    first: &[u8],
    arcs: &[Arc],
) -> Result<(), AllocError>
    requires word { IsName first.now }
    requires known { All (ArcKnown net.now) arcs.now }
    ensures { OnOk result (out.new ≡ out.old ++ map (λ p. form first.now (written_arc_parts p)) (map (written_arc net.now) arcs.now)) }
{
    for one in arcs {
        out.push(arc(alloc, net, first, one)?)?;
    }
    Ok(())
}

/// A list of a word, a name and terms.
fn headed(alloc: Global, first: &[u8], named: &Name, terms: &[Term]) -> Result<Sexp, AllocError>
    requires { IsName first.now }
    ensures { IfOk result (λ one. one ≡ form first.now (word named.now ∷ map term_sexp terms.now)) }
{
    let mut parts = begun(alloc, first)?;
    parts.push(name(alloc, named)?)?;
    add_terms(alloc, &mut parts, terms)?;
    Ok(list(parts))
}

/// Adds the `in` and `read` clauses in the order of the flags.
#[tactic(auto, unfolding(dbn_value::specs::Text::is_name))]
fn add_inputs(
    alloc: Global,
    net: &Net,
    out: &mut SexpList,
    mixture: &[bool],
    ins: &[Arc],
    reads: &[Read],
) -> Result<(), AllocError>
    requires ins { All (ArcKnown net.now) ins.now }
    requires reads { All (λ r. r.view < length (places net.now)) reads.now }
    ensures { OnOk result (out.new ≡ out.old ++ map input_sexp (mixed mixture.now (map (written_arc net.now) ins.now) (map (written_read net.now) reads.now))) }
{
    let mut next_in = 0;
    let mut next_read = 0;
    for is_in in mixture {
        if *is_in {
            if next_in < ins.len() {
                out.push(arc(alloc, net, b"in".as_slice(), &ins[next_in])?)?;
                next_in += 1;
            }
        } else if next_read < reads.len() {
            let read = &reads[next_read];
            let view = place_name(net, read.view);
            out.push(headed(alloc, b"read".as_slice(), view, read.terms.as_slice())?)?;
            next_read += 1;
        }
    }
    Ok(())
}

/// Adds the guard, if there is one.
#[tactic(auto, using(crate::proofs::TransitionLaws::guard_of_net, crate::proofs::NamedMore::guard_named), unfolding(dbn_value::specs::Text::is_name))]
fn add_guard(
    alloc: Global,
    net: &Net,
    out: &mut SexpList,
    guard: &Option<Formula>,
) -> Result<(), AllocError>
    requires { GuardKnown guard.now }
    ensures { OnOk result (out.new ≡ out.old ++ guard_sexps (option_map (named_formula []) guard.now)) }
{
    match guard {
        None => Ok(()),
        Some(g) => {
            let body = formula(alloc, net, g)?;
            out.push(one_part(alloc, b"guard".as_slice(), body)?)
        }
    }
}

/// Adds the asked variables, if there are any.
#[tactic(auto, using(crate::proofs::TransitionLaws::no_ask, crate::proofs::TransitionLaws::some_ask), unfolding(dbn_value::specs::Text::is_name))]
fn add_asked(alloc: Global, out: &mut SexpList, vars: &[(Var, ColType)]) -> Result<(), AllocError>
    ensures { OnOk result (out.new ≡ out.old ++ ask_sexps vars.now) }
{
    if vars.is_empty() {
        return Ok(());
    }
    let mut parts = begun(alloc, b"ask".as_slice())?;
    add_typed_variables(alloc, &mut parts, vars)?;
    out.push(list(parts))
}

/// Adds the variables.
fn add_variables(alloc: Global, out: &mut SexpList, vars: &[Var]) -> Result<(), AllocError>
    ensures { OnOk result (out.new ≡ out.old ++ map variable_sexp vars.now) }
{
    for var in vars {
        out.push(name(alloc, &var.name)?)?;
    }
    Ok(())
}

/// Adds the fresh variables, if there are any.
#[tactic(auto, using(crate::proofs::TransitionLaws::no_fresh, crate::proofs::TransitionLaws::some_fresh), unfolding(dbn_value::specs::Text::is_name))]
fn add_fresh(alloc: Global, out: &mut SexpList, vars: &[Var]) -> Result<(), AllocError>
    ensures { OnOk result (out.new ≡ out.old ++ fresh_sexps vars.now) }
{
    if vars.is_empty() {
        return Ok(());
    }
    let mut parts = begun(alloc, b"fresh".as_slice())?;
    add_variables(alloc, &mut parts, vars)?;
    out.push(list(parts))
}

/// Adds the call, if there is one.
#[tactic(auto, unfolding(dbn_value::specs::Text::is_name))]
fn add_call(
    alloc: Global,
    net: &Net,
    out: &mut SexpList,
    call: &Option<Call>,
) -> Result<(), AllocError>
    requires { CallKnown net.now call.now }
    ensures { OnOk result (out.new ≡ out.old ++ call_sexps (option_map (written_call net.now) call.now)) }
{
    match call {
        None => Ok(()),
        Some(c) => {
            let action = action_name(net, c.action);
            out.push(headed(alloc, b"do".as_slice(), action, c.args.as_slice())?)
        }
    }
}

/// A transition of the net.
#[tactic(auto, unfolding(dbn_value::specs::Text::is_name))]
pub(crate) fn transition(alloc: Global, net: &Net, t: &Transition) -> Result<Sexp, AllocError>
    requires { TransitionKnown net.now t.now }
    ensures { IfOk result (λ one. one ≡ sexp_of (named net.now (Decl.Trans t.now))) }
{
    let mut parts = begun(alloc, b"transition".as_slice())?;
    parts.push(name(alloc, &t.name)?)?;
    let ins = t.ins.as_slice();
    add_inputs(
        alloc,
        net,
        &mut parts,
        t.mixture.as_slice(),
        ins,
        t.reads.as_slice(),
    )?;
    add_guard(alloc, net, &mut parts, &t.guard)?;
    add_asked(alloc, &mut parts, t.asked.as_slice())?;
    add_fresh(alloc, &mut parts, t.fresh.as_slice())?;
    add_call(alloc, net, &mut parts, &t.call)?;
    add_arcs(alloc, net, &mut parts, b"out".as_slice(), t.outs.as_slice())?;
    add_arcs(
        alloc,
        net,
        &mut parts,
        b"back".as_slice(),
        t.backs.as_slice(),
    )?;
    Ok(list(parts))
}
