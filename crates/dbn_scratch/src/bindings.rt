ghost use Rattle.std.specs.Prelude.{◌≡◌, pos, IfOk};
ghost use Rattle.std.specs.Option.{option_copied};
ghost use Rattle.dbn_value.specs.Scope.{entry_of, lookup, value_of};
ghost use Rattle.dbn_formula.specs.Solve.{is_bound, has_value, only_if, term_is, matched, dropped};
ghost use Rattle.dbn_scratch.specs.Envs.{env_of, envs_of, as_list};

use dbn_formula::binds;
use dbn_value::{Cell, ColType, Term, Value, Var};
use sqlite_items::Items;
use std::alloc::{AllocError, Global};

/// Values of variables, the newest first.
pub(crate) type Env<'x> = Vec<(&'x Var, &'x Value)>;

/// A list of environments.
pub(crate) type Envs<'x> = Items<Env<'x>>;

/// The value of the variable, where it has one.
pub(crate) fn known<'x>(env: &[(&'x Var, &'x Value)], var: &Var) -> Option<&'x Value>
    ensures { option_copied result ≡ entry_of (env_of env.now) var.now }
{
    for entry in env {
        if var.same(entry.0) {
            return Some(entry.1);
        }
    }
    None
}

/// Whether the variable has a value.
#[tactic(auto, using(crate::proofs::LoopLaws::is_known, crate::proofs::LoopLaws::is_unknown))]
pub(crate) fn has_entry<'x>(env: &[(&'x Var, &'x Value)], var: &Var) -> bool
    ensures { result ≡ is_bound (env_of env.now) var.now }
{
    match known(env, var) {
        Some(_) => true,
        None => false,
    }
}

/// Whether the term is a constant or a variable with a value.
pub(crate) fn has_value<'x>(env: &[(&'x Var, &'x Value)], term: &Term) -> bool
    ensures { result ≡ has_value (env_of env.now) term.now }
{
    match term {
        Term::Var(var) => has_entry(env, var),
        Term::Const(_) => true,
    }
}

/// The value of the variable; one without a value stands for 0.
#[tactic(auto, using(crate::proofs::EnvLaws::known_value, crate::proofs::EnvLaws::unknown_value))]
pub(crate) fn value_of_var<'x>(
    var: &Var,
    env: &[(&'x Var, &'x Value)],
    zero: &'x Value,
) -> &'x Value
    requires { zero.now ≡ Value.Int (pos 0) }
    ensures { result.now ≡ lookup (env_of env.now) var.now }
{
    match known(env, var) {
        Some(value) => value,
        None => zero,
    }
}

/// What the term stands for; a variable without a value stands for 0.
pub(crate) fn value_at<'x>(
    term: &'x Term,
    env: &[(&'x Var, &'x Value)],
    zero: &'x Value,
) -> &'x Value
    requires { zero.now ≡ Value.Int (pos 0) }
    ensures { result.now ≡ value_of (env_of env.now) term.now }
{
    match term {
        Term::Var(var) => value_of_var(var, env, zero),
        Term::Const(value) => value,
    }
}

/// Gives the term the value, and tells whether it can have it: a variable with a value and a constant have their own.
#[tactic(auto, using(crate::proofs::EnvLaws::known_term, crate::proofs::EnvLaws::new_term))]
pub(crate) fn give<'x>(
    env: &mut Env<'x>,
    term: &'x Term,
    value: &'x Value,
) -> Result<bool, AllocError>
    ensures { IfOk result (λ fits. term_is term.now value.now (env_of env.old.items) ≡ only_if fits (env_of env.new.items)) }
{
    match term {
        Term::Var(var) => match known(env.as_slice(), var) {
            Some(old) => Ok(old.same(value)),
            None => {
                env.insert(0, (var, value))?;
                Ok(true)
            }
        },
        Term::Const(old) => Ok(old.same(value)),
    }
}

/// The entries again, with memory of their own.
pub(crate) fn copied<'x>(alloc: Global, env: &[(&'x Var, &'x Value)]) -> Result<Env<'x>, AllocError>
    ensures { IfOk result (λ copy. env_of copy.items ≡ env_of env.now) }
{
    let copy = Vec::from_slice(alloc, env)?;
    Ok(copy)
}

/// With the values of a row for the terms, one after the other, where they can have them.
pub(crate) fn match_row<'x>(
    alloc: Global,
    terms: &'x [Term],
    row: &'x [Value],
    env: &[(&'x Var, &'x Value)],
) -> Result<Option<Env<'x>>, AllocError>
    ensures { IfOk result (λ found. envs_of (as_list found) ≡ matched terms.now row.now (env_of env.now)) }
{
    if terms.len() != row.len() {
        return Ok(None);
    }
    let mut made = copied(alloc, env)?;
    for (i, term) in terms.iter().enumerate() {
        if !give(&mut made, term, &row[i])? {
            return Ok(None);
        }
    }
    Ok(Some(made))
}

/// Without the entries of these variables.
pub(crate) fn without<'x>(
    alloc: Global,
    vars: &[(Var, ColType)],
    env: &[(&'x Var, &'x Value)],
) -> Result<Env<'x>, AllocError>
    ensures { IfOk result (λ left. env_of left.items ≡ dropped vars.now (env_of env.now)) }
{
    let mut left = Vec::with_capacity(alloc, env.len())?;
    for entry in env {
        if !binds(vars, entry.0) {
            left.push(*entry)?;
        }
    }
    Ok(left)
}
