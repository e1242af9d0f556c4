ghost use Rattle.std.specs.Prelude.{◌≡◌, ◌≤◌, ◌∷◌, [], pos, map, drop, length, slice_index_or, if◌then◌else◌, ◌++◌, IfOk, OnOk};
ghost use Rattle.std.specs.List.{filter, list_any, list_all};
ghost use Rattle.dbn_value.specs.Scope.{bind, value_of};
ghost use Rattle.dbn_formula.specs.Holds.{some_choice, every_choice, row_eq, holds_over};
ghost use Rattle.dbn_scratch.specs.Envs.{env_of};
ghost use Rattle.dbn_scratch.specs.Given.{kept_of, row_of, rows_of};

use super::bindings::{Env, copied, value_at};
use super::domains::{Domains, column};
use dbn_formula::Formula;
use dbn_instance::Instance;
use dbn_value::{Cell, ColType, CopyIn, Row, Rows, Term, Value, Var};
use sqlite_items::Items;
use std::alloc::{AllocError, Global};

/// An instance and the values over which variables range.
#[derive(Drop)]
pub(crate) struct World<'x> {
    pub instance: &'x Instance<Value>,
    pub domains: &'x Domains,
    /// The int 0, for which a variable without a value stands.
    pub zero: &'x Value,
}

/// Whether the formula holds, where each quantified variable goes through the values of its type.
#[cycle(holds)]
#[tactic(auto, using(dbn_formula::proofs::HoldsLaws::holds_laws, dbn_formula::proofs::Weights::weight_laws))]
pub(crate) fn holds_at<'x>(
    alloc: Global,
    world: &World<'x>,
    f: &'x Formula,
    env: &[(&'x Var, &'x Value)],
) -> Result<bool, AllocError>
    requires { world.now.zero.now ≡ Value.Int (pos 0) }
    ensures { IfOk result (λ b. b ≡ holds_over (kept_of world.now.domains.now) world.now.instance.now f.now (env_of env.now)) }
{
    match f {
        Formula::Atom { rel, terms } => is_fact(alloc, world, *rel, terms.as_slice(), env),
        Formula::Test { cmp, left, right } => {
            let a = value_at(left, env, world.zero);
            let b = value_at(right, env, world.zero);
            Ok(cmp.meets(a.order(b)))
        }
        Formula::And(parts) => all_hold(alloc, world, parts.as_slice(), env),
        Formula::Or(parts) => any_holds(alloc, world, parts.as_slice(), env),
        Formula::Not(part) => Ok(!holds_at(alloc, world, part.get(), env)?),
        Formula::Implies(left, right) => {
            if !holds_at(alloc, world, left.get(), env)? {
                return Ok(true);
            }
            holds_at(alloc, world, right.get(), env)
        }
        Formula::Exists { vars, body } => {
            some_choice(alloc, world, vars.as_slice(), 0, body.get(), env)
        }
        Formula::Forall { vars, body } => {
            every_choice(alloc, world, vars.as_slice(), 0, body.get(), env)
        }
    }
}

#[cycle(holds)]
fn all_hold<'x>(
    alloc: Global,
    world: &World<'x>,
    parts: &'x [Formula],
    env: &[(&'x Var, &'x Value)],
) -> Result<bool, AllocError>
    requires { world.now.zero.now ≡ Value.Int (pos 0) }
    ensures { IfOk result (λ b. b ≡ list_all (λ f. holds_over (kept_of world.now.domains.now) world.now.instance.now f (env_of env.now)) parts.now) }
{
    for part in parts {
        if !holds_at(alloc, world, part, env)? {
            return Ok(false);
        }
    }
    Ok(true)
}

#[cycle(holds)]
fn any_holds<'x>(
    alloc: Global,
    world: &World<'x>,
    parts: &'x [Formula],
    env: &[(&'x Var, &'x Value)],
) -> Result<bool, AllocError>
    requires { world.now.zero.now ≡ Value.Int (pos 0) }
    ensures { IfOk result (λ b. b ≡ list_any (λ f. holds_over (kept_of world.now.domains.now) world.now.instance.now f (env_of env.now)) parts.now) }
{
    for part in parts {
        if holds_at(alloc, world, part, env)? {
            return Ok(true);
        }
    }
    Ok(false)
}

/// Whether the body holds for some values of the variables from number `at` on.
#[cycle(holds)]
fn some_choice<'x>(
    alloc: Global,
    world: &World<'x>,
    vars: &'x [(Var, ColType)],
    at: usize,
    body: &'x Formula,
    env: &[(&'x Var, &'x Value)],
) -> Result<bool, AllocError>
    requires zero { world.now.zero.now ≡ Value.Int (pos 0) }
    requires within { at ≤ length vars.now }
    ensures { IfOk result (λ b. b ≡ some_choice (kept_of world.now.domains.now) (drop at vars.now) (holds_over (kept_of world.now.domains.now) world.now.instance.now body.now) (env_of env.now)) }
{
    if at == vars.len() {
        return holds_at(alloc, world, body, env);
    }
    let var = &vars[at];
    let values = column(alloc, world.domains, var.1)?;
    for value in values.as_slice() {
        let inner = entered(alloc, &var.0, *value, env)?;
        if some_choice(alloc, world, vars, at + 1, body, inner.as_slice())? {
            return Ok(true);
        }
    }
    Ok(false)
}

/// Whether the body holds for all values of the variables from number `at` on.
#[cycle(holds)]
fn every_choice<'x>(
    alloc: Global,
    world: &World<'x>,
    vars: &'x [(Var, ColType)],
    at: usize,
    body: &'x Formula,
    env: &[(&'x Var, &'x Value)],
) -> Result<bool, AllocError>
    requires zero { world.now.zero.now ≡ Value.Int (pos 0) }
    requires within { at ≤ length vars.now }
    ensures { IfOk result (λ b. b ≡ every_choice (kept_of world.now.domains.now) (drop at vars.now) (holds_over (kept_of world.now.domains.now) world.now.instance.now body.now) (env_of env.now)) }
{
    if at == vars.len() {
        return holds_at(alloc, world, body, env);
    }
    let var = &vars[at];
    let values = column(alloc, world.domains, var.1)?;
    for value in values.as_slice() {
        let inner = entered(alloc, &var.0, *value, env)?;
        if !every_choice(alloc, world, vars, at + 1, body, inner.as_slice())? {
            return Ok(false);
        }
    }
    Ok(true)
}

/// With one more entry, the newest.
pub(crate) fn entered<'x>(
    alloc: Global,
    var: &'x Var,
    value: &'x Value,
    env: &[(&'x Var, &'x Value)],
) -> Result<Env<'x>, AllocError>
    ensures { IfOk result (λ made. env_of made.items ≡ (var.now, value.now) ∷ env_of env.now) }
{
    let mut made = copied(alloc, env)?;
    made.insert(0, (var, value))?;
    Ok(made)
}

/// Whether the values of the terms are a row of the relation.
#[tactic(auto, using(crate::proofs::AtomLaws::no_rows))]
fn is_fact<'x>(
    alloc: Global,
    world: &World<'x>,
    rel: usize,
    terms: &'x [Term],
    env: &[(&'x Var, &'x Value)],
) -> Result<bool, AllocError>
    requires { world.now.zero.now ≡ Value.Int (pos 0) }
    ensures { IfOk result (λ b. b ≡ list_any (λ row. row_eq row (map (value_of (env_of env.now)) terms.now)) (slice_index_or world.now.instance.now rel [])) }
{
    if rel < world.instance.relations() {
        let row = row_at(alloc, terms, env, world.zero)?;
        Ok(world.instance.has_row(rel, &row))
    } else {
        Ok(false)
    }
}

/// The values of the terms.
fn row_at<'x>(
    alloc: Global,
    terms: &'x [Term],
    env: &[(&'x Var, &'x Value)],
    zero: &'x Value,
) -> Result<Row<Value>, AllocError>
    requires { zero.now ≡ Value.Int (pos 0) }
    ensures { IfOk result (λ row. row ≡ map (value_of (env_of env.now)) terms.now) }
{
    let mut values = Vec::with_capacity(alloc, terms.len())?;
    for term in terms {
        values.push(value_at(term, env, zero).copy_in(alloc)?)?;
    }
    Ok(Row::from_vec(values))
}

/// The rows for which the formula holds, each as values of the variables.
pub(crate) fn rows_that_hold<'x>(
    alloc: Global,
    world: &World<'x>,
    f: &'x Formula,
    vars: &'x [(Var, ColType)],
    rows: &[Vec<&'x Value>],
) -> Result<Rows, AllocError>
    requires { world.now.zero.now ≡ Value.Int (pos 0) }
    ensures { IfOk result (λ made. made ≡ filter (λ row. holds_over (kept_of world.now.domains.now) world.now.instance.now f.now (bind vars.now row [])) (rows_of rows.now)) }
{
    let mut made = Items::new(alloc);
    for row in rows {
        let env = bound(alloc, vars, row.as_slice())?;
        let wanted = holds_at(alloc, world, f, env.as_slice())?;
        keep_row(alloc, &mut made, row.as_slice(), wanted)?;
    }
    Ok(made)
}

/// Appends a copy of the row, where it is wanted.
fn keep_row(alloc: Global, out: &mut Rows, row: &[&Value], wanted: bool) -> Result<(), AllocError>
    ensures { OnOk result (out.new ≡ out.old ++ (if wanted then row_of row.now ∷ [] else [])) }
{
    if wanted {
        out.push(copied_row(alloc, row)?)
    } else {
        Ok(())
    }
}

pub(crate) fn copied_row(alloc: Global, row: &[&Value]) -> Result<Row<Value>, AllocError>
    ensures { IfOk result (λ made. made ≡ row_of row.now) }
{
    let mut values = Vec::with_capacity(alloc, row.len())?;
    for value in row {
        values.push((*value).copy_in(alloc)?)?;
    }
    Ok(Row::from_vec(values))
}

/// The variables with the values of the row, one after the other.
fn bound<'x>(
    alloc: Global,
    vars: &'x [(Var, ColType)],
    row: &[&'x Value],
) -> Result<Env<'x>, AllocError>
    ensures { IfOk result (λ env. env_of env.items ≡ bind vars.now (row_of row.now) []) }
{
    let mut env = Vec::with_capacity(alloc, vars.len())?;
    for (var, value) in vars.iter().zip(row) {
        env.insert(0, (&var.0, *value))?;
    }
    Ok(env)
}
