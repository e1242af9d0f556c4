ghost use Rattle.std.specs.Prelude.{◌≡◌, ◌++◌, ◌||◌, not, map, slice_index_or, [], IfOk, OnOk};
ghost use Rattle.std.specs.List.{flat_map, list_any, list_all};
ghost use Rattle.dbn_formula.specs.Solve.{is_empty, is_bound, matched, tested, all_run, chosen, choosable, solutions_over};
ghost use Rattle.dbn_scratch.specs.Envs.{env_of, envs_of};
ghost use Rattle.dbn_scratch.specs.Prepared.{domain_of, IsPrepared};

use super::atoms::{add_atom, add_if, add_tested, has_match};
use super::bindings::{Env, Envs, copied, has_entry, without};
use super::indexes::Indexes;
use super::tables::{Tables, has_some};
use dbn_formula::Formula;
use dbn_value::{Cmp, ColType, Term, Value, Var};
use sqlite_items::Items;
use std::alloc::{AllocError, Global};

/// Appends the solutions that extend the environment.
#[cycle(solutions)]
#[tactic(auto, using(dbn_formula::proofs::SolveLaws::solve_laws, dbn_formula::proofs::Weights::weight_laws, crate::proofs::SolvingLaws::viewed))]
pub(crate) fn add_solutions<'x>(
    alloc: Global,
    out: &mut Envs<'x>,
    tables: &Tables<'x>,
    indexes: &mut Indexes<'x>,
    f: &'x Formula,
    env: &[(&'x Var, &'x Value)],
) -> Result<(), AllocError>
    requires prepared { IsPrepared tables.now }
    requires over { indexes.old ≡ tables.now.instance.now }
    ensures solutions { OnOk result (envs_of out.new ≡ envs_of out.old ++ solutions_over (domain_of tables.now) tables.now.instance.now f.now (env_of env.now)) }
    ensures same { indexes.new ≡ indexes.old }
{
    match f {
        Formula::Atom { rel, terms } => add_atom(
            alloc,
            out,
            tables,
            indexes,
            *rel,
            terms.as_slice(),
            env,
        ),
        Formula::Test { cmp, left, right } => {
            add_tested(alloc, out, tables, *cmp, left, right, env)
        }
        Formula::And(parts) => add_all(alloc, out, tables, indexes, parts.as_slice(), env),
        Formula::Or(parts) => add_any(alloc, out, tables, indexes, parts.as_slice(), env),
        Formula::Not(part) => {
            let some = has_solution(alloc, tables, indexes, part.get(), env)?;
            add_if(alloc, out, !some, env)
        }
        Formula::Implies(_, _) => Ok(()),
        Formula::Exists { vars, body } => {
            add_exists(
                alloc,
                out,
                tables,
                indexes,
                vars.as_slice(),
                body.get(),
                env,
            )
        }
        Formula::Forall { vars: _, body: _ } => Ok(()),
    }
}

#[cycle(solutions)]
#[tactic(auto, using(crate::proofs::SolvingLaws::viewed))]
fn add_all<'x>(
    alloc: Global,
    out: &mut Envs<'x>,
    tables: &Tables<'x>,
    indexes: &mut Indexes<'x>,
    parts: &'x [Formula],
    env: &[(&'x Var, &'x Value)],
) -> Result<(), AllocError>
    requires prepared { IsPrepared tables.now }
    requires over { indexes.old ≡ tables.now.instance.now }
    ensures solutions { OnOk result (envs_of out.new ≡ envs_of out.old ++ all_run (map (solutions_over (domain_of tables.now) tables.now.instance.now) parts.now) (env_of env.now)) }
    ensures same { indexes.new ≡ indexes.old }
{
    let mut from = Items::new(alloc);
    from.push(copied(alloc, env)?)?;
    for part in parts {
        let mut next = Items::new(alloc);
        add_each(alloc, &mut next, tables, indexes, part, from.as_slice())?;
        from = next;
    }
    out.append(from)
}

#[cycle(solutions)]
#[tactic(auto, using(crate::proofs::SolvingLaws::viewed))]
fn add_each<'x>(
    alloc: Global,
    out: &mut Envs<'x>,
    tables: &Tables<'x>,
    indexes: &mut Indexes<'x>,
    part: &'x Formula,
    envs: &[Env<'x>],
) -> Result<(), AllocError>
    requires prepared { IsPrepared tables.now }
    requires over { indexes.old ≡ tables.now.instance.now }
    ensures solutions { OnOk result (envs_of out.new ≡ envs_of out.old ++ flat_map (λ e. solutions_over (domain_of tables.now) tables.now.instance.now part.now (env_of e.items)) envs.now) }
    ensures same { indexes.new ≡ indexes.old }
{
    for env in envs {
        add_solutions(alloc, out, tables, indexes, part, env.as_slice())?;
    }
    Ok(())
}

#[cycle(solutions)]
#[tactic(auto, using(crate::proofs::SolvingLaws::viewed))]
fn add_any<'x>(
    alloc: Global,
    out: &mut Envs<'x>,
    tables: &Tables<'x>,
    indexes: &mut Indexes<'x>,
    parts: &'x [Formula],
    env: &[(&'x Var, &'x Value)],
) -> Result<(), AllocError>
    requires prepared { IsPrepared tables.now }
    requires over { indexes.old ≡ tables.now.instance.now }
    ensures solutions { OnOk result (envs_of out.new ≡ envs_of out.old ++ flat_map (λ f. solutions_over (domain_of tables.now) tables.now.instance.now f (env_of env.now)) parts.now) }
    ensures same { indexes.new ≡ indexes.old }
{
    for part in parts {
        add_solutions(alloc, out, tables, indexes, part, env)?;
    }
    Ok(())
}

#[cycle(solutions)]
#[tactic(auto, using(crate::proofs::SolvingLaws::viewed))]
fn add_exists<'x>(
    alloc: Global,
    out: &mut Envs<'x>,
    tables: &Tables<'x>,
    indexes: &mut Indexes<'x>,
    vars: &[(Var, ColType)],
    body: &'x Formula,
    env: &[(&'x Var, &'x Value)],
) -> Result<(), AllocError>
    requires prepared { IsPrepared tables.now }
    requires over { indexes.old ≡ tables.now.instance.now }
    ensures solutions { OnOk result (envs_of out.new ≡ envs_of out.old ++ flat_map (chosen (domain_of tables.now) vars.now) (solutions_over (domain_of tables.now) tables.now.instance.now body.now (env_of env.now))) }
    ensures same { indexes.new ≡ indexes.old }
{
    let mut found = Items::new(alloc);
    add_solutions(alloc, &mut found, tables, indexes, body, env)?;
    add_chosen(alloc, out, tables, vars, found.as_slice())
}

/// Whether there is a solution that extends the environment.
#[cycle(solutions)]
#[tactic(auto, using(dbn_formula::proofs::SolveLaws::solve_laws, dbn_formula::proofs::Weights::weight_laws, crate::proofs::SolvingLaws::denied))]
pub(crate) fn has_solution<'x>(
    alloc: Global,
    tables: &Tables<'x>,
    indexes: &mut Indexes<'x>,
    f: &'x Formula,
    env: &[(&'x Var, &'x Value)],
) -> Result<bool, AllocError>
    requires prepared { IsPrepared tables.now }
    requires over { indexes.old ≡ tables.now.instance.now }
    ensures some { IfOk result (λ some. some ≡ not (is_empty (solutions_over (domain_of tables.now) tables.now.instance.now f.now (env_of env.now)))) }
    ensures same { indexes.new ≡ indexes.old }
{
    match f {
        Formula::Atom { rel, terms } => has_match(
            alloc,
            tables,
            indexes,
            *rel,
            terms.as_slice(),
            env,
        ),
        Formula::Test { cmp, left, right } => passes(alloc, tables, *cmp, left, right, env),
        Formula::And(parts) => has_all(alloc, tables, indexes, parts.as_slice(), env),
        Formula::Or(parts) => has_any(alloc, tables, indexes, parts.as_slice(), env),
        Formula::Not(part) => Ok(!has_solution(alloc, tables, indexes, part.get(), env)?),
        Formula::Implies(_, _) => Ok(false),
        Formula::Exists { vars, body } => has_exists(
            alloc,
            tables,
            indexes,
            vars.as_slice(),
            body.get(),
            env,
        ),
        Formula::Forall { vars: _, body: _ } => Ok(false),
    }
}

/// Whether the comparison has a solution.
#[tactic(auto, using(crate::proofs::TurnLaws::some_view))]
fn passes<'x>(
    alloc: Global,
    tables: &Tables<'x>,
    cmp: Cmp,
    left: &'x Term,
    right: &'x Term,
    env: &[(&'x Var, &'x Value)],
) -> Result<bool, AllocError>
    requires { IsPrepared tables.now }
    ensures { IfOk result (λ some. some ≡ not (is_empty (tested cmp left.now right.now (env_of env.now)))) }
{
    let mut found = Items::new(alloc);
    add_tested(alloc, &mut found, tables, cmp, left, right, env)?;
    Ok(!found.is_empty())
}

/// Whether the parts have a common solution; of the last one no more than one is looked for.
#[cycle(solutions)]
fn has_all<'x>(
    alloc: Global,
    tables: &Tables<'x>,
    indexes: &mut Indexes<'x>,
    parts: &'x [Formula],
    env: &[(&'x Var, &'x Value)],
) -> Result<bool, AllocError>
    requires prepared { IsPrepared tables.now }
    requires over { indexes.old ≡ tables.now.instance.now }
    ensures some { IfOk result (λ some. some ≡ not (is_empty (all_run (map (solutions_over (domain_of tables.now) tables.now.instance.now) parts.now) (env_of env.now)))) }
    ensures same { indexes.new ≡ indexes.old }
{
    match parts.split_last() {
        None => Ok(true),
        Some((last, others)) => {
            let mut from = Items::new(alloc);
            add_all(alloc, &mut from, tables, indexes, others, env)?;
            has_each(alloc, tables, indexes, last, from.as_slice())
        }
    }
}

#[cycle(solutions)]
fn has_each<'x>(
    alloc: Global,
    tables: &Tables<'x>,
    indexes: &mut Indexes<'x>,
    part: &'x Formula,
    envs: &[Env<'x>],
) -> Result<bool, AllocError>
    requires prepared { IsPrepared tables.now }
    requires over { indexes.old ≡ tables.now.instance.now }
    ensures some { IfOk result (λ some. some ≡ list_any (λ e. not (is_empty (solutions_over (domain_of tables.now) tables.now.instance.now part.now (env_of e.items)))) envs.now) }
    ensures same { indexes.new ≡ indexes.old }
{
    for env in envs {
        if has_solution(alloc, tables, indexes, part, env.as_slice())? {
            return Ok(true);
        }
    }
    Ok(false)
}

#[cycle(solutions)]
fn has_any<'x>(
    alloc: Global,
    tables: &Tables<'x>,
    indexes: &mut Indexes<'x>,
    parts: &'x [Formula],
    env: &[(&'x Var, &'x Value)],
) -> Result<bool, AllocError>
    requires prepared { IsPrepared tables.now }
    requires over { indexes.old ≡ tables.now.instance.now }
    ensures some { IfOk result (λ some. some ≡ list_any (λ f. not (is_empty (solutions_over (domain_of tables.now) tables.now.instance.now f (env_of env.now)))) parts.now) }
    ensures same { indexes.new ≡ indexes.old }
{
    for part in parts {
        if has_solution(alloc, tables, indexes, part, env)? {
            return Ok(true);
        }
    }
    Ok(false)
}

#[cycle(solutions)]
fn has_exists<'x>(
    alloc: Global,
    tables: &Tables<'x>,
    indexes: &mut Indexes<'x>,
    vars: &[(Var, ColType)],
    body: &'x Formula,
    env: &[(&'x Var, &'x Value)],
) -> Result<bool, AllocError>
    requires prepared { IsPrepared tables.now }
    requires over { indexes.old ≡ tables.now.instance.now }
    ensures some { IfOk result (λ some. some ≡ not (is_empty (flat_map (chosen (domain_of tables.now) vars.now) (solutions_over (domain_of tables.now) tables.now.instance.now body.now (env_of env.now))))) }
    ensures same { indexes.new ≡ indexes.old }
{
    if have_values(tables, vars) {
        return has_solution(alloc, tables, indexes, body, env);
    }
    let mut found = Items::new(alloc);
    add_solutions(alloc, &mut found, tables, indexes, body, env)?;
    Ok(is_choosable_in(tables, vars, found.as_slice()))
}

/// Whether the domain has a value for each of the variables.
fn have_values(tables: &Tables, vars: &[(Var, ColType)]) -> bool
    requires { IsPrepared tables.now }
    ensures { result ≡ list_all (λ x. not (is_empty (domain_of tables.now x.1))) vars.now }
{
    vars.iter().all(|var| has_some(tables, var.1))
}

/// Whether the quantified variable has a value, or some to take.
fn has_choice<'x>(tables: &Tables<'x>, env: &[(&'x Var, &'x Value)], var: &(Var, ColType)) -> bool
    requires { IsPrepared tables.now }
    ensures { result ≡ (is_bound (env_of env.now) var.now.0 || not (is_empty (domain_of tables.now var.now.1))) }
{
    has_entry(env, &var.0) || has_some(tables, var.1)
}

/// Whether each of the quantified variables has a value, or some to take.
fn is_choosable<'x>(
    tables: &Tables<'x>,
    vars: &[(Var, ColType)],
    env: &[(&'x Var, &'x Value)],
) -> bool
    requires { IsPrepared tables.now }
    ensures { result ≡ choosable (domain_of tables.now) vars.now (env_of env.now) }
{
    vars.iter().all(|var| has_choice(tables, env, var))
}

fn is_choosable_in<'x>(tables: &Tables<'x>, vars: &[(Var, ColType)], envs: &[Env<'x>]) -> bool
    requires { IsPrepared tables.now }
    ensures { result ≡ list_any (λ e. choosable (domain_of tables.now) vars.now (env_of e.items)) envs.now }
{
    for env in envs {
        if is_choosable(tables, vars, env.as_slice()) {
            return true;
        }
    }
    false
}

/// Appends each environment without the quantified variables, where each of them has a value or some to take.
#[tactic(auto, using(crate::proofs::SolvingLaws::viewed))]
fn add_chosen<'x>(
    alloc: Global,
    out: &mut Envs<'x>,
    tables: &Tables<'x>,
    vars: &[(Var, ColType)],
    envs: &[Env<'x>],
) -> Result<(), AllocError>
    requires { IsPrepared tables.now }
    ensures { OnOk result (envs_of out.new ≡ envs_of out.old ++ flat_map (λ e. chosen (domain_of tables.now) vars.now (env_of e.items)) envs.now) }
{
    for env in envs {
        add_one_chosen(alloc, out, tables, vars, env.as_slice())?;
    }
    Ok(())
}

#[tactic(auto, unfolding(dbn_formula::specs::Solve::chosen), using(crate::proofs::SolvingLaws::viewed))]
fn add_one_chosen<'x>(
    alloc: Global,
    out: &mut Envs<'x>,
    tables: &Tables<'x>,
    vars: &[(Var, ColType)],
    env: &[(&'x Var, &'x Value)],
) -> Result<(), AllocError>
    requires { IsPrepared tables.now }
    ensures { OnOk result (envs_of out.new ≡ envs_of out.old ++ chosen (domain_of tables.now) vars.now (env_of env.now)) }
{
    if is_choosable(tables, vars, env) {
        out.push(without(alloc, vars, env)?)
    } else {
        Ok(())
    }
}
