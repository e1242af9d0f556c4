ghost use Rattle.std.specs.Prelude.{◌≡◌, ◌++◌, not, map, slice_index_or, [], IfOk, OnOk, ◌<◌, pos};
ghost use Rattle.std.specs.List.{flat_map, list_any};
ghost use Rattle.dbn_value.specs.Scope.{value_of};
ghost use Rattle.dbn_formula.specs.Solve.{is_empty, only_if, matched, tested, has_value, term_is};
ghost use Rattle.dbn_scratch.specs.Envs.{env_of, envs_of, as_list};
ghost use Rattle.dbn_scratch.specs.Indexes.{key_of, shown, rows_under};
ghost use Rattle.dbn_scratch.specs.Prepared.{domain_of, IsPrepared};

use super::bindings::{Env, Envs, copied, give, has_value, match_row, value_at};
use super::indexes::{Index, Indexes, marks_of, rows_at, values_at};
use super::tables::Tables;
use dbn_value::{Cell, Cmp, Row, Term, Value, Var};
use std::alloc::{AllocError, Global};
use std::collections::BTreeSet;

/// Appends the environment with the cells of each row of the relation for the terms, where they match.
pub(crate) fn add_atom<'x>(
    alloc: Global,
    out: &mut Envs<'x>,
    tables: &Tables<'x>,
    indexes: &mut Indexes<'x>,
    rel: usize,
    terms: &'x [Term],
    env: &[(&'x Var, &'x Value)],
) -> Result<(), AllocError>
    requires prepared { IsPrepared tables.now }
    requires over { indexes.old ≡ tables.now.instance.now }
    ensures solutions { OnOk result (envs_of out.new ≡ envs_of out.old ++ flat_map (λ row. matched terms.now row (env_of env.now)) (slice_index_or tables.now.instance.now rel [])) }
    ensures same { indexes.new ≡ indexes.old }
{
    let rows = candidates(alloc, tables, indexes, rel, terms, env)?;
    add_matches(alloc, out, rows.as_slice(), terms, env)
}

/// Whether a row of the relation matches the terms.
#[tactic(auto, using(crate::proofs::AtomLaws::no_rows))]
pub(crate) fn has_match<'x>(
    alloc: Global,
    tables: &Tables<'x>,
    indexes: &mut Indexes<'x>,
    rel: usize,
    terms: &'x [Term],
    env: &[(&'x Var, &'x Value)],
) -> Result<bool, AllocError>
    requires prepared { IsPrepared tables.now }
    requires over { indexes.old ≡ tables.now.instance.now }
    ensures some { IfOk result (λ some. some ≡ not (is_empty (flat_map (λ row. matched terms.now row (env_of env.now)) (slice_index_or tables.now.instance.now rel [])))) }
    ensures same { indexes.new ≡ indexes.old }
{
    if rel >= tables.instance.relations() {
        return Ok(false);
    }
    let marks = marks_of(alloc, terms, env)?;
    let spot = (rel, marks);
    match indexes.get(&spot) {
        Some(index) => has_match_under(alloc, index, spot.1.as_slice(), terms, env, tables.zero),
        None => {
            indexes.note(alloc, spot)?;
            has_match_in(alloc, tables.instance.row_set(rel), terms, env)
        }
    }
}

/// Whether a row with the values of the marked terms matches the terms.
fn has_match_under<'x>(
    alloc: Global,
    index: &Index<'x>,
    marks: &[bool],
    terms: &'x [Term],
    env: &[(&'x Var, &'x Value)],
    zero: &'x Value,
) -> Result<bool, AllocError>
    requires { zero.now ≡ Value.Int (pos 0) }
    ensures { IfOk result (λ some. some ≡ not (is_empty (flat_map (λ row. matched terms.now row (env_of env.now)) (rows_under index.now.entries (key_of marks.now (map (value_of (env_of env.now)) terms.now)))))) }
{
    let rows = rows_for(alloc, index, marks, terms, env, zero)?;
    some_matches(alloc, rows.as_slice(), terms, env)
}

/// Whether one of the rows matches the terms; none is looked at behind the first that does.
fn has_match_in<'x>(
    alloc: Global,
    rows: &'x BTreeSet<Row<Value>>,
    terms: &'x [Term],
    env: &[(&'x Var, &'x Value)],
) -> Result<bool, AllocError>
    ensures { IfOk result (λ some. some ≡ list_any (λ row. not (is_empty (matched terms.now row (env_of env.now)))) rows.now.keys) }
{
    for row in rows {
        if matches(alloc, terms, row.as_slice(), env)? {
            return Ok(true);
        }
    }
    Ok(false)
}

/// The rows of the relation that may match the terms: those with the values that the terms have, where there is an index by
/// them, and else all.
#[tactic(auto, using(crate::proofs::AtomLaws::no_rows))]
fn candidates<'x>(
    alloc: Global,
    tables: &Tables<'x>,
    indexes: &mut Indexes<'x>,
    rel: usize,
    terms: &'x [Term],
    env: &[(&'x Var, &'x Value)],
) -> Result<Vec<&'x Row<Value>>, AllocError>
    requires prepared { IsPrepared tables.now }
    requires over { indexes.old ≡ tables.now.instance.now }
    ensures rows { IfOk result (λ rows. flat_map (λ row. matched terms.now row (env_of env.now)) (shown rows.items) ≡ flat_map (λ row. matched terms.now row (env_of env.now)) (slice_index_or tables.now.instance.now rel [])) }
    ensures same { indexes.new ≡ indexes.old }
{
    if rel >= tables.instance.relations() {
        return Ok(Vec::new(alloc));
    }
    let marks = marks_of(alloc, terms, env)?;
    let spot = (rel, marks);
    match indexes.get(&spot) {
        Some(index) => rows_for(alloc, index, spot.1.as_slice(), terms, env, tables.zero),
        None => {
            indexes.note(alloc, spot)?;
            all_rows(alloc, tables.instance.row_set(rel))
        }
    }
}

/// The rows with the values of the marked terms.
fn rows_for<'x>(
    alloc: Global,
    index: &Index<'x>,
    marks: &[bool],
    terms: &'x [Term],
    env: &[(&'x Var, &'x Value)],
    zero: &'x Value,
) -> Result<Vec<&'x Row<Value>>, AllocError>
    requires { zero.now ≡ Value.Int (pos 0) }
    ensures { IfOk result (λ rows. shown rows.items ≡ rows_under index.now.entries (key_of marks.now (map (value_of (env_of env.now)) terms.now))) }
{
    let key = values_at(alloc, marks, terms, env, zero)?;
    rows_at(alloc, index, &key)
}

#[tactic(auto, using(crate::proofs::SolvingLaws::viewed))]
fn all_rows<'x>(
    alloc: Global,
    rows: &'x BTreeSet<Row<Value>>,
) -> Result<Vec<&'x Row<Value>>, AllocError>
    ensures { IfOk result (λ all. shown all.items ≡ rows.now.keys) }
{
    let mut all = Vec::new(alloc);
    for row in rows {
        all.push(row)?;
    }
    Ok(all)
}

/// Appends the environment with the cells of each of the rows for the terms, where they match.
#[tactic(auto, using(crate::proofs::SolvingLaws::viewed))]
fn add_matches<'x>(
    alloc: Global,
    out: &mut Envs<'x>,
    rows: &[&'x Row<Value>],
    terms: &'x [Term],
    env: &[(&'x Var, &'x Value)],
) -> Result<(), AllocError>
    ensures { OnOk result (envs_of out.new ≡ envs_of out.old ++ flat_map (λ r. matched terms.now r.now (env_of env.now)) rows.now) }
{
    for row in rows {
        let found = match_row(alloc, terms, (*row).as_slice(), env)?;
        add_found(out, found)?;
    }
    Ok(())
}

/// Whether one of the rows matches the terms.
fn some_matches<'x>(
    alloc: Global,
    rows: &[&'x Row<Value>],
    terms: &'x [Term],
    env: &[(&'x Var, &'x Value)],
) -> Result<bool, AllocError>
    ensures { IfOk result (λ some. some ≡ list_any (λ r. not (is_empty (matched terms.now r.now (env_of env.now)))) rows.now) }
{
    for row in rows {
        if matches(alloc, terms, (*row).as_slice(), env)? {
            return Ok(true);
        }
    }
    Ok(false)
}

fn matches<'x>(
    alloc: Global,
    terms: &'x [Term],
    row: &'x [Value],
    env: &[(&'x Var, &'x Value)],
) -> Result<bool, AllocError>
    ensures { IfOk result (λ fits. fits ≡ not (is_empty (matched terms.now row.now (env_of env.now)))) }
{
    match match_row(alloc, terms, row, env)? {
        Some(_) => Ok(true),
        None => Ok(false),
    }
}

/// Appends the environment, where there is one.
#[tactic(auto, using(crate::proofs::SolvingLaws::viewed))]
fn add_found<'x>(out: &mut Envs<'x>, found: Option<Env<'x>>) -> Result<(), AllocError>
    ensures { OnOk result (envs_of out.new ≡ envs_of out.old ++ envs_of (as_list found.entry)) }
{
    match found {
        Some(env) => out.push(env),
        None => Ok(()),
    }
}

/// Appends the environment, where the test passes.
#[tactic(auto, using(crate::proofs::SolvingLaws::viewed))]
pub(crate) fn add_if<'x>(
    alloc: Global,
    out: &mut Envs<'x>,
    passes: bool,
    env: &[(&'x Var, &'x Value)],
) -> Result<(), AllocError>
    ensures { OnOk result (envs_of out.new ≡ envs_of out.old ++ only_if passes (env_of env.now)) }
{
    if passes {
        out.push(copied(alloc, env)?)
    } else {
        Ok(())
    }
}

/// Appends the environment with the value for the term, where it can have it.
#[tactic(auto, using(crate::proofs::SolvingLaws::viewed))]
fn add_given<'x>(
    alloc: Global,
    out: &mut Envs<'x>,
    term: &'x Term,
    value: &'x Value,
    env: &[(&'x Var, &'x Value)],
) -> Result<(), AllocError>
    ensures { OnOk result (envs_of out.new ≡ envs_of out.old ++ term_is term.now value.now (env_of env.now)) }
{
    let mut made = copied(alloc, env)?;
    if give(&mut made, term, value)? {
        out.push(made)
    } else {
        Ok(())
    }
}

/// Appends the environment as the comparison leaves it: an equation gives the value of its known side to the other one.
pub(crate) fn add_tested<'x>(
    alloc: Global,
    out: &mut Envs<'x>,
    tables: &Tables<'x>,
    cmp: Cmp,
    left: &'x Term,
    right: &'x Term,
    env: &[(&'x Var, &'x Value)],
) -> Result<(), AllocError>
    requires { IsPrepared tables.now }
    ensures { OnOk result (envs_of out.new ≡ envs_of out.old ++ tested cmp left.now right.now (env_of env.now)) }
{
    match cmp {
        Cmp::Eq => add_equated(alloc, out, tables, left, right, env),
        Cmp::Ne | Cmp::Lt | Cmp::Le | Cmp::Gt | Cmp::Ge => {
            let a = value_at(left, env, tables.zero);
            let b = value_at(right, env, tables.zero);
            add_if(alloc, out, cmp.meets(a.order(b)), env)
        }
    }
}

fn add_equated<'x>(
    alloc: Global,
    out: &mut Envs<'x>,
    tables: &Tables<'x>,
    left: &'x Term,
    right: &'x Term,
    env: &[(&'x Var, &'x Value)],
) -> Result<(), AllocError>
    requires { IsPrepared tables.now }
    ensures { OnOk result (envs_of out.new ≡ envs_of out.old ++ tested Cmp.Eq left.now right.now (env_of env.now)) }
{
    if has_value(env, right) {
        add_given(alloc, out, left, value_at(right, env, tables.zero), env)
    } else {
        add_given(alloc, out, right, value_at(left, env, tables.zero), env)
    }
}
