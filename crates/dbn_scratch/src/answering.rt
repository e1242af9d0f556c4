ghost use Rattle.std.specs.Prelude.{◌≡◌, ◌++◌, [], List, pos, map, if◌then◌else◌, None, Some, IfSome, IfOk, OnOk, not};
ghost use Rattle.std.specs.List.{filter, flat_map, list_all};
ghost use Rattle.dbn_value.specs.declared.value.Value.{Value as SpecValue};
ghost use Rattle.dbn_value.specs.Ascending.{ascending, rows_over};
ghost use Rattle.dbn_value.specs.Order.{row_cmp};
ghost use Rattle.dbn_formula.specs.Answers.{domain, answers, holds, bind};
ghost use Rattle.dbn_formula.specs.Holds.{lookup, holds_over};
ghost use Rattle.dbn_formula.specs.Apart.{renamed};
ghost use Rattle.dbn_formula.specs.Safe.{safe, arranged};
ghost use Rattle.dbn_formula.specs.Solve.{is_empty, is_bound, solutions_over};
ghost use Rattle.dbn_formula.specs.Typing.{Shapes, type_fault};
ghost use Rattle.dbn_formula.specs.Solutions.{HasShapes};
ghost use Rattle.dbn_scratch.specs.Envs.{env_of};
ghost use Rattle.dbn_scratch.specs.Given.{column_of, rows_given, kept_of, row_of, rows_of};
ghost use Rattle.dbn_scratch.specs.Prepared.{domain_of, IsPrepared};

use super::bindings::{Env, has_entry, known, value_of_var};
use super::domains::{Domains, column, gathered, occurs, rows_over};
use super::indexes::Indexes;
use super::listing::{World, copied_row, holds_at, rows_that_hold};
use super::solving::{add_solutions, has_solution};
use super::tables::Tables;
use dbn_formula::{
    Formula, arrange, constants, distinct_vars, normal, normal_denied, rename_apart, safe,
};
use dbn_instance::Instance;
use dbn_value::{ColType, CopyIn, Row, Rows, TypedVars, Value, Var, Vars};
use sqlite_items::Items;
use std::alloc::{AllocError, Global};
use std::collections::BTreeSet;

/// The answers of the formula as a query over the instance: the rows of values for the variables for which it holds, where
/// each variable, quantified or not, ranges over the values of its type in the instance and the formula. They ascend, each
/// once. An error is want of memory.
///
/// Where the formula is safe as a query and no variable stands twice in `vars`, these values aren't listed, but for variables
/// of `vars` that are not free in it.
#[tactic(auto, using(crate::proofs::GivenLaws::answers_found))]
pub fn answers(
    alloc: Global,
    f: &Formula,
    vars: &TypedVars,
    instance: &Instance<Value>,
) -> Result<Rows, AllocError>
    requires { (rels : Shapes) × (type_fault rels f.now vars.now ≡ None) × HasShapes rels instance.now }
    ensures { IfOk result (λ rows. rows ≡ answers f.now vars.now instance.now) }
{
    let once = distinct_vars(alloc, vars.as_slice())?;
    let form = normal(alloc, f)?;
    match solvable_form(alloc, &form)? {
        Some(solved) => {
            if once {
                answers_solved(alloc, f, vars.as_slice(), instance, &solved)
            } else {
                answers_listed(alloc, f, vars.as_slice(), instance)
            }
        }
        None => answers_listed(alloc, f, vars.as_slice(), instance),
    }
}

/// Whether the formula holds over the instance, where each quantified variable ranges over the values of its type in the
/// instance and the formula. It has no free variables. An error is want of memory.
///
/// Where the formula or its negation is safe, these values aren't listed.
pub fn holds(alloc: Global, f: &Formula, instance: &Instance<Value>) -> Result<bool, AllocError>
    requires { (rels : Shapes) × (type_fault rels f.now [] ≡ None) × HasShapes rels instance.now }
    ensures { IfOk result (λ b. b ≡ holds f.now instance.now []) }
{
    match holds_by_denial(alloc, f, instance)? {
        Some(found) => Ok(found),
        None => holds_otherwise(alloc, f, instance),
    }
}

/// The same, where the negation is solved, and `None` where this isn't safe.
#[tactic(auto, using(crate::proofs::GivenLaws::denied_found))]
fn holds_by_denial(
    alloc: Global,
    f: &Formula,
    instance: &Instance<Value>,
) -> Result<Option<bool>, AllocError>
    requires { (rels : Shapes) × (type_fault rels f.now [] ≡ None) × HasShapes rels instance.now }
    ensures { IfOk result (λ found. IfSome found (λ b. b ≡ holds f.now instance.now [])) }
{
    let denial = normal_denied(alloc, f)?;
    match solvable_form(alloc, &denial)? {
        Some(solved) => Ok(Some(!is_solved(alloc, f, instance, &solved)?)),
        None => Ok(None),
    }
}

/// The same, where the formula itself is solved, and else the domain is listed.
#[tactic(auto, using(crate::proofs::GivenLaws::solved_found))]
fn holds_otherwise(
    alloc: Global,
    f: &Formula,
    instance: &Instance<Value>,
) -> Result<bool, AllocError>
    requires { (rels : Shapes) × (type_fault rels f.now [] ≡ None) × HasShapes rels instance.now }
    ensures { IfOk result (λ b. b ≡ holds f.now instance.now []) }
{
    let form = normal(alloc, f)?;
    match solvable_form(alloc, &form)? {
        Some(solved) => is_solved(alloc, f, instance, &solved),
        None => holds_listed(alloc, f, instance),
    }
}

/// The normal form as it is solved, and `None` exactly where it isn't safe.
fn solvable_form(alloc: Global, form: &Formula) -> Result<Option<Formula>, AllocError>
    ensures { IfOk result (λ solved. solved ≡ (if safe (renamed form.now) [] then Some (arranged (renamed form.now) []) else None)) }
{
    let apart = rename_apart(alloc, form)?;
    let nothing: Vars = Items::new(alloc);
    if safe(alloc, &apart, &nothing)? {
        Ok(Some(arrange(alloc, &apart, &nothing)?))
    } else {
        Ok(None)
    }
}

/// What is solved over the instance and the domain of the formula.
fn prepared<'x>(
    alloc: Global,
    whole: &'x Formula,
    instance: &'x Instance<Value>,
    zero: &'x Value,
) -> Result<Tables<'x>, AllocError>
    requires { zero.now ≡ Value.Int (pos 0) }
    ensures { IfOk result (λ t. IsPrepared t × (t.whole.now ≡ whole.now) × (t.instance.now ≡ instance.now)) }
{
    let written = constants(alloc, whole)?;
    let ints = occurs(written.as_slice(), instance, ColType::Int);
    let texts = occurs(written.as_slice(), instance, ColType::Text);
    let ids = occurs(written.as_slice(), instance, ColType::Id);
    Ok(Tables {
        instance,
        whole,
        zero,
        ints,
        texts,
        ids,
    })
}

/// Whether the solved form of a formula with this domain has a solution.
fn is_solved<'x>(
    alloc: Global,
    whole: &'x Formula,
    instance: &'x Instance<Value>,
    solved: &'x Formula,
) -> Result<bool, AllocError>
    ensures { IfOk result (λ some. some ≡ not (is_empty (solutions_over (domain whole.now instance.now) instance.now solved.now []))) }
{
    let zero = Value::Int(0);
    let tables = prepared(alloc, whole, instance, &zero)?;
    let mut indexes = Indexes::new(alloc, instance);
    has_solution(alloc, &tables, &mut indexes, solved, &[])
}

/// The rows that the solutions give the variables.
fn answers_solved<'x>(
    alloc: Global,
    whole: &'x Formula,
    vars: &[(Var, ColType)],
    instance: &'x Instance<Value>,
    solved: &'x Formula,
) -> Result<Rows, AllocError>
    ensures { IfOk result (λ rows. rows ≡ ascending row_cmp (flat_map (rows_given (domain whole.now instance.now) vars.now) (solutions_over (domain whole.now instance.now) instance.now solved.now []))) }
{
    match answers_plain(alloc, whole, vars, instance, solved)? {
        Some(rows) => Ok(rows),
        None => answers_product(alloc, whole, vars, instance, solved),
    }
}

/// The same, and nothing where some solution has no value for some variable.
fn answers_plain<'x>(
    alloc: Global,
    whole: &'x Formula,
    vars: &[(Var, ColType)],
    instance: &'x Instance<Value>,
    solved: &'x Formula,
) -> Result<Option<Rows>, AllocError>
    ensures { IfOk result (λ rows. IfSome rows (λ rows. rows ≡ ascending row_cmp (flat_map (rows_given (domain whole.now instance.now) vars.now) (solutions_over (domain whole.now instance.now) instance.now solved.now [])))) }
{
    let zero = Value::Int(0);
    let tables = prepared(alloc, whole, instance, &zero)?;
    let mut indexes = Indexes::new(alloc, instance);
    let mut found = Items::new(alloc);
    add_solutions(alloc, &mut found, &tables, &mut indexes, solved, &[])?;
    if !all_have(vars, found.as_slice()) {
        return Ok(None);
    }
    let mut set = BTreeSet::new(alloc);
    add_plain(alloc, &mut set, vars, found.as_slice(), &zero)?;
    Ok(Some(listed(alloc, set)?))
}

/// The same, where a variable without a value takes each of its type.
fn answers_product<'x>(
    alloc: Global,
    whole: &'x Formula,
    vars: &[(Var, ColType)],
    instance: &'x Instance<Value>,
    solved: &'x Formula,
) -> Result<Rows, AllocError>
    ensures { IfOk result (λ rows. rows ≡ ascending row_cmp (flat_map (rows_given (domain whole.now instance.now) vars.now) (solutions_over (domain whole.now instance.now) instance.now solved.now []))) }
{
    let zero = Value::Int(0);
    let domains = gathered(alloc, whole, instance)?;
    let tables = prepared(alloc, whole, instance, &zero)?;
    product_rows(alloc, &tables, &domains, solved, vars)
}

fn product_rows<'x>(
    alloc: Global,
    tables: &Tables<'x>,
    domains: &'x Domains,
    solved: &'x Formula,
    vars: &[(Var, ColType)],
) -> Result<Rows, AllocError>
    requires { IsPrepared tables.now }
    ensures { IfOk result (λ rows. rows ≡ ascending row_cmp (flat_map (rows_given (kept_of domains.now) vars.now) (solutions_over (domain_of tables.now) tables.now.instance.now solved.now []))) }
{
    let mut indexes = Indexes::new(alloc, tables.instance);
    let mut found = Items::new(alloc);
    add_solutions(alloc, &mut found, tables, &mut indexes, solved, &[])?;
    let mut set = BTreeSet::new(alloc);
    add_products(alloc, &mut set, domains, vars, found.as_slice())?;
    listed(alloc, set)
}

/// Whether each of the environments has a value for each variable.
fn all_have<'x>(vars: &[(Var, ColType)], envs: &[Env<'x>]) -> bool
    ensures { result ≡ list_all (λ e. list_all (λ x. is_bound (env_of e.items) x.0) vars.now) envs.now }
{
    for env in envs {
        if !has_each(vars, env.as_slice()) {
            return false;
        }
    }
    true
}

fn has_each<'x>(vars: &[(Var, ColType)], env: &[(&'x Var, &'x Value)]) -> bool
    ensures { result ≡ list_all (λ x. is_bound (env_of env.now) x.0) vars.now }
{
    vars.iter().all(|var| has_entry(env, &var.0))
}

/// Adds the row of values that each of the environments has for the variables.
fn add_plain<'x>(
    alloc: Global,
    set: &mut BTreeSet<Row<Value>>,
    vars: &[(Var, ColType)],
    envs: &[Env<'x>],
    zero: &'x Value,
) -> Result<(), AllocError>
    requires zero { zero.now ≡ Value.Int (pos 0) }
    requires empty { set.old.keys ≡ [] }
    ensures { OnOk result (set.new.keys ≡ ascending row_cmp (map (λ e. map (λ x. lookup (env_of e.items) x.0) vars.now) envs.now)) }
{
    for env in envs {
        set.insert(plain_row(alloc, vars, env.as_slice(), zero)?)?;
    }
    Ok(())
}

/// The values of the variables.
fn plain_row<'x>(
    alloc: Global,
    vars: &[(Var, ColType)],
    env: &[(&'x Var, &'x Value)],
    zero: &'x Value,
) -> Result<Row<Value>, AllocError>
    requires { zero.now ≡ Value.Int (pos 0) }
    ensures { IfOk result (λ row. row ≡ map (λ x. lookup (env_of env.now) x.0) vars.now) }
{
    let mut values = Vec::with_capacity(alloc, vars.len())?;
    for var in vars {
        values.push(value_of_var(&var.0, env, zero).copy_in(alloc)?)?;
    }
    Ok(Row::from_vec(values))
}

/// Adds the rows that each of the environments gives the variables, where one without a value takes each of its type.
fn add_products<'x>(
    alloc: Global,
    set: &mut BTreeSet<Row<Value>>,
    domains: &'x Domains,
    vars: &[(Var, ColType)],
    envs: &[Env<'x>],
) -> Result<(), AllocError>
    requires { set.old.keys ≡ [] }
    ensures { OnOk result (set.new.keys ≡ ascending row_cmp (flat_map (λ e. rows_given (kept_of domains.now) vars.now (env_of e.items)) envs.now)) }
{
    for env in envs {
        let columns = columns_of(alloc, domains, vars, env.as_slice())?;
        let rows = rows_over(alloc, columns.as_slice())?;
        add_rows(alloc, set, rows.as_slice())?;
    }
    Ok(())
}

/// The values that each variable may take.
#[tactic(auto, using(crate::proofs::SolvingLaws::viewed))]
fn columns_of<'x>(
    alloc: Global,
    domains: &'x Domains,
    vars: &[(Var, ColType)],
    env: &[(&'x Var, &'x Value)],
) -> Result<Vec<Vec<&'x Value>>, AllocError>
    ensures { IfOk result (λ columns. rows_of columns.items ≡ map (column_of (kept_of domains.now) (env_of env.now)) vars.now) }
{
    let mut columns = Vec::with_capacity(alloc, vars.len())?;
    for var in vars {
        columns.push(column_of(alloc, domains, var, env)?)?;
    }
    Ok(columns)
}

#[tactic(auto, using(crate::proofs::LoopLaws::known_column, crate::proofs::LoopLaws::unknown_column))]
fn column_of<'x>(
    alloc: Global,
    domains: &'x Domains,
    var: &(Var, ColType),
    env: &[(&'x Var, &'x Value)],
) -> Result<Vec<&'x Value>, AllocError>
    ensures { IfOk result (λ column. row_of column.items ≡ column_of (kept_of domains.now) (env_of env.now) var.now) }
{
    match known(env, &var.0) {
        Some(value) => {
            let mut one = Vec::with_capacity(alloc, 1)?;
            one.push(value)?;
            Ok(one)
        }
        None => column(alloc, domains, var.1),
    }
}

/// Adds a copy of each row.
fn add_rows(
    alloc: Global,
    set: &mut BTreeSet<Row<Value>>,
    rows: &[Vec<&Value>],
) -> Result<(), AllocError>
    ensures { OnOk result ((before : List (List SpecValue)) → set.old.keys ≡ ascending row_cmp before → set.new.keys ≡ ascending row_cmp (before ++ rows_of rows.now)) }
{
    for row in rows {
        set.insert(copied_row(alloc, row.as_slice())?)?;
    }
    Ok(())
}

/// The rows of the set in its order.
fn listed(alloc: Global, set: BTreeSet<Row<Value>>) -> Result<Rows, AllocError>
    ensures { IfOk result (λ rows. rows ≡ set.keys) }
{
    let mut rows = Items::new(alloc);
    for row in set {
        rows.push(row)?;
    }
    Ok(rows)
}

/// The answers, where all rows of values are tried.
fn answers_listed<'x>(
    alloc: Global,
    f: &'x Formula,
    vars: &'x [(Var, ColType)],
    instance: &'x Instance<Value>,
) -> Result<Rows, AllocError>
    ensures { IfOk result (λ rows. rows ≡ answers f.now vars.now instance.now) }
{
    let zero = Value::Int(0);
    let domains = gathered(alloc, f, instance)?;
    let world = World {
        instance,
        domains: &domains,
        zero: &zero,
    };
    tried_rows(alloc, &world, f, vars)
}

/// The rows over the columns of the variables for which the formula holds.
fn tried_rows<'x>(
    alloc: Global,
    world: &World<'x>,
    f: &'x Formula,
    vars: &'x [(Var, ColType)],
) -> Result<Rows, AllocError>
    requires { world.now.zero.now ≡ Value.Int (pos 0) }
    ensures { IfOk result (λ made. made ≡ filter (λ row. holds_over (kept_of world.now.domains.now) world.now.instance.now f.now (bind vars.now row [])) (rows_over (map (λ x. kept_of world.now.domains.now x.1) vars.now))) }
{
    let columns = columns_of(alloc, world.domains, vars, &[])?;
    let rows = rows_over(alloc, columns.as_slice())?;
    rows_that_hold(alloc, world, f, vars, rows.as_slice())
}

fn holds_listed<'x>(
    alloc: Global,
    f: &'x Formula,
    instance: &'x Instance<Value>,
) -> Result<bool, AllocError>
    ensures { IfOk result (λ b. b ≡ holds f.now instance.now []) }
{
    let zero = Value::Int(0);
    let domains = gathered(alloc, f, instance)?;
    let world = World {
        instance,
        domains: &domains,
        zero: &zero,
    };
    holds_at(alloc, &world, f, &[])
}
