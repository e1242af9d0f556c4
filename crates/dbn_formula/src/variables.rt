ghost use Rattle.std.specs.Prelude.{◌≡◌, ◌++◌, map, filter, IfOk, OnOk};
ghost use Rattle.std.specs.List.{flat_map};
ghost use Rattle.dbn_formula.specs.Variables.{binds, firsts, with_first};
ghost use Rattle.dbn_formula.specs.Free.{variable_of, unhidden, occurrences, free};

use super::formula::Formula;
use super::var_list::VarList;
use dbn_value::{ColType, CopyIn, Term, Var, Vars};
use sqlite_items::Items;
use std::alloc::{AllocError, Global};

/// The free variables of the formula, each once, in order of first occurrence; an error is want of memory.
pub fn free(alloc: Global, f: &Formula) -> Result<Vars, AllocError>
    ensures { IfOk result (λ vars. vars ≡ free f.now) }
{
    let mut found = Items::new(alloc);
    add_references(alloc, &mut found, f)?;
    firsts(alloc, found.as_slice())
}

/// Appends copies of the free variables of the formula, as often as they occur.
pub(crate) fn add_occurrences(alloc: Global, out: &mut Vars, f: &Formula) -> Result<(), AllocError>
    ensures { OnOk result (out.new ≡ out.old ++ occurrences f.now) }
{
    let mut found = Items::new(alloc);
    add_references(alloc, &mut found, f)?;
    add_copies(alloc, out, found.as_slice())
}

/// Appends the free variables of the formula to those that are bound, as often as they occur.
pub(crate) fn bind(alloc: Global, bound: &mut VarList, f: &Formula) -> Result<(), AllocError>
    ensures { OnOk result (bound.new ≡ bound.old ++ occurrences f.now) }
{
    let mut found = Items::new(alloc);
    add_references(alloc, &mut found, f)?;
    bind_each(alloc, bound, found.as_slice())
}

fn bind_each(alloc: Global, bound: &mut VarList, vars: &[&Var]) -> Result<(), AllocError>
    ensures { OnOk result (bound.new ≡ bound.old ++ map (λ x. x.now) vars.now) }
{
    for var in vars {
        bound.push(alloc, *var)?;
    }
    Ok(())
}

/// Appends references to the free variables of the formula, as often as they occur.
#[cycle(occurrences)]
#[tactic(auto, using(crate::proofs::FreeLaws::occurrences_laws, crate::proofs::References::viewed))]
pub(crate) fn add_references<'x>(
    alloc: Global,
    out: &mut Items<&'x Var>,
    f: &'x Formula,
) -> Result<(), AllocError>
    ensures { OnOk result (map (λ x. x.now) out.new ≡ map (λ x. x.now) out.old ++ occurrences f.now) }
{
    match f {
        Formula::Atom { rel: _, terms } => add_variables(out, terms.as_slice()),
        Formula::Test {
            cmp: _,
            left,
            right,
        } => {
            add_variable(out, left)?;
            add_variable(out, right)
        }
        Formula::And(parts) => add_each(alloc, out, parts.as_slice()),
        Formula::Or(parts) => add_each(alloc, out, parts.as_slice()),
        Formula::Not(part) => add_references(alloc, out, part.get()),
        Formula::Implies(left, right) => {
            add_references(alloc, out, left.get())?;
            add_references(alloc, out, right.get())
        }
        Formula::Exists { vars, body } => {
            let mut inner = Items::new(alloc);
            add_references(alloc, &mut inner, body.get())?;
            add_unhidden(alloc, out, vars.as_slice(), inner.as_slice())
        }
        Formula::Forall { vars, body } => {
            let mut inner = Items::new(alloc);
            add_references(alloc, &mut inner, body.get())?;
            add_unhidden(alloc, out, vars.as_slice(), inner.as_slice())
        }
    }
}

/// Appends references to the free variables of all parts, as often as they occur.
#[cycle(occurrences)]
pub(crate) fn add_each<'x>(
    alloc: Global,
    out: &mut Items<&'x Var>,
    parts: &'x [Formula],
) -> Result<(), AllocError>
    ensures { OnOk result (map (λ x. x.now) out.new ≡ map (λ x. x.now) out.old ++ flat_map occurrences parts.now) }
{
    for part in parts {
        add_references(alloc, out, part)?;
    }
    Ok(())
}

/// Appends the variable, if the term is one.
#[tactic(auto, using(crate::proofs::References::viewed))]
fn add_variable<'x>(out: &mut Items<&'x Var>, term: &'x Term) -> Result<(), AllocError>
    ensures { OnOk result (map (λ x. x.now) out.new ≡ map (λ x. x.now) out.old ++ variable_of term.now) }
{
    match term {
        Term::Var(var) => out.push(var),
        Term::Const(_) => Ok(()),
    }
}

/// Appends the variables among the terms.
fn add_variables<'x>(out: &mut Items<&'x Var>, terms: &'x [Term]) -> Result<(), AllocError>
    ensures { OnOk result (map (λ x. x.now) out.new ≡ map (λ x. x.now) out.old ++ flat_map variable_of terms.now) }
{
    for term in terms {
        add_variable(out, term)?;
    }
    Ok(())
}

/// Appends the variables that the quantified ones don't hide.
fn add_unhidden<'x>(
    alloc: Global,
    out: &mut Items<&'x Var>,
    vars: &[(Var, ColType)],
    inner: &[&'x Var],
) -> Result<(), AllocError>
    ensures { OnOk result (map (λ x. x.now) out.new ≡ map (λ x. x.now) out.old ++ unhidden vars.now (map (λ x. x.now) inner.now)) }
{
    let hidden = quantified(alloc, vars)?;
    for var in inner {
        if !hidden.has(*var) {
            out.push(*var)?;
        }
    }
    Ok(())
}

/// The variables of a quantifier.
pub(crate) fn quantified(alloc: Global, vars: &[(Var, ColType)]) -> Result<VarList, AllocError>
    ensures { IfOk result (λ names. names ≡ map (λ x. x.0) vars.now) }
{
    let mut names = VarList::new(alloc);
    for var in vars {
        names.push(alloc, &var.0)?;
    }
    Ok(names)
}

/// Appends a copy of each variable.
fn add_copies(alloc: Global, out: &mut Vars, vars: &[&Var]) -> Result<(), AllocError>
    ensures { OnOk result (out.new ≡ out.old ++ map (λ x. x.now) vars.now) }
{
    for var in vars {
        out.push(var.copy_in(alloc)?)?;
    }
    Ok(())
}

/// Whether one of the typed variables is this one. This takes no memory.
pub fn binds(vars: &[(Var, ColType)], var: &Var) -> bool
    ensures { result ≡ binds vars.now var.now }
{
    vars.iter().any(|other| var.same(&other.0))
}

/// Each variable once, in order of first occurrence.
fn firsts(alloc: Global, vars: &[&Var]) -> Result<Vars, AllocError>
    ensures { IfOk result (λ once. once ≡ firsts (map (λ x. x.now) vars.now)) }
{
    let mut once = VarList::new(alloc);
    for var in vars {
        add_first(alloc, &mut once, *var)?;
    }
    Ok(once.into_vars())
}

/// Appends the variable, unless it is there already.
#[tactic(auto, unfolding(crate::specs::Variables::with_first))]
fn add_first(alloc: Global, once: &mut VarList, var: &Var) -> Result<(), AllocError>
    ensures { OnOk result (once.new ≡ with_first once.old var.now) }
{
    if once.has(var) {
        return Ok(());
    }
    once.push(alloc, var)
}
