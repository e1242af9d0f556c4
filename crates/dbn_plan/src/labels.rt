ghost use Rattle.std.specs.Prelude.{◌≡◌, ◌++◌, [], ◌∷◌, IfOk, OnOk};
ghost use Rattle.dbn_formula.specs.Free.{occurrences, unhidden};
ghost use Rattle.dbn_formula.specs.Variables.{firsts};
ghost use Rattle.dbn_plan.specs.Making.{WithVars};
ghost use Rattle.dbn_value.specs.declared.term.Term.{Term as OfTerm};
ghost use Rattle.dbn_plan.specs.Columns.{with_vars};
ghost use Rattle.dbn_plan.specs.Answering.{var_labels};

use super::columns::position_of;
use dbn_formula::{Formula, binds, free};
use dbn_value::{ColType, CopyIn, Term, Terms, Var, Vars};
use sqlite_items::Items;
use std::alloc::{AllocError, Global};

/// The labels, and behind them those of the other variables of the body that the quantifier doesn't hide.
pub(crate) fn chosen_labels(
    alloc: Global,
    vars: &[(Var, ColType)],
    body: &Formula,
    labels: &Terms,
) -> Result<Terms, AllocError>
    ensures { IfOk result (λ wanted. WithVars (unhidden vars.now (firsts (occurrences body.now))) labels.now wanted) }
{
    let inner = free(alloc, body)?;
    let outer = shown_vars(alloc, vars, inner.as_slice())?;
    let wanted = with_vars(alloc, labels, outer.as_slice())?;
    Ok(wanted)
}

/// The labels, and behind them those of the other variables of the formula.
pub(crate) fn labels_behind(alloc: Global, f: &Formula, labels: &Terms) -> Result<Terms, AllocError>
    ensures { IfOk result (λ wanted. WithVars (firsts (occurrences f.now)) labels.now wanted) }
{
    let vars = free(alloc, f)?;
    let wanted = with_vars(alloc, labels, vars.as_slice())?;
    Ok(wanted)
}

/// The variables that the quantifier doesn't hide.
fn shown_vars(alloc: Global, hidden: &[(Var, ColType)], vars: &[Var]) -> Result<Vars, AllocError>
    ensures { IfOk result (λ some. some ≡ unhidden hidden.now vars.now) }
{
    let mut some = Items::new(alloc);
    for x in vars {
        if !binds(hidden, x) {
            some.push(x.copy_in(alloc)?)?;
        }
    }
    Ok(some)
}

/// The labels, and behind them those of the variables that they don't have.
fn with_vars(alloc: Global, labels: &Terms, vars: &[Var]) -> Result<Terms, AllocError>
    ensures { IfOk result (λ wanted. wanted ≡ with_vars labels.now vars.now) }
{
    let mut wanted = labels.copy_in(alloc)?;
    for x in vars {
        push_new(alloc, &mut wanted, x)?;
    }
    Ok(wanted)
}

/// Appends the label of the variable, unless it is there.
fn push_new(alloc: Global, labels: &mut Terms, x: &Var) -> Result<(), AllocError>
    ensures { OnOk result (labels.new ≡ with_vars labels.old (x.now ∷ [])) }
{
    match position_of(labels.as_slice(), x) {
        Some(_) => Ok(()),
        None => push_label(alloc, labels, x),
    }
}

/// Appends the label of the variable.
fn push_label(alloc: Global, labels: &mut Terms, x: &Var) -> Result<(), AllocError>
    ensures { OnOk result (labels.new ≡ labels.old ++ OfTerm.Var x.now ∷ []) }
{
    let label = Term::Var(x.copy_in(alloc)?);
    labels.push(label)?;
    Ok(())
}

/// A label for each variable.
pub(crate) fn labels_of(alloc: Global, vars: &[(Var, ColType)]) -> Result<Terms, AllocError>
    ensures { IfOk result (λ labels. labels ≡ var_labels vars.now) }
{
    let mut labels = Items::new(alloc);
    for var in vars {
        labels.push(Term::Var(var.0.copy_in(alloc)?))?;
    }
    Ok(labels)
}
