ghost use Rattle.std.specs.Prelude.{◌≡◌, [], map, pos, unwrap_or, IfOk};
ghost use Rattle.std.specs.Option.{option_copied};
ghost use Rattle.dbn_value.specs.Scope.{bind, entry_of, known_value, value_of};

use super::copying::CopyIn;
use super::row::Row;
use super::term::{Term, Var};
use super::value::{ColType, Value};
use std::alloc::{AllocError, Global};

/// What the term stands for under the variables of the scope with the values of the row, one after the other. `None` comes
/// exactly where it is a variable that has no value there: it stands for the int 0.
///
/// Where a variable stands twice in the scope, its last value counts.
#[tactic(auto, using(crate::proofs::Scopes::known_is))]
pub fn value_of<'a>(
    term: &'a Term,
    scope: &[(Var, ColType)],
    row: &'a Row<Value>,
) -> Option<&'a Value>
    ensures known { option_copied result ≡ known_value (bind scope.now row.now []) term.now }
    ensures value { unwrap_or (option_copied result) (Value.Int (pos 0)) ≡ value_of (bind scope.now row.now []) term.now }
{
    match term {
        Term::Var(var) => last_entry(var, scope, row.as_slice()),
        Term::Const(value) => Some(value),
    }
}

/// The last value of the variable, where it has one.
fn last_entry<'a>(var: &Var, scope: &[(Var, ColType)], row: &'a [Value]) -> Option<&'a Value>
    ensures { option_copied result ≡ entry_of (bind scope.now row.now []) var.now }
{
    let mut last = None;
    for (bound, value) in scope.iter().zip(row) {
        if *var == bound.0 {
            last = Some(value);
        }
    }
    last
}

/// The value of the term; an error is want of memory.
fn copied_value(
    alloc: Global,
    term: &Term,
    scope: &[(Var, ColType)],
    row: &Row<Value>,
) -> Result<Value, AllocError>
    ensures { IfOk result (λ value. value ≡ value_of (bind scope.now row.now []) term.now) }
{
    match value_of(term, scope, row) {
        Some(value) => value.copy_in(alloc),
        None => Ok(Value::Int(0)),
    }
}

/// The values of the terms under the scope and the row, as a row; an error is want of memory.
pub fn row_of(
    alloc: Global,
    terms: &[Term],
    scope: &[(Var, ColType)],
    row: &Row<Value>,
) -> Result<Row<Value>, AllocError>
    ensures { IfOk result (λ made. made ≡ map (value_of (bind scope.now row.now [])) terms.now) }
{
    let mut values = Vec::with_capacity(alloc, terms.len())?;
    for term in terms {
        values.push(copied_value(alloc, term, scope, row)?)?;
    }
    Ok(Row::from_vec(values))
}
