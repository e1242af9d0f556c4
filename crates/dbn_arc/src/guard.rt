ghost use Rattle.std.specs.Prelude.{◌≡◌, [], pos};
ghost use Rattle.std.specs.List.{list_any, list_all};
ghost use Rattle.dbn_value.specs.Scope.{bind, value_of};
ghost use Rattle.dbn_net.specs.Enabled.{guard_holds};

use dbn_formula::Formula;
use dbn_value::{Cell, ColType, Row, Term, TypedVars, Value, Var, value_of};

/// Whether the guard holds under the variables of the scope with the values of the row, one after the other. A variable
/// without a value stands for the int 0. This takes no memory.
///
/// A guard looks at values alone: no row is of a relation, and a quantified variable has no value to take.
pub fn guard_holds(guard: &Formula, scope: &TypedVars, row: &Row<Value>) -> bool
    ensures { result ≡ guard_holds guard.now (bind scope.now row.now []) }
{
    let zero = Value::Int(0);
    holds_at(guard, scope.as_slice(), row, &zero)
}

#[cycle(guards)]
#[tactic(auto, using(crate::proofs::GuardLaws::guard_laws, dbn_formula::proofs::Weights::weight_laws))]
fn holds_at(guard: &Formula, scope: &[(Var, ColType)], row: &Row<Value>, zero: &Value) -> bool
    requires { zero.now ≡ Value.Int (pos 0) }
    ensures { result ≡ guard_holds guard.now (bind scope.now row.now []) }
{
    match guard {
        Formula::Atom { .. } => false,
        Formula::Test { cmp, left, right } => {
            let a = value_or(left, scope, row, zero);
            let b = value_or(right, scope, row, zero);
            cmp.meets(a.order(b))
        }
        Formula::And(parts) => all_hold(parts.as_slice(), scope, row, zero),
        Formula::Or(parts) => any_holds(parts.as_slice(), scope, row, zero),
        Formula::Not(part) => !holds_at(part.get(), scope, row, zero),
        Formula::Implies(left, right) => !holds_at(left.get(), scope, row, zero)
            || holds_at(right.get(), scope, row, zero),
        Formula::Exists { vars, body } => vars.as_slice().is_empty()
            && holds_at(body.get(), scope, row, zero),
        Formula::Forall { vars, body } => !vars.as_slice().is_empty()
            || holds_at(body.get(), scope, row, zero),
    }
}

#[cycle(guards)]
fn all_hold(parts: &[Formula], scope: &[(Var, ColType)], row: &Row<Value>, zero: &Value) -> bool
    requires { zero.now ≡ Value.Int (pos 0) }
    ensures { result ≡ list_all (λ g. guard_holds g (bind scope.now row.now [])) parts.now }
{
    for part in parts {
        if !holds_at(part, scope, row, zero) {
            return false;
        }
    }
    true
}

#[cycle(guards)]
fn any_holds(parts: &[Formula], scope: &[(Var, ColType)], row: &Row<Value>, zero: &Value) -> bool
    requires { zero.now ≡ Value.Int (pos 0) }
    ensures { result ≡ list_any (λ g. guard_holds g (bind scope.now row.now [])) parts.now }
{
    for part in parts {
        if holds_at(part, scope, row, zero) {
            return true;
        }
    }
    false
}

/// What the term stands for.
fn value_or<'a>(
    term: &'a Term,
    scope: &[(Var, ColType)],
    row: &'a Row<Value>,
    zero: &'a Value,
) -> &'a Value
    requires { zero.now ≡ Value.Int (pos 0) }
    ensures { result.now ≡ value_of (bind scope.now row.now []) term.now }
{
    match value_of(term, scope, row) {
        Some(value) => value,
        None => zero,
    }
}
