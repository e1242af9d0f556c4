ghost use Rattle.std.specs.Prelude.{◌≡◌, refl};
ghost use Rattle.std.specs.Ordering.{eq_by_cmp, as_partial_cmp};
ghost use Rattle.std.specs.Cmp.{partial_equiv_from_equiv, eq_by_cmp_equiv, partial_order_from_total, partial_order_from_agreeing_total};
ghost use Rattle.dbn_value.specs.Order.{value_cmp, value_total};
ghost use Rattle.dbn_value.specs.Variables.{var_cmp, var_total, vars_tie};

use super::term::Var;
use super::value::Value;
use std::cmp::Ordering;

/// The order of values: ints before texts before ids, ints and ids by number, texts by their bytes.
pub fn compare(a: &Value, b: &Value) -> Ordering
    ensures { result ≡ value_cmp a.now b.now }
{
    match (a, b) {
        (Value::Int(m), Value::Int(n)) => m.cmp(n),
        (Value::Int(_), _) => Ordering::Less,
        (Value::Text(_), Value::Int(_)) => Ordering::Greater,
        (Value::Text(s), Value::Text(t)) => s.as_bytes().cmp(t.as_bytes()),
        (Value::Text(_), Value::Id(_)) => Ordering::Less,
        (Value::Id(i), Value::Id(j)) => i.number().cmp(&j.number()),
        (Value::Id(_), _) => Ordering::Greater,
    }
}

impl PartialEq for Value {
    ghost eq = { eq_by_cmp value_cmp };

    ghost laws = { partial_equiv_from_equiv (eq_by_cmp_equiv value_total) };

    fn eq(&self, other: &Value) -> bool {
        compare(self, other).is_eq()
    }
}

impl Eq for Value {
    ghost laws = { eq_by_cmp_equiv value_total };
}

impl PartialOrd for Value {
    ghost partial_cmp = { as_partial_cmp value_cmp };

    ghost laws = { partial_order_from_total value_total };

    fn partial_cmp(&self, other: &Value) -> Option<Ordering> {
        Some(compare(self, other))
    }
}

impl Ord for Value {
    ghost cmp = { value_cmp };

    ghost total = { value_total };

    ghost matches_partial_cmp = { λ x y. refl };

    ghost matches_eq = { λ x y. refl };

    fn cmp(&self, other: &Value) -> Ordering {
        compare(self, other)
    }
}

impl PartialOrd for Var {
    ghost partial_cmp = { as_partial_cmp var_cmp };

    ghost laws = { partial_order_from_agreeing_total var_cmp var_total (λ x y. refl) vars_tie };

    fn partial_cmp(&self, other: &Var) -> Option<Ordering> {
        Some(self.cmp(other))
    }
}

impl Ord for Var {
    ghost cmp = { var_cmp };

    ghost total = { var_total };

    ghost matches_partial_cmp = { λ x y. refl };

    ghost matches_eq = { vars_tie };

    fn cmp(&self, other: &Var) -> Ordering {
        let names = self.name.cmp(&other.name);
        names.then(self.mark.cmp(&other.mark))
    }
}
