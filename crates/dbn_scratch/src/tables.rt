ghost use Rattle.std.specs.Prelude.{◌≡◌, not};
ghost use Rattle.dbn_formula.specs.Solve.{is_empty};
ghost use Rattle.dbn_scratch.specs.Prepared.{domain_of, IsPrepared};

use dbn_formula::Formula;
use dbn_instance::Instance;
use dbn_value::{ColType, Value};

/// What a formula is solved over.
#[derive(Drop)]
pub(crate) struct Tables<'x> {
    pub instance: &'x Instance<Value>,
    /// The formula whose constants are in the domain.
    pub whole: &'x Formula,
    /// The int 0, for which a variable without a value stands.
    pub zero: &'x Value,
    /// Whether the domain has an int.
    pub ints: bool,
    /// Whether it has a text.
    pub texts: bool,
    /// Whether it has an id.
    pub ids: bool,
}

/// Whether the domain has a value of the type.
pub(crate) fn has_some(tables: &Tables, column: ColType) -> bool
    requires { IsPrepared tables.now }
    ensures { result ≡ not (is_empty (domain_of tables.now column)) }
{
    match column {
        ColType::Int => tables.ints,
        ColType::Text => tables.texts,
        ColType::Id => tables.ids,
    }
}
