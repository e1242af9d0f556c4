//! The variables of a quantifier, with a map to look up their types: a text may quantify a million of them.

ghost use Rattle.std.specs.Prelude.{◌≡◌, Option, IfOk};
ghost use Rattle.dbn_value.specs.declared.value.ColType.{ColType};
ghost use Rattle.dbn_formula.specs.Typing.{type_under};
ghost use Rattle.dbn_reader.specs.Quantified.{found_or, FindsType};

use dbn_value::{ColType, CopyIn, TypedVars, Var, copy_items};
use std::alloc::{AllocError, Global};
use std::collections::BTreeMap;
use std::marker::Model;

/// The variables of a quantifier, with a map to look up the type of the last one with a name.
#[derive(Drop)]
pub(crate) struct Quantified {
    vars: TypedVars,
    latest: BTreeMap<Var, ColType>,
}

impl Model for Quantified {
    ghost use Rattle.dbn_formula.specs.Variables.{TypedVars};
    ghost use Rattle.dbn_reader.specs.Quantified.{FindsType};

    ghost Value = { TypedVars };

    ghost view = { λ q. q.vars };

    ghost invariant = { λ q. FindsType q.latest.entries q.vars };
}

/// For each variable the type of the last that is the same. An error is want of memory.
fn latest_of(alloc: Global, vars: &[(Var, ColType)]) -> Result<BTreeMap<Var, ColType>, AllocError>
    ensures { IfOk result (λ latest. FindsType latest.entries vars.now) }
{
    let mut latest = BTreeMap::new(alloc);
    for entry in vars {
        let key = entry.0.copy_in(alloc)?;
        latest.insert(key, entry.1)?;
    }
    Ok(latest)
}

impl Quantified {
    /// The variables of a quantifier. An error is want of memory.
    pub(crate) fn new(alloc: Global, vars: &[(Var, ColType)]) -> Result<Quantified, AllocError>
        ensures { IfOk result (λ made. made ≡ vars.now) }
    {
        let latest = latest_of(alloc, vars)?;
        let vars = copy_items(alloc, vars)?;
        Ok(Quantified { vars, latest })
    }

    /// The type of the last of the variables that is `var`, if one is.
    pub(crate) fn find(&self, var: &Var) -> Option<ColType>
        ensures { (outside : Option ColType) → type_under self.now var.now outside ≡ found_or result outside }
    {
        match self.latest.get(var) {
            Some(kind) => Some(*kind),
            None => None,
        }
    }
}
