ghost use Rattle.std.specs.Prelude.{◌≡◌, IfOk};
ghost use Rattle.dbn_formula.specs.Renewing.{renamed_under, found_or, FindsNew};

use dbn_value::{ColType, CopyIn, TypedVars, Var, copy_items};
use std::alloc::{AllocError, Global};
use std::collections::BTreeMap;
use std::marker::Model;

/// The variables of a quantifier and the same with their new marks, with a map to look the new ones up in.
#[derive(Drop)]
pub(crate) struct Renewed {
    old: TypedVars,
    new: TypedVars,
    /// For each variable the new one of the last that is the same.
    latest: BTreeMap<Var, Var>,
}

impl Model for Renewed {
    ghost use Rattle.dbn_formula.specs.Variables.{TypedVars};
    ghost use Rattle.dbn_formula.specs.Renewing.{FindsNew};

    ghost Value = { TypedVars × TypedVars };

    ghost view = { λ r. (r.old, r.new) };

    ghost invariant = { λ r. FindsNew r.latest.entries r.old r.new };
}

impl Renewed {
    pub(crate) fn new(
        alloc: Global,
        vars: &[(Var, ColType)],
        new: TypedVars,
    ) -> Result<Renewed, AllocError>
        ensures { IfOk result (λ made. made ≡ (vars.now, new)) }
    {
        let old = copy_items(alloc, vars)?;
        let latest = latest_of(alloc, vars, new.as_slice())?;
        Ok(Renewed { old, new, latest })
    }

    /// The new variable for the last of the quantifier's that is `var`, if one is.
    pub(crate) fn find(&self, var: &Var) -> Option<&Var>
        ensures { (outside : Var) → renamed_under self.now.0 self.now.1 var.now outside ≡ found_or result outside }
    {
        self.latest.get(var)
    }

    pub(crate) fn into_new(self) -> TypedVars
        ensures { result ≡ self.1 }
    {
        let Renewed {
            old: _,
            new,
            latest: _,
        } = self;
        new
    }
}

/// For each variable the new one of the last that is the same.
#[tactic(auto, using(crate::proofs::NamingLaws::renamed_by_none))]
fn latest_of(
    alloc: Global,
    vars: &[(Var, ColType)],
    made: &[(Var, ColType)],
) -> Result<BTreeMap<Var, Var>, AllocError>
    ensures { IfOk result (λ latest. FindsNew latest.entries vars.now made.now) }
{
    let mut latest = BTreeMap::new(alloc);
    for (old, new) in vars.iter().zip(made) {
        let key = old.0.copy_in(alloc)?;
        let value = new.0.copy_in(alloc)?;
        latest.insert(key, value)?;
    }
    Ok(latest)
}
