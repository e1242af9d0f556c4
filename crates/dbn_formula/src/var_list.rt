ghost use Rattle.std.specs.Prelude.{◌≡◌, [], ◌∷◌, ◌++◌, IfOk, OnOk};
ghost use Rattle.dbn_formula.specs.Variables.{is_in};

use dbn_value::{CopyIn, Var, Vars};
use sqlite_items::Items;
use std::alloc::{AllocError, Global};
use std::collections::BTreeSet;
use std::marker::Model;

/// Variables one after the other, and a set of them to look them up in.
#[derive(Drop)]
pub(crate) struct VarList {
    vars: Vars,
    // It has variables of its own, since no set of references is searched for a reference of another lifetime.
    known: BTreeSet<Var>,
}

impl Model for VarList {
    ghost use Rattle.std.specs.Prelude.{List};
    ghost use Rattle.dbn_value.specs.declared.term.Var.{Var};
    ghost use Rattle.dbn_formula.specs.Known.{Knows};

    ghost Value = { List Var };

    ghost view = { λ l. l.vars };

    ghost invariant = { λ l. Knows l.known.keys l.vars };
}

impl VarList {
    pub(crate) fn new(alloc: Global) -> VarList
        ensures { result ≡ [] }
    {
        VarList {
            vars: Items::new(alloc),
            known: BTreeSet::new(alloc),
        }
    }

    /// Appends a copy of the variable.
    pub(crate) fn push(&mut self, alloc: Global, var: &Var) -> Result<(), AllocError>
        ensures { OnOk result (self.new ≡ self.old ++ var.now ∷ []) }
    {
        let known = var.copy_in(alloc)?;
        let listed = var.copy_in(alloc)?;
        self.vars.push(listed)?;
        if self.known.insert(known).is_err() {
            self.vars.pop();
            return Err(AllocError);
        }
        Ok(())
    }

    /// Whether the variable is in the list.
    pub(crate) fn has(&self, var: &Var) -> bool
        ensures { result ≡ is_in var.now self.now }
    {
        self.known.contains(var)
    }

    pub(crate) fn as_slice(&self) -> &[Var]
        ensures { result.now ≡ self.now }
    {
        self.vars.as_slice()
    }

    pub(crate) fn into_vars(self) -> Vars
        ensures { result ≡ self }
    {
        let VarList { vars, known: _ } = self;
        vars
    }
}

impl CopyIn for VarList {
    fn copy_in(&self, alloc: Global) -> Result<VarList, AllocError> {
        list_of(alloc, self.vars.as_slice())
    }
}

/// The variables one after the other.
pub(crate) fn list_of(alloc: Global, vars: &[Var]) -> Result<VarList, AllocError>
    ensures { IfOk result (λ list. list ≡ vars.now) }
{
    let mut list = VarList::new(alloc);
    for var in vars {
        list.push(alloc, var)?;
    }
    Ok(list)
}
