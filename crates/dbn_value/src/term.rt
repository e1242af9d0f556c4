ghost use Rattle.std.specs.Prelude.{◌≡◌, ◌↔◌, IsTrue};

use super::copying::CopyIn;
use super::name::Name;
use super::value::{ColType, Value};
use std::alloc::{AllocError, Global};
use std::cmp::Ordering;

/// A variable: its name, and a mark that tells renamed variables apart (0 in the text of a net).
#[derive(Debug, PartialEq, Eq, Drop)]
pub struct Var {
    /// The name, as it is written.
    pub name: Name,
    /// 0, or what tells a renamed variable from all others of its name.
    pub mark: u64,
}

/// What stands at a column of an atom or at a side of a comparison.
#[derive(Debug, Drop)]
pub enum Term {
    /// A variable.
    Var(Var),
    /// A constant: it stands for itself.
    Const(Value),
}

/// The comparisons; ints take all six, texts and ids the first two.
#[derive(Debug, Clone, Copy, PartialEq, Eq, Drop)]
pub enum Cmp {
    /// `=`
    Eq,
    /// `!=`
    Ne,
    /// `<`
    Lt,
    /// `<=`
    Le,
    /// `>`
    Gt,
    /// `>=`
    Ge,
}

impl Var {
    ghost use Rattle.dbn_value.specs.Variables.{var_eq};

    /// Whether the two are the same variable.
    pub fn same(&self, other: &Var) -> bool
        ensures value { result ≡ var_eq self.now other.now }
        ensures equal { IsTrue result ↔ (self.now ≡ other.now) }
    {
        self == other
    }
}

impl Cmp {
    ghost use Rattle.dbn_value.specs.Order.{meets};

    /// Whether the comparison holds of two things that stand in this order.
    pub fn meets(self, order: Ordering) -> bool
        ensures { result ≡ meets self order }
    {
        match self {
            Cmp::Eq => order.is_eq(),
            Cmp::Ne => order.is_ne(),
            Cmp::Lt => order.is_lt(),
            Cmp::Le => order.is_le(),
            Cmp::Gt => order.is_gt(),
            Cmp::Ge => order.is_ge(),
        }
    }
}

impl CopyIn for Var {
    fn copy_in(&self, alloc: Global) -> Result<Var, AllocError> {
        Ok(Var {
            name: self.name.copy_in(alloc)?,
            mark: self.mark,
        })
    }
}

impl CopyIn for Term {
    fn copy_in(&self, alloc: Global) -> Result<Term, AllocError> {
        match self {
            Term::Var(var) => Ok(Term::Var(var.copy_in(alloc)?)),
            Term::Const(value) => Ok(Term::Const(value.copy_in(alloc)?)),
        }
    }
}

impl CopyIn for ColType {
    fn copy_in(&self, _alloc: Global) -> Result<ColType, AllocError> {
        Ok(*self)
    }
}

impl CopyIn for (Var, ColType) {
    fn copy_in(&self, alloc: Global) -> Result<(Var, ColType), AllocError> {
        Ok((self.0.copy_in(alloc)?, self.1))
    }
}

impl CopyIn for (Name, ColType) {
    fn copy_in(&self, alloc: Global) -> Result<(Name, ColType), AllocError> {
        Ok((self.0.copy_in(alloc)?, self.1))
    }
}
