ghost use Rattle.std.specs.Prelude.{◌≡◌, ◌≢◌, Option, Some, IfOk, OnOk, OnErr};
ghost use Rattle.dbn_value.specs.declared.value.Value.{Value as Val};
ghost use Rattle.dbn_value.specs.Order.{value_type, value_int};
ghost use Rattle.dbn_value.specs.Coding.{Extends, Decodes, IsCoding};

use super::cell::Cell;
use super::copying::CopyIn;
use super::value::Value;
use std::alloc::{AllocError, Global};

/// Gives values their cells. It grows: a value that was put has a cell from then on, and a cell never changes its value.
pub trait Coder: Sized + Drop {
    type Cell: Cell;

    /// The cell of each value that has one.
    ghost cell_of: { Self → Val → Option Self.Cell };

    /// The value of each cell of the coder.
    ghost value_of: { Self → Self.Cell → Val };

    /// The cells of the values that have one by themselves.
    ghost own: { Val → Option Self.Cell };

    /// A coder in which nothing was put; an error is want of memory.
    fn empty(alloc: Global) -> Result<Self, AllocError>
        ensures { IfOk result (λ coder. (v : Val) → cell_of coder v ≡ own v) };

    /// The cell of the value, which has one from then on. An error is want of memory, and then nothing changed.
    fn put(&mut self, alloc: Global, value: &Value) -> Result<Self::Cell, AllocError>
        ensures cell { IfOk result (λ c. cell_of self.new value.now ≡ Some c) }
        ensures grows { OnOk result (Extends (cell_of self.old) (cell_of self.new)) }
        ensures alone { OnOk result ((v : Val) → v ≢ value.now → cell_of self.new v ≡ cell_of self.old v) }
        ensures err { OnErr result (self.new ≡ self.old) };

    /// The cell of the value: `None` exactly where it was never put and has none by itself. An error is want of memory.
    fn find(&self, alloc: Global, value: &Value) -> Result<Option<Self::Cell>, AllocError>
        ensures { IfOk result (λ found. found ≡ cell_of self.now value.now) };

    /// The value of a cell of this coder. An error is want of memory.
    fn get(&self, alloc: Global, cell: &Self::Cell) -> Result<Value, AllocError>
        requires { (v : Val) × (cell_of self.now v ≡ Some cell.now) }
        ensures { IfOk result (λ v. v ≡ value_of self.now cell.now) };

    /// A cell stands for its value, so different values have different cells.
    ghost decodes: { (s : Self) → Decodes (cell_of s) (value_of s) };

    /// A cell has the type of its value.
    ghost keeps_type: { (s : Self) (v : Val) (c : Self.Cell) → cell_of s v ≡ Some c → Self.Cell.type_of c ≡ value_type v };

    /// A cell has the number of its int.
    ghost keeps_int: { (s : Self) (v : Val) (c : Self.Cell) → cell_of s v ≡ Some c → Self.Cell.int_of c ≡ value_int v };

    /// A value that has a cell by itself has it in each coder.
    ghost keeps_own: { (s : Self) → Extends own (cell_of s) };
}

/// The coder whose cells are the values themselves.
#[derive(Debug, Drop)]
pub struct PlainCoder {}

impl Coder for PlainCoder {
    type Cell = Value;

    ghost cell_of = { λ s v. Some v };

    ghost value_of = { λ s c. c };

    ghost own = { λ v. Some v };

    fn empty(_alloc: Global) -> Result<PlainCoder, AllocError> {
        Ok(PlainCoder {})
    }

    fn put(&mut self, alloc: Global, value: &Value) -> Result<Value, AllocError> {
        value.copy_in(alloc)
    }

    fn find(&self, alloc: Global, value: &Value) -> Result<Option<Value>, AllocError> {
        Ok(Some(value.copy_in(alloc)?))
    }

    fn get(&self, alloc: Global, cell: &Value) -> Result<Value, AllocError> {
        cell.copy_in(alloc)
    }

    ghost decodes = { λ s v c p. Prim.cc };

    ghost keeps_type = { λ s v c p. Prim.cc };

    ghost keeps_int = { λ s v c p. Prim.cc };

    ghost keeps_own = { λ s v c p. p };
}

/// Every coder gives cells that stand for their values, have their types and keep the order of ints.
pub fn coding<P: Coder>(_coder: &P)
    ensures coding { IsCoding P.Cell.cmp P.Cell.int_of (P.cell_of _coder.now) }
    ensures decodes { Decodes (P.cell_of _coder.now) (P.value_of _coder.now) }
    ensures types { (v : Val) (c : P.Cell) → P.cell_of _coder.now v ≡ Some c → P.Cell.type_of c ≡ value_type v }
{}
