ghost use Rattle.std.specs.Prelude.{◌≡◌, ◌↔◌, ℤ, Option, Some, IsSome};
ghost use Rattle.std.specs.Ordering.{int_cmp, eq_by_cmp};
ghost use Rattle.std.specs.FinMap.{IsAntisymmetric};
ghost use Rattle.dbn_value.specs.declared.value.ColType.{ColType as Column};
ghost use Rattle.dbn_value.specs.declared.value.ColType.TheVariants as col;
ghost use Rattle.dbn_value.specs.Order.{value_type, value_int, exact_values, ints_have_numbers, ints_by_number};

use super::copying::CopyIn;
use super::value::{ColType, Value};
use std::cmp::Ordering;

/// What stands in the rows of a table for a value: the value itself, or a short name of it.
///
/// Cells are ordered by `Ord`, and cells that tie are equal.
pub trait Cell: Sized + Ord + CopyIn + Drop {
    /// The type of the value that the cell stands for.
    ghost type_of: { Self → Column };

    /// The number of the int that the cell stands for.
    ghost int_of: { Self → Option ℤ };

    /// The type of the cell.
    fn col_type(&self) -> ColType
        ensures { result ≡ type_of self.now };

    /// The order of cells, that of `Ord`.
    fn order(&self, other: &Self) -> Ordering
        ensures { result ≡ Self.cmp self.now other.now };

    /// Whether the two are the same cell.
    fn same(&self, other: &Self) -> bool
        ensures { result ≡ eq_by_cmp Self.cmp self.now other.now };

    /// Cells that tie are equal.
    ghost exact: { IsAntisymmetric Self.cmp };

    /// The cells of type int are those that stand for a number.
    ghost have_numbers: { (c : Self) → (type_of c ≡ col.Int) ↔ IsSome (int_of c) };

    /// Cells of ints are ordered by their numbers.
    ghost by_number: { (a b : Self) (m n : ℤ) → int_of a ≡ Some m → int_of b ≡ Some n → Self.cmp a b ≡ int_cmp m n };
}

impl Cell for Value {
    ghost type_of = { value_type };

    ghost int_of = { value_int };

    fn col_type(&self) -> ColType {
        match self {
            Value::Int(_) => ColType::Int,
            Value::Text(_) => ColType::Text,
            Value::Id(_) => ColType::Id,
        }
    }

    fn order(&self, other: &Value) -> Ordering {
        self.cmp(other)
    }

    fn same(&self, other: &Value) -> bool {
        self.cmp(other).is_eq()
    }

    ghost exact = { exact_values };

    ghost have_numbers = { ints_have_numbers };

    ghost by_number = { ints_by_number };
}
