ghost use Rattle.std.specs.Prelude.{◌≡◌, ◌≤◌, length, IfOk, IsOk};

use super::copying::CopyIn;
use super::member::Member;
use super::name::Name;
use super::row::Row;
use super::term::{Term, Var};
use super::value::{ColType, Value};
use smallvec::SmallVec;
use sqlite_items::Items;
use std::alloc::{AllocError, Global};
use std::marker::Model;

/// A list of variables.
pub type Vars = Items<Var>;

/// A list of terms.
pub type Terms = Items<Term>;

/// Variables with their types.
pub type TypedVars = Items<(Var, ColType)>;

/// Names with their types.
pub type TypedNames = Items<(Name, ColType)>;

/// The types of the columns of a row.
pub type Shape = Items<ColType>;

/// A list of shapes.
pub type Shapes = Items<Shape>;

/// A list of rows of cells.
pub type RowsOf<C> = Items<Row<C>>;

/// A list of rows of values.
pub type Rows = RowsOf<Value>;

/// The members of a group of firings, in the order in which they fire.
pub type Members = Items<Member>;

/// A list of bytes.
#[derive(Debug, Drop)]
pub struct Bytes {
    bytes: Vec<u8>,
}

impl Model for Bytes {
    ghost use Rattle.std.specs.Prelude.{List, ℕ};
    ghost use Rattle.std.specs.Coded.{coded_list, coded_ℕ};

    ghost Value = { List ℕ };

    ghost coded = { coded_list coded_ℕ };

    ghost view = { λ b. b.bytes.items };
}

impl Bytes {
    /// The bytes of the vector.
    pub fn from_vec(bytes: Vec<u8>) -> Bytes
        ensures { result ≡ bytes.items }
    {
        Bytes { bytes }
    }

    /// The bytes as a slice.
    pub fn as_slice(&self) -> &[u8]
        ensures { result.now ≡ self.now }
    {
        self.bytes.as_slice()
    }

    /// The vector of the bytes; this takes no memory.
    pub fn into_vec(self) -> Vec<u8>
        ensures { result.items ≡ self }
    {
        self.bytes
    }
}

/// A list of numbers, as of columns; up to eight stand in the value itself.
#[derive(Debug, Drop)]
pub struct Nums {
    nums: SmallVec<usize, 8>,
}

impl Model for Nums {
    ghost use Rattle.std.specs.Prelude.{List, ℕ};
    ghost use Rattle.std.specs.Coded.{coded_list, coded_ℕ};

    ghost Value = { List ℕ };

    ghost coded = { coded_list coded_ℕ };

    ghost view = { λ n. n.nums.items };
}

impl Nums {
    /// The numbers of the slice. Up to eight numbers take no memory, and then it isn't refused.
    pub fn from_slice(alloc: Global, nums: &[usize]) -> Result<Nums, AllocError>
        ensures ok { IfOk result (λ n. n ≡ nums.now) }
        ensures short { length nums.now ≤ 8 → IsOk result }
    {
        let nums = SmallVec::from_slice(alloc, nums)?;
        Ok(Nums { nums })
    }

    /// The numbers of the vector; this takes no memory.
    pub fn from_vec(nums: Vec<usize>) -> Nums
        ensures { result ≡ nums.items }
    {
        Nums {
            nums: SmallVec::from_vec(nums),
        }
    }

    /// The numbers as a slice.
    pub fn as_slice(&self) -> &[usize]
        ensures { result.now ≡ self.now }
    {
        self.nums.as_slice()
    }
}

impl CopyIn for Bytes {
    fn copy_in(&self, alloc: Global) -> Result<Bytes, AllocError> {
        let bytes = Vec::from_slice(alloc, self.bytes.as_slice())?;
        Ok(Bytes { bytes })
    }
}

impl CopyIn for Nums {
    fn copy_in(&self, alloc: Global) -> Result<Nums, AllocError> {
        Nums::from_slice(alloc, self.as_slice())
    }
}
