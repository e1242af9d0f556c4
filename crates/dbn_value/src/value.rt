ghost use Rattle.std.specs.Prelude.{◌≡◌, ◌≤◌, ◌<◌, ◌^◌, MatchOption, IfOk, IsErr, IsErrOf, Some, None, if◌then◌else◌, IsFalse, IsTrue, ◌↔◌};
ghost use Rattle.std.specs.List.{list_any};
ghost use Rattle.std.specs.Char.{is_control};
ghost use Rattle.std.specs.Str.{chars};
ghost use Rattle.dbn_value.specs.Text.{is_text, IsText};
ghost use Rattle.dbn_value.specs.Order.{type_eq};

use super::copying::CopyIn;
use std::alloc::{AllocError, AllocFailed, Global};
use std::marker::Model;
use std::str::from_utf8;

/// The type of a column, a variable or a value.
#[derive(Debug, Clone, Copy, PartialEq, Eq, Drop)]
pub enum ColType {
    /// Ints.
    Int,
    /// Texts.
    Text,
    /// Ids.
    Id,
}

/// The greatest number of bytes of a text.
pub const MAX_TEXT_BYTES: usize = 4096;

/// The numbers of ids are below this one, 2^62.
pub const ID_END: u64 = 1 << 62;

/// Whether a control character stands in the text.
fn has_control(text: &str) -> bool
    ensures { result ≡ list_any is_control (chars text.now) }
{
    text.chars().any(|c| c.is_control())
}

/// Whether the bytes are a text.
#[tactic(auto, using(crate::proofs::Texts::no_utf8, crate::proofs::Texts::too_long, crate::proofs::Texts::fits_text))]
pub(crate) fn is_text(bytes: &[u8]) -> bool
    ensures { result ≡ is_text bytes.now }
{
    match from_utf8(bytes) {
        Ok(text) => bytes.len() <= MAX_TEXT_BYTES && !has_control(text),
        Err(_) => false,
    }
}

/// Whether the two are the same type.
pub fn same_type(a: ColType, b: ColType) -> bool
    ensures value { result ≡ type_eq a b }
    ensures equal { IsTrue result ↔ (a ≡ b) }
{
    a == b
}

/// A text: at most 4,096 bytes of UTF-8 without control characters.
#[derive(Debug, Drop)]
pub struct Txt {
    bytes: Vec<u8>,
}

impl Model for Txt {
    ghost use Rattle.std.specs.Prelude.{List, ℕ};
    ghost use Rattle.std.specs.Coded.{coded_list, coded_ℕ};
    ghost use Rattle.dbn_value.specs.Text.{IsText};

    ghost Value = { List ℕ };

    ghost coded = { coded_list coded_ℕ };

    ghost view = { λ t. t.bytes.items };

    ghost invariant = { λ t. IsText t.bytes.items };
}

impl Txt {
    /// The text of these bytes. `Spelling` comes exactly where they are no text, `Memory` where memory was refused.
    pub fn from_bytes(alloc: Global, bytes: &[u8]) -> Result<Txt, ValueFault>
        ensures ok { IfOk result (λ text. text ≡ bytes.now) }
        ensures spelling { IsErrOf result ValueFault.Spelling ↔ IsFalse (is_text bytes.now) }
        ensures none { IsFalse (is_text bytes.now) → IsErr result }
    {
        if !is_text(bytes) {
            return Err(ValueFault::Spelling);
        }
        let bytes = Vec::from_slice(alloc, bytes)?;
        Ok(Txt { bytes })
    }

    /// The text of these bytes, which takes no memory, and `None` exactly where they are no text.
    pub(crate) fn from_vec(bytes: Vec<u8>) -> Option<Txt>
        ensures { result ≡ (if is_text bytes.items then Some bytes.items else None) }
    {
        if is_text(bytes.as_slice()) {
            Some(Txt { bytes })
        } else {
            None
        }
    }

    /// The bytes of the text.
    pub fn as_bytes(&self) -> &[u8]
        ensures value { result.now ≡ self.now }
        ensures text { IsText result.now }
    {
        self.bytes.as_slice()
    }
}

impl CopyIn for Txt {
    fn copy_in(&self, alloc: Global) -> Result<Txt, AllocError> {
        let bytes = Vec::from_slice(alloc, self.bytes.as_slice())?;
        Ok(Txt { bytes })
    }
}

/// The number of an id, below 2^62.
#[derive(Debug, Clone, Copy, PartialEq, Eq, PartialOrd, Ord, Drop)]
pub struct IdNo {
    number: u64,
}

impl Model for IdNo {
    ghost use Rattle.std.specs.Prelude.{ℕ, ◌<◌, ◌^◌};
    ghost use Rattle.std.specs.Coded.{coded_ℕ};

    ghost Value = { ℕ };

    ghost coded = { coded_ℕ };

    ghost view = { λ i. i.number };

    ghost invariant = { λ i. i.number < 2 ^ 62 };

    ghost inverse = { λ n. record { number = n } };
}

impl IdNo {
    /// The id with this number, and `None` exactly from 2^62 on.
    pub fn new(n: u64) -> Option<IdNo>
        ensures { MatchOption result (2 ^ 62 ≤ n) (λ i. (i ≡ n) × (n < 2 ^ 62)) }
    {
        if n < ID_END {
            Some(IdNo { number: n })
        } else {
            None
        }
    }

    /// The number of the id.
    pub fn number(&self) -> u64
        ensures value { result ≡ self.now }
        ensures small { result < 2 ^ 62 }
    {
        self.number
    }
}

/// A value of a net: an int, a text or an id.
#[derive(Debug, Drop)]
pub enum Value {
    /// An int, from -2^63 to 2^63 - 1.
    Int(i64),
    /// A text.
    Text(Txt),
    /// An id.
    Id(IdNo),
}

impl CopyIn for Value {
    fn copy_in(&self, alloc: Global) -> Result<Value, AllocError> {
        match self {
            Value::Int(n) => Ok(Value::Int(*n)),
            Value::Text(text) => Ok(Value::Text(text.copy_in(alloc)?)),
            Value::Id(id) => Ok(Value::Id(*id)),
        }
    }
}

/// Why bytes give no value, no text or no name.
#[derive(Debug, Clone, Copy, PartialEq, Eq, Drop)]
pub enum ValueFault {
    /// The bytes are no spelling.
    Spelling,
    /// Memory was refused.
    Memory,
}

impl From<AllocError> for ValueFault {
    ghost use Rattle.dbn_value.specs.declared.value.ValueFault.{ValueFault as Fault};
    ghost use Rattle.dbn_value.specs.declared.value.ValueFault.TheVariants.{Memory};

    ghost from_gives = { λ _ f. f ≡ Memory };

    fn from(_error: AllocError) -> ValueFault {
        ValueFault::Memory
    }
}

impl<T: Drop> From<AllocFailed<T>> for ValueFault {
    ghost use Rattle.dbn_value.specs.declared.value.ValueFault.{ValueFault as Fault};
    ghost use Rattle.dbn_value.specs.declared.value.ValueFault.TheVariants.{Memory};

    ghost from_gives = { λ _ f. f ≡ Memory };

    fn from(_error: AllocFailed<T>) -> ValueFault {
        ValueFault::Memory
    }
}
