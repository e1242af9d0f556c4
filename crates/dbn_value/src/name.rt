ghost use Rattle.std.specs.Prelude.{◌≡◌, ◌↔◌, refl, IfOk, IsErr, IsErrOf, IsFalse, IsTrue};
ghost use Rattle.std.specs.List.{list_all};
ghost use Rattle.std.specs.Ordering.{as_partial_cmp};
ghost use Rattle.std.specs.Cmp.{partial_equiv_from_equiv};
ghost use Rattle.dbn_value.specs.Text.{is_name_byte, is_identifier, is_operator, is_name, IsName};
ghost use Rattle.dbn_value.specs.Names.{name_eq, name_cmp, name_equiv, name_partial, name_total, names_tie};

use super::copying::CopyIn;
use super::value::ValueFault;
use std::alloc::{AllocError, Global};
use std::cmp::Ordering;
use std::marker::Model;

/// A name: an ASCII letter followed by ASCII letters, digits, `_` and `-`, or one of the operators `=`, `!=`, `<`, `<=`, `>`, `>=`.
#[derive(Debug, Drop)]
pub struct Name {
    bytes: Vec<u8>,
}

impl Model for Name {
    ghost use Rattle.std.specs.Prelude.{List, ℕ};
    ghost use Rattle.std.specs.Coded.{coded_list, coded_ℕ};
    ghost use Rattle.dbn_value.specs.Text.{IsName};

    ghost Value = { List ℕ };

    ghost coded = { coded_list coded_ℕ };

    ghost view = { λ n. n.bytes.items };

    ghost invariant = { λ n. IsName n.bytes.items };
}

/// Whether the byte may stand in a name behind its first one.
fn is_name_byte(byte: u8) -> bool
    ensures { result ≡ is_name_byte byte }
{
    byte.is_ascii_alphanumeric() || byte == b'_' || byte == b'-'
}

/// Whether each byte may stand in a name behind its first one.
fn are_name_bytes(bytes: &[u8]) -> bool
    ensures { result ≡ list_all is_name_byte bytes.now }
{
    bytes.iter().all(|byte| is_name_byte(*byte))
}

/// Whether the bytes are a letter and then bytes of names.
#[tactic(auto, using(crate::proofs::Names::letter_first, crate::proofs::Names::no_letter_first))]
fn is_identifier(bytes: &[u8]) -> bool
    ensures { result ≡ is_identifier bytes.now }
{
    match bytes {
        [] => false,
        [first, rest @ ..] => {
            if first.is_ascii_alphabetic() {
                are_name_bytes(rest)
            } else {
                false
            }
        }
    }
}

/// Whether the bytes are one of the six operators.
fn is_operator(bytes: &[u8]) -> bool
    ensures { result ≡ is_operator bytes.now }
{
    match bytes {
        [a] => *a == b'=' || *a == b'<' || *a == b'>',
        [a, b] => *b == b'=' && (*a == b'!' || *a == b'<' || *a == b'>'),
        _ => false,
    }
}

/// Whether the bytes are a name.
#[tactic(auto, unfolding(crate::specs::Text::is_name))]
fn is_name(bytes: &[u8]) -> bool
    ensures { result ≡ is_name bytes.now }
{
    is_identifier(bytes) || is_operator(bytes)
}

impl Name {
    /// The name of these bytes, which takes no memory.
    pub fn from_vec(bytes: Vec<u8>) -> Name
        requires { IsName bytes.items }
        ensures { result ≡ bytes.items }
    {
        Name { bytes }
    }

    /// The name of these bytes. `Spelling` comes exactly where they are no name, `Memory` where memory was refused.
    pub fn from_bytes(alloc: Global, bytes: &[u8]) -> Result<Name, ValueFault>
        ensures ok { IfOk result (λ name. name ≡ bytes.now) }
        ensures spelling { IsErrOf result ValueFault.Spelling ↔ IsFalse (is_name bytes.now) }
        ensures none { IsFalse (is_name bytes.now) → IsErr result }
    {
        if !is_name(bytes) {
            return Err(ValueFault::Spelling);
        }
        Ok(Name::from_vec(Vec::from_slice(alloc, bytes)?))
    }

    /// Whether the name is no operator: a letter and then letters, digits, `_` and `-`.
    pub fn is_plain(&self) -> bool
        ensures { result ≡ is_identifier self.now }
    {
        is_identifier(self.bytes.as_slice())
    }

    /// Whether the two names are equal.
    pub fn same(&self, other: &Name) -> bool
        ensures value { result ≡ name_eq self.now other.now }
        ensures equal { IsTrue result ↔ (self.now ≡ other.now) }
    {
        self == other
    }

    /// The bytes of the name.
    pub fn as_bytes(&self) -> &[u8]
        ensures value { result.now ≡ self.now }
        ensures name { IsName result.now }
    {
        self.bytes.as_slice()
    }
}

impl PartialEq for Name {
    ghost eq = { name_eq };

    ghost laws = { partial_equiv_from_equiv name_equiv };

    fn eq(&self, other: &Name) -> bool {
        self.bytes == other.bytes
    }
}

impl Eq for Name {
    ghost laws = { name_equiv };
}

impl PartialOrd for Name {
    ghost partial_cmp = { as_partial_cmp name_cmp };

    ghost laws = { name_partial };

    fn partial_cmp(&self, other: &Name) -> Option<Ordering> {
        Some(self.cmp(other))
    }
}

impl Ord for Name {
    ghost cmp = { name_cmp };

    ghost total = { name_total };

    ghost matches_partial_cmp = { λ x y. refl };

    ghost matches_eq = { names_tie };

    fn cmp(&self, other: &Name) -> Ordering {
        self.bytes.cmp(&other.bytes)
    }
}

impl CopyIn for Name {
    fn copy_in(&self, alloc: Global) -> Result<Name, AllocError> {
        let bytes = Vec::from_slice(alloc, self.bytes.as_slice())?;
        Ok(Name { bytes })
    }
}
