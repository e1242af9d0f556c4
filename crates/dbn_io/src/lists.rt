//! Lists that contracts see as plain lists.

ghost use Rattle.std.specs.Prelude.{◌≡◌, ℕ, List};

use std::marker::Model;

/// A list of bytes.
#[derive(Debug, Drop)]
pub struct Bytes {
    inside: Vec<u8>,
}

impl Model for Bytes {
    ghost Value = { List ℕ };

    ghost view = { λ b. b.inside.items };
}

impl Bytes {
    /// The bytes of `inside`.
    pub fn from_vec(inside: Vec<u8>) -> Bytes
        ensures { result ≡ inside.items }
    {
        Bytes { inside }
    }

    /// The bytes, lent.
    pub fn as_slice(&self) -> &[u8]
        ensures { result.now ≡ self.now }
    {
        self.inside.as_slice()
    }

    /// The bytes, given back without a copy.
    pub fn into_vec(self) -> Vec<u8>
        ensures { result.items ≡ self }
    {
        self.inside
    }
}

/// A list of the numbers of calls, from 0.
#[derive(Debug, Drop)]
pub struct Calls {
    inside: Vec<u64>,
}

impl Model for Calls {
    ghost Value = { List ℕ };

    ghost view = { λ c. c.inside.items };
}

impl Calls {
    /// The numbers of `inside`.
    pub fn from_vec(inside: Vec<u64>) -> Calls
        ensures { result ≡ inside.items }
    {
        Calls { inside }
    }

    /// The numbers, lent.
    pub fn as_slice(&self) -> &[u64]
        ensures { result.now ≡ self.now }
    {
        self.inside.as_slice()
    }

    /// The numbers, given back without a copy.
    pub fn into_vec(self) -> Vec<u64>
        ensures { result.items ≡ self }
    {
        self.inside
    }
}
