//! A text as a key of a hash table, looked up by its bytes.

ghost use Rattle.std.specs.Prelude.{◌≡◌};
ghost use Rattle.std.specs.Cmp.{partial_equiv_from_equiv};
ghost use Rattle.std.specs.Cmp.Lexicographic.{nat_list_eq_equiv, bytes_decides};
ghost use Rattle.std.specs.Cmp.Rules.{hashing};
ghost use Rattle.std.proofs.Common.{ap, rules};
ghost use Rattle.std.specs.Hash as fed;
ghost use Rattle.std.specs.Str.{bytes_eq};

use dbn_value::Txt;
use indexmap::Equivalent;
use std::hash::{Hash, Hasher};
use std::marker::Model;

/// A text in a pool.
#[derive(Drop)]
pub struct Interned {
    text: Txt,
}

impl Model for Interned {
    ghost use Rattle.std.specs.Prelude.{List, ℕ};
    ghost use Rattle.std.specs.Coded.{coded_list, coded_ℕ};

    ghost Value = { List ℕ };

    ghost coded = { coded_list coded_ℕ };

    ghost view = { λ i. i.text };
}

impl Interned {
    /// The text as a key; this takes no memory.
    pub(crate) fn new(text: Txt) -> Interned
        ensures { result ≡ text }
    {
        Interned { text }
    }

    /// The text.
    pub(crate) fn text(&self) -> &Txt
        ensures { result.now ≡ self.now }
    {
        &self.text
    }
}

impl PartialEq for Interned {
    ghost eq = { bytes_eq };

    ghost laws = { partial_equiv_from_equiv nat_list_eq_equiv };

    fn eq(&self, other: &Interned) -> bool {
        self.text.as_bytes() == other.text.as_bytes()
    }
}

impl Eq for Interned {
    ghost laws = { nat_list_eq_equiv };
}

impl Hash for Interned {
    ghost hash_input = { λ i. fed.slice fed.u8 i };

    ghost respects_eq = { Prim.search (hashing, rules) };

    fn hash<H: Hasher>(&self, state: &mut H) {
        self.text.as_bytes().hash(state);
    }
}

impl Equivalent<Interned> for &[u8] {
    ghost equivalent = { λ q k. bytes_eq q.now k };

    ghost respects_hash = { λ q k h. ap (fed.slice fed.u8) ((bytes_decides q.now k).0 h) };

    ghost respects_eq = { λ q x y. nat_list_eq_equiv.congr q.now x y };

    fn equivalent(&self, key: &Interned) -> bool {
        *self == key.text.as_bytes()
    }
}
