//! Tables of names.

ghost use Rattle.std.specs.Prelude.{◌≡◌, ◌++◌, ◌∷◌, [], true, List, ℕ, OnOk, OnErr};
ghost use Rattle.dbn_net.specs.Naming.{number_of};
ghost use Rattle.dbn_net.specs.Judging.{is_new};

use indexmap::IndexSet;
use std::alloc::{AllocError, Global};
use std::marker::Model;

/// Names, each once, numbered from 0 on in the order in which they were entered.
#[derive(Drop)]
pub(crate) struct NameTable {
    names: IndexSet<Vec<u8>>,
}

impl Model for NameTable {
    ghost use Rattle.std.specs.Prelude.{List, ℕ, map};
    ghost use Rattle.std.specs.Coded.{coded_list, coded_ℕ};

    ghost Value = { List (List ℕ) };

    ghost coded = { coded_list (coded_list coded_ℕ) };

    ghost view = { λ n. map (λ v. v.items) n.names.keys };
}

impl NameTable {
    /// No names. This takes no memory.
    pub(crate) fn new(alloc: Global) -> NameTable
        ensures { result ≡ [] }
    {
        NameTable {
            names: IndexSet::new(alloc),
        }
    }

    /// The number of the name, if it is there.
    #[tactic(auto, using(crate::proofs::NameTables::position_map))]
    pub(crate) fn number(&self, name: &[u8]) -> Option<usize>
        ensures { result ≡ number_of self.now name.now }
    {
        self.names.get_index_of(name)
    }

    /// Whether the name isn't there.
    #[tactic(auto, using(crate::proofs::NameTables::any_map))]
    pub(crate) fn is_new(&self, name: &[u8]) -> bool
        ensures { result ≡ is_new self.now name.now }
    {
        !self.names.contains(name)
    }

    /// Enters a new name behind the others. After want of memory nothing changed.
    pub(crate) fn enter(&mut self, name: Vec<u8>) -> Result<(), AllocError>
        requires { is_new self.old name.items ≡ true }
        ensures ok { OnOk result (self.new ≡ self.old ++ name.items ∷ []) }
        ensures err { OnErr result (self.new ≡ self.old) }
    {
        self.names.insert(name)?;
        Ok(())
    }

    /// Takes the last name out.
    pub(crate) fn pop(&mut self)
        ensures { (names : List (List ℕ)) (name : List ℕ) → self.old ≡ names ++ name ∷ [] → self.new ≡ names }
    {
        let _last = self.names.pop();
    }
}
