//! The pool of the texts that were put.

ghost use Rattle.std.specs.Prelude.{◌≡◌, ◌≢◌, ◌<◌, [], is_some, Option, Some, length, get_or, IfOk, IsOk, IsSome, OnOk, OnErr};
ghost use Rattle.std.specs.List.{list_any};
ghost use Rattle.std.specs.Str.{bytes_eq};
ghost use Rattle.dbn_value.specs.declared.value.Value.{Value as Val};
ghost use Rattle.dbn_value.specs.Coding.{Extends};
ghost use Rattle.dbn_pool.specs.Pooled.{symbol_of, cell_of, value_of, own_cell, with_text};
ghost use Rattle.dbn_pool.specs.PooledLaws.{decodes, keeps_type, keeps_int, keeps_own};

use super::cell::SymCell;
use super::interned::Interned;
use dbn_value::{Coder, CopyIn, Txt, Value};
use indexmap::IndexSet;
use std::alloc::{AllocError, Global};
use std::marker::Model;

/// The texts that were put, in that order. The number of a text is its symbol, and never changes.
#[derive(Drop)]
pub struct Pool {
    texts: IndexSet<Interned>,
}

impl Model for Pool {
    ghost use Rattle.std.specs.Prelude.{List, ℕ};
    ghost use Rattle.std.specs.Coded.{coded_list, coded_ℕ};

    ghost Value = { List (List ℕ) };

    ghost coded = { coded_list (coded_list coded_ℕ) };

    ghost view = { λ p. p.texts.keys };
}

impl Pool {
    /// The symbol of the text: `None` exactly where it was never put. This takes no memory.
    fn symbol_of(&self, text: &Txt) -> Option<u64>
        ensures symbol { result ≡ symbol_of self.now text.now }
        ensures put { is_some result ≡ list_any (bytes_eq text.now) self.now }
    {
        let place = self.texts.get_index_of(text.as_bytes())?;
        Some(place as u64)
    }

    /// The symbol of the text, which has one from then on. An error is want of memory, and then nothing changed.
    fn intern(&mut self, alloc: Global, text: &Txt) -> Result<u64, AllocError>
        ensures symbol { IfOk result (λ symbol. symbol_of self.new text.now ≡ Some symbol) }
        ensures texts { OnOk result (self.new ≡ with_text self.old text.now) }
        ensures err { OnErr result (self.new ≡ self.old) }
    {
        if let Some(symbol) = self.symbol_of(text) {
            return Ok(symbol);
        }
        let key = Interned::new(text.copy_in(alloc)?);
        let (place, _) = self.texts.insert_full(key)?;
        Ok(place as u64)
    }

    /// The text with this symbol. An error is want of memory.
    fn text_of(&self, alloc: Global, symbol: u64) -> Result<Txt, AllocError>
        requires { symbol < length self.now }
        ensures { IfOk result (λ text. text ≡ get_or self.now symbol []) }
    {
        self.texts.as_slice()[symbol as usize].text().copy_in(alloc)
    }
}

impl Coder for Pool {
    type Cell = SymCell;

    ghost cell_of = { cell_of };

    ghost value_of = { value_of };

    ghost own = { own_cell };

    fn empty(alloc: Global) -> Result<Pool, AllocError> {
        Ok(Pool {
            texts: IndexSet::new(alloc),
        })
    }

    /// The cell of the value. A text gets a symbol where it has none, and keeps it from then on. An error is want of memory,
    /// and then nothing changed; an int and an id take no memory.
    fn put(&mut self, alloc: Global, value: &Value) -> Result<SymCell, AllocError>
        ensures cell { IfOk result (λ c. cell_of self.new value.now ≡ Some c) }
        ensures grows { OnOk result (Extends (cell_of self.old) (cell_of self.new)) }
        ensures alone { OnOk result ((v : Val) → v ≢ value.now → cell_of self.new v ≡ cell_of self.old v) }
        ensures err { OnErr result (self.new ≡ self.old) }
        ensures plain { IsSome (own_cell value.now) → IsOk result }
    {
        match value {
            Value::Int(n) => Ok(SymCell::Int(*n)),
            Value::Text(text) => Ok(SymCell::Sym(self.intern(alloc, text)?)),
            Value::Id(id) => Ok(SymCell::Id(*id)),
        }
    }

    /// The cell of the value: `None` exactly for a text that was never put. This takes no memory, and always succeeds.
    fn find(&self, _alloc: Global, value: &Value) -> Result<Option<SymCell>, AllocError>
        ensures found { IfOk result (λ found. found ≡ cell_of self.now value.now) }
        ensures ok { IsOk result }
    {
        match value {
            Value::Int(n) => Ok(Some(SymCell::Int(*n))),
            Value::Text(text) => Ok(self.symbol_of(text).map(SymCell::Sym)),
            Value::Id(id) => Ok(Some(SymCell::Id(*id))),
        }
    }

    fn get(&self, alloc: Global, cell: &SymCell) -> Result<Value, AllocError> {
        match cell {
            SymCell::Int(n) => Ok(Value::Int(*n)),
            SymCell::Id(id) => Ok(Value::Id(*id)),
            SymCell::Sym(symbol) => Ok(Value::Text(self.text_of(alloc, *symbol)?)),
        }
    }

    ghost decodes = { decodes };

    ghost keeps_type = { keeps_type };

    ghost keeps_int = { keeps_int };

    ghost keeps_own = { keeps_own };
}
