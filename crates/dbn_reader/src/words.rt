//! Words, names, terms and types: the parts of declarations that are read one by one.

ghost use Rattle.std.specs.Prelude.{◌≡◌, Option};
ghost use Rattle.dbn_sexp.specs.declared.sexp.Sexp.{Sexp as Tree};
ghost use Rattle.dbn_sexp.specs.Parts.{word_in, constant_in, list_in};
ghost use Rattle.dbn_net.specs.Maybe.{each, some};
ghost use Rattle.dbn_net.specs.Forms.{is_word, name_in, variable_in, term_in, type_of, type_in, typed_of, typed_in, typed_variable_in, scope_in, some_scope_in, int_of, int_in};
ghost use Rattle.dbn_reader.specs.Constants.{constant_term};
ghost use Rattle.dbn_reader.specs.Parses.{Parses};

use super::misfit::Misfit;
use dbn_sexp::{Sexp, constant_in, list_in, word_in};
use dbn_value::{ColType, CopyIn, Name, Term, TypedVars, Value, Var};
use sqlite_items::Items;
use std::alloc::Global;

/// What is read of one S-expression.
pub(crate) trait FromSexp: Sized + Drop {
    /// What an S-expression is read as, if it is one.
    ghost read: { Tree → Option Self };

    /// What the S-expression is; `Shape` comes exactly where it is none.
    fn from_sexp(alloc: Global, one: &Sexp) -> Result<Self, Misfit>
        ensures { Parses result (read one.now) };
}

/// What each of the parts is; `Shape` comes exactly where one of them is none.
pub(crate) fn each<T: FromSexp>(alloc: Global, parts: &[Sexp]) -> Result<Items<T>, Misfit>
    ensures { Parses result (each T.read parts.now) }
{
    let mut made = Items::new(alloc);
    for one in parts {
        made.push(T::from_sexp(alloc, one)?)?;
    }
    Ok(made)
}

/// The list, if it has an item.
pub(crate) fn some<T: Drop>(items: Items<T>) -> Result<Items<T>, Misfit>
    ensures { Parses result (some items) }
{
    match items.as_slice() {
        [] => Err(Misfit::Shape),
        [_, ..] => Ok(items),
    }
}

/// Whether the word is the other one.
pub(crate) fn is_word(word: &[u8], other: &[u8]) -> bool
    ensures { result ≡ is_word word.now other.now }
{
    word == other
}

impl FromSexp for Name {
    ghost read = { name_in };

    fn from_sexp(alloc: Global, one: &Sexp) -> Result<Name, Misfit> {
        match word_in(one) {
            None => Err(Misfit::Shape),
            Some(name) => {
                if name.is_plain() {
                    Ok(name.copy_in(alloc)?)
                } else {
                    Err(Misfit::Shape)
                }
            }
        }
    }
}

impl FromSexp for Var {
    ghost read = { variable_in };

    fn from_sexp(alloc: Global, one: &Sexp) -> Result<Var, Misfit> {
        let name = Name::from_sexp(alloc, one)?;
        Ok(Var { name, mark: 0 })
    }
}

impl FromSexp for Value {
    ghost read = { constant_in };

    fn from_sexp(alloc: Global, one: &Sexp) -> Result<Value, Misfit> {
        match constant_in(one) {
            None => Err(Misfit::Shape),
            Some(value) => Ok(value.copy_in(alloc)?),
        }
    }
}

impl FromSexp for Term {
    ghost read = { term_in };

    fn from_sexp(alloc: Global, one: &Sexp) -> Result<Term, Misfit> {
        match Var::from_sexp(alloc, one) {
            Ok(var) => Ok(Term::Var(var)),
            Err(Misfit::Memory) => Err(Misfit::Memory),
            Err(Misfit::Shape) => constant_term(alloc, one),
        }
    }
}

/// The constant that the S-expression is, as a term.
fn constant_term(alloc: Global, one: &Sexp) -> Result<Term, Misfit>
    ensures { Parses result (constant_term one.now) }
{
    let value = Value::from_sexp(alloc, one)?;
    Ok(Term::Const(value))
}

/// The type that the word names.
fn type_of(word: &[u8]) -> Option<ColType>
    ensures { result ≡ type_of word.now }
{
    if is_word(word, b"int".as_slice()) {
        Some(ColType::Int)
    } else if is_word(word, b"text".as_slice()) {
        Some(ColType::Text)
    } else if is_word(word, b"id".as_slice()) {
        Some(ColType::Id)
    } else {
        None
    }
}

impl FromSexp for ColType {
    ghost read = { type_in };

    fn from_sexp(_alloc: Global, one: &Sexp) -> Result<ColType, Misfit> {
        match word_in(one) {
            None => Err(Misfit::Shape),
            Some(word) => match type_of(word.as_bytes()) {
                Some(kind) => Ok(kind),
                None => Err(Misfit::Shape),
            },
        }
    }
}

/// `(f type)`, without its parentheses.
fn typed_of(alloc: Global, parts: &[Sexp]) -> Result<(Name, ColType), Misfit>
    ensures { Parses result (typed_of parts.now) }
{
    match parts {
        [name, kind] => {
            let name = Name::from_sexp(alloc, name)?;
            let kind = ColType::from_sexp(alloc, kind)?;
            Ok((name, kind))
        }
        _ => Err(Misfit::Shape),
    }
}

/// `(f type)`
fn typed_in(alloc: Global, one: &Sexp) -> Result<(Name, ColType), Misfit>
    ensures { Parses result (typed_in one.now) }
{
    match list_in(one) {
        None => Err(Misfit::Shape),
        Some(parts) => typed_of(alloc, parts),
    }
}

impl FromSexp for (Name, ColType) {
    ghost read = { typed_in };

    fn from_sexp(alloc: Global, one: &Sexp) -> Result<(Name, ColType), Misfit> {
        typed_in(alloc, one)
    }
}

impl FromSexp for (Var, ColType) {
    ghost read = { typed_variable_in };

    fn from_sexp(alloc: Global, one: &Sexp) -> Result<(Var, ColType), Misfit> {
        let (name, kind) = typed_in(alloc, one)?;
        Ok((Var { name, mark: 0 }, kind))
    }
}

/// `((x type)..)`
pub(crate) fn scope_in(alloc: Global, one: &Sexp) -> Result<TypedVars, Misfit>
    ensures { Parses result (scope_in one.now) }
{
    match list_in(one) {
        None => Err(Misfit::Shape),
        Some(parts) => each::<(Var, ColType)>(alloc, parts),
    }
}

/// `((x type)..+)`
pub(crate) fn some_scope_in(alloc: Global, one: &Sexp) -> Result<TypedVars, Misfit>
    ensures { Parses result (some_scope_in one.now) }
{
    some(scope_in(alloc, one)?)
}

/// The int that the S-expression is. This takes no memory.
pub(crate) fn int_in(one: &Sexp) -> Result<i64, Misfit>
    ensures { Parses result (int_in one.now) }
{
    match constant_in(one) {
        None => Err(Misfit::Shape),
        Some(value) => int_of(value),
    }
}

/// The int that the value is.
fn int_of(value: &Value) -> Result<i64, Misfit>
    ensures { Parses result (int_of value.now) }
{
    match value {
        Value::Int(n) => Ok(*n),
        Value::Text(_) => Err(Misfit::Shape),
        Value::Id(_) => Err(Misfit::Shape),
    }
}
