//! S-expressions of names, values, terms and types. All stand on line 0.

ghost use Rattle.std.specs.Prelude.{◌≡◌, ◌<◌, ◌^◌, ◌++◌, ◌∷◌, [], pos, map, IfOk, OnOk};
ghost use Rattle.dbn_value.specs.Text.{IsName};
ghost use Rattle.dbn_net.specs.Printing.{on_no_line, word, constant, list, variable_sexp, term_sexp, type_sexp, typed_sexp, typed_variable_sexp, scope_sexp};

use dbn_sexp::{Item, Sexp, SexpList};
use dbn_value::{ColType, CopyIn, Name, Term, Value, Var};
use sqlite_items::Items;
use std::alloc::{AllocError, Global};

/// The S-expression of an item.
fn on_no_line(item: Item) -> Sexp
    ensures { result ≡ on_no_line item }
{
    Sexp { line: 0, item }
}

/// The S-expression of a list.
pub(crate) fn list(parts: SexpList) -> Sexp
    ensures { result ≡ list parts }
{
    on_no_line(Item::List(parts))
}

/// A word of the language.
pub(crate) fn word(alloc: Global, bytes: &[u8]) -> Result<Sexp, AllocError>
    requires { IsName bytes.now }
    ensures { IfOk result (λ one. one ≡ word bytes.now) }
{
    let name = Name::from_vec(Vec::from_slice(alloc, bytes)?);
    Ok(on_no_line(Item::Name(name)))
}

/// A name.
pub(crate) fn name(alloc: Global, name: &Name) -> Result<Sexp, AllocError>
    ensures { IfOk result (λ one. one ≡ word name.now) }
{
    Ok(on_no_line(Item::Name(name.copy_in(alloc)?)))
}

/// A constant.
pub(crate) fn constant(alloc: Global, value: &Value) -> Result<Sexp, AllocError>
    ensures { IfOk result (λ one. one ≡ constant value.now) }
{
    Ok(on_no_line(Item::Const(value.copy_in(alloc)?)))
}

/// The parts of a list that begins with a word of the language.
pub(crate) fn begun(alloc: Global, first: &[u8]) -> Result<SexpList, AllocError>
    requires { IsName first.now }
    ensures { IfOk result (λ parts. parts ≡ word first.now ∷ []) }
{
    let mut parts = Items::new(alloc);
    parts.push(word(alloc, first)?)?;
    Ok(parts)
}

/// A variable or a constant.
pub(crate) fn term(alloc: Global, term: &Term) -> Result<Sexp, AllocError>
    ensures { IfOk result (λ one. one ≡ term_sexp term.now) }
{
    match term {
        Term::Var(var) => name(alloc, &var.name),
        Term::Const(value) => constant(alloc, value),
    }
}

/// Adds the terms.
pub(crate) fn add_terms(alloc: Global, out: &mut SexpList, terms: &[Term]) -> Result<(), AllocError>
    ensures { OnOk result (out.new ≡ out.old ++ map term_sexp terms.now) }
{
    for one in terms {
        out.push(term(alloc, one)?)?;
    }
    Ok(())
}

/// A type.
#[tactic(auto, unfolding(dbn_value::specs::Text::is_name))]
pub(crate) fn type_word(alloc: Global, of_type: ColType) -> Result<Sexp, AllocError>
    ensures { IfOk result (λ one. one ≡ type_sexp of_type) }
{
    match of_type {
        ColType::Int => word(alloc, b"int".as_slice()),
        ColType::Text => word(alloc, b"text".as_slice()),
        ColType::Id => word(alloc, b"id".as_slice()),
    }
}

/// A name with a type.
pub(crate) fn typed(alloc: Global, named: &Name, of_type: ColType) -> Result<Sexp, AllocError>
    ensures { IfOk result (λ one. one ≡ typed_sexp (named.now, of_type)) }
{
    let mut parts = Items::new(alloc);
    parts.push(name(alloc, named)?)?;
    parts.push(type_word(alloc, of_type)?)?;
    Ok(list(parts))
}

/// Adds the variables with their types.
pub(crate) fn add_typed_variables(
    alloc: Global,
    out: &mut SexpList,
    vars: &[(Var, ColType)],
) -> Result<(), AllocError>
    ensures { OnOk result (out.new ≡ out.old ++ map typed_variable_sexp vars.now) }
{
    for var in vars {
        out.push(typed(alloc, &var.0.name, var.1)?)?;
    }
    Ok(())
}

/// Variables with their types.
pub(crate) fn scope(alloc: Global, vars: &[(Var, ColType)]) -> Result<Sexp, AllocError>
    ensures { IfOk result (λ one. one ≡ scope_sexp vars.now) }
{
    let mut parts = Items::new(alloc);
    add_typed_variables(alloc, &mut parts, vars)?;
    Ok(list(parts))
}

/// A count of tokens as a constant.
pub(crate) fn number(many: u64) -> Sexp
    requires { many < 2 ^ 32 }
    ensures { result ≡ constant (Value.Int (pos many)) }
{
    on_no_line(Item::Const(Value::Int(many as i64)))
}
