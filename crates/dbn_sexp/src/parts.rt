//! An S-expression taken apart. Nothing is copied, so no call takes memory.

ghost use Rattle.std.specs.Prelude.{◌≡◌};
ghost use Rattle.std.specs.Option.{option_copied};
ghost use Rattle.dbn_sexp.specs.Parts.{word_in, constant_in, list_in};

use crate::sexp::{Item, Sexp};
use dbn_value::{Name, Value};

/// The name or operator that it is; `None` comes exactly where it is a constant or a list.
#[tactic(auto, using(crate::proofs::PartLaws::form_laws))]
pub fn word_in(one: &Sexp) -> Option<&Name>
    ensures { option_copied result ≡ word_in one.now }
{
    match &one.item {
        Item::Name(name) => Some(name),
        Item::Const(_) => None,
        Item::List(_) => None,
    }
}

/// The constant that it is; `None` comes exactly where it is a name, an operator or a list.
#[tactic(auto, using(crate::proofs::PartLaws::form_laws))]
pub fn constant_in(one: &Sexp) -> Option<&Value>
    ensures { option_copied result ≡ constant_in one.now }
{
    match &one.item {
        Item::Name(_) => None,
        Item::Const(value) => Some(value),
        Item::List(_) => None,
    }
}

/// The parts of the list that it is; `None` comes exactly where it is a name, an operator or a constant.
#[tactic(auto, using(crate::proofs::PartLaws::form_laws))]
pub fn list_in(one: &Sexp) -> Option<&[Sexp]>
    ensures { option_copied result ≡ list_in one.now }
{
    match &one.item {
        Item::Name(_) => None,
        Item::Const(_) => None,
        Item::List(list) => Some(list.as_slice()),
    }
}
