//! The first id that no word of a text is.

ghost use Rattle.std.specs.Prelude.{◌≡◌, ◌≤◌, ◌^◌, max};
ghost use Rattle.std.specs.List.{flat_map};
ghost use Rattle.dbn_sexp.specs.Printing.{atoms};
ghost use Rattle.dbn_net.specs.Values.{past_id, past_ids};
ghost use Rattle.dbn_net.specs.Texts.{value_in, next_of};

use dbn_sexp::{Item, Sexp};
use dbn_value::Value;

/// The greater of the two.
fn greater(a: u64, b: u64) -> u64
    ensures { result ≡ max a b }
{
    a.max(b)
}

/// One more than an id, and 0 for other values.
fn past_value(value: &Value) -> u64
    ensures value { result ≡ past_id value.now }
    ensures small { result ≤ 2 ^ 62 }
{
    match value {
        Value::Int(_) => 0,
        Value::Text(_) => 0,
        Value::Id(id) => id.number() + 1,
    }
}

/// One more than the greatest id that is a word of the item, or 0 where there is none.
#[cycle(ids)]
#[tactic(auto, using(crate::proofs::IdLaws::past_laws))]
fn past_item(item: &Item) -> u64
    ensures value { result ≡ past_ids (flat_map value_in (atoms item.now)) }
    ensures small { result ≤ 2 ^ 62 }
{
    match item {
        Item::Name(_) => 0,
        Item::Const(value) => past_value(value),
        Item::List(parts) => next_of(parts.as_slice()),
    }
}

/// One more than the greatest id that is a word of the list, or 0 where there is none. This takes no memory.
#[cycle(ids)]
#[tactic(auto, using(crate::proofs::IdLaws::past_laws))]
pub(crate) fn next_of(list: &[Sexp]) -> u64
    ensures value { result ≡ next_of list.now }
    ensures small { result ≤ 2 ^ 62 }
{
    let mut next = 0;
    for one in list {
        next = greater(next, past_item(&one.item));
    }
    next
}
