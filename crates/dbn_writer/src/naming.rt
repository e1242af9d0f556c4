//! The names of what numbers stand for.

ghost use Rattle.std.specs.Prelude.{◌≡◌, ◌<◌, length, map};
ghost use Rattle.dbn_net.specs.Tables.{relations, queries, actions, places, relation_names, query_names, action_names, place_names, field_names};
ghost use Rattle.dbn_net.specs.Naming.{name_at};

use dbn_net::{Decl, Net, Place};
use dbn_value::{Name, TypedNames};

/// The name of the n-th relation.
pub(crate) fn relation_name<'net>(net: &'net Net, n: usize) -> &'net Name
    requires { n < length (relations net.now) }
    ensures { result.now ≡ name_at (relation_names net.now) n }
{
    match net.relation_at(n) {
        Decl::Relation { name, fields: _ } => name,
        _ => unreachable!(),
    }
}

/// The columns of the n-th relation.
fn relation_fields<'net>(net: &'net Net, n: usize) -> &'net TypedNames
    requires { n < length (relations net.now) }
    ensures { map (λ f. f.0) result.now ≡ field_names net.now n }
{
    match net.relation_at(n) {
        Decl::Relation { name: _, fields } => fields,
        _ => unreachable!(),
    }
}

/// The name of the n-th column of a relation.
pub(crate) fn field_name<'net>(net: &'net Net, rel: usize, n: usize) -> &'net Name
    requires relation { rel < length (relations net.now) }
    requires field { n < length (field_names net.now rel) }
    ensures { result.now ≡ name_at (field_names net.now rel) n }
{
    let fields = relation_fields(net, rel);
    &fields.as_slice()[n].0
}

/// The name of the n-th query.
pub(crate) fn query_name<'net>(net: &'net Net, n: usize) -> &'net Name
    requires { n < length (queries net.now) }
    ensures { result.now ≡ name_at (query_names net.now) n }
{
    match net.query_at(n) {
        Decl::Query {
            name,
            vars: _,
            body: _,
        } => name,
        _ => unreachable!(),
    }
}

/// The name of the n-th action.
pub(crate) fn action_name<'net>(net: &'net Net, n: usize) -> &'net Name
    requires { n < length (actions net.now) }
    ensures { result.now ≡ name_at (action_names net.now) n }
{
    &net.action_at(n).name
}

/// The name of the n-th place.
pub(crate) fn place_name<'net>(net: &'net Net, n: usize) -> &'net Name
    requires { n < length (places net.now) }
    ensures { result.now ≡ name_at (place_names net.now) n }
{
    match net.place_at(n) {
        Place::Control { name, shape: _ } => name,
        Place::View { name, query: _ } => name,
    }
}
