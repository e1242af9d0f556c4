//! The declarations of a net.

use super::rules::Transition;
use dbn_formula::Formula;
use dbn_instance::Action;
use dbn_value::{Name, Nums, Row, Shape, TypedNames, TypedVars, Value};
use sqlite_items::Items;

/// A place: one that holds tokens, or one that shows the answers of a query.
#[derive(Debug, Drop)]
pub enum Place {
    /// A place that holds tokens, whose rows have this shape.
    Control { name: Name, shape: Shape },
    /// A place that shows each answer of the query with this number once.
    View { name: Name, query: usize },
}

/// A declaration of a net, with numbers in the place of names. The relations, queries, actions, places and transitions are
/// each numbered from 0 in order of declaration; control and view places are numbered together.
#[derive(Drop)]
pub enum Decl {
    /// A relation with its columns.
    Relation {
        name: Name,
        fields: TypedNames,
    },
    /// Two rows of the relation that agree on these columns are equal.
    Key {
        rel: usize,
        fields: Nums,
    },
    /// For each row of the first relation there is a row of the second one with the same cells at the paired columns.
    Foreign {
        rel: usize,
        fields: Nums,
        to: usize,
        to_fields: Nums,
    },
    /// A closed sentence that has to hold.
    Always {
        name: Name,
        body: Formula,
    },
    /// A query, whose columns are its variables.
    Query {
        name: Name,
        vars: TypedVars,
        body: Formula,
    },
    /// An action.
    Act(Action),
    /// A place.
    Site(Place),
    /// A transition.
    Trans(Transition),
}

/// A list of declarations.
pub type Decls = Items<Decl>;

/// What one declaration of a net text means: a declaration of the net, an initial fact, or initial tokens.
#[derive(Drop)]
pub enum Entry {
    Part(Decl),
    /// A row of the relation with this number.
    Fact {
        rel: usize,
        row: Row<Value>,
    },
    /// So many tokens of a row in the place with this number.
    Tokens {
        place: usize,
        many: u64,
        row: Row<Value>,
    },
}
