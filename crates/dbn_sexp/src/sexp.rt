//! The tree of S-expressions.

use dbn_value::{Name, Value};
use sqlite_items::Items;

/// A list of S-expressions.
pub type SexpList = Items<Sexp>;

/// An S-expression, with the line of its first byte in the text that it was read from; lines are counted from 1.
#[cycle(sexp)]
#[derive(Debug, Drop)]
pub struct Sexp {
    /// The line of its first byte, from 1 on.
    pub line: u64,
    /// What it is.
    pub item: Item,
}

/// A name or an operator, a constant, or a list.
#[cycle(sexp)]
#[derive(Debug, Drop)]
pub enum Item {
    /// A name or an operator.
    Name(Name),
    /// A constant, in the one spelling of its value.
    Const(Value),
    /// A list of items, between parentheses.
    List(SexpList),
}
