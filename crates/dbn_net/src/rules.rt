//! Transitions with numbers in the place of names.

use dbn_formula::Formula;
use dbn_value::{Name, Terms, TypedVars, Vars};
use sqlite_items::Items;

/// So many tokens of the row that the terms stand for.
#[derive(Debug, Drop)]
pub struct Pattern {
    /// From 1 to 4,294,967,295.
    pub many: u64,
    pub terms: Terms,
}

/// A list of patterns.
pub type Patterns = Items<Pattern>;

/// The tokens of one control place that an `in`, `out` or `back` clause names.
#[derive(Debug, Drop)]
pub struct Arc {
    /// The number of the place, among control and view places together.
    pub place: usize,
    pub patterns: Patterns,
}

/// A list of arcs.
pub type Arcs = Items<Arc>;

/// A row that a view has to show.
#[derive(Debug, Drop)]
pub struct Read {
    /// The number of the view, among control and view places together.
    pub view: usize,
    pub terms: Terms,
}

/// A list of rows that views have to show.
pub type Reads = Items<Read>;

/// The call of an action.
#[derive(Debug, Drop)]
pub struct Call {
    /// The number of the action.
    pub action: usize,
    pub args: Terms,
}

/// A list of truth values.
pub type Flags = Items<bool>;

/// A transition.
#[derive(Debug, Drop)]
pub struct Transition {
    pub name: Name,
    /// The tokens that a firing consumes, one arc for each `in` clause.
    pub ins: Arcs,
    /// The rows that views have to show, one for each `read` clause.
    pub reads: Reads,
    /// One entry for each `in` and `read` clause in the order of the text, true for an `in` clause.
    pub mixture: Flags,
    /// What the bound variables have to meet: comparisons, `and`, `or`, `not` and `implies` alone.
    pub guard: Option<Formula>,
    /// The variables whose values come with a firing, with their types.
    pub asked: TypedVars,
    /// The variables that get new ids in a firing.
    pub fresh: Vars,
    /// The action that a firing calls.
    pub call: Option<Call>,
    /// The tokens that a firing produces when it is committed, one arc for each `out` clause.
    pub outs: Arcs,
    /// The tokens that a firing produces when it is rolled back, one arc for each `back` clause.
    pub backs: Arcs,
    /// The variables of the `in` and `read` clauses with their types, each once, in order of first occurrence.
    pub bound: TypedVars,
}
