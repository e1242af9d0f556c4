//! Declarations as they are written, with names.

use dbn_value::{Cmp, Name, Row, Shape, Term, Terms, TypedNames, TypedVars, Value, Vars};
use sqlite_items::{Boxed, Items};

/// A list of names.
pub type Names = Items<Name>;

/// A formula with names of relations.
#[derive(Debug, Drop)]
pub enum WrittenFormula {
    /// `(R t..)`
    Atom {
        rel: Name,
        terms: Terms,
    },
    /// `(= t t)` and the other comparisons
    Test {
        cmp: Cmp,
        left: Term,
        right: Term,
    },
    /// `(and formula..)`
    And(WrittenFormulas),
    /// `(or formula..)`
    Or(WrittenFormulas),
    /// `(not formula)`
    Not(Boxed<WrittenFormula>),
    /// `(implies formula formula)`
    Implies(Boxed<WrittenFormula>, Boxed<WrittenFormula>),
    /// `(exists ((x type)..+) formula)`
    Exists {
        vars: TypedVars,
        body: Boxed<WrittenFormula>,
    },
    /// `(forall ((x type)..+) formula)`
    Forall {
        vars: TypedVars,
        body: Boxed<WrittenFormula>,
    },
}

/// A list of formulas.
pub type WrittenFormulas = Items<WrittenFormula>;

/// A name with terms: a fact `(R t..)`, or the parts of `(read V t..)` and `(do a t..)`.
#[derive(Debug, Drop)]
pub struct WrittenAtom {
    pub name: Name,
    pub terms: Terms,
}

/// A list of names with terms.
pub type WrittenAtoms = Items<WrittenAtom>;

/// `(n t..)`: a number with terms.
#[derive(Debug, Drop)]
pub struct WrittenPattern {
    pub many: i64,
    pub terms: Terms,
}

/// A list of numbers with terms.
pub type WrittenPatterns = Items<WrittenPattern>;

/// The parts of `(in P (n t..)..+)` and its kin: a place with numbers and terms.
#[derive(Debug, Drop)]
pub struct WrittenArc {
    pub place: Name,
    pub patterns: WrittenPatterns,
}

/// A list of places with numbers and terms.
pub type WrittenArcs = Items<WrittenArc>;

/// An `in` or a `read` clause.
#[derive(Debug, Drop)]
pub enum WrittenInput {
    In(WrittenArc),
    Read(WrittenAtom),
}

/// The `in` and `read` clauses of a transition, in their order.
pub type WrittenInputs = Items<WrittenInput>;

/// A transition. Lists without an item, and options without a value, stand for clauses that are not written.
#[derive(Debug, Drop)]
pub struct WrittenTransition {
    pub name: Name,
    pub inputs: WrittenInputs,
    pub guard: Option<WrittenFormula>,
    pub asked: TypedVars,
    pub fresh: Vars,
    pub call: Option<WrittenAtom>,
    pub outs: WrittenArcs,
    pub backs: WrittenArcs,
}

/// One clause of a transition.
#[derive(Debug, Drop)]
pub enum WrittenClause {
    /// `(in P (n t..)..+)` or `(read V t..)`
    Inputs(WrittenInput),
    /// `(guard formula)`
    Guards(WrittenFormula),
    /// `(ask (x type)..+)`
    Asks(TypedVars),
    /// `(fresh x..+)`
    Draws(Vars),
    /// `(do a t..)`
    Calls(WrittenAtom),
    /// `(out P (n t..)..+)`
    Puts(WrittenArc),
    /// `(back P (n t..)..+)`
    Returns(WrittenArc),
}

/// A declaration of a net text, as it is written. Its variables have the mark 0.
#[derive(Debug, Drop)]
pub enum Written {
    /// `(relation R (f type)..)`
    Relation {
        name: Name,
        fields: TypedNames,
    },
    /// `(key R f..+)`
    Key {
        rel: Name,
        fields: Names,
    },
    /// `(foreign R (f..+) S (g..+))`
    Foreign {
        rel: Name,
        fields: Names,
        to: Name,
        to_fields: Names,
    },
    /// `(always c formula)`
    Always {
        name: Name,
        body: WrittenFormula,
    },
    /// `(query q ((x type)..) formula)`
    Query {
        name: Name,
        vars: TypedVars,
        body: WrittenFormula,
    },
    /// `(action a ((p type)..) (delete (R t..)..) (add (R t..)..))`
    Action {
        name: Name,
        params: TypedVars,
        deletes: WrittenAtoms,
        adds: WrittenAtoms,
    },
    /// `(place P type..)`
    Control {
        name: Name,
        shape: Shape,
    },
    /// `(view V q)`
    View {
        name: Name,
        query: Name,
    },
    /// `(transition T clause..)`
    Transition(WrittenTransition),
    /// `(fact R v..)`
    Fact {
        rel: Name,
        row: Row<Value>,
    },
    /// `(token P n v..)`
    Token {
        place: Name,
        many: i64,
        row: Row<Value>,
    },
}
