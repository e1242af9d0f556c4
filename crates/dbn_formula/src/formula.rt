use dbn_value::{Cmp, Term, Terms, TypedVars};
use sqlite_items::{Boxed, Items};

/// A formula over numbered relations: an atom, a comparison, a connective or a quantifier.
///
/// `And` of no part is true and `Or` of no part is false. A quantifier names each of its variables once; an inner one may name
/// a variable of an outer one, and hides it.
#[derive(Debug, Drop)]
pub enum Formula {
    /// A row of a relation.
    Atom {
        /// The number of the relation.
        rel: usize,
        /// What stands at its columns, one after the other.
        terms: Terms,
    },
    /// A comparison of two values.
    Test {
        /// How the sides are compared.
        cmp: Cmp,
        /// The left side.
        left: Term,
        /// The right side.
        right: Term,
    },
    /// Each of the parts holds.
    And(Formulas),
    /// One of the parts holds.
    Or(Formulas),
    /// The part doesn't hold.
    Not(Boxed<Formula>),
    /// The second holds wherever the first does.
    Implies(Boxed<Formula>, Boxed<Formula>),
    /// The body holds for some values of the variables.
    Exists {
        /// The quantified variables with their types.
        vars: TypedVars,
        /// What holds of them.
        body: Boxed<Formula>,
    },
    /// The body holds for all values of the variables.
    Forall {
        /// The quantified variables with their types.
        vars: TypedVars,
        /// What holds of them.
        body: Boxed<Formula>,
    },
}

/// A list of formulas.
pub type Formulas = Items<Formula>;
