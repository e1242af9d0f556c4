//! Formulas over the relations of a net: what they mean, their normal form, their free variables and types, and which are safe.
#![tactic(auto)]

mod accepting;
mod apart;
mod arranging;
mod copying;
mod distinctness;
mod formula;
mod laws;
mod normal_form;
mod renewed;
mod safety;
mod safety_laws;
#[cfg(test)]
mod tests;
mod typing;
mod typing_laws;
mod var_list;
mod variables;
mod written;

pub use accepting::{accepts_query, accepts_sentence, solvable};
pub use apart::rename_apart;
pub use arranging::arrange;
pub use distinctness::{distinct, distinct_vars};
pub use formula::{Formula, Formulas};
pub use laws::{
    answers_are_a_set, free_variables_decide, normal_again, normal_is_small, normal_keeps,
};
pub use normal_form::{normal, normal_denied};
pub use safety::safe;
pub use safety_laws::{
    answers_are_what_holds, any_safe_conjunct_first, arranging_keeps, renaming_keeps,
    safe_formulas_are_bounded, safe_formulas_are_solved, safe_stays_safe,
    solutions_are_sound_and_complete,
};
pub use typing::{TypeFault, all_bound, arity_fits, terms_fit, type_check, types_fit};
pub use typing_laws::{
    more_relations_change_no_types, solving_keeps_arity, solving_keeps_size,
    typed_formulas_are_closed,
};
pub use variables::{binds, free};
pub use written::{constants, is_unmarked, nests_within, relations_below};
