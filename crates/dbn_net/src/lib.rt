//! Nets: declarations, their text, and what a snapshot of a net means.
#![tactic(auto)]

mod decl;
mod fault;
mod first_ids;
mod laws;
mod names;
mod net;
mod rules;
mod sentences;
mod snapshot;
mod tables;
mod violation;
mod want;
mod written;

pub use decl::{Decl, Decls, Entry, Place};
pub use fault::NetKind;
pub use laws::{
    declarations_both_ways, enabled_rows_are_of_the_state, foreign_keys_in_words_of_rows,
    judged_entries_fit, keys_in_words_of_rows, limits_of_nets, nets_fit,
    no_violation_is_consistent, readings_are_sound, sentences_are_typed, start_snapshots_are_good,
    texts_are_read_again, the_next_id_is_new, what_was_read_may_follow,
};
pub use net::{Net, start_next, violations};
pub use rules::{Arc, Arcs, Call, Flags, Pattern, Patterns, Read, Reads, Transition};
pub use snapshot::Snapshot;
pub use violation::{Label, Named, Violations};
pub use want::{Want, Wants};
pub use written::{
    Names, Written, WrittenArc, WrittenArcs, WrittenAtom, WrittenAtoms, WrittenClause,
    WrittenFormula, WrittenFormulas, WrittenInput, WrittenInputs, WrittenPattern, WrittenPatterns,
    WrittenTransition,
};
