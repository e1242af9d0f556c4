//! The firing rule, groups of firings, and what every core answers.
#![tactic(auto)]

mod laws;
mod outcome;
mod the_core;

pub use laws::{
    a_group_of_one_is_a_firing, a_refused_group_names_its_first_refused_member,
    firings_are_counted, good_snapshots_stay_good, members_have_the_shapes_of_the_net,
    rolled_back_firings_keep_the_facts, what_no_pattern_names_stays,
};
pub use outcome::{FireFault, Fired, FiredList, GroupFault, Outcome, Refusal};
pub use the_core::Core;
