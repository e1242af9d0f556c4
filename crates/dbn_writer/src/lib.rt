//! The canonical text of a net and a state.
#![tactic(auto)]

mod declarations;
mod formulas;
mod laws;
mod naming;
mod transitions;
mod words;
mod writing;

pub use laws::{good_states_can_be_written, same_text_same_state};
pub use writing::net_text;
