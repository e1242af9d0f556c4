//! What a transition wants of places, and whether a marking has it and a guard holds.
#![tactic(auto)]

mod guard;
mod inclusion;
mod instantiation;

pub use dbn_net::{Want, Wants};
pub use guard::guard_holds;
pub use inclusion::included;
pub use instantiation::instantiate;

#[cfg(test)]
mod tests;
