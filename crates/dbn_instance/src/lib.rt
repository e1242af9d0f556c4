//! Instances: the facts of each relation, changes of single facts, and what an action changes.
#![tactic(auto)]

mod effect;
mod fact;
mod grounding;
mod instance;
mod laws;
mod relation;

pub use effect::net_changes;
pub use fact::{Action, Change, Changes, Fact, FactPattern, FactPatterns, Facts};
pub use grounding::ground;
pub use instance::Instance;
pub use laws::facts_after_an_action;

#[cfg(test)]
mod tests;
