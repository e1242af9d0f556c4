//! Markings: how many tokens of each row lie in each place.
#![tactic(auto)]

mod held;
mod marking;

pub use held::{AddFault, CountedRows, MAX_COUNT};
pub use marking::Marking;

#[cfg(test)]
mod tests;
