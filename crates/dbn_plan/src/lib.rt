//! Formulas compiled to nodes of a network, whose rows are the answers.
#![tactic(auto)]

mod atom;
mod columns;
mod comparison;
mod context;
mod easing;
mod equated;
mod forms;
mod labels;
mod laws;
mod referring;
mod room;
mod scans;
mod sources;
mod steps;
mod top;

pub use laws::sentences_are_queries;
pub use top::compile;

#[cfg(test)]
mod tests;
