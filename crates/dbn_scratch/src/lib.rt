//! What formulas say of an instance, found from scratch.
#![tactic(auto)]

mod answering;
mod atoms;
mod bindings;
mod domains;
mod indexes;
mod listing;
mod solving;
mod tables;
#[cfg(test)]
mod tests;

pub use answering::{answers, holds};
