//! Definitions that every crate may name, and the laws of lists that they need; it has no function.
#![tactic(auto)]
