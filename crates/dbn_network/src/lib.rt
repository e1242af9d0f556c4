//! A network of kept tables: nodes in their order, whose rows follow the events of the feeds.
#![tactic(auto)]

mod adding;
mod counting;
mod feeds;
mod held;
mod input;
mod network;
mod pass;
mod running;
mod step;
mod tables;
mod walks;

pub use input::Input;
pub use network::Network;

#[cfg(test)]
mod tests;
