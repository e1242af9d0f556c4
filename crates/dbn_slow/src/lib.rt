//! The plain core: each question is answered from scratch, and each firing makes a whole new snapshot.
#![tactic(auto)]

mod actions;
mod enabling;
mod firing;
mod grouping;
mod listing;
mod slow;
mod tokens;
mod views;

pub use slow::SlowCore;
