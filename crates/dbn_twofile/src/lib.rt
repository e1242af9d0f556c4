//! A keeper over two files, of which the one with the greater generation counts.
#![tactic(auto)]

mod create;
mod find;
mod look;
mod two;

pub use find::NotFound;
pub use two::TwoFile;
