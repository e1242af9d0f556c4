//! Interned texts: a text stands in rows as its number in a pool.
#![tactic(auto)]

mod cell;
mod interned;
mod pool;

pub use cell::SymCell;
pub use interned::Interned;
pub use pool::Pool;

#[cfg(test)]
mod tests;
