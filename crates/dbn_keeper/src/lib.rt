//! Keepers: what keeps the bodies of records upon a base, in memory or in files, so that a crash loses none.
#![tactic(auto)]

mod base;
mod create;
mod find;
mod header;
mod keeper;
mod make;
mod memory;
mod opening;
mod plain;
mod reading;
mod sizes;

pub use base::{Base, Step};
pub use create::{CreateFault, any_open};
pub use find::{FindFault, NotFound};
pub use keeper::Keeper;
pub use make::make_new;
pub use memory::MemKeeper;
pub use opening::{Form, Opening};
pub use plain::PlainKeeper;
pub use reading::{base_at, settle};
pub use sizes::{is_allowed, is_within, text_fits};

#[cfg(test)]
mod tests;
