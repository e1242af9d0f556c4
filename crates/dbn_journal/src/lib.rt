//! Records in a file, each behind a gate that is opened last, and the making of such a file.
#![tactic(auto)]

mod add;
mod gate;
mod head;
mod look;
mod make;
mod through;

pub use add::append;
pub use gate::Gate;
pub use look::{gate_at, read_some};
pub use make::{close_first, fill, open_first};
pub use through::write_through;

#[cfg(test)]
mod tests;
