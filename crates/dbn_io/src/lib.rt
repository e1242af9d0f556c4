//! Sources and sinks of bytes, with a count of faults each, and what is read from and written to them.
#![tactic(auto)]

mod faults;
mod file;
mod limits;
mod line_so_far;
mod lines;
mod lists;
mod memory;
mod pieces;
mod plan;
mod retry;
mod sink;
mod source;
mod standard;
mod take;
#[cfg(test)]
mod tests;
mod trouble;
mod window;
mod write;

pub use faults::Faults;
pub use file::LazyFileSource;
pub use limits::Limits;
pub use lines::{Line, Lines};
pub use lists::{Bytes, Calls};
pub use memory::{MemSink, MemSource};
pub use plan::FaultPlan;
pub use sink::Sink;
pub use source::Source;
pub use standard::{StdSink, StdSource};
pub use take::{ReadStop, take_all};
pub use trouble::Trouble;
pub use write::write_whole;
