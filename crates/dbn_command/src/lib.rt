//! The commands of a run, as lines are read, and the text of the replies.
#![tactic(auto)]

mod call;
mod command;
mod fault;
mod laws;
mod reading;
mod reply;
mod tokens;
mod writing;

pub use command::{Command, MAX_MEMBERS};
pub use fault::LineFault;
pub use laws::canonical_lines_are_read_again;
pub use reading::read_line;
pub use reply::{GroupLine, GroupLines, MemberWhy, Reply};
pub use writing::reply_text;

#[cfg(test)]
mod tests;
