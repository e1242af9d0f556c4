//! One command over a core and a keeper: its reply, the next state of the run, and what a crash leaves; and a run over
//! all lines of a source.
#![tactic(auto)]

mod all_lines;
mod answered;
mod bodies;
mod engine;
mod fault;
mod keeping;
mod laws;
mod obeying;
mod questions;
mod recording;
mod replying;
mod run_end;
mod run_terms;
mod saying;
mod serving;

pub use all_lines::serve_lines;
pub use engine::Engine;
pub use fault::ServeFault;
pub use laws::{lines_ask_for_what_the_net_has, lines_without_a_reply_change_nothing};
pub use run_end::RunEnd;
pub use run_terms::RunTerms;
pub use serving::Serve;
