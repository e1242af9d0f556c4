//! The top call: a run of the engine over two sources, a sink and two disks.
#![tactic(auto)]

mod accepting;
mod check;
mod demo;
mod dump;
mod ended;
mod generating;
mod laws;
mod new;
mod opening;
mod run;
mod say;
mod serving;
mod status;
mod tally;
mod top;
mod trying;
mod verb;
mod words;

pub use ended::Ended;
pub use generating::{DemoInput, demo_input};
pub use laws::{
    a_crash_leaves_a_front_of_the_groups, a_run_fires_its_groups, calls_in_order_are_done,
    calls_without_a_fault_end_as_declared, groups_fire_in_one_way,
};
pub use status::Status;
pub use top::dbnet;
