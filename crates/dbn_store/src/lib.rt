//! Opening a state: what a folder stands for, and a core that stands for it.
#![tactic(auto)]

mod fault;
mod first;
mod laws;
mod open;
mod replay;
mod whole;

pub use fault::StoreFault;
pub use first::first_base;
pub use laws::{a_new_base_stands_for_its_state, one_more_body_is_one_more_group};
pub use open::open_read;
pub use replay::replay_all;
pub use whole::open_store;
