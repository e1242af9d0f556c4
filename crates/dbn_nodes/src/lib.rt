//! The nodes of a network of kept tables: what each node is worth over its inputs, and how a change of an input changes
//! what the node keeps and what it is worth.
#![tactic(auto)]

mod answering;
mod behind;
mod changes;
mod counts;
mod event;
mod following;
mod keyed;
mod node;
mod rows;
mod shelf;
mod state;
mod steps;

pub use counts::{holds, mark};
pub use event::{Event, Events};
pub use keyed::Keyed;
pub use node::{Added, ColTest, ColTests, Node, Pairs};
pub use state::{Kept, NodeState};
pub use steps::Steps;
