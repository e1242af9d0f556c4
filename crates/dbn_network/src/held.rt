use dbn_nodes::NodeState;
use dbn_value::Cell;

/// A node with what it keeps, and what the network knows of it.
#[derive(Drop)]
pub(crate) struct Held<C: Cell> {
    /// The node with what it keeps.
    pub state: NodeState<C>,
    /// Whether a later node reads it: only then it makes events.
    pub read: bool,
}
