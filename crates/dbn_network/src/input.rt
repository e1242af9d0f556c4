ghost use Rattle.std.specs.Prelude.{◌≡◌};
ghost use Rattle.dbn_network.specs.Inputs.{left_in, right_in, needed_in};

use dbn_nodes::Node;

/// Where the rows of an input of a node come from.
#[derive(Debug, Drop)]
pub enum Input {
    /// There is no such input.
    Nothing,
    /// The feed with this number.
    Feed(usize),
    /// The earlier node with this number.
    Earlier(usize),
}

/// The left input, which of a node with one input is this one.
pub(crate) fn left_input<C>(node: &Node<C>) -> Input
    ensures { result ≡ left_in node.now }
{
    match node {
        Node::Unit => Input::Nothing,
        Node::Scan { feed } => Input::Feed(*feed),
        Node::Select { from, tests: _ } => Input::Earlier(*from),
        Node::Join {
            left,
            right: _,
            on: _,
        } => Input::Earlier(*left),
        Node::Diff { left, right: _ } => Input::Earlier(*left),
        Node::Project { from, cols: _ } => Input::Earlier(*from),
        Node::Union { left, right: _ } => Input::Earlier(*left),
        Node::Extend { from, with: _ } => Input::Earlier(*from),
    }
}

/// The right input.
pub(crate) fn right_input<C>(node: &Node<C>) -> Input
    ensures { result ≡ right_in node.now }
{
    match node {
        Node::Unit => Input::Nothing,
        Node::Scan { feed: _ } => Input::Nothing,
        Node::Select { from: _, tests: _ } => Input::Nothing,
        Node::Join {
            left: _,
            right,
            on: _,
        } => Input::Earlier(*right),
        Node::Diff { left: _, right } => Input::Earlier(*right),
        Node::Project { from: _, cols: _ } => Input::Nothing,
        Node::Union { left: _, right } => Input::Earlier(*right),
        Node::Extend { from: _, with: _ } => Input::Nothing,
    }
}

/// The input whose rows are needed to tell the node's own, where the node does not keep enough.
pub(crate) fn needed_input<C>(node: &Node<C>) -> Input
    ensures { result ≡ needed_in node.now }
{
    match node {
        Node::Unit => Input::Nothing,
        Node::Scan { feed } => Input::Feed(*feed),
        Node::Select { from, tests: _ } => Input::Earlier(*from),
        Node::Join {
            left,
            right: _,
            on: _,
        } => Input::Earlier(*left),
        Node::Diff { left: _, right: _ } => Input::Nothing,
        Node::Project { from: _, cols: _ } => Input::Nothing,
        Node::Union { left: _, right: _ } => Input::Nothing,
        Node::Extend { from, with: _ } => Input::Earlier(*from),
    }
}
