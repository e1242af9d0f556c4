//! What the words ask for.

/// What the words ask for.
#[derive(Clone, Copy, Debug, PartialEq, Eq)]
pub(crate) enum Verb {
    /// Reads a net.
    Check,
    /// Reads a net, and serves commands over it in memory.
    Try,
    /// Makes a store of a net.
    New,
    /// Serves commands over a store. With a number, a checkpoint is made where there are so many records.
    Run(Option<u64>),
    /// Writes the state of a store as a text.
    Dump,
    /// Serves so many commands that are made from the number, over a net that is made from it too.
    Demo(u64),
}
