use dbn_value::{Name, Row, Value};

/// A transition by its name, and the values that a line gives for it.
#[derive(Debug, Drop)]
pub(crate) struct Call {
    /// The name, of at most 64 bytes, which the net may not have.
    pub(crate) name: Name,
    /// The values, as many as the line has.
    pub(crate) row: Row<Value>,
}
