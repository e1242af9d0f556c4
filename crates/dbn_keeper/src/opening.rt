//! What the first bytes of a file say.

/// The form of the bodies in a file.
#[derive(Clone, Copy, Debug, PartialEq, Eq)]
pub enum Form {
    /// A body is one member; the file begins with `DBN1` behind its gate.
    One,
    /// A body is a group of members; the file begins with `DBN2` behind its gate.
    Two,
}

/// What the first bytes of a file say.
#[derive(Clone, Copy, Debug, PartialEq, Eq)]
pub enum Opening {
    /// The file doesn't count: it has fewer than two bytes, or its first byte is shut.
    NotOpen,
    /// It is open, and no file of a store.
    Foreign,
    /// It is a file of a store, of this form and this generation, which is from 1 to 2^62.
    Marked(Form, u64),
}
