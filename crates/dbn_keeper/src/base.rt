//! What a keeper holds, and what it hands out.

use dbn_io::Bytes;

/// The text of a net with its state before the records, and two numbers of that state.
#[derive(Debug, Drop)]
pub struct Base {
    /// How many firings there were before; in a store at most 2^62.
    pub fired: u64,
    /// The next fresh id; in a store at most 2^62.
    pub next: u64,
    /// The text, of fewer than 2^32 bytes in a file. It is judged by others.
    pub text: Bytes,
}

/// What was found behind the bodies that were handed out so far.
#[derive(Debug, Drop)]
pub enum Step {
    /// There are no more bodies.
    End,
    /// A body, and the place of its gate. It is judged by others.
    Body { body: Bytes, place: u64 },
    /// The gate at this place is torn.
    Damaged(u64),
}
