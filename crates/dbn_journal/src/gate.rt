//! What stands at a gate.

use dbn_io::Bytes;

/// The byte of an open gate.
pub const OPEN: u8 = 0xDB;

/// What stands at the gate of a record.
#[derive(Debug, Drop)]
pub enum Gate {
    /// Another byte than that of an open gate: the records end here.
    Shut,
    /// A record: its body, and the place of the next gate.
    Held { body: Bytes, after: u64 },
    /// The file ends at the gate or before it; or the gate is open, and the file ends inside the length, or at the next
    /// gate or before it.
    Torn,
}
