//! The calls that change what a crash may leave.

use dbn_io::Bytes;

/// A call on a disk in memory that its clock counts.
#[derive(Drop)]
pub enum Call {
    /// Bytes from this place on; not done where the call failed.
    Write { at: u64, bytes: Bytes, done: bool },
    /// What is held from this place on is dropped; not done where the call failed.
    Cut { to: u64, done: bool },
    /// A sync that succeeded.
    Sync,
}
