//! What a call leaves.

use crate::status::Status;

/// What a run of the top call leaves: its status, and both disks, each in its own place.
#[derive(Debug, Drop)]
pub struct Ended<D> {
    /// How the run ended.
    pub status: Status,
    /// The first disk.
    pub a: D,
    /// The second disk.
    pub b: D,
}
