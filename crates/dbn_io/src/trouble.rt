//! Why a call on the outside did not succeed.

/// Why a call on a source, a sink or a disk did not succeed.
#[derive(Clone, Copy, Debug, PartialEq, Eq)]
pub enum Trouble {
    /// The device failed: its count of faults rose in this call.
    Failed,
    /// Memory was wanting.
    Memory,
}
