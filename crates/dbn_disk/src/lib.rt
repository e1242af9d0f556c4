//! Disks: what they hold, what a crash may leave of them, and a count of faults.
#![tactic(auto)]

mod closed;
mod device;
mod file;
mod held;
mod log;
mod memory;
mod opened;
mod past;

pub use closed::ClosedDisk;
pub use device::Disk;
pub use file::FileDisk;
pub use memory::MemDisk;
pub use past::ImagePick;

#[cfg(test)]
mod tests;
