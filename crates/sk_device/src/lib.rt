//! A disk of eight files: what reads give, and what a stop at any moment may leave.
#![tactic(auto)]

mod change;
mod device;
mod faults;
mod file;
mod memory;
mod stopping;
mod tear;
mod tearing;

pub use device::{Device, write_synced};
pub use file::FileDevice;
pub use memory::MemDevice;
pub use tear::Tear;
pub use tearing::TearingDevice;

#[cfg(test)]
mod tests;
