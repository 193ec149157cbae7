//! Where a program's bytes come from and go to: a source and a sink that count their faults.
#![tactic(auto)]

mod calls;
mod memory;
mod sink;
mod source;
mod stdio;
mod whole;

pub use calls::CallList;
pub use memory::{MemSink, MemSource, SureSource};
pub use sink::Sink;
pub use source::Source;
pub use stdio::{StdSink, StdSource};
pub use whole::{MOST, ReadError, read_whole, write_whole};

/// Something outside of the program failed: a source, a sink or a device.
#[derive(Clone, Copy, Debug, PartialEq, Eq)]
pub struct Failed;

#[cfg(test)]
mod tests;
