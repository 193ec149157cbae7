//! A run of sessions on one thread, line by line: what it hands out is of one database.
#![tactic(auto)]

mod end_fault;
mod ended;
mod flushing;
mod laws;
mod run;

pub use end_fault::EndFault;
pub use ended::Ended;
pub use flushing::Found;
pub use laws::decided_is_reached;
pub use run::Run;

#[cfg(test)]
mod tests;
