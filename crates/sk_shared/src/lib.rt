//! What the sessions of a run on one thread share: both engines with their journals, and the registry of points.
#![tactic(auto)]

mod asking;
mod engines;
mod finished;
mod flushing;
mod joining;
mod point_log;
mod shared;

pub use finished::Finished;
pub use joining::join;
pub use shared::Shared;

#[cfg(test)]
mod tests;
