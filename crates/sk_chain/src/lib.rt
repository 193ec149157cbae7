//! The versions of one row, and what an engine promises.
#![tactic(auto)]

mod applying;
mod chain;
mod engine;
mod laws;
mod noted;
mod replies;
mod version;

pub use chain::Chain;
pub use engine::Engine;
pub use laws::{applied_is_legal, applied_stays_legal, calls_are_legal, journal_is_legal};
pub use noted::Noted;
pub use version::{Blocked, Seen, Version, VersionState};

#[cfg(test)]
mod tests;
