//! Opening a store: reading its files, and making a new one.
//!
//! `open` is the call: it answers what the disk opens as by the definition `opens` of `sk_log`, and leaves a disk of which every
//! stop opens so too.
#![tactic(auto)]

mod group;
mod image;
mod laws;
mod making;
mod opening;
mod rows;
mod turn;
mod whole;

pub use laws::logs_hold_their_own;
pub use opening::{OpenFault, Opened, open};

#[cfg(test)]
mod tests;
