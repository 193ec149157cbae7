//! The registry of points on one thread.
#![tactic(auto)]

mod partition;
mod points;

pub use points::Points;

#[cfg(test)]
mod tests;
