//! How far an engine may give up old versions: never past what a transaction may still select.
#![tactic(auto)]

mod laws;
mod sweeping;

pub use laws::{
    selection_is_open, start_is_behind, steps_stay_behind, sweep_is_bounded, sweep_stays_behind,
};
pub use sweeping::{sweep, upto};

#[cfg(test)]
mod tests;
