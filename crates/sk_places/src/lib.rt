//! The places of many records in the list of commits, each found by halving.
#![tactic(auto)]

mod index;
mod marks;
mod placing;

pub use index::PlaceIndex;
pub use placing::places;

#[cfg(test)]
mod tests;
