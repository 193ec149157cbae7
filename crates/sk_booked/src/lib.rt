//! Values with a journal, each behind a lock of its own, for many threads. All their calls stand in the one journal.
#![tactic(auto)]

mod book;
mod calling;
mod closing;
mod engines;
mod journaled;
mod laws;
mod view;

pub use book::{BookPass, Booked};
pub use journaled::Journaled;
pub use laws::{closed_is_legal, new_is_made_with};

#[cfg(test)]
mod tests;
