//! The memory engine: one chain of versions a row, in an ordered map a table.
#![tactic(auto)]

mod chains;
mod engine;
mod first;
mod laws;
mod rows;
mod scanning;

pub use engine::MemEngine;
pub use laws::{mem_applied_is_legal, mem_journal_is_legal};
pub use rows::MemRows;

#[cfg(test)]
mod tests;
