//! Older versions of rows: undo records, linked from each version to the next older one.
#![tactic(auto)]

mod laws;
mod log;
mod undo;

pub use laws::{claim_shows, cut_keeps, drop_keeps, fill_rows, fill_shows, push_keeps, trim_keeps};
pub use log::UndoLog;
pub use undo::Undo;

#[cfg(test)]
mod tests;
