//! The pipeline of one store: commits become durable in groups, and who waited for them is told.
//!
//! A group counts once its gate is open, which is the last write of a flush. A receipt is made only behind the sync of that gate,
//! so that every later stop leaves a store that opens at the receipt's cut or a later one. `is_lawful` tests a batch before it is
//! written.
#![tactic(auto)]

mod lawful;
mod laws;
mod pipeline;
mod receipts;
mod text;
mod writing;

pub use lawful::is_lawful;
pub use laws::{acked_at_first, acked_when_flushed, acked_when_queued};
pub use pipeline::{Batch, Pipeline, same_cut};
pub use receipts::Teller;

#[cfg(test)]
mod tests;
