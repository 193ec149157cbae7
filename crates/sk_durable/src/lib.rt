//! What a run keeps on disk: the logs of its store, who waits until a commit is durable, and who was told.
//!
//! `Durable` holds what stands from flush to flush. Whatever a flush answers, what an image of the disk opens as has the commits
//! that it had before, and perhaps those of the batch behind them; and each receipt is of a need that was queued, whose label was
//! told once.
#![tactic(auto)]

mod durable;
mod laws;
mod refused;

pub use durable::Durable;
pub use laws::{grows_on, grows_same};
pub use refused::Refused;
