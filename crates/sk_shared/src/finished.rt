//! What a run leaves.

use sk_model::{Journal, PointList};

/// What a run leaves: the journal of each engine and the counter of its numbers, and all points.
#[derive(Drop)]
pub struct Finished {
    pub mem_journal: Journal,
    pub mem_counter: u32,
    pub store_journal: Journal,
    pub store_counter: u32,
    pub points: PointList,
}
