//! What a run hands out.

use sk_model::{CommitList, Journal, PlaceList, PointList, RecordList};

/// What a run hands out at its end.
#[derive(Drop)]
pub struct Ended {
    /// The records of all sessions, by session and in the order of their transactions.
    pub records: RecordList,
    /// The one list of commits.
    pub order: CommitList,
    /// For each record the length of the prefix of the list that it read.
    pub places: PlaceList,
    /// The journal of the memory engine.
    pub mem: Journal,
    /// The journal of the storage engine.
    pub store: Journal,
    /// All points of the run.
    pub points: PointList,
}
