//! What a run hands out.

use sk_model::{CommitList, Journal, PlaceList, Point, PointList, ReceiptList, RecordList};

/// What a run hands out beside the text that it prints.
#[derive(Drop)]
pub struct Outcome<D> {
    /// 0 Ok, 2 usage, 3 script fault, 4 read fault, 5 write fault, 6 device fault, 7 damaged files, 8 want of memory.
    pub status: u8,
    /// The records of all sessions, by session and in the order of their transactions.
    pub records: RecordList,
    /// The journal of the memory engine.
    pub mem: Journal,
    /// The journal of the storage engine.
    pub store: Journal,
    /// All points of the run, those that the registry recycled too.
    pub points: PointList,
    /// The commits that wrote, in the order of the database's one list, behind what the store was opened with.
    pub order: CommitList,
    /// For each record the length of the prefix of `order` that it read.
    pub prefixes: PlaceList,
    /// Who was told that a commit is durable, in the order in which they were told.
    pub receipts: ReceiptList,
    /// The durable cut: a selection, and (0, 0) where nothing was run.
    pub cut: Point,
    /// The disk that was handed in.
    pub disk: D,
}
