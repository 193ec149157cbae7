//! Records: what a run keeps of each transaction.

use crate::label::Label;
use crate::point::PointList;
use crate::reply::Reply;
use sk_rows::{List, Statement};

/// Which engines a transaction may use.
#[derive(Clone, Copy, Debug, PartialEq, Eq)]
pub enum TxKind {
    /// Both.
    Cross,
    Mem,
    Store,
}

/// How a transaction ended.
#[derive(Clone, Copy, Debug, PartialEq, Eq)]
pub enum Ending {
    /// It was live when the run stopped.
    Open,
    Committed,
    RolledBack,
    Conflict,
    CheckFailed,
    Recycled,
    Old,
    Spent,
    Device,
    NoMemory,
}

/// A statement and what it was answered.
#[derive(Drop)]
pub struct Said {
    pub statement: Statement,
    pub reply: Reply,
}

/// Statements with their replies, in order.
pub type SaidList = List<Said>;

/// What a run keeps of one transaction.
#[derive(Drop)]
pub struct Record {
    pub label: Label,
    pub kind: TxKind,
    /// The memory engine's snapshot, where that engine was opened.
    pub mem: Option<u32>,
    /// The storage engine's snapshot, where that engine was opened.
    pub store: Option<u32>,
    /// Each statement that used the label.
    pub said: SaidList,
    pub ending: Ending,
    /// The number drawn from the memory engine's counter.
    pub drew_mem: Option<u32>,
    /// The number drawn from the storage engine's counter.
    pub drew_store: Option<u32>,
    /// The points that it appended.
    pub made: PointList,
}

/// Records by session, and within a session by number.
pub type RecordList = List<Record>;
