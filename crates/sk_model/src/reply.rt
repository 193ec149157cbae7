//! What statements are answered.

use crate::engine::EngineName;
use crate::label::Label;
use crate::point::{Point, Recycled};
use crate::step::StepName;
use sk_rows::{Copies, List, NoMemory, Row};
use std::alloc::Global;

/// Rows in the order of their keys.
pub type RowList = List<Row>;

/// Why a write met another transaction's version of its row.
#[derive(Clone, Copy, Debug, PartialEq, Eq)]
pub enum Why {
    /// That transaction is live.
    Open,
    /// It is committing.
    Closed,
    /// It committed with this number, past the writer's snapshot.
    Past { number: u32, snapshot: u32 },
}

/// A refusal that is one word.
#[derive(Clone, Copy, Debug, PartialEq, Eq)]
pub enum ErrWord {
    Committing,
    Ended,
    InTransaction,
    NoTransaction,
    Table,
    Column,
    Key,
    Type,
    Engine,
    Overflow,
    Duplicate,
    Size,
    Device,
    Memory,
}

/// What a statement is answered.
#[derive(Debug, Drop)]
pub enum Reply {
    /// A transaction began, with this label.
    Began(Label),
    /// So many rows were written.
    Count(u32),
    /// The rows that were asked for.
    Rows(RowList),
    Committed,
    RolledBack,
    /// A step of a commit was taken. The number is the one that a draw gave.
    Step(StepName, Option<u32>),
    /// The check of a commit over both engines found this last point, and so refused the two drawn numbers.
    CheckFailed {
        point: Point,
        mem: u32,
        store: u32,
    },
    /// The engine's counter is at its end.
    Spent(EngineName),
    /// A write met another transaction's version of its row.
    Conflict {
        by: Label,
        why: Why,
    },
    /// A read met a version whose commit is under way.
    Busy {
        by: Label,
    },
    /// The snapshot is older than every point that is kept.
    Recycled(Recycled),
    /// The snapshot is older than what the engine keeps.
    Old {
        engine: EngineName,
        snapshot: u32,
        horizon: u32,
    },
    Refused(ErrWord),
}

/// Replies in order.
pub type ReplyList = List<Reply>;

impl Copies for Reply {
    fn copy(&self, alloc: Global) -> Result<Reply, NoMemory> {
        match self {
            Reply::Began(label) => Ok(Reply::Began(*label)),
            Reply::Count(count) => Ok(Reply::Count(*count)),
            Reply::Rows(rows) => Ok(Reply::Rows(rows.copy(alloc)?)),
            Reply::Committed => Ok(Reply::Committed),
            Reply::RolledBack => Ok(Reply::RolledBack),
            Reply::Step(step, number) => Ok(Reply::Step(*step, *number)),
            Reply::CheckFailed { point, mem, store } => Ok(Reply::CheckFailed {
                point: *point,
                mem: *mem,
                store: *store,
            }),
            Reply::Spent(engine) => Ok(Reply::Spent(*engine)),
            Reply::Conflict { by, why } => Ok(Reply::Conflict { by: *by, why: *why }),
            Reply::Busy { by } => Ok(Reply::Busy { by: *by }),
            Reply::Recycled(recycled) => Ok(Reply::Recycled(*recycled)),
            Reply::Old {
                engine,
                snapshot,
                horizon,
            } => Ok(Reply::Old {
                engine: *engine,
                snapshot: *snapshot,
                horizon: *horizon,
            }),
            Reply::Refused(word) => Ok(Reply::Refused(*word)),
        }
    }
}
