//! What an engine is asked and what it replies.

use crate::commit::CommitList;
use crate::label::Label;
use crate::reply::Why;
use crate::tables::KeyedRows;
use sk_rows::{Copies, NoMemory, Row, Value};
use std::alloc::Global;

/// A call of an engine.
#[derive(Debug, Drop)]
pub enum EngineCall {
    /// Opens the engine for a transaction at a snapshot.
    Open {
        tx: Label,
        snapshot: u32,
    },
    /// Reads the row of a key.
    Get {
        tx: Label,
        table: u16,
        key: Value,
    },
    /// Reads all rows of a table.
    Scan {
        tx: Label,
        table: u16,
    },
    /// Writes a row, or its absence.
    Put {
        tx: Label,
        table: u16,
        key: Value,
        row: Option<Row>,
    },
    /// Closes what the transaction wrote, before its number is drawn.
    Close {
        tx: Label,
    },
    /// Gives what the transaction wrote its number, and ends it here.
    Stamp {
        tx: Label,
        n: u32,
    },
    /// Drops what the transaction wrote, ends it here, and uses the number up.
    Void {
        tx: Label,
        n: u32,
    },
    /// Drops what the transaction wrote, and ends it here.
    DropTx {
        tx: Label,
    },
    /// Asks up to which number each one is decided.
    Horizon,
    /// Asks for the commits past one number and up to another.
    Records {
        from: u32,
        to: u32,
    },
    /// Gives up what no snapshot from this number on needs, as far as may be.
    Purge {
        upto: u32,
    },
}

/// Why an engine refused a call.
#[derive(Clone, Copy, Debug, PartialEq, Eq)]
pub enum EngineFault {
    /// The snapshot is older than what is kept.
    Old { snapshot: u32, horizon: u32 },
    /// The commit of this transaction is under way, and the snapshot may have to see it.
    Busy { by: Label },
    /// Another transaction wrote the row.
    Conflict { by: Label, why: Why },
    /// The device behind the engine failed.
    Device,
    /// Memory was wanted and refused.
    NoMemory,
}

impl From<NoMemory> for EngineFault {
    ghost use Rattle.std.specs.Prelude.{◌≡◌};
    ghost use Rattle.sk_model.specs.declared.call.EngineFault.TheVariants as fault;

    ghost from_gives = { λ _ e. e ≡ fault.NoMemory };

    fn from(_e: NoMemory) -> EngineFault {
        EngineFault::NoMemory
    }
}

/// What an engine replies.
#[derive(Debug, Drop)]
pub enum EngineReply {
    Done,
    Found(Option<Row>),
    Rows(KeyedRows),
    Number(u32),
    Commits(CommitList),
    Fault(EngineFault),
}

/// A call with its reply.
#[derive(Debug, Drop)]
pub struct Entry {
    pub call: EngineCall,
    pub reply: EngineReply,
}

impl Copies for EngineCall {
    fn copy(&self, alloc: Global) -> Result<EngineCall, NoMemory> {
        match self {
            EngineCall::Open { tx, snapshot } => Ok(EngineCall::Open {
                tx: *tx,
                snapshot: *snapshot,
            }),
            EngineCall::Get { tx, table, key } => Ok(EngineCall::Get {
                tx: *tx,
                table: *table,
                key: key.copy(alloc)?,
            }),
            EngineCall::Scan { tx, table } => Ok(EngineCall::Scan {
                tx: *tx,
                table: *table,
            }),
            EngineCall::Put {
                tx,
                table,
                key,
                row,
            } => Ok(EngineCall::Put {
                tx: *tx,
                table: *table,
                key: key.copy(alloc)?,
                row: row.copy(alloc)?,
            }),
            EngineCall::Close { tx } => Ok(EngineCall::Close { tx: *tx }),
            EngineCall::Stamp { tx, n } => Ok(EngineCall::Stamp { tx: *tx, n: *n }),
            EngineCall::Void { tx, n } => Ok(EngineCall::Void { tx: *tx, n: *n }),
            EngineCall::DropTx { tx } => Ok(EngineCall::DropTx { tx: *tx }),
            EngineCall::Horizon => Ok(EngineCall::Horizon),
            EngineCall::Records { from, to } => Ok(EngineCall::Records {
                from: *from,
                to: *to,
            }),
            EngineCall::Purge { upto } => Ok(EngineCall::Purge { upto: *upto }),
        }
    }
}

impl Copies for EngineReply {
    fn copy(&self, alloc: Global) -> Result<EngineReply, NoMemory> {
        match self {
            EngineReply::Done => Ok(EngineReply::Done),
            EngineReply::Found(row) => Ok(EngineReply::Found(row.copy(alloc)?)),
            EngineReply::Rows(rows) => Ok(EngineReply::Rows(rows.copy(alloc)?)),
            EngineReply::Number(n) => Ok(EngineReply::Number(*n)),
            EngineReply::Commits(commits) => Ok(EngineReply::Commits(commits.copy(alloc)?)),
            EngineReply::Fault(fault) => Ok(EngineReply::Fault(*fault)),
        }
    }
}

impl Copies for Entry {
    fn copy(&self, alloc: Global) -> Result<Entry, NoMemory> {
        Ok(Entry {
            call: self.call.copy(alloc)?,
            reply: self.reply.copy(alloc)?,
        })
    }
}
