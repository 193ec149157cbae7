//! What transactions write and commit.

use crate::label::Label;
use sk_rows::{Copies, List, NoMemory, Row, Value};
use std::alloc::Global;

/// Gives one row of a table a new content, or takes it away.
#[derive(Debug, Drop)]
pub struct Write {
    /// The table's number in its catalog, from 0.
    pub table: u16,
    /// The row's first value.
    pub key: Value,
    /// The row, or `None` where it is deleted.
    pub row: Option<Row>,
}

/// Writes in order.
pub type WriteList = List<Write>;

/// What one transaction committed.
#[derive(Debug, Drop)]
pub struct Commit {
    pub label: Label,
    /// The number drawn from the memory engine's counter, where that engine was written.
    pub mem: Option<u32>,
    /// The number drawn from the storage engine's counter, where that engine was written.
    pub store: Option<u32>,
    /// One write a row, by table and within a table by key.
    pub writes: WriteList,
}

/// Commits in order.
pub type CommitList = List<Commit>;

impl Copies for Write {
    fn copy(&self, alloc: Global) -> Result<Write, NoMemory> {
        Ok(Write {
            table: self.table,
            key: self.key.copy(alloc)?,
            row: self.row.copy(alloc)?,
        })
    }
}

impl Copies for Commit {
    fn copy(&self, alloc: Global) -> Result<Commit, NoMemory> {
        Ok(Commit {
            label: self.label,
            mem: self.mem,
            store: self.store,
            writes: self.writes.copy(alloc)?,
        })
    }
}
