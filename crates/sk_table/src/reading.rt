//! What a transaction reads.

ghost use Rattle.std.specs.Prelude.{◌≡◌, ◌==◌, ◌&&◌, ◌∷◌, List as ItemList, IfOk, None, map};
ghost use Rattle.std.specs.Option.{option_copied};
ghost use Rattle.std.specs.List.{filter, find as find_first};
ghost use Rattle.sk_model.specs.Database.{after_writes};
ghost use Rattle.sk_model.specs.Engine.{is_of, Version as AnyVersion};
ghost use Rattle.sk_model.specs.EngineReplies.{seen, is_seen, got, scanned, busy_or, least_key, is_blocking};

use crate::rows::{after_write, row_of, table_of};
use crate::table::EngineTable;
use crate::version::Version;
use sk_model::{EngineFault, EngineReply, Label, Tables};
use sk_rows::{Copies, NoMemory, Value};
use std::alloc::Global;

/// The tables, with what the transaction sees of these versions at the snapshot.
fn with_seen(
    alloc: Global,
    rows: Tables,
    versions: &[Version],
    tx: Label,
    snapshot: u32,
) -> Result<Tables, NoMemory>
    ensures { IfOk result (λ ts. ts ≡ after_writes rows (map (λ v. v.write) (filter (is_seen tx snapshot) versions.now))) }
{
    let mut tables = rows;
    for version in versions {
        if version.is_seen(tx, snapshot) {
            tables = after_write(alloc, tables, &version.write)?;
        }
    }
    Ok(tables)
}

/// The first version of a row at which a reader has to wait.
fn blocking<'a>(
    versions: &'a [Version],
    tx: Label,
    snapshot: u32,
    table: u16,
    key: &Value,
) -> Option<&'a Version>
    ensures { option_copied result ≡ find_first (λ v. is_of table key.now v && is_blocking tx snapshot v) versions.now }
{
    for version in versions {
        if version.is_of(table, key) && version.is_blocking(tx, snapshot) {
            return Some(version);
        }
    }
    None
}

/// The one with the lesser key; the earlier one of two with the same.
fn lesser<'a>(best: Option<&'a Version>, version: &'a Version) -> Option<&'a Version>
    ensures { (vs : ItemList AnyVersion) → least_key (option_copied result) vs ≡ least_key (option_copied best.entry) (version.entry.now ∷ vs) }
{
    match best {
        None => Some(version),
        Some(other) => {
            if version.write.key.compare(&other.write.key).is_lt() {
                Some(version)
            } else {
                Some(other)
            }
        }
    }
}

/// The version of a table at which a reader has to wait, with the least key.
fn least_blocking(versions: &[Version], tx: Label, snapshot: u32, table: u16) -> Option<&Version>
    ensures { option_copied result ≡ least_key None (filter (λ v. (v.write.table == table) && is_blocking tx snapshot v) versions.now) }
{
    let mut best = None;
    for version in versions {
        if version.write.table == table && version.is_blocking(tx, snapshot) {
            best = lesser(best, version);
        }
    }
    best
}

fn busy_or(blocker: Option<&Version>, reply: EngineReply) -> EngineReply
    ensures { result ≡ busy_or (option_copied blocker.entry) reply }
{
    match blocker {
        None => reply,
        Some(version) => EngineReply::Fault(EngineFault::Busy { by: version.by }),
    }
}

impl EngineTable {
    /// The tables as the transaction sees them at the snapshot.
    fn seen(&self, alloc: Global, tx: Label, snapshot: u32) -> Result<Tables, NoMemory>
        ensures { IfOk result (λ ts. ts ≡ seen self.now tx snapshot) }
    {
        with_seen(
            alloc,
            self.rows.copy(alloc)?,
            self.versions.as_slice(),
            tx,
            snapshot,
        )
    }

    /// The row of a key, or whom the reader has to wait for.
    pub(crate) fn got(
        &self,
        alloc: Global,
        tx: Label,
        table: u16,
        key: &Value,
    ) -> Result<EngineReply, NoMemory>
        ensures { IfOk result (λ reply. reply ≡ got self.now tx table key.now) }
    {
        let snapshot = self.snapshot_of(tx);
        let tables = self.seen(alloc, tx, snapshot)?;
        let row = match row_of(&tables, table, key) {
            None => None,
            Some(row) => Some(row.copy(alloc)?),
        };
        Ok(busy_or(
            blocking(self.versions.as_slice(), tx, snapshot, table, key),
            EngineReply::Found(row),
        ))
    }

    /// The rows of a table, or whom the reader has to wait for at the first such key.
    pub(crate) fn scanned(
        &self,
        alloc: Global,
        tx: Label,
        table: u16,
    ) -> Result<EngineReply, NoMemory>
        ensures { IfOk result (λ reply. reply ≡ scanned self.now tx table) }
    {
        let snapshot = self.snapshot_of(tx);
        let tables = self.seen(alloc, tx, snapshot)?;
        let rows = table_of(alloc, &tables, table)?;
        Ok(busy_or(
            least_blocking(self.versions.as_slice(), tx, snapshot, table),
            EngineReply::Rows(rows),
        ))
    }
}
