//! What a call makes of the table.

ghost use Rattle.std.specs.Prelude.{◌≡◌, IfOk, OnOk};
ghost use Rattle.sk_model.specs.declared.call.EngineCall.TheVariants as call;
ghost use Rattle.sk_model.specs.Engine.{opening_in};
ghost use Rattle.sk_model.specs.EngineChanges.{change, restand, put_version, without_opening, closed_in};
ghost use Rattle.sk_table.specs.RowState.{state_of};
ghost use Rattle.sk_table.specs.Versions.{is_own};

use crate::entries::{find, put};
use crate::row_state::{RowState, is_open};
use crate::table::EngineTable;
use crate::version::{Opening, Version, same_label};
use sk_model::{EngineCall, Label, Write};
use sk_rows::{Copies, NoMemory, Row, Value};
use std::alloc::Global;
use std::mem::replace;

/// Each version of the transaction that is open or closed gets a new standing.
fn restand(
    alloc: Global,
    versions: Vec<Version>,
    tx: Label,
    standing: RowState,
) -> Result<Vec<Version>, NoMemory>
    ensures { IfOk result (λ vs. vs.items ≡ restand tx (state_of standing) versions.items) }
{
    let mut out = Vec::new(alloc);
    for version in versions {
        out.push(version.restood(tx, standing))?;
    }
    Ok(out)
}

/// Whether it is the transaction's own open version of the row of this write.
fn is_own(version: &Version, tx: Label, write: &Write) -> bool
    ensures { result ≡ is_own tx write.now version.now }
{
    version.is_of(write.table, &write.key)
        && (same_label(tx, version.by) && is_open(version.standing))
}

/// The version with another write.
fn rewritten(alloc: Global, version: Version, write: &Write) -> Result<Version, NoMemory>
    ensures { IfOk result (λ v. v ≡ record version { write = write.now }) }
{
    let Version {
        by,
        snapshot,
        write: _,
        standing,
    } = version;
    Ok(Version {
        by,
        snapshot,
        write: write.copy(alloc)?,
        standing,
    })
}

/// The transaction's own version of the row is replaced, or a new one stands behind the others.
fn put_version(
    alloc: Global,
    versions: Vec<Version>,
    tx: Label,
    snapshot: u32,
    write: &Write,
) -> Result<Vec<Version>, NoMemory>
    ensures { IfOk result (λ vs. vs.items ≡ put_version tx snapshot write.now versions.items) }
{
    let mut out = Vec::new(alloc);
    let mut found = false;
    for version in versions {
        if !found && is_own(&version, tx, write) {
            out.push(rewritten(alloc, version, write)?)?;
            found = true;
        } else {
            out.push(version)?;
        }
    }
    if !found {
        out.push(Version {
            by: tx,
            snapshot,
            write: write.copy(alloc)?,
            standing: RowState::Open,
        })?;
    }
    Ok(out)
}

/// The openings without the transaction's.
fn without_opening(
    alloc: Global,
    openings: Vec<(Label, Opening)>,
    tx: Label,
) -> Result<Vec<(Label, Opening)>, NoMemory>
    ensures { IfOk result (λ os. os.items ≡ without_opening tx openings.items) }
{
    let mut out = Vec::new(alloc);
    for opening in openings {
        if !same_label(tx, opening.0) {
            out.push(opening)?;
        }
    }
    Ok(out)
}

/// The transaction's opening is closed with this floor.
fn close_in(openings: &mut Vec<(Label, Opening)>, tx: Label, floor: u32) -> Result<(), NoMemory>
    ensures { OnOk result (openings.new.items ≡ closed_in tx floor (opening_in tx openings.old.items) openings.old.items) }
{
    match find(openings.as_slice(), &tx) {
        None => Ok(()),
        Some(opening) => {
            let closed = Opening {
                snapshot: opening.snapshot,
                floor: Some(floor),
            };
            put(openings, tx, closed)
        }
    }
}

impl EngineTable {
    fn opened(self, tx: Label, snapshot: u32) -> Result<EngineTable, NoMemory>
        ensures { IfOk result (λ t. t ≡ change self (call.Open tx snapshot)) }
    {
        let mut table = self;
        let opening = Opening {
            snapshot,
            floor: None,
        };
        put(&mut table.openings, tx, opening)?;
        table.greatest = table.greatest.max(snapshot);
        Ok(table)
    }

    fn written(
        self,
        alloc: Global,
        tx: Label,
        number: u16,
        key: &Value,
        row: &Option<Row>,
    ) -> Result<EngineTable, NoMemory>
        ensures { IfOk result (λ t. t ≡ change self (call.Put tx number key.now row.now)) }
    {
        let mut table = self;
        let snapshot = table.snapshot_of(tx);
        let write = Write {
            table: number,
            key: key.copy(alloc)?,
            row: row.copy(alloc)?,
        };
        let versions = replace(&mut table.versions, Vec::new(alloc));
        table.versions = put_version(alloc, versions, tx, snapshot, &write)?;
        Ok(table)
    }

    fn closed(self, alloc: Global, tx: Label) -> Result<EngineTable, NoMemory>
        ensures { IfOk result (λ t. t ≡ change self (call.Close tx)) }
    {
        let mut table = self;
        let floor = table.greatest;
        let versions = replace(&mut table.versions, Vec::new(alloc));
        table.versions = restand(alloc, versions, tx, RowState::Closed(floor))?;
        close_in(&mut table.openings, tx, floor)?;
        Ok(table)
    }

    /// The transaction ends: its versions get this standing, and its opening goes.
    fn ended(self, alloc: Global, tx: Label, standing: RowState) -> Result<EngineTable, NoMemory>
        ensures { IfOk result (λ t. t ≡ record self { versions = restand tx (state_of standing) self.versions; openings = without_opening tx self.openings }) }
    {
        let mut table = self;
        let versions = replace(&mut table.versions, Vec::new(alloc));
        table.versions = restand(alloc, versions, tx, standing)?;
        let openings = replace(&mut table.openings, Vec::new(alloc));
        table.openings = without_opening(alloc, openings, tx)?;
        Ok(table)
    }

    fn stamped(self, alloc: Global, tx: Label, n: u32) -> Result<EngineTable, NoMemory>
        ensures { IfOk result (λ t. t ≡ change self (call.Stamp tx n)) }
    {
        let mut table = self.ended(alloc, tx, RowState::Stamped(n))?;
        put(&mut table.stamped, n, tx)?;
        Ok(table)
    }

    fn voided(self, alloc: Global, tx: Label, n: u32) -> Result<EngineTable, NoMemory>
        ensures { IfOk result (λ t. t ≡ change self (call.Void tx n)) }
    {
        let mut table = self.ended(alloc, tx, RowState::Dropped)?;
        table.voided.push(n)?;
        Ok(table)
    }

    fn purged(self, upto: u32) -> Result<EngineTable, NoMemory>
        ensures { IfOk result (λ t. t ≡ change self (call.Purge upto)) }
    {
        let mut table = self;
        table.purged = table.purged_to(upto)?;
        Ok(table)
    }

    /// The table after a call that was not refused.
    pub(crate) fn change(self, alloc: Global, call: &EngineCall) -> Result<EngineTable, NoMemory>
        ensures { IfOk result (λ t. t ≡ change self call.now) }
    {
        match call {
            EngineCall::Open { tx, snapshot } => self.opened(*tx, *snapshot),
            EngineCall::Put {
                tx,
                table,
                key,
                row,
            } => self.written(alloc, *tx, *table, key, row),
            EngineCall::Close { tx } => self.closed(alloc, *tx),
            EngineCall::Stamp { tx, n } => self.stamped(alloc, *tx, *n),
            EngineCall::Void { tx, n } => self.voided(alloc, *tx, *n),
            EngineCall::DropTx { tx } => self.ended(alloc, *tx, RowState::Dropped),
            EngineCall::Purge { upto } => self.purged(*upto),
            EngineCall::Get { .. }
            | EngineCall::Scan { .. }
            | EngineCall::Horizon
            | EngineCall::Records { .. } => Ok(self),
        }
    }
}
