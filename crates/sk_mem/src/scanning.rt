//! The rows of a table, as a reader sees them.

ghost use Rattle.std.specs.Prelude.{◌≡◌, ◌++◌, OnOk};
ghost use Rattle.std.specs.BTreeMap.{IsOrdered};
ghost use Rattle.sk_rows.specs.Values.{value_cmp};
ghost use Rattle.sk_model.specs.declared.call.EngineReply.TheVariants.{Rows};
ghost use Rattle.sk_chain.specs.Promise.{replied};
ghost use Rattle.sk_mem.specs.Chains.{chain_at, Answers};
ghost use Rattle.sk_mem.specs.Scanning.{row_listed, scanning, ScansTable};

use crate::chains::{RowMap, read_chain};
use sk_model::{EngineFault, KeyedRows, Label};
use sk_rows::{Copies, NoMemory, Row, Value};
use std::alloc::Global;

/// Puts the row behind the others, if there is one.
fn add_row(
    alloc: Global,
    rows: &mut KeyedRows,
    key: &Value,
    row: Option<Row>,
) -> Result<(), NoMemory>
    ensures { OnOk result (rows.new ≡ rows.old ++ row_listed key.now row) }
{
    if let Some(row) = row {
        rows.push((key.copy(alloc)?, row))?;
    }
    Ok(())
}

/// What a reader at the snapshot gets of the rows of a table: the first that it has to wait for, or those that stand, in the order of their keys.
fn scan_rows(
    alloc: Global,
    chains: &RowMap,
    by: Label,
    snapshot: u32,
) -> Result<KeyedRows, EngineFault>
    ensures gives { Answers (replied Rows result) (scanning chains.now.entries by snapshot) }
    ensures ordered { IsOrdered value_cmp chains.now }
{
    let mut rows = KeyedRows::new(alloc);
    for (key, chain) in chains {
        let row = match read_chain(alloc, chain, by, snapshot) {
            Ok(row) => row,
            Err(fault) => return Err(fault),
        };
        if add_row(alloc, &mut rows, key, row).is_err() {
            return Err(EngineFault::NoMemory);
        }
    }
    Ok(rows)
}

/// The same of a table by its number; one that is not there has no rows.
pub(crate) fn scan_at(
    alloc: Global,
    tables: &Vec<RowMap>,
    by: Label,
    snapshot: u32,
    table: u16,
) -> Result<KeyedRows, EngineFault>
    ensures { ScansTable (chain_at tables.now.items table) by snapshot (replied Rows result) }
{
    let table = table as usize;
    if table < tables.len() {
        let rows = &tables[table];
        scan_rows(alloc, rows, by, snapshot)
    } else {
        Ok(KeyedRows::new(alloc))
    }
}
