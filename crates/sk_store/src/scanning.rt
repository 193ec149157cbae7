//! The rows of a table, as a reader sees them.

ghost use Rattle.std.specs.Prelude.{◌≡◌, ◌≤◌, ◌++◌, ℕ, List, OnOk};
ghost use Rattle.std.specs.BTreeMap.{IsOrdered};
ghost use Rattle.std.specs.List.Sorted.{IsStrictlySortedBy};
ghost use Rattle.std.specs.Map.{keys_of};
ghost use Rattle.sk_rows.specs.declared.value.Value.{Value as AnyValue};
ghost use Rattle.sk_rows.specs.declared.table.Table.{Table as AnyTable};
ghost use Rattle.sk_rows.specs.Values.{value_cmp};
ghost use Rattle.sk_model.specs.declared.call.EngineReply.TheVariants.{Rows};
ghost use Rattle.sk_chain.specs.Chained.{Chained};
ghost use Rattle.sk_chain.specs.Promise.{replied};
ghost use Rattle.sk_chain.specs.Reading.{found};
ghost use Rattle.sk_engine.specs.Rows.{Chains, Scans, reading};
ghost use Rattle.sk_store.specs.Cells.{Cells};
ghost use Rattle.sk_store.specs.Calls.{KeepsCells};
ghost use Rattle.sk_store.specs.Maps.{Shows, head_of};
ghost use Rattle.sk_store.specs.Scanning.{ScansRows, row_listed};
ghost use Rattle.sk_store.specs.Shown.{RowShows};

use crate::heads::HeadMap;
use crate::pages::Pages;
use crate::reading::read_head;
use sk_model::{EngineFault, KeyedRows, Label};
use sk_rows::{Catalog, Copies, NoMemory, Row, Table, Value};
use std::alloc::Global;

/// Puts the row behind the others, if there is one.
fn add_row(
    alloc: Global,
    rows: &mut KeyedRows,
    key: &Value,
    row: Option<Row>,
) -> Result<(), NoMemory>
    ensures { OnOk result (rows.new ≡ rows.old ++ row_listed key.now row) }
{
    if let Some(row) = row {
        rows.push((key.copy(alloc)?, row))?;
    }
    Ok(())
}

/// What a reader at the snapshot gets of the rows of a table: the first that it has to wait for, or those that stand, in the order
/// of their keys.
fn scan_rows<P: Pages>(
    alloc: Global,
    pages: &mut P,
    heads: &HeadMap,
    table: &Table,
    by: Label,
    snapshot: u32,
) -> Result<KeyedRows, EngineFault>
    ensures later { P.faults pages.old ≤ P.faults pages.new }
    ensures keeps { KeepsCells P.has pages.old pages.new }
    ensures ordered { IsOrdered value_cmp heads.now }
    ensures scans { (cells : Cells) (chain : AnyValue → Chained) → P.has pages.old cells → ((q : AnyValue) → RowShows P.told cells table.now.columns q (head_of heads.now.entries q) (chain q))
        → IsStrictlySortedBy value_cmp (keys_of heads.now.entries)
        → ScansRows P.told (P.faults pages.old) (P.faults pages.new) table.now.columns (λ q. found (chain q) by snapshot) (replied Rows result) }
{
    let mut rows = KeyedRows::new(alloc);
    for (key, head) in heads {
        let row = match read_head(alloc, pages, head, table, key, by, snapshot) {
            Ok(row) => row,
            Err(fault) => return Err(fault),
        };
        if add_row(alloc, &mut rows, key, row).is_err() {
            return Err(EngineFault::NoMemory);
        }
    }
    Ok(rows)
}

/// The same of a table by its number; one that is not there has no rows.
pub(crate) fn scan_at<P: Pages>(
    alloc: Global,
    catalog: &Catalog,
    pages: &mut P,
    heads: &Vec<HeadMap>,
    number: u16,
    by: Label,
    snapshot: u32,
) -> Result<KeyedRows, EngineFault>
    ensures later { P.faults pages.old ≤ P.faults pages.new }
    ensures keeps { KeepsCells P.has pages.old pages.new }
    ensures scans { (tables : List AnyTable) (chains : Chains) → Shows P.told (P.has pages.old) catalog.now heads.now.items tables chains
        → Scans P.told (P.faults pages.old) (P.faults pages.new) tables number (λ q. reading (chains number q) by snapshot) (replied Rows result) }
{
    let Some(table) = catalog.table(number) else {
        return Ok(KeyedRows::new(alloc));
    };
    let number = number as usize;
    if number < heads.len() {
        let map = &heads[number];
        scan_rows(alloc, pages, map, table, by, snapshot)
    } else {
        Ok(KeyedRows::new(alloc))
    }
}
