//! The rows that a store opens with: those of its image, in which the commits of both logs were made.

ghost use Rattle.std.specs.Prelude.{◌≡◌, ◌∷◌, ◌++◌, [], not, IfOk, OnOk, None, Some};
ghost use Rattle.std.specs.List.{AllByRecursion};
ghost use Rattle.std.specs.Ordering.{eq_by_cmp};
ghost use Rattle.std.specs.FinMap.{put};
ghost use Rattle.std.specs.FinMap.Entries.{where_key};
ghost use Rattle.sk_rows.specs.Values.{value_cmp};
ghost use Rattle.sk_model.specs.Database as spec;
ghost use Rattle.sk_log.specs.Stores.{no_rows};
ghost use Rattle.sk_recover.specs.Taking.{Rise};
ghost use Rattle.sk_recover.specs.Maps.{entries_of};

use sk_model::{Commit, CommitList, KeyedRows, Tables, Write, WriteList};
use sk_rows::{Copies, NoMemory, Row, Table, Value};
use std::alloc::Global;
use std::collections::BTreeMap;

/// The rows of a table by their keys.
type RowMap = BTreeMap<Value, Row>;

#[tactic(auto, using(crate::proofs::Entries::put_is))]
fn put_in(rows: &mut RowMap, key: Value, row: Row) -> Result<(), NoMemory>
    ensures { OnOk result (rows.new.entries ≡ put value_cmp key row rows.old.entries) }
{
    rows.insert(key, row)?;
    Ok(())
}

#[tactic(auto, using(crate::proofs::Entries::none_removed))]
fn remove_in(rows: &mut RowMap, key: &Value)
    ensures { rows.new.entries ≡ where_key value_cmp (λ k. not (eq_by_cmp value_cmp key.now k)) rows.old.entries }
{
    // Asked for its length, a map says that its keys rise.
    if rows.len() > 0 {
        rows.remove(key);
    }
}

/// Gives one key a row or none.
fn set_in(rows: &mut RowMap, key: Value, row: Option<Row>) -> Result<(), NoMemory>
    ensures { OnOk result (rows.new.entries ≡ spec.rows_with rows.old.entries key row) }
{
    match row {
        None => {
            remove_in(rows, &key);
            Ok(())
        }
        Some(row) => put_in(rows, key, row),
    }
}

/// Gives one row of a table a new content or none.
#[tactic(auto, using(crate::proofs::Entries::set_entries))]
fn set_row(
    tables: &mut Vec<RowMap>,
    table: u16,
    key: Value,
    row: Option<Row>,
) -> Result<(), NoMemory>
    ensures { OnOk result (entries_of tables.new.items ≡ spec.after_write (entries_of tables.old.items) (record { table = table; key = key; row = row })) }
{
    match tables.get_mut(table as usize) {
        None => Ok(()),
        Some(rows) => {
            set_in(rows, key, row)?;
            Ok(())
        }
    }
}

fn write_all(tables: &mut Vec<RowMap>, writes: WriteList) -> Result<(), NoMemory>
    ensures { OnOk result (entries_of tables.new.items ≡ spec.after_writes (entries_of tables.old.items) writes) }
{
    for write in writes.into_vec() {
        set_row(tables, write.table, write.key, write.row)?;
    }
    Ok(())
}

fn commit_all(tables: &mut Vec<RowMap>, commits: CommitList) -> Result<(), NoMemory>
    ensures { OnOk result (entries_of tables.new.items ≡ spec.state (entries_of tables.old.items) commits) }
{
    for commit in commits.into_vec() {
        write_all(tables, commit.writes)?;
    }
    Ok(())
}

fn map_of(alloc: Global, rows: KeyedRows) -> Result<RowMap, NoMemory>
    requires { Rise rows }
    ensures { IfOk result (λ map. map.entries ≡ rows) }
{
    let mut map = BTreeMap::new(alloc);
    for row in rows.into_vec() {
        let (key, values) = row;
        put_in(&mut map, key, values)?;
    }
    Ok(map)
}

#[tactic(auto, using(crate::proofs::Entries::map_more))]
fn maps_of(alloc: Global, tables: Vec<KeyedRows>) -> Result<Vec<RowMap>, NoMemory>
    requires { AllByRecursion Rise tables.items }
    ensures { IfOk result (λ maps. entries_of maps.items ≡ tables.items) }
{
    let mut maps = Vec::new(alloc);
    for rows in tables {
        maps.push(map_of(alloc, rows)?)?;
    }
    Ok(maps)
}

fn rows_in(alloc: Global, map: &RowMap) -> Result<KeyedRows, NoMemory>
    ensures { IfOk result (λ rows. rows ≡ map.now.entries) }
{
    let mut rows = KeyedRows::new(alloc);
    for (key, row) in map {
        rows.push((key.copy(alloc)?, row.copy(alloc)?))?;
    }
    Ok(rows)
}

fn tables_in(alloc: Global, maps: &[RowMap]) -> Result<Tables, NoMemory>
    ensures { IfOk result (λ tables. tables ≡ entries_of maps.now) }
{
    let mut tables = Tables::new(alloc);
    for map in maps {
        tables.push(rows_in(alloc, map)?)?;
    }
    Ok(tables)
}

/// No rows of any of these tables.
pub fn no_rows(alloc: Global, tables: &[Table]) -> Result<Tables, NoMemory>
    ensures { IfOk result (λ rows. rows ≡ no_rows tables.now) }
{
    let mut all = Tables::new(alloc);
    for _table in tables {
        all.push(KeyedRows::new(alloc))?;
    }
    Ok(all)
}

/// The rows of an image, behind the commits of the memory engine's log and the storage engine's.
#[tactic(auto, using(crate::proofs::Entries::both_states))]
pub fn rows_behind(
    alloc: Global,
    rows: Vec<KeyedRows>,
    mem: CommitList,
    store: CommitList,
) -> Result<Tables, NoMemory>
    requires { AllByRecursion Rise rows.items }
    ensures { IfOk result (λ tables. tables ≡ spec.state rows.items (mem ++ store)) }
{
    let mut maps = maps_of(alloc, rows)?;
    commit_all(&mut maps, mem)?;
    commit_all(&mut maps, store)?;
    tables_in(alloc, &maps)
}
