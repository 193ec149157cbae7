//! The rows of a database, and what writes make of them.

ghost use Rattle.std.specs.Prelude.{◌≡◌, ◌∷◌, ◌++◌, [], not, IfOk, OnOk, map};
ghost use Rattle.std.specs.Option.{option_copied};
ghost use Rattle.std.specs.Ordering.{eq_by_cmp};
ghost use Rattle.std.specs.FinMap.Entries.{where_key};
ghost use Rattle.sk_rows.specs.Values.{value_cmp};
ghost use Rattle.sk_model.specs.Database as spec;

use crate::entries::{find, put};
use sk_model::{KeyedRows, Tables, Write};
use sk_rows::{Copies, List, NoMemory, Row, Value};
use std::alloc::Global;

/// The rows without those of a key.
fn without(rows: KeyedRows, alloc: Global, key: &Value) -> Result<KeyedRows, NoMemory>
    ensures { IfOk result (λ rs. rs ≡ where_key value_cmp (λ k. not (eq_by_cmp value_cmp key.now k)) rows) }
{
    let mut out = KeyedRows::new(alloc);
    let all = rows.into_vec();
    for row in all {
        if *key != row.0 {
            out.push(row)?;
        }
    }
    Ok(out)
}

/// The rows with this one.
fn with_row(rows: KeyedRows, key: Value, row: Row) -> Result<KeyedRows, NoMemory>
    ensures { IfOk result (λ rs. rs ≡ spec.rows_with rows key (Some row)) }
{
    let mut all = rows.into_vec();
    put(&mut all, key, row)?;
    Ok(KeyedRows::from_vec(all))
}

/// The rows after one key was given a row or none.
fn rows_with(alloc: Global, rows: KeyedRows, write: &Write) -> Result<KeyedRows, NoMemory>
    ensures { IfOk result (λ rs. rs ≡ spec.rows_with rows write.now.key write.now.row) }
{
    match &write.row {
        None => without(rows, alloc, &write.key),
        Some(row) => with_row(rows, write.key.copy(alloc)?, row.copy(alloc)?),
    }
}

/// The tables after one write.
#[tactic(auto, using(crate::proofs::Tables::past_all, crate::proofs::Tables::written))]
pub fn after_write(alloc: Global, tables: Tables, write: &Write) -> Result<Tables, NoMemory>
    ensures { IfOk result (λ ts. ts ≡ spec.after_write tables write.now) }
{
    let mut all = tables.into_vec();
    let at = write.table as usize;
    if at < all.len() {
        let rows = all.remove(at);
        let rows = rows_with(alloc, rows, write)?;
        all.insert(at, rows)?;
        Ok(List::from_vec(all))
    } else {
        Ok(List::from_vec(all))
    }
}

/// The rows of a table.
#[tactic(auto, using(crate::proofs::Tables::none_there, crate::proofs::Tables::one_there))]
fn rows_of(tables: &Tables, table: u16) -> &[(Value, Row)]
    ensures { result.now ≡ spec.table_of tables.now table }
{
    match tables.get(table as usize) {
        None => &[],
        Some(rows) => rows.as_slice(),
    }
}

/// The row of a table and a key, if there is one.
pub(crate) fn row_of<'a>(tables: &'a Tables, table: u16, key: &Value) -> Option<&'a Row>
    ensures { option_copied result ≡ spec.row_of tables.now table key.now }
{
    find(rows_of(tables, table), key)
}

/// A copy of the rows of a table.
#[tactic(auto, using(crate::proofs::Tables::none_there, crate::proofs::Tables::one_there))]
pub(crate) fn table_of(alloc: Global, tables: &Tables, table: u16) -> Result<KeyedRows, NoMemory>
    ensures { IfOk result (λ rows. rows ≡ spec.table_of tables.now table) }
{
    match tables.get(table as usize) {
        None => Ok(KeyedRows::new(alloc)),
        Some(rows) => rows.copy(alloc),
    }
}
