//! What writes and commits make of tables.

ghost use Rattle.std.specs.Prelude.{◌≡◌, ◌≤◌, length, not, take, slice_get, OnOk, IfOk};
ghost use Rattle.std.specs.Ordering.{eq_by_cmp};
ghost use Rattle.std.specs.FinMap.{put};
ghost use Rattle.std.specs.FinMap.Entries.{where_key};
ghost use Rattle.sk_rows.specs.Values.{value_cmp};
ghost use Rattle.sk_model.specs.Database as spec;
ghost use Rattle.sk_expr.specs.Placing.{lesser as lesser_of, ties as ties_of};

use sk_model::{Commit, KeyedRows, Tables, Write};
use sk_rows::{Copies, NoMemory, Row, Value};
use std::alloc::Global;
use std::mem;

/// How many rows from the front on have lesser keys.
fn lesser(rows: &[(Value, Row)], key: &Value) -> usize
    ensures value { result ≡ lesser_of rows.now key.now }
    ensures within { result ≤ length rows.now }
{
    let mut n = 0;
    while n < rows.len() && key.compare(&rows[n].0).is_gt() {
        n += 1;
    }
    n
}

/// Whether there is a row at this place, and it has the key.
fn ties(rows: &[(Value, Row)], at: usize, key: &Value) -> bool
    ensures { result ≡ ties_of key.now (slice_get rows.now at) }
{
    match rows.get(at) {
        None => false,
        Some(row) => key.compare(&row.0).is_eq(),
    }
}

#[tactic(auto, using(crate::proofs::Placing::put_hit, crate::proofs::Placing::put_new))]
fn put_row(rows: &mut Vec<(Value, Row)>, key: Value, row: Row) -> Result<(), NoMemory>
    ensures { OnOk result (rows.new.items ≡ put value_cmp key row rows.old.items) }
{
    let at = lesser(rows.as_slice(), &key);
    if ties(rows.as_slice(), at, &key) {
        rows[at] = (key, row);
    } else {
        rows.insert(at, (key, row))?;
    }
    Ok(())
}

fn remove_row(rows: &mut Vec<(Value, Row)>, key: &Value)
    ensures { rows.new.items ≡ where_key value_cmp (λ k. not (eq_by_cmp value_cmp key.now k)) rows.old.items }
{
    rows.retain(|r| !key.compare(&r.0).is_eq());
}

/// The rows after one key was given a row or none.
fn rows_with(alloc: Global, rows: KeyedRows, write: &Write) -> Result<KeyedRows, NoMemory>
    ensures { IfOk result (λ new. new ≡ spec.rows_with rows write.now.key write.now.row) }
{
    let mut rows = rows.into_vec();
    match &write.row {
        None => remove_row(&mut rows, &write.key),
        Some(row) => put_row(&mut rows, write.key.copy(alloc)?, row.copy(alloc)?)?,
    }
    Ok(KeyedRows::from_vec(rows))
}

/// The tables after one write. Where memory is wanted, no more is said of them.
fn put_write(alloc: Global, tables: &mut Vec<KeyedRows>, write: &Write) -> Result<(), NoMemory>
    ensures { OnOk result (tables.new.items ≡ spec.after_write tables.old.items write.now) }
{
    let at = write.table as usize;
    if at >= tables.len() {
        return Ok(());
    }
    let rows = mem::replace(&mut tables[at], KeyedRows::new(alloc));
    tables[at] = rows_with(alloc, rows, write)?;
    Ok(())
}

/// The tables after these writes, in order. Where memory is wanted, no more is said of them.
pub(crate) fn put_writes(
    alloc: Global,
    tables: &mut Vec<KeyedRows>,
    writes: &[Write],
) -> Result<(), NoMemory>
    ensures { OnOk result (tables.new.items ≡ spec.after_writes tables.old.items writes.now) }
{
    for write in writes {
        put_write(alloc, tables, write)?;
    }
    Ok(())
}

fn put_commits(
    alloc: Global,
    tables: &mut Vec<KeyedRows>,
    commits: &[Commit],
) -> Result<(), NoMemory>
    ensures { OnOk result (tables.new.items ≡ spec.state tables.old.items commits.now) }
{
    for commit in commits {
        put_writes(alloc, tables, commit.writes.as_slice())?;
    }
    Ok(())
}

fn first(order: &[Commit], place: u32) -> &[Commit]
    ensures { result.now ≡ take place order.now }
{
    let place = place as usize;
    if place < order.len() {
        &order[..place]
    } else {
        order
    }
}

/// The opening tables after the first `place` of these commits.
pub(crate) fn state(
    alloc: Global,
    opening: &Tables,
    order: &[Commit],
    place: u32,
) -> Result<Vec<KeyedRows>, NoMemory>
    ensures { IfOk result (λ tables. tables.items ≡ spec.state opening.now (take place order.now)) }
{
    let mut tables = opening.copy(alloc)?.into_vec();
    put_commits(alloc, &mut tables, first(order, place))?;
    Ok(tables)
}
