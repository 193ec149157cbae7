//! What an engine committed.

ghost use Rattle.std.specs.Prelude.{◌≡◌, ◌≤◌, ◌<◌, ◌⊎◌, ◌-◌, List, IfSome, length, map, slice_get};
ghost use Rattle.sk_rows.specs.declared.table.Table.{Table as AnyTable};
ghost use Rattle.sk_model.specs.EngineReplies.{mem_number, store_number};
ghost use Rattle.sk_engine.specs.Rows.{Chains, Keeps};
ghost use Rattle.sk_engine.specs.Counts.{used};
ghost use Rattle.sk_engine.specs.Recording.{Yields, Alike, IsWrite, IsCommit, write_given, commits_given};

use crate::numbers::Number;
use crate::row_id::RowId;
use crate::rows::Rows;
use sk_model::{Commit, CommitList, EngineFault, EngineName, Label, Write, WriteList};
use sk_rows::Copies;
use std::alloc::Global;
use std::collections::BTreeSet;

/// How many of the numbers, which rise, are up to n.
pub(crate) fn find_past(numbers: &[Number], n: u32) -> usize
    ensures within { result ≤ length numbers.now }
    ensures before { (result ≡ 0) ⊎ IfSome (slice_get numbers.now (result - 1)) (λ u. u.n ≤ n) }
    ensures behind { IfSome (slice_get numbers.now result) (λ u. n < u.n) }
{
    let mut low = 0;
    let mut high = numbers.len();
    while low < high {
        let mid = low + (high - low) / 2;
        if numbers[mid].n <= n {
            low = mid + 1;
        } else {
            high = mid;
        }
    }
    low
}

/// What a number wrote to a row that it wrote.
fn write_given<R: Rows>(
    alloc: Global,
    rows: &mut R,
    row_id: &RowId,
    n: u32,
) -> Result<Write, EngineFault>
    ensures later { R.faults rows.old ≤ R.faults rows.new }
    ensures keeps { Keeps R.shows rows.old rows.new }
    ensures gives { (tables : List AnyTable) (chains : Chains) → R.shows rows.old tables chains → Yields (R.faults rows.old) (R.faults rows.new) (IsWrite R.told tables (write_given chains n row_id.now)) result }
{
    let key = row_id.key.copy(alloc)?;
    let row = rows.given(row_id.table, &row_id.key, n)?;
    Ok(Write {
        table: row_id.table,
        key,
        row,
    })
}

/// What a number wrote to the rows that it wrote.
fn writes_given<R: Rows>(
    alloc: Global,
    rows: &mut R,
    row_ids: &BTreeSet<RowId>,
    n: u32,
) -> Result<WriteList, EngineFault>
    ensures later { R.faults rows.old ≤ R.faults rows.new }
    ensures keeps { Keeps R.shows rows.old rows.new }
    ensures gives { (tables : List AnyTable) (chains : Chains) → R.shows rows.old tables chains → Yields (R.faults rows.old) (R.faults rows.new) (Alike (IsWrite R.told tables) (map (write_given chains n) row_ids.now.keys)) result }
{
    let mut writes = Vec::new(alloc);
    for row_id in row_ids {
        let write = write_given(alloc, rows, row_id, n)?;
        if writes.push(write).is_err() {
            return Err(EngineFault::NoMemory);
        }
    }
    Ok(WriteList::from_vec(writes))
}

/// A commit of an engine with this name.
fn commit_at(name: EngineName, by: Label, n: u32, writes: WriteList) -> Commit
    ensures { result ≡ record { label = by; mem = mem_number name n; store = store_number name n; writes = writes } }
{
    match name {
        EngineName::Mem => Commit {
            label: by,
            mem: Some(n),
            store: None,
            writes,
        },
        EngineName::Store => Commit {
            label: by,
            mem: None,
            store: Some(n),
            writes,
        },
    }
}

/// The commits of these numbers.
pub(crate) fn commits_given<R: Rows>(
    alloc: Global,
    rows: &mut R,
    numbers: &[Number],
) -> Result<CommitList, EngineFault>
    ensures later { R.faults rows.old ≤ R.faults rows.new }
    ensures keeps { Keeps R.shows rows.old rows.new }
    ensures gives { (tables : List AnyTable) (chains : Chains) → R.shows rows.old tables chains → Yields (R.faults rows.old) (R.faults rows.new) (Alike (IsCommit R.told tables) (commits_given R.name chains (map used numbers.now))) result }
{
    let name = rows.engine();
    let mut commits = Vec::new(alloc);
    for number in numbers {
        if let Some(row_ids) = &number.wrote {
            let writes = writes_given(alloc, rows, row_ids, number.n)?;
            let commit = commit_at(name, number.by, number.n, writes);
            if commits.push(commit).is_err() {
                return Err(EngineFault::NoMemory);
            }
        }
    }
    Ok(CommitList::from_vec(commits))
}
