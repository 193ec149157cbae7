//! What an engine committed.

ghost use Rattle.std.specs.Prelude.{◌≡◌, ◌&&◌, ◌++◌, ◌∷◌, [], IfOk, OnOk, map, nat_lt, nat_le};
ghost use Rattle.std.specs.List.{filter, fold};
ghost use Rattle.sk_model.specs.Database.{noted, write_of, net};
ghost use Rattle.sk_model.specs.EngineReplies.{is_stamped_with, mem_number, store_number, commit_of, commits_between};

use crate::entries::put;
use crate::table::EngineTable;
use crate::version::Version;
use sk_model::{Commit, CommitList, EngineName, Label, Write, WriteList};
use sk_rows::{Copies, List, NoMemory, Row, Value};
use std::alloc::Global;

/// Rows by table, and within a table by key.
type NotedRows = Vec<((u16, Value), Option<Row>)>;

fn note(alloc: Global, rows: &mut NotedRows, write: &Write) -> Result<(), NoMemory>
    ensures { OnOk result (rows.new.items ≡ noted rows.old.items write.now) }
{
    let key = write.key.copy(alloc)?;
    let row = write.row.copy(alloc)?;
    put(rows, (write.table, key), row)
}

fn noted_rows(alloc: Global, writes: &[Write]) -> Result<NotedRows, NoMemory>
    ensures { IfOk result (λ rows. rows.items ≡ fold noted [] writes.now) }
{
    let mut rows = Vec::new(alloc);
    for write in writes {
        note(alloc, &mut rows, write)?;
    }
    Ok(rows)
}

/// What these writes come to: of each row the last write, by table and within a table by key.
pub fn net(alloc: Global, writes: &[Write]) -> Result<WriteList, NoMemory>
    ensures { IfOk result (λ ws. ws ≡ net writes.now) }
{
    let rows = noted_rows(alloc, writes)?;
    let mut out = List::new(alloc);
    for entry in rows {
        let ((table, key), row) = entry;
        out.push(Write { table, key, row })?;
    }
    Ok(out)
}

/// The writes of the versions that are stamped with this number.
fn stamped_writes(alloc: Global, versions: &[Version], n: u32) -> Result<WriteList, NoMemory>
    ensures { IfOk result (λ ws. ws ≡ map (λ v. v.write) (filter (is_stamped_with n) versions.now)) }
{
    let mut out = List::new(alloc);
    for version in versions {
        if version.is_stamped_with(n) {
            out.push(version.write.copy(alloc)?)?;
        }
    }
    Ok(out)
}

fn mem_number(name: EngineName, n: u32) -> Option<u32>
    ensures { result ≡ mem_number name n }
{
    match name {
        EngineName::Mem => Some(n),
        EngineName::Store => None,
    }
}

fn store_number(name: EngineName, n: u32) -> Option<u32>
    ensures { result ≡ store_number name n }
{
    match name {
        EngineName::Mem => None,
        EngineName::Store => Some(n),
    }
}

impl EngineTable {
    /// What was stamped with a number, as a commit.
    fn commit_of(&self, alloc: Global, n: u32, label: Label) -> Result<Commit, NoMemory>
        ensures { IfOk result (λ c. c ≡ commit_of self.now (n, label)) }
    {
        let writes = stamped_writes(alloc, self.versions.as_slice(), n)?;
        Ok(Commit {
            label,
            mem: mem_number(self.name, n),
            store: store_number(self.name, n),
            writes: net(alloc, writes.as_slice())?,
        })
    }

    /// The commits with numbers past `from` and up to `to`.
    pub fn commits_between(&self, alloc: Global, from: u32, to: u32) -> Result<CommitList, NoMemory>
        ensures { IfOk result (λ cs. cs ≡ commits_between self.now from to) }
    {
        let mut out = List::new(alloc);
        for entry in self.stamped.as_slice() {
            if from < entry.0 && entry.0 <= to {
                out.push(self.commit_of(alloc, entry.0, entry.1)?)?;
            }
        }
        Ok(out)
    }
}
