//! What has committed in an engine, by the numbers that were drawn there.

ghost use Rattle.std.specs.Prelude.{◌≡◌, ◌+◌, ◌-◌, ◌≤◌, [], IfOk, OnOk, length, map};
ghost use Rattle.sk_linked.specs.Traces.{added};
ghost use Rattle.sk_model.specs.Database.{net};
ghost use Rattle.sk_ledger.specs.Ledger.{number_of, drawn_in};
ghost use Rattle.sk_ledger.specs.Puts.{puts_at};
ghost use Rattle.sk_ledger.specs.Numbered.{commit_from, commits_from, listed, AreNumbered};

use crate::entering::Puts;
use crate::netting::net;
use sk_model::{Commit, CommitList, Ending, EngineName, Record, WriteList};
use sk_rows::NoMemory;
use std::alloc::Global;
use std::collections::BTreeMap;

/// Commits by their number in an engine, and those with one number by the time at which they came.
pub(crate) type Numbered = BTreeMap<(u32, usize), Commit>;

fn drawn_in(name: EngineName, kept: &Record) -> Option<u32>
    ensures { result ≡ drawn_in name kept.now }
{
    match name {
        EngineName::Mem => kept.drew_mem,
        EngineName::Store => kept.drew_store,
    }
}

/// The number that it drew in the engine, where it is committed.
fn number_of(name: EngineName, kept: &Record) -> Option<u32>
    ensures { result ≡ number_of name kept.now }
{
    match kept.ending {
        Ending::Committed => drawn_in(name, kept),
        Ending::Open
        | Ending::RolledBack
        | Ending::Conflict
        | Ending::CheckFailed
        | Ending::Recycled
        | Ending::Old
        | Ending::Spent
        | Ending::Device
        | Ending::NoMemory => None,
    }
}

/// What it wrote comes to.
fn writes_of(alloc: Global, puts: &Puts, kept: &Record) -> Result<WriteList, NoMemory>
    ensures { IfOk result (λ ws. ws ≡ net (puts_at puts.now.entries kept.now.label)) }
{
    match puts.get(&kept.label) {
        Some(writes) => net(alloc, writes.as_slice()),
        None => Ok(WriteList::new(alloc)),
    }
}

/// What it committed, with these puts.
fn commit_from(alloc: Global, puts: &Puts, kept: &Record) -> Result<Commit, NoMemory>
    ensures { IfOk result (λ c. c ≡ commit_from puts.now.entries kept.now) }
{
    let writes = writes_of(alloc, puts, kept)?;
    Ok(Commit {
        label: kept.label,
        mem: kept.drew_mem,
        store: kept.drew_store,
        writes,
    })
}

/// Adds what this record committed, as the one that comes at this time.
fn add(
    alloc: Global,
    name: EngineName,
    puts: &Puts,
    kept: &Record,
    time: usize,
    numbered: &mut Numbered,
) -> Result<(), NoMemory>
    requires { AreNumbered name time numbered.old.entries }
    ensures numbered { OnOk result (AreNumbered name (time + 1) numbered.new.entries) }
    ensures listed { OnOk result (listed numbered.new.entries ≡ added name (number_of name kept.now) (commit_from puts.now.entries kept.now) (listed numbered.old.entries)) }
{
    if let Some(n) = number_of(name, kept) {
        let commit = commit_from(alloc, puts, kept)?;
        numbered.insert((n, time), commit)?;
    }
    Ok(())
}

/// What these records committed, with these puts. The last record comes first, and so of two with one number the later record's stands first.
pub(crate) fn numbered(
    alloc: Global,
    name: EngineName,
    puts: &Puts,
    records: &[Record],
) -> Result<Numbered, NoMemory>
    ensures { IfOk result (λ numbered. listed numbered.entries ≡ commits_from puts.now.entries name records.now) }
{
    let mut numbered = BTreeMap::new(alloc);
    let mut left = records;
    while let [before @ .., kept] = left {
        let time = records.len() - left.len();
        add(alloc, name, puts, kept, time, &mut numbered)?;
        left = before;
    }
    Ok(numbered)
}

/// The commits in the order of their numbers.
pub(crate) fn in_order(alloc: Global, numbered: Numbered) -> Result<CommitList, NoMemory>
    ensures { IfOk result (λ cs. cs ≡ listed numbered.entries) }
{
    let mut out = CommitList::new(alloc);
    for (_, commit) in numbered {
        out.push(commit)?;
    }
    Ok(out)
}
