//! What stands again after a stop.

ghost use Rattle.std.specs.Prelude.{◌≡◌, IfOk, nat_lt, take};
ghost use Rattle.sk_model.specs.declared.engine.EngineName.TheVariants as name;
ghost use Rattle.sk_model.specs.Database.{state, after_writes};
ghost use Rattle.sk_model.specs.Numbers.{there};
ghost use Rattle.sk_model.specs.Stamped.{number_in};
ghost use Rattle.sk_model.specs.Talks.{is_done, writes_in_call, puts_in};
ghost use Rattle.sk_weave.specs.Woven.{IsWeavable, own_writes};
ghost use Rattle.sk_linked.specs.Reads.{owns};
ghost use Rattle.sk_linked.specs.State.{transaction_of, traces_of};
ghost use Rattle.sk_linked.specs.Traces as traces;
ghost use Rattle.sk_linked.specs.Machine as machine;
ghost use Rattle.sk_core.specs.Reopening.{listed, commits_onto, transactions_of, CanWeave};

use crate::actor::{Actor, OwnCall};
use crate::regs::selection;
use crate::state::{State, start_at};
use sk_model::{Commit, CommitList, EngineCall, EngineName, EngineReply, Tables, Write, WriteList};
use sk_rows::{Catalog, Copies, List, NoMemory};
use sk_table::{after_write, keeps, net};
use sk_weave::{place, weave};
use std::alloc::Global;

/// Whether an engine keeps the table.
fn owns(catalog: &Catalog, name: EngineName, table: u16) -> bool
    ensures { result ≡ owns catalog.now name table }
{
    match name {
        EngineName::Mem => !keeps(EngineName::Store, catalog, table),
        EngineName::Store => keeps(EngineName::Store, catalog, table),
    }
}

fn is_done(reply: &EngineReply) -> bool
    ensures { result ≡ is_done reply.now }
{
    match reply {
        EngineReply::Done => true,
        EngineReply::Found(_)
        | EngineReply::Rows(_)
        | EngineReply::Number(_)
        | EngineReply::Commits(_)
        | EngineReply::Fault(_) => false,
    }
}

/// The write of a Put that was done.
fn written(alloc: Global, call: &OwnCall) -> Result<Option<Write>, NoMemory>
    ensures { IfOk result (λ w. listed w ≡ writes_in_call call.now) }
{
    match &call.entry.call {
        EngineCall::Put {
            tx: _,
            table,
            key,
            row,
        } => {
            if is_done(&call.entry.reply) {
                Ok(Some(Write {
                    table: *table,
                    key: key.copy(alloc)?,
                    row: row.copy(alloc)?,
                }))
            } else {
                Ok(None)
            }
        }
        EngineCall::Open { .. }
        | EngineCall::Get { .. }
        | EngineCall::Scan { .. }
        | EngineCall::Close { .. }
        | EngineCall::Stamp { .. }
        | EngineCall::Void { .. }
        | EngineCall::DropTx { .. }
        | EngineCall::Horizon
        | EngineCall::Records { .. }
        | EngineCall::Purge { .. } => Ok(None),
    }
}

/// The write of a Put that was done, where it is of a table of this engine.
fn own_write(
    alloc: Global,
    catalog: &Catalog,
    name: EngineName,
    call: &OwnCall,
) -> Result<Option<Write>, NoMemory>
    ensures { IfOk result (λ w. listed w ≡ own_writes (owns catalog.now name) (writes_in_call call.now)) }
{
    match written(alloc, call)? {
        None => Ok(None),
        Some(write) => {
            if owns(catalog, name, write.table) {
                Ok(Some(write))
            } else {
                Ok(None)
            }
        }
    }
}

/// What a transaction wrote to the tables of this engine.
#[tactic(auto, using(crate::proofs::Woven::own_more))]
fn own_puts(
    alloc: Global,
    catalog: &Catalog,
    name: EngineName,
    talk: &[OwnCall],
) -> Result<WriteList, NoMemory>
    ensures { IfOk result (λ ws. ws ≡ own_writes (owns catalog.now name) (puts_in talk.now)) }
{
    let mut out = List::new(alloc);
    for call in talk {
        if let Some(write) = own_write(alloc, catalog, name, call)? {
            out.push(write)?;
        }
    }
    Ok(out)
}

/// What a transaction commits in one engine.
fn commit_in(
    alloc: Global,
    catalog: &Catalog,
    name: EngineName,
    actor: &Actor,
) -> Result<Commit, NoMemory>
    ensures { IfOk result (λ c. c ≡ traces.commit_in catalog.now name (transaction_of actor.now)) }
{
    let writes = own_puts(alloc, catalog, name, actor.talk.as_slice())?;
    Ok(Commit {
        label: actor.label,
        mem: actor.drew_mem,
        store: actor.drew_store,
        writes: net(alloc, writes.as_slice())?,
    })
}

/// Its number in the engine, once it is committed.
fn counts(name: EngineName, actor: &Actor) -> Option<u32>
    ensures { result ≡ traces.counts name (transaction_of actor.now) }
{
    if actor.committed {
        actor.drawn_at(name)
    } else {
        None
    }
}

fn number_in(name: EngineName, commit: &Commit) -> Option<u32>
    ensures { result ≡ number_in name commit.now }
{
    match name {
        EngineName::Mem => commit.mem,
        EngineName::Store => commit.store,
    }
}

fn is_past(n: u32, number: Option<u32>) -> bool
    ensures { result ≡ there (nat_lt n) number }
{
    match number {
        None => false,
        Some(m) => n < m,
    }
}

/// Before the first commit with a greater number.
fn placed(
    alloc: Global,
    name: EngineName,
    n: u32,
    commit: &Commit,
    commits: CommitList,
) -> Result<CommitList, NoMemory>
    ensures { IfOk result (λ cs. cs ≡ traces.placed name n commit.now commits) }
{
    let mut out = List::new(alloc);
    let mut found = false;
    let all = commits.into_vec();
    for other in all {
        if !found && is_past(n, number_in(name, &other)) {
            out.push(commit.copy(alloc)?)?;
            found = true;
        }
        out.push(other)?;
    }
    if !found {
        out.push(commit.copy(alloc)?)?;
    }
    Ok(out)
}

/// These commits and the transaction's, where it is committed in the engine.
fn added(
    alloc: Global,
    catalog: &Catalog,
    name: EngineName,
    actor: &Actor,
    commits: CommitList,
) -> Result<CommitList, NoMemory>
    ensures { IfOk result (λ cs. cs ≡ traces.added name (traces.counts name (transaction_of actor.now)) (traces.commit_in catalog.now name (transaction_of actor.now)) commits) }
{
    match counts(name, actor) {
        None => Ok(commits),
        Some(n) => {
            let commit = commit_in(alloc, catalog, name, actor)?;
            placed(alloc, name, n, &commit, commits)
        }
    }
}

/// The commits of one engine, in the order of their numbers.
#[tactic(auto, using(crate::proofs::Woven::onto_none, crate::proofs::Woven::onto_more))]
fn commits_in(
    alloc: Global,
    catalog: &Catalog,
    name: EngineName,
    actors: &[Actor],
) -> Result<CommitList, NoMemory>
    ensures { IfOk result (λ cs. cs ≡ traces.commits_in catalog.now name (transactions_of actors.now)) }
{
    let mut commits = List::new(alloc);
    let mut left = actors;
    while let [before @ .., actor] = left {
        commits = added(alloc, catalog, name, actor, commits)?;
        left = before;
    }
    Ok(commits)
}

/// The one list of commits of this run.
fn commits_of(alloc: Global, k: &State) -> Result<CommitList, NoMemory>
    requires { CanWeave k.now }
    ensures { IfOk result (λ cs. cs ≡ machine.commits_of k.now) }
{
    let actors = k.actors.as_slice();
    let mem = commits_in(alloc, &k.catalog, EngineName::Mem, actors)?;
    let store = commits_in(alloc, &k.catalog, EngineName::Store, actors)?;
    match k.regs.points.as_slice() {
        [] => weave(alloc, &[selection(0, 0)], mem.as_slice(), store.as_slice()),
        points => weave(alloc, points, mem.as_slice(), store.as_slice()),
    }
}

/// The rows after these commits.
fn after_writes(alloc: Global, rows: Tables, writes: &[Write]) -> Result<Tables, NoMemory>
    ensures { IfOk result (λ ts. ts ≡ after_writes rows writes.now) }
{
    let mut tables = rows;
    for write in writes {
        tables = after_write(alloc, tables, write)?;
    }
    Ok(tables)
}

/// The rows after these commits.
fn after_commits(alloc: Global, rows: Tables, commits: &[Commit]) -> Result<Tables, NoMemory>
    ensures { IfOk result (λ ts. ts ≡ state rows commits.now) }
{
    let mut tables = rows;
    for commit in commits {
        tables = after_writes(alloc, tables, commit.writes.as_slice())?;
    }
    Ok(tables)
}

/// The first of these commits.
fn first_commits(commits: &[Commit], count: usize) -> &[Commit]
    ensures { result.now ≡ take count commits.now }
{
    if count < commits.len() {
        commits.split_at(count).0
    } else {
        commits
    }
}

/// The rows after the prefix that is durable. More than 4,294,967,295 commits count as want of memory.
fn durable_rows(alloc: Global, k: &State) -> Result<Tables, NoMemory>
    requires { CanWeave k.now }
    ensures { IfOk result (λ ts. ts ≡ machine.durable_rows k.now) }
{
    let commits = commits_of(alloc, k)?;
    let order = commits.as_slice();
    if order.len() > u32::MAX as usize {
        return Err(NoMemory);
    }
    let count = place(order, Some(k.durable.a), Some(k.durable.b));
    let rows = k.rows.copy(alloc)?;
    after_commits(alloc, rows, first_commits(order, count as usize))
}

/// A new run from the durable cut.
pub(crate) fn reopened(alloc: Global, k: &State) -> Result<State, NoMemory>
    requires { CanWeave k.now }
    ensures { IfOk result (λ s. s ≡ machine.reopened k.now) }
{
    let rows = durable_rows(alloc, k)?;
    start_at(
        alloc,
        &k.catalog,
        rows,
        selection(k.durable.a, k.durable.b),
        k.regs.partitions,
        k.regs.size,
    )
}
