// One list of calls on both engines, reply by reply.

ghost use Rattle.sk_chain.specs.Noting.{noted_stands};
ghost use Rattle.sk_chain.specs.Applying.{IsInUse};

use super::{mem, store};
use sk_chain::{Engine, Noted};
use sk_model::{CommitList, EngineCall, EngineReply, Label};
use sk_rows::{NoMemory, Row, Value};
use std::alloc::Global;
use std::fmt::Write;
use std::process::Abort;
use std::test::Fail;

const A: Label = Label { session: 1, k: 1 };

const B: Label = Label { session: 2, k: 1 };

const C: Label = Label { session: 3, k: 1 };

const D: Label = Label { session: 4, k: 1 };

const E: Label = Label { session: 4, k: 2 };

// A call on the one table, whose rows are a key and a number.
#[derive(Clone, Copy, Debug, PartialEq, Eq)]
enum Ask {
    Open(Label, u32),
    Get(Label, i64),
    Scan(Label),
    Put(Label, i64, i64),
    Delete(Label, i64),
    Close(Label),
    Stamp(Label, u32),
    Void(Label, u32),
    DropTx(Label),
    Horizon,
    Records(u32, u32),
    Purge(u32),
}

fn put(alloc: Global, tx: Label, key: i64, v: Option<i64>) -> Result<EngineCall, NoMemory> {
    let row = match v {
        None => None,
        Some(v) => {
            let mut row = Row::new(alloc);
            row.push(Value::Int(key))?;
            row.push(Value::Int(v))?;
            Some(row)
        }
    };
    Ok(EngineCall::Put {
        tx,
        table: 0,
        key: Value::Int(key),
        row,
    })
}

fn asked(alloc: Global, ask: Ask) -> Result<EngineCall, NoMemory> {
    match ask {
        Ask::Open(tx, snapshot) => Ok(EngineCall::Open { tx, snapshot }),
        Ask::Get(tx, key) => Ok(EngineCall::Get {
            tx,
            table: 0,
            key: Value::Int(key),
        }),
        Ask::Scan(tx) => Ok(EngineCall::Scan { tx, table: 0 }),
        Ask::Put(tx, key, v) => put(alloc, tx, key, Some(v)),
        Ask::Delete(tx, key) => put(alloc, tx, key, None),
        Ask::Close(tx) => Ok(EngineCall::Close { tx }),
        Ask::Stamp(tx, n) => Ok(EngineCall::Stamp { tx, n }),
        Ask::Void(tx, n) => Ok(EngineCall::Void { tx, n }),
        Ask::DropTx(tx) => Ok(EngineCall::DropTx { tx }),
        Ask::Horizon => Ok(EngineCall::Horizon),
        Ask::Records(from, to) => Ok(EngineCall::Records { from, to }),
        Ask::Purge(upto) => Ok(EngineCall::Purge { upto }),
    }
}

// Each commit with its number, of whichever engine that is.
fn tell_commits(out: &mut String, commits: &CommitList) -> Result<(), Fail> {
    for commit in commits.as_slice() {
        let number = commit.mem.or(commit.store);
        write!(out, "{:?} {:?} {:?};", commit.label, number, commit.writes)?;
    }
    Ok(())
}

// All that a reply says.
fn tell(alloc: Global, reply: &EngineReply) -> Result<String, Fail> {
    let mut out = String::new(alloc);
    match reply {
        EngineReply::Commits(commits) => tell_commits(&mut out, commits)?,
        other => write!(out, "{other:?}")?,
    }
    Ok(out)
}

fn reply<G: Engine + Drop>(alloc: Global, engine: &mut Noted<G>, ask: Ask) -> Result<String, Fail>
    requires { IsInUse (noted_stands G.stands) engine.old }
    ensures { IsInUse (noted_stands G.stands) engine.new }
{
    let call = asked(alloc, ask)?;
    let reply = engine.apply(call);
    tell(alloc, &reply)
}

// Asks both engines one after another, and holds each reply of the one against the other's.
fn compare<A: Abort, G: Engine + Drop, H: Engine + Drop>(
    rt: &A,
    alloc: Global,
    mut one: Noted<G>,
    mut two: Noted<H>,
    asks: &[Ask],
) -> Result<(), Fail>
    requires one { IsInUse (noted_stands G.stands) one }
    requires two { IsInUse (noted_stands H.stands) two }
{
    for ask in asks {
        let first = reply(alloc, &mut one, *ask)?;
        let second = reply(alloc, &mut two, *ask)?;
        assert_eq!(rt; first.as_str(), second.as_str(), "of {ask:?}");
    }
    Ok(())
}

// Rows that are written, updated, deleted and put again; writes that conflict with open, closed and later ones; reads that wait;
// a transaction that is voided and one that is dropped; commits that are told, purges that an old snapshot holds back, and what
// may not be asked.
const CALLS: [Ask; 72] = [
    Ask::Horizon,
    Ask::Get(A, 1),
    Ask::Open(A, 0),
    Ask::Put(A, 1, 1),
    Ask::Put(A, 2, 2),
    Ask::Put(A, 3, 3),
    Ask::Put(A, 1, 4),
    Ask::Get(A, 1),
    Ask::Open(B, 0),
    Ask::Delete(B, 1),
    Ask::Close(A),
    Ask::Put(B, 2, 5),
    Ask::Get(B, 2),
    Ask::Stamp(A, 1),
    Ask::Delete(B, 1),
    Ask::Get(B, 1),
    Ask::Scan(B),
    Ask::Purge(5),
    Ask::DropTx(B),
    Ask::Records(0, 1),
    Ask::Open(B, 1),
    Ask::Scan(B),
    Ask::Open(C, 1),
    Ask::Put(C, 1, 7),
    Ask::Delete(C, 2),
    Ask::Put(C, 4, 4),
    Ask::Get(C, 1),
    Ask::Get(C, 2),
    Ask::Scan(C),
    Ask::Close(C),
    Ask::Get(B, 1),
    Ask::Open(D, 2),
    Ask::Get(D, 1),
    Ask::Scan(D),
    Ask::DropTx(D),
    Ask::Void(C, 2),
    Ask::Horizon,
    Ask::Scan(B),
    Ask::DropTx(B),
    Ask::Records(1, 2),
    Ask::Open(B, 2),
    Ask::Delete(B, 2),
    Ask::Put(B, 1, 8),
    Ask::Put(B, 5, 5),
    Ask::Close(B),
    Ask::Stamp(B, 3),
    Ask::Open(C, 2),
    Ask::Scan(C),
    Ask::Get(C, 2),
    Ask::Open(E, 3),
    Ask::Scan(E),
    Ask::Put(E, 2, 9),
    Ask::Put(E, 1, 10),
    Ask::DropTx(E),
    Ask::Purge(3),
    Ask::Scan(C),
    Ask::DropTx(C),
    Ask::Purge(9),
    Ask::Open(C, 2),
    Ask::Open(C, 3),
    Ask::Put(C, 2, 11),
    Ask::Scan(C),
    Ask::Close(C),
    Ask::Put(C, 2, 12),
    Ask::Stamp(C, 2),
    Ask::Stamp(C, 4),
    Ask::Records(3, 4),
    Ask::Records(0, 4),
    Ask::Horizon,
    Ask::Open(D, 4),
    Ask::Scan(D),
    Ask::Purge(4),
];

#[test]
fn both_engines_reply_the_same(rt: HostRuntime) -> Result<(), Fail> {
    let alloc = rt.alloc();
    compare(&rt, alloc, mem(alloc)?, store(alloc)?, &CALLS)
}
