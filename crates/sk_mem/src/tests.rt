ghost use Rattle.std.specs.Prelude.{IfOk};
ghost use Rattle.sk_chain.specs.Applying.{IsInUse};

use super::*;
use sk_chain::{Engine, Noted};
use sk_model::{EngineCall, EngineFault, EngineReply, KeyedRows, Label, Tables, Why};
use sk_rows::{Catalog, Column, List, Row, Sort, Table, Txt, Value};
use std::alloc::Global;
use std::test::Fail;

const A: Label = Label { session: 1, k: 1 };

const B: Label = Label { session: 2, k: 1 };

const C: Label = Label { session: 3, k: 1 };

const D: Label = Label { session: 3, k: 2 };

type Journaled = Noted<MemEngine>;

// What a reply says, in short: of a row its second value, of lists their lengths.
#[derive(Clone, Copy, Debug, PartialEq, Eq)]
enum Said {
    Done,
    Found(Option<i64>),
    Rows(usize),
    Number(u32),
    Commits(usize),
    Fault(EngineFault),
}

fn second(row: &Row) -> Option<i64> {
    match row.get(1) {
        Some(Value::Int(v)) => Some(*v),
        _ => None,
    }
}

fn in_short(reply: &EngineReply) -> Said {
    match reply {
        EngineReply::Done => Said::Done,
        EngineReply::Found(Some(row)) => Said::Found(second(row)),
        EngineReply::Found(None) => Said::Found(None),
        EngineReply::Rows(rows) => Said::Rows(rows.len()),
        EngineReply::Number(n) => Said::Number(*n),
        EngineReply::Commits(commits) => Said::Commits(commits.len()),
        EngineReply::Fault(fault) => Said::Fault(*fault),
    }
}

fn column(alloc: Global, name: &[u8]) -> Result<Column, Fail> {
    let bytes = Vec::from_slice(alloc, name)?;
    Ok(Column {
        name: Txt::from_vec(bytes).ok().ok_or("a name")?,
        sort: Sort::Int,
    })
}

// One table of two columns, of the memory engine.
fn table(alloc: Global) -> Result<Table, Fail> {
    let mut columns = List::new(alloc);
    columns.push(column(alloc, b"id")?)?;
    columns.push(column(alloc, b"v")?)?;
    let bytes = Vec::from_slice(alloc, b"a")?;
    Ok(Table {
        name: Txt::from_vec(bytes).ok().ok_or("a name")?,
        store: false,
        columns,
    })
}

// The engine over one empty table, from number 0.
fn begin(alloc: Global) -> Result<Journaled, Fail>
    ensures { IfOk result (λ x. IsInUse ⟦<Journaled as Engine>⟧.stands x) }
{
    let mut catalog = Catalog::new(alloc);
    if catalog.add(table(alloc)?).is_err() {
        return Err("the table was refused")?;
    }
    let rows: Tables = List::of_one(alloc, KeyedRows::new(alloc))?;
    let engine = MemEngine::new(alloc, &catalog, &rows, 0)?;
    Ok(Noted::new(alloc, engine))
}

fn ask(engine: &mut Journaled, call: EngineCall) -> Said
    requires { IsInUse ⟦<Journaled as Engine>⟧.stands engine.old }
    ensures { IsInUse ⟦<Journaled as Engine>⟧.stands engine.new }
{
    in_short(&engine.apply(call))
}

fn open(tx: Label, snapshot: u32) -> EngineCall {
    EngineCall::Open { tx, snapshot }
}

fn get(tx: Label, key: i64) -> EngineCall {
    EngineCall::Get {
        tx,
        table: 0,
        key: Value::Int(key),
    }
}

fn put(alloc: Global, tx: Label, key: i64, v: i64) -> Result<EngineCall, Fail> {
    let mut row = Row::new(alloc);
    row.push(Value::Int(key))?;
    row.push(Value::Int(v))?;
    Ok(EngineCall::Put {
        tx,
        table: 0,
        key: Value::Int(key),
        row: Some(row),
    })
}

fn delete(tx: Label, key: i64) -> EngineCall {
    EngineCall::Put {
        tx,
        table: 0,
        key: Value::Int(key),
        row: None,
    }
}

#[test]
fn a_reader_waits_for_a_closed_version(rt: HostRuntime) -> Result<(), Fail> {
    let alloc = rt.alloc();
    let mut engine = begin(alloc)?;
    assert_eq!(&rt; ask(&mut engine, open(A, 0)), Said::Done);
    assert_eq!(&rt; ask(&mut engine, put(alloc, A, 1, 1)?), Said::Done);
    assert_eq!(&rt;
        ask(&mut engine, EngineCall::Close { tx: A }),
        Said::Number(0)
    );
    assert_eq!(&rt; ask(&mut engine, open(B, 1)), Said::Done);
    assert_eq!(&rt;
        ask(&mut engine, get(B, 1)),
        Said::Fault(EngineFault::Busy { by: A })
    );
    assert_eq!(&rt; ask(&mut engine, open(C, 0)), Said::Done);
    assert_eq!(&rt; ask(&mut engine, get(C, 1)), Said::Found(None));
    assert_eq!(&rt;
        ask(&mut engine, EngineCall::Stamp { tx: A, n: 1 }),
        Said::Done
    );
    assert_eq!(&rt; ask(&mut engine, get(B, 1)), Said::Found(Some(1)));
    assert_eq!(&rt; ask(&mut engine, EngineCall::Horizon), Said::Number(1));
    let (_, journal) = engine.into_parts();
    assert_eq!(&rt; journal.len(), 10);
    Ok(())
}

#[test]
fn versions_are_voided_recorded_and_purged(rt: HostRuntime) -> Result<(), Fail> {
    let alloc = rt.alloc();
    let mut engine = begin(alloc)?;
    assert_eq!(&rt; ask(&mut engine, EngineCall::Horizon), Said::Number(0));
    assert_eq!(&rt; ask(&mut engine, open(A, 0)), Said::Done);
    assert_eq!(&rt; ask(&mut engine, put(alloc, A, 1, 1)?), Said::Done);
    assert_eq!(&rt; ask(&mut engine, open(B, 0)), Said::Done);
    let is_open = EngineFault::Conflict {
        by: A,
        why: Why::Open,
    };
    assert_eq!(&rt; ask(&mut engine, delete(B, 1)), Said::Fault(is_open));
    assert_eq!(&rt;
        ask(&mut engine, EngineCall::Close { tx: A }),
        Said::Number(0)
    );
    assert_eq!(&rt;
        ask(&mut engine, EngineCall::Stamp { tx: A, n: 1 }),
        Said::Done
    );
    let is_past = EngineFault::Conflict {
        by: A,
        why: Why::Past {
            number: 1,
            snapshot: 0,
        },
    };
    assert_eq!(&rt; ask(&mut engine, delete(B, 1)), Said::Fault(is_past));
    assert_eq!(&rt;
        ask(&mut engine, EngineCall::Purge { upto: 5 }),
        Said::Number(0)
    );
    assert_eq!(&rt; ask(&mut engine, EngineCall::DropTx { tx: B }), Said::Done);
    assert_eq!(&rt;
        ask(&mut engine, EngineCall::Records { from: 0, to: 1 }),
        Said::Commits(1)
    );
    assert_eq!(&rt;
        ask(&mut engine, EngineCall::Purge { upto: 1 }),
        Said::Number(1)
    );
    let old = EngineFault::Old {
        snapshot: 0,
        horizon: 1,
    };
    assert_eq!(&rt; ask(&mut engine, open(B, 0)), Said::Fault(old));
    assert_eq!(&rt; ask(&mut engine, open(C, 1)), Said::Done);
    assert_eq!(&rt; ask(&mut engine, put(alloc, C, 1, 2)?), Said::Done);
    assert_eq!(&rt; ask(&mut engine, get(C, 1)), Said::Found(Some(2)));
    assert_eq!(&rt;
        ask(&mut engine, EngineCall::Close { tx: C }),
        Said::Number(1)
    );
    assert_eq!(&rt;
        ask(&mut engine, EngineCall::Void { tx: C, n: 2 }),
        Said::Done
    );
    assert_eq!(&rt; ask(&mut engine, EngineCall::Horizon), Said::Number(2));
    assert_eq!(&rt;
        ask(&mut engine, EngineCall::Records { from: 1, to: 2 }),
        Said::Commits(0)
    );
    assert_eq!(&rt; ask(&mut engine, open(D, 2)), Said::Done);
    assert_eq!(&rt;
        ask(&mut engine, EngineCall::Scan { tx: D, table: 0 }),
        Said::Rows(1)
    );
    assert_eq!(&rt; ask(&mut engine, get(D, 1)), Said::Found(Some(1)));
    Ok(())
}

#[test]
fn what_may_not_be_asked_is_answered_nothing(rt: HostRuntime) -> Result<(), Fail> {
    let alloc = rt.alloc();
    let mut engine = begin(alloc)?;
    assert_eq!(&rt; ask(&mut engine, open(A, 0)), Said::Done);
    assert_eq!(&rt;
        ask(&mut engine, EngineCall::Close { tx: A }),
        Said::Number(0)
    );
    assert_eq!(&rt; ask(&mut engine, put(alloc, A, 1, 1)?), Said::Done);
    assert_eq!(&rt;
        ask(&mut engine, EngineCall::Stamp { tx: A, n: 0 }),
        Said::Done
    );
    assert_eq!(&rt;
        ask(&mut engine, EngineCall::Stamp { tx: A, n: 3 }),
        Said::Done
    );
    assert_eq!(&rt;
        ask(&mut engine, EngineCall::Void { tx: A, n: 4 }),
        Said::Done
    );
    assert_eq!(&rt;
        ask(&mut engine, EngineCall::Close { tx: A }),
        Said::Number(0)
    );
    assert_eq!(&rt; ask(&mut engine, get(A, 1)), Said::Found(None));
    assert_eq!(&rt;
        ask(&mut engine, EngineCall::Scan { tx: A, table: 0 }),
        Said::Rows(0)
    );
    assert_eq!(&rt;
        ask(&mut engine, EngineCall::Records { from: 0, to: 3 }),
        Said::Commits(0)
    );
    assert_eq!(&rt; ask(&mut engine, EngineCall::Horizon), Said::Number(0));
    let (_, journal) = engine.into_parts();
    assert_eq!(&rt; journal.len(), 11);
    Ok(())
}
