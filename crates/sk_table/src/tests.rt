use super::*;
use sk_model::{
    EngineCall, EngineFault, EngineName, EngineReply, Entry, KeyedRows, Label, Tables, Why,
};
use sk_rows::{Catalog, Column, List, Row, Sort, Table, Txt, Value};
use std::alloc::Global;
use std::process::Abort;
use std::test::Fail;

const A: Label = Label { session: 1, k: 1 };

const B: Label = Label { session: 2, k: 1 };

const C: Label = Label { session: 3, k: 1 };

// What a reply says, in short: of a row whether it is there, of lists their lengths.
#[derive(Clone, Copy, Debug, PartialEq, Eq)]
enum Said {
    Done,
    Found(bool),
    Rows(usize),
    Number(u32),
    Commits(usize),
    Fault(EngineFault),
}

fn in_short(reply: &EngineReply) -> Said {
    match reply {
        EngineReply::Done => Said::Done,
        EngineReply::Found(row) => Said::Found(row.is_some()),
        EngineReply::Rows(rows) => Said::Rows(rows.len()),
        EngineReply::Number(n) => Said::Number(*n),
        EngineReply::Commits(commits) => Said::Commits(commits.len()),
        EngineReply::Fault(fault) => Said::Fault(*fault),
    }
}

// One table of one column, of the memory engine.
fn catalog(alloc: Global) -> Result<Catalog, Fail> {
    let key = Vec::from_slice(alloc, b"id")?;
    let name = Vec::from_slice(alloc, b"a")?;
    let column = Column {
        name: Txt::from_vec(key).ok().ok_or("a name")?,
        sort: Sort::Int,
    };
    let table = Table {
        name: Txt::from_vec(name).ok().ok_or("a name")?,
        store: false,
        columns: List::of_one(alloc, column)?,
    };
    let mut catalog = Catalog::new(alloc);
    if catalog.add(table).is_err() {
        return Err("the table was refused")?;
    }
    Ok(catalog)
}

fn begin(alloc: Global) -> Result<EngineTable, Fail> {
    let rows: Tables = List::of_one(alloc, KeyedRows::new(alloc))?;
    Ok(EngineTable::new(alloc, EngineName::Mem, &catalog(alloc)?, &rows, 0)?)
}

fn open(tx: Label, snapshot: u32) -> EngineCall {
    EngineCall::Open { tx, snapshot }
}

fn get(tx: Label) -> EngineCall {
    EngineCall::Get {
        tx,
        table: 0,
        key: Value::Int(7),
    }
}

fn put(alloc: Global, tx: Label) -> Result<EngineCall, Fail> {
    Ok(EngineCall::Put {
        tx,
        table: 0,
        key: Value::Int(7),
        row: Some(Row::of_one(alloc, Value::Int(7))?),
    })
}

// What the table replies to these calls, one after another.
fn ask(
    rt: &impl Abort,
    alloc: Global,
    table: EngineTable,
    calls: Vec<(EngineCall, Said)>,
) -> Result<EngineTable, Fail> {
    let mut after = table;
    for (call, want) in calls {
        let reply = after.due(alloc, &call)?;
        assert_eq!(rt; in_short(&reply), want);
        after = after.step(alloc, &Entry { call, reply })?;
    }
    Ok(after)
}

#[test]
fn a_write_is_seen_from_its_number_on(rt: HostRuntime) -> Result<(), Fail> {
    let alloc = rt.alloc();
    let past = EngineFault::Conflict {
        by: A,
        why: Why::Past {
            number: 1,
            snapshot: 0,
        },
    };
    let mut calls = Vec::new(alloc);
    calls.push((open(A, 0), Said::Done))?;
    calls.push((put(alloc, A)?, Said::Done))?;
    calls.push((EngineCall::Close { tx: A }, Said::Number(0)))?;
    calls.push((open(B, 1), Said::Done))?;
    calls.push((get(B), Said::Fault(EngineFault::Busy { by: A })))?;
    calls.push((EngineCall::Stamp { tx: A, n: 1 }, Said::Done))?;
    calls.push((EngineCall::Horizon, Said::Number(1)))?;
    calls.push((get(B), Said::Found(true)))?;
    calls.push((open(C, 0), Said::Done))?;
    calls.push((EngineCall::Scan { tx: C, table: 0 }, Said::Rows(0)))?;
    calls.push((put(alloc, C)?, Said::Fault(past)))?;
    calls.push((EngineCall::Records { from: 0, to: 1 }, Said::Commits(1)))?;
    calls.push((EngineCall::Purge { upto: 1 }, Said::Number(0)))?;
    calls.push((EngineCall::DropTx { tx: C }, Said::Done))?;
    calls.push((EngineCall::Purge { upto: 1 }, Said::Number(1)))?;
    ask(&rt, alloc, begin(alloc)?, calls)?;
    Ok(())
}
