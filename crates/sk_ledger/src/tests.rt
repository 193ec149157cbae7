ghost use Rattle.std.specs.Prelude.{◌≡◌, ◌∷◌, [], false, IfOk};
ghost use Rattle.sk_model.specs.Journal.{is_horizon};

use super::*;
use sk_model::{
    CommitList, Ending, EngineCall, EngineFault, EngineName, EngineReply, Entry, Journal,
    JournalWriter, Label, Point, Record, TxKind,
};
use sk_rows::{List, NoMemory, Row, Value};
use std::alloc::Global;
use std::test::Fail;

const START: Point = Point {
    a: 0,
    b: 0,
    commit: false,
};

// The first transaction of this session puts the row of this key, of one value, into table 0.
fn put(alloc: Global, session: u16, key: i64, reply: EngineReply) -> Result<Entry, NoMemory>
    ensures { IfOk result (λ j. is_horizon j.call ≡ false) }
{
    let row = Row::of_one(alloc, Value::Int(key))?;
    let call = EngineCall::Put {
        tx: Label { session, k: 1 },
        table: 0,
        key: Value::Int(key),
        row: Some(row),
    };
    Ok(Entry { call, reply })
}

fn enter(journal: &mut JournalWriter, entry: Entry) -> Result<(), NoMemory>
    requires { is_horizon entry.call ≡ false }
{
    journal.take_room(1)?;
    journal.enter(entry);
    Ok(())
}

fn record(alloc: Global, session: u16, ending: Ending, drew: u32) -> Record {
    Record {
        label: Label { session, k: 1 },
        kind: TxKind::Mem,
        mem: Some(0),
        store: None,
        said: List::new(alloc),
        ending,
        drew_mem: Some(drew),
        drew_store: None,
        made: List::new(alloc),
    }
}

// 1.1 puts a row twice, and another is refused; 2.1 puts one and draws before it; 3.1 is rolled back.
#[test]
fn a_worked_journal(rt: HostRuntime) -> Result<(), Fail> {
    let alloc = rt.alloc();
    let mut journal = JournalWriter::new(alloc);
    journal.enter_horizon(0);
    enter(&mut journal, put(alloc, 1, 7, EngineReply::Done)?)?;
    enter(&mut journal, put(alloc, 3, 5, EngineReply::Done)?)?;
    enter(&mut journal, put(alloc, 2, 8, EngineReply::Done)?)?;
    enter(
        &mut journal,
        put(alloc, 1, 6, EngineReply::Fault(EngineFault::NoMemory))?,
    )?;
    enter(&mut journal, put(alloc, 1, 7, EngineReply::Done)?)?;
    let journal = journal.into_journal();
    let mut records = Vec::new(alloc);
    records.push(record(alloc, 1, Ending::Committed, 3))?;
    records.push(record(alloc, 2, Ending::Committed, 1))?;
    records.push(record(alloc, 3, Ending::RolledBack, 2))?;
    let mem = commits(alloc, EngineName::Mem, &journal, &records)?;
    assert_eq!(rt; mem.len(), 2);
    for (commit, wanted) in mem.as_slice().iter().zip([(2, 1, 8), (1, 3, 7)]) {
        let (session, n, key) = wanted;
        assert_eq!(rt; commit.label.session, session);
        assert_eq!(rt; commit.mem, Some(n));
        assert_eq!(rt; commit.writes.len(), 1);
        match commit.writes.get(0) {
            Some(write) => assert!(rt; matches!(&write.key, Value::Int(k) if *k == key)),
            None => assert!(rt; false),
        }
    }
    let store = commits(alloc, EngineName::Store, &journal, &records)?;
    assert_eq!(rt; store.len(), 0);
    ledger_is_run();
    Ok(())
}

// A run without sessions.
fn order_of_none(alloc: Global) -> Result<CommitList, NoMemory> {
    let mem = Journal::new(alloc);
    let store = Journal::new(alloc);
    order(alloc, &mem, &store, &[START], &[])
}

#[test]
fn nobody_committed(rt: HostRuntime) -> Result<(), Fail> {
    let order = order_of_none(rt.alloc())?;
    assert_eq!(rt; order.len(), 0);
    Ok(())
}
