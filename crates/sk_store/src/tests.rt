ghost use Rattle.std.specs.Prelude.{IfOk};
ghost use Rattle.sk_chain.specs.Applying.{IsInUse};
ghost use Rattle.sk_chain.specs.Noting.{noted_stands};

use super::*;
use sk_chain::{Engine, Noted};
use sk_model::{EngineCall, EngineFault, EngineReply, Label};
use sk_rows::{Catalog, Column, List, NoMemory, Row, Sort, Table, Txt, Value};
use std::alloc::Global;
use std::process::Abort;
use std::test::Fail;

const A: Label = Label { session: 1, k: 1 };

const B: Label = Label { session: 2, k: 1 };

const C: Label = Label { session: 3, k: 1 };

const D: Label = Label { session: 4, k: 1 };

const E: Label = Label { session: 5, k: 1 };

const F: Label = Label { session: 6, k: 1 };

type Journaled = Noted<StoreEngine>;

// A call on the one table.
#[derive(Clone, Copy, Debug, PartialEq, Eq)]
enum Ask {
    Open(Label, u32),
    Get(Label, i64),
    Put(Label, i64, i64),
    Close(Label),
    Stamp(Label, u32),
    Void(Label, u32),
    DropTx(Label),
    Horizon,
    Purge(u32),
}

// What a reply says, in short: of a row its second value.
#[derive(Clone, Copy, Debug, PartialEq, Eq)]
enum Said {
    Done,
    Found(Option<i64>),
    Number(u32),
    Other,
    Fault(EngineFault),
}

fn row(alloc: Global, key: i64, v: Value) -> Result<Row, NoMemory> {
    let mut row = Row::new(alloc);
    row.push(Value::Int(key))?;
    row.push(v)?;
    Ok(row)
}

fn put(alloc: Global, tx: Label, key: i64, v: Value) -> Result<EngineCall, NoMemory> {
    Ok(EngineCall::Put {
        tx,
        table: 0,
        key: Value::Int(key),
        row: Some(row(alloc, key, v)?),
    })
}

fn get(tx: Label, key: i64) -> EngineCall {
    EngineCall::Get {
        tx,
        table: 0,
        key: Value::Int(key),
    }
}

fn asked(alloc: Global, ask: Ask) -> Result<EngineCall, NoMemory> {
    match ask {
        Ask::Open(tx, snapshot) => Ok(EngineCall::Open { tx, snapshot }),
        Ask::Get(tx, key) => Ok(get(tx, key)),
        Ask::Put(tx, key, v) => put(alloc, tx, key, Value::Int(v)),
        Ask::Close(tx) => Ok(EngineCall::Close { tx }),
        Ask::Stamp(tx, n) => Ok(EngineCall::Stamp { tx, n }),
        Ask::Void(tx, n) => Ok(EngineCall::Void { tx, n }),
        Ask::DropTx(tx) => Ok(EngineCall::DropTx { tx }),
        Ask::Horizon => Ok(EngineCall::Horizon),
        Ask::Purge(upto) => Ok(EngineCall::Purge { upto }),
    }
}

fn second(row: &Row) -> Option<i64> {
    match row.get(1) {
        Some(Value::Int(v)) => Some(*v),
        _ => None,
    }
}

fn in_short(reply: &EngineReply) -> Said {
    match reply {
        EngineReply::Done => Said::Done,
        EngineReply::Found(Some(row)) => Said::Found(second(row)),
        EngineReply::Found(None) => Said::Found(None),
        EngineReply::Number(n) => Said::Number(*n),
        EngineReply::Rows(_) | EngineReply::Commits(_) => Said::Other,
        EngineReply::Fault(fault) => Said::Fault(*fault),
    }
}

fn reply<G: Engine + Drop>(alloc: Global, engine: &mut Noted<G>, ask: Ask) -> Result<Said, NoMemory>
    requires { IsInUse (noted_stands G.stands) engine.old }
    ensures { IsInUse (noted_stands G.stands) engine.new }
{
    let call = asked(alloc, ask)?;
    Ok(in_short(&engine.apply(call)))
}

// Asks one after another, and holds each reply against the one that is due.
fn play<A: Abort, G: Engine + Drop>(
    rt: &A,
    alloc: Global,
    engine: &mut Noted<G>,
    rows: &[(Ask, Said)],
) -> Result<(), Fail>
    requires { IsInUse (noted_stands G.stands) engine.old }
    ensures { IsInUse (noted_stands G.stands) engine.new }
{
    for (ask, want) in rows {
        assert_eq!(rt; reply(alloc, engine, *ask)?, *want, "of {ask:?}");
    }
    Ok(())
}

fn name(alloc: Global, word: &[u8]) -> Result<Txt, Fail> {
    let bytes = Vec::from_slice(alloc, word)?;
    Ok(Txt::from_vec(bytes).ok().ok_or("a name")?)
}

// One table of a number and one more column, of the storage engine.
fn catalog(alloc: Global, sort: Sort) -> Result<Catalog, Fail> {
    let mut columns = List::new(alloc);
    columns.push(Column {
        name: name(alloc, b"id")?,
        sort: Sort::Int,
    })?;
    columns.push(Column {
        name: name(alloc, b"v")?,
        sort,
    })?;
    let mut catalog = Catalog::new(alloc);
    let table = Table {
        name: name(alloc, b"a")?,
        store: true,
        columns,
    };
    if catalog.add(table).is_err() {
        return Err("the table was refused")?;
    }
    Ok(catalog)
}

// The engine over that table without rows, from number 0.
fn begin(alloc: Global, sort: Sort) -> Result<Journaled, Fail>
    ensures { IfOk result (λ x. IsInUse ⟦<Journaled as Engine>⟧.stands x) }
{
    let catalog = catalog(alloc, sort)?;
    let engine = StoreEngine::without_rows(alloc, &catalog, 0)?;
    Ok(Noted::new(alloc, engine))
}

const WORKED: [(Ask, Said); 10] = [
    (Ask::Open(A, 0), Said::Done),
    (Ask::Put(A, 1, 1), Said::Done),
    (Ask::Close(A), Said::Number(0)),
    (Ask::Open(B, 1), Said::Done),
    (Ask::Get(B, 1), Said::Fault(EngineFault::Busy { by: A })),
    (Ask::Open(C, 0), Said::Done),
    (Ask::Get(C, 1), Said::Found(None)),
    (Ask::Stamp(A, 1), Said::Done),
    (Ask::Get(B, 1), Said::Found(Some(1))),
    (Ask::Horizon, Said::Number(1)),
];

#[test]
fn a_reader_waits_for_a_closed_version(rt: HostRuntime) -> Result<(), Fail> {
    let mut engine = begin(rt.alloc(), Sort::Int)?;
    play(&rt, rt.alloc(), &mut engine, &WORKED)?;
    let (_, journal) = engine.into_parts();
    assert_eq!(&rt; journal.len(), 10);
    Ok(())
}

// A text of so many bytes, all of this letter.
fn wide(alloc: Global, letter: u8, count: usize) -> Result<Value, Fail> {
    let mut bytes = Vec::new(alloc);
    for _ in 0..count {
        bytes.push(letter)?;
    }
    Ok(Value::Text(Txt::from_vec(bytes).ok().ok_or("a text")?))
}

// Puts 500 rows in the name of one transaction, each with such a text, and counts those that were put.
fn put_all<G: Engine + Drop>(
    alloc: Global,
    engine: &mut Noted<G>,
    tx: Label,
    letter: u8,
    count: usize,
) -> Result<u16, Fail>
    requires { IsInUse (noted_stands G.stands) engine.old }
    ensures { IsInUse (noted_stands G.stands) engine.new }
{
    let mut done: u16 = 0;
    for key in 0..500 {
        let call = put(alloc, tx, key, wide(alloc, letter, count)?)?;
        if matches!(engine.apply(call), EngineReply::Done) {
            done = done.wrapping_add(1);
        }
    }
    Ok(done)
}

fn has_text(reply: &EngineReply, text: &Value) -> bool {
    match reply {
        EngineReply::Found(Some(row)) => match row.get(1) {
            Some(value) => value.is_same(text),
            None => false,
        },
        _ => false,
    }
}

// How many of the 500 rows a transaction sees with such a text.
fn count_of<G: Engine + Drop>(
    alloc: Global,
    engine: &mut Noted<G>,
    tx: Label,
    letter: u8,
    count: usize,
) -> Result<u16, Fail>
    requires { IsInUse (noted_stands G.stands) engine.old }
    ensures { IsInUse (noted_stands G.stands) engine.new }
{
    let text = wide(alloc, letter, count)?;
    let mut seen: u16 = 0;
    for key in 0..500 {
        if has_text(&engine.apply(get(tx, key)), &text) {
            seen = seen.wrapping_add(1);
        }
    }
    Ok(seen)
}

// What one transaction does with all rows: it opens, sees them, and may put others and end.
#[derive(Clone, Copy, Debug, PartialEq, Eq)]
enum Sweep {
    Ask(Ask, Said),
    PutAll(Label, u8, usize),
    SeeAll(Label, u8, usize),
}

fn take<A: Abort, G: Engine + Drop>(
    rt: &A,
    alloc: Global,
    engine: &mut Noted<G>,
    pass: Sweep,
) -> Result<(), Fail>
    requires { IsInUse (noted_stands G.stands) engine.old }
    ensures { IsInUse (noted_stands G.stands) engine.new }
{
    match pass {
        Sweep::Ask(ask, want) => {
            assert_eq!(rt; reply(alloc, engine, ask)?, want, "of {ask:?}");
        }
        Sweep::PutAll(tx, letter, count) => {
            assert_eq!(rt; put_all(alloc, engine, tx, letter, count)?, 500);
        }
        Sweep::SeeAll(tx, letter, count) => {
            assert_eq!(rt;
                count_of(alloc, engine, tx, letter, count)?,
                500,
                "by {tx:?}"
            );
        }
    }
    Ok(())
}

// A row of a text of 200 bytes takes 214 bytes of a page, so 500 rows take 27 pages, and one of 250 does not fit where it stood
// once the page is full. A transaction is dropped before it closes, another one is voided, and the last one is stamped and purged up to.
const SWEEPS: [Sweep; 30] = [
    Sweep::Ask(Ask::Horizon, Said::Number(0)),
    Sweep::Ask(Ask::Open(A, 0), Said::Done),
    Sweep::PutAll(A, b'a', 200),
    Sweep::Ask(Ask::Close(A), Said::Number(0)),
    Sweep::Ask(Ask::Stamp(A, 1), Said::Done),
    Sweep::Ask(Ask::Open(B, 1), Said::Done),
    Sweep::PutAll(B, b'b', 250),
    Sweep::SeeAll(B, b'b', 250),
    Sweep::Ask(Ask::DropTx(B), Said::Done),
    Sweep::Ask(Ask::Open(C, 1), Said::Done),
    Sweep::SeeAll(C, b'a', 200),
    Sweep::PutAll(C, b'c', 10),
    Sweep::SeeAll(C, b'c', 10),
    Sweep::Ask(Ask::Close(C), Said::Number(1)),
    Sweep::Ask(Ask::Void(C, 2), Said::Done),
    Sweep::Ask(Ask::Open(D, 2), Said::Done),
    Sweep::SeeAll(D, b'a', 200),
    Sweep::PutAll(D, b'd', 250),
    Sweep::Ask(Ask::Close(D), Said::Number(2)),
    Sweep::Ask(Ask::Stamp(D, 3), Said::Done),
    Sweep::Ask(Ask::Open(E, 2), Said::Done),
    Sweep::SeeAll(E, b'a', 200),
    Sweep::Ask(Ask::Purge(9), Said::Number(2)),
    Sweep::SeeAll(E, b'a', 200),
    Sweep::Ask(Ask::DropTx(E), Said::Done),
    Sweep::Ask(Ask::Purge(9), Said::Number(3)),
    Sweep::Ask(
        Ask::Open(E, 2),
        Said::Fault(EngineFault::Old {
            snapshot: 2,
            horizon: 3,
        }),
    ),
    Sweep::Ask(Ask::Open(F, 3), Said::Done),
    Sweep::SeeAll(F, b'd', 250),
    Sweep::Ask(Ask::Horizon, Said::Number(3)),
];

fn sweep_all<A: Abort, G: Engine + Drop>(
    rt: &A,
    alloc: Global,
    mut engine: Noted<G>,
    sweeps: &[Sweep],
) -> Result<(), Fail>
    requires { IsInUse (noted_stands G.stands) engine }
{
    for one in sweeps {
        take(rt, alloc, &mut engine, *one)?;
    }
    Ok(())
}

#[test]
fn many_rows_are_updated_rolled_back_and_purged(rt: HostRuntime) -> Result<(), Fail> {
    let engine = begin(rt.alloc(), Sort::Text)?;
    sweep_all(&rt, rt.alloc(), engine, &SWEEPS)
}

#[test]
fn room_that_came_free_is_found(rt: HostRuntime) -> Result<(), Fail> {
    let mut pages = PageVec::new(rt.alloc());
    let large = [7; 2000];
    for _ in 0..10 {
        pages.insert(&large).ok().ok_or("memory")?;
    }
    assert_eq!(rt; pages.insert(&large), Ok((5, 0)));
    assert_eq!(rt; pages.remove(3, 0), Ok(()));
    assert_eq!(rt; pages.insert(b"small"), Ok((0, 2)));
    assert_eq!(rt; pages.insert(&large), Ok((3, 0)));
    assert_eq!(rt; pages.replace(3, 0, b"short"), Ok(true));
    assert_eq!(rt; pages.replace(0, 2, &large), Ok(false));
    let mut out = Vec::new(rt.alloc());
    assert_eq!(rt; pages.read(0, 2, &mut out), Ok(true));
    assert_eq!(rt; pages.read(3, 0, &mut out), Ok(true));
    assert_eq!(rt; pages.read(9, 0, &mut out), Ok(false));
    assert_eq!(rt; out.as_slice(), b"smallshort".as_slice());
    Ok(())
}
