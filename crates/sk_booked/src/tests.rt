ghost use Rattle.std.specs.Prelude.{◌≡◌, ◌∷◌, [], IfOk, length};
ghost use Rattle.sk_chain.specs.Noting.{noted_stands};
ghost use Rattle.sk_chain.specs.Applying.{IsInUse};
ghost use Rattle.sk_booked.specs.Of.{view, own_of, IsOf};
ghost use Rattle.sk_booked.specs.Answers.{IsSamePass, IsEvery};

mod both;

use super::*;
use sk_chain::{Engine, Noted};
use sk_mem::MemEngine;
use sk_model::{EngineCall, EngineReply, Journal, KeyedRows, Label, Tables};
use sk_rows::{Catalog, Column, Copies, List, NoMemory, Sort, Table, Txt, Value};
use sk_store::StoreEngine;
use std::alloc::Global;
use std::process::Abort;
use std::sync::Wait;
use std::test::Fail;
use std::thread::{Threads, join};

fn name(alloc: Global, word: &[u8]) -> Result<Txt, Fail> {
    let bytes = Vec::from_slice(alloc, word)?;
    Ok(Txt::from_vec(bytes).ok().ok_or("a name")?)
}

fn column(alloc: Global, word: &[u8]) -> Result<Column, Fail> {
    Ok(Column {
        name: name(alloc, word)?,
        sort: Sort::Int,
    })
}

// One table of a key and a number.
fn catalog(alloc: Global, store: bool) -> Result<Catalog, Fail>
    ensures { IfOk result (λ c. length c ≡ 1) }
{
    let mut columns = List::of_one(alloc, column(alloc, b"id")?)?;
    columns.push(column(alloc, b"v")?)?;
    let table = Table {
        name: name(alloc, b"a")?,
        store,
        columns,
    };
    let mut catalog = Catalog::new(alloc);
    if catalog.add(table).is_err() {
        return Err("the table was refused")?;
    }
    Ok(catalog)
}

// The memory engine over one empty table, from number 0.
fn mem(alloc: Global) -> Result<Noted<MemEngine>, Fail>
    ensures { IfOk result (λ x. IsInUse ⟦<Noted<MemEngine> as Engine>⟧.stands x) }
{
    let catalog = catalog(alloc, false)?;
    let rows: Tables = List::of_one(alloc, KeyedRows::new(alloc))?;
    let engine = MemEngine::new(alloc, &catalog, &rows, 0)?;
    Ok(Noted::new(alloc, engine))
}

// The storage engine over one empty table, from number 0.
fn store(alloc: Global) -> Result<Noted<StoreEngine>, Fail>
    ensures { IfOk result (λ x. IsInUse ⟦<Noted<StoreEngine> as Engine>⟧.stands x) }
{
    let catalog = catalog(alloc, true)?;
    let engine = StoreEngine::without_rows(alloc, &catalog, 0)?;
    Ok(Noted::new(alloc, engine))
}

fn ask<V: Journaled, R: Wait>(
    rt: &R,
    book: &Booked<V>,
    pass: &mut BookPass<V>,
    call: V::Call,
) -> V::Reply
    requires { IsOf book.now pass.old }
    ensures of { IsOf book.now pass.new }
    ensures same { IsSamePass (view pass.old) (view pass.new) }
{
    book.call(rt, pass, call)
}

// The journal of an engine, at the close of its book by its two passes.
fn journal_of<G: Engine + Drop>(
    alloc: Global,
    book: Booked<Noted<G>>,
    one: BookPass<Noted<G>>,
    two: BookPass<Noted<G>>,
) -> Result<Journal, Fail>
    requires of { IsOf book one × IsOf book two }
    requires every { IsEvery (own_of one ∷ own_of two ∷ []) }
{
    let mut passes = Vec::with_capacity(alloc, 2)?;
    passes.push_reserved(one);
    passes.push_reserved(two);
    Ok(book.close(passes).into_parts().1)
}

// Two passes, one call each.
fn ask_twice<G: Engine + Drop, R: Wait>(
    rt: &R,
    alloc: Global,
    engine: Noted<G>,
) -> Result<Journal, Fail>
    requires { IsInUse (noted_stands G.stands) engine }
{
    let Ok((book, mut one)) = Booked::new(alloc, engine) else {
        return Err("the book was refused")?;
    };
    let mut two = book.split(&mut one);
    ask(rt, &book, &mut one, EngineCall::Horizon);
    ask(rt, &book, &mut two, EngineCall::Horizon);
    journal_of(alloc, book, one, two)
}

#[test]
fn two_passes_leave_an_entry_each(rt: HostRuntime) -> Result<(), Fail> {
    let mem = ask_twice(&rt, rt.alloc(), mem(rt.alloc())?)?;
    assert_eq!(&rt; mem.len(), 2);
    let store = ask_twice(&rt, rt.alloc(), store(rt.alloc())?)?;
    assert_eq!(&rt; store.len(), 2);
    Ok(())
}

fn put(alloc: Global, tx: Label, key: i64) -> Result<EngineCall, NoMemory> {
    let mut row = List::of_one(alloc, Value::Int(key))?;
    row.push(Value::Int(0))?;
    Ok(EngineCall::Put {
        tx,
        table: 0,
        key: Value::Int(key),
        row: Some(row),
    })
}

// Whether a new row of this key was put.
fn is_put<G: Engine + Drop, R: Wait>(
    rt: &R,
    alloc: Global,
    book: &Booked<Noted<G>>,
    pass: &mut BookPass<Noted<G>>,
    tx: Label,
    key: i64,
) -> bool
    requires { IsOf book.now pass.old }
    ensures of { IsOf book.now pass.new }
    ensures same { IsSamePass (view pass.old) (view pass.new) }
{
    let Ok(call) = put(alloc, tx, key) else {
        return false;
    };
    matches!(ask(rt, book, pass, call), EngineReply::Done)
}

// Puts the rows of these keys in one transaction, and counts those that were put.
fn put_all<G: Engine + Drop, R: Wait>(
    rt: &R,
    alloc: Global,
    book: &Booked<Noted<G>>,
    mut pass: BookPass<Noted<G>>,
    tx: Label,
    first: i64,
    end: i64,
) -> (BookPass<Noted<G>>, u16)
    requires { IsOf book.now pass }
    ensures { IsOf book.now result.0 × IsSamePass (view pass) (view result.0) }
{
    let mut done: u16 = 0;
    ask(rt, book, &mut pass, EngineCall::Open { tx, snapshot: 0 });
    for key in first..end {
        if is_put(rt, alloc, book, &mut pass, tx, key) {
            done = done.wrapping_add(1);
        }
    }
    (pass, done)
}

// Two threads put 1,000 rows each that the other one does not want, and the row of key 0, which both want.
fn put_in_two<G: Engine + Drop + Send, R: Threads + Wait + Sync>(
    rt: &R,
    alloc: Global,
    engine: Noted<G>,
) -> Result<(Journal, u16), Fail>
    requires { IsInUse (noted_stands G.stands) engine }
{
    let Ok((book, mut one)) = Booked::new(alloc, engine) else {
        return Err("the book was refused")?;
    };
    let two = book.split(&mut one);
    let ((one, first), (two, second)) = join(
        rt,
        || -> (BookPass<Noted<G>>, u16)
            requires { IsOf book one }
            ensures { IsOf book result.0 × IsSamePass (view one) (view result.0) }
        { put_all(rt, alloc, &book, one, Label { session: 1, k: 1 }, 0, 1001) },
        || -> (BookPass<Noted<G>>, u16)
            requires { IsOf book two }
            ensures { IsOf book result.0 × IsSamePass (view two) (view result.0) }
        { put_all(rt, alloc, &book, two, Label { session: 2, k: 1 }, -1000, 1) },
    );
    Ok((
        journal_of(alloc, book, one, two)?,
        first.wrapping_add(second),
    ))
}

fn is_same(a: &EngineReply, b: &EngineReply) -> bool {
    match (a, b) {
        (EngineReply::Done, EngineReply::Done) => true,
        (EngineReply::Fault(a), EngineReply::Fault(b)) => *a == *b,
        _ => false,
    }
}

// Whether an engine that is asked again in the order of the journal replies the same.
fn is_due<G: Engine + Drop>(
    alloc: Global,
    mut engine: Noted<G>,
    journal: &Journal,
) -> Result<bool, Fail>
    requires { IsInUse (noted_stands G.stands) engine }
{
    for part in journal.as_parts().0 {
        let reply = engine.apply(part.entry.call.copy(alloc)?);
        if !is_same(&reply, &part.entry.reply) {
            return Ok(false);
        }
    }
    Ok(true)
}

// Each put left an entry, one of them was refused, and each reply is due.
fn check_puts<G: Engine + Drop + Send, R: Threads + Wait + Sync + Abort>(
    rt: &R,
    alloc: Global,
    engine: Noted<G>,
    again: Noted<G>,
) -> Result<(), Fail>
    requires engine { IsInUse (noted_stands G.stands) engine }
    requires again { IsInUse (noted_stands G.stands) again }
{
    let (journal, done) = put_in_two(rt, alloc, engine)?;
    assert_eq!(rt; journal.len(), 2004);
    assert_eq!(rt; done, 2001);
    assert!(rt; is_due(alloc, again, &journal)?);
    Ok(())
}

#[test]
fn what_two_threads_hear_is_due_by_the_journal(rt: HostRuntime) -> Result<(), Fail> {
    let alloc = rt.alloc();
    check_puts(&rt, alloc, mem(alloc)?, mem(alloc)?)?;
    check_puts(&rt, alloc, store(alloc)?, store(alloc)?)
}
