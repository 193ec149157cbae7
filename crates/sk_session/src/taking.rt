//! What an answer leads to.

ghost use Rattle.std.specs.Prelude.{◌≡◌, ◌+◌, IfOk};
ghost use Rattle.sk_model.specs.Reads.{one_row};
ghost use Rattle.sk_session.specs.Moving as spec;
ghost use Rattle.sk_session.specs.Moving.{Either};

use crate::committing::commit_goes;
use crate::ending::{asks, drops, lose, lose_by, next_opened, number_or_none, starve};
use crate::live::{Job, Live, Moved};
use crate::naming::{first_engine, on};
use crate::speaking::{put_next, read_for, rows_come, say};
use crate::twin::Twin;
use sk_commit::{Got, RegistryReply};
use sk_model::{
    Ending, EngineCall, EngineFault, EngineName, EngineReply, KeyedRows, Point, RecordList,
    Recycled, Reply, WriteList,
};
use sk_rows::{Catalog, NoMemory, Row, Statement, Value};
use sk_weave::Selected;
use std::alloc::Global;

fn opened_at(live: Live, engine: EngineName, snapshot: u32) -> Live
    ensures { result ≡ spec.opened_at live engine snapshot }
{
    let mut live = live;
    match engine {
        EngineName::Mem => live.mem = Some(snapshot),
        EngineName::Store => live.store = Some(snapshot),
    }
    live
}

fn has_written(live: Live, engine: EngineName) -> Live
    ensures { result ≡ spec.has_written live engine }
{
    let mut live = live;
    match engine {
        EngineName::Mem => live.wrote_mem = true,
        EngineName::Store => live.wrote_store = true,
    }
    live
}

fn selects(live: Live, selected: Selected) -> Live
    ensures { result ≡ spec.selects live selected }
{
    let mut live = live;
    if selected.made {
        live.selected = Some(Point {
            a: number_or_none(live.mem),
            b: selected.b,
            commit: false,
        });
    }
    live
}

fn ask_open(records: RecordList, live: Live, engine: EngineName, snapshot: u32) -> Moved
    ensures { result ≡ spec.ask_open records live engine snapshot }
{
    let wish = on(
        engine,
        EngineCall::Open {
            tx: live.label,
            snapshot,
        },
    );
    asks(records, live, Job::Open(engine, snapshot), wish)
}

fn is_begin(statement: &Option<Statement>) -> bool
    ensures { result ≡ spec.is_begin statement.now }
{
    matches!(statement, Some(Statement::Begin(_)))
}

/// Behind an opening comes the reply to BEGIN, or the read.
fn behind_open(alloc: Global, catalog: &Catalog, records: RecordList, live: Live) -> Moved
    ensures { Either (spec.behind_open catalog.now records live (spec.is_begin live.statement)) (spec.starve records live) result }
{
    if is_begin(&live.statement) {
        let reply = Twin::new(Reply::Began(live.label), Reply::Began(live.label));
        say(records, live, reply)
    } else {
        read_for(alloc, catalog, records, live)
    }
}

fn count_goes(records: RecordList, live: Live, got: Got) -> Moved
    ensures { result ≡ spec.count_goes records live got }
{
    match got {
        Got::Reg(RegistryReply::Number(n)) => {
            let engine = first_engine(live.kind);
            ask_open(records, live, engine, n)
        }
        _ => starve(records, live),
    }
}

fn open_goes(
    alloc: Global,
    catalog: &Catalog,
    records: RecordList,
    live: Live,
    engine: EngineName,
    snapshot: u32,
    got: Got,
) -> Moved
    ensures { Either (spec.open_goes catalog.now records (spec.noted_open live engine snapshot got) engine got) (spec.starve records (spec.noted_open live engine snapshot got)) result }
{
    match got {
        Got::Engine(EngineReply::Done) => {
            let live = opened_at(live, engine, snapshot);
            behind_open(alloc, catalog, records, live)
        }
        Got::Engine(EngineReply::Fault(fault)) => lose_by(records, live, engine, fault),
        _ => starve(records, live),
    }
}

fn lose_recycled(records: RecordList, live: Live, recycled: Recycled) -> Moved
    ensures { result ≡ spec.lose_recycled records live recycled }
{
    let reply = Twin::new(Reply::Recycled(recycled), Reply::Recycled(recycled));
    lose(records, live, Ending::Recycled, reply)
}

fn select_goes(records: RecordList, live: Live, got: Got) -> Moved
    ensures { result ≡ spec.select_goes records (spec.noted_select live got) got }
{
    match got {
        Got::Reg(RegistryReply::Selected(selected)) => {
            let live = selects(live, selected);
            ask_open(records, live, EngineName::Store, selected.b)
        }
        Got::Reg(RegistryReply::Recycled(recycled)) => lose_recycled(records, live, recycled),
        _ => starve(records, live),
    }
}

/// A read that has to wait changes nothing, but outside BEGIN the transaction is rolled back.
fn fault_at_read(records: RecordList, live: Live, engine: EngineName, fault: EngineFault) -> Moved
    ensures { Either (spec.fault_at_read records live engine fault) (spec.starve records live) result }
{
    match fault {
        EngineFault::Busy { by } => say(
            records,
            live,
            Twin::new(Reply::Busy { by }, Reply::Busy { by }),
        ),
        fault => lose_by(records, live, engine, fault),
    }
}

fn found_rows(alloc: Global, key: Value, row: Option<Row>) -> Result<KeyedRows, NoMemory>
    ensures { IfOk result (λ rows. rows ≡ one_row key row) }
{
    let mut rows = KeyedRows::new(alloc);
    if let Some(row) = row {
        rows.push((key, row))?;
    }
    Ok(rows)
}

/// The row of a key was found, or there is none.
fn row_comes(
    alloc: Global,
    catalog: &Catalog,
    records: RecordList,
    live: Live,
    engine: EngineName,
    key: Value,
    row: Option<Row>,
) -> Moved
    ensures { Either (spec.rows_come catalog.now records live engine (one_row key row)) (spec.starve records live) result }
{
    match found_rows(alloc, key, row) {
        Ok(rows) => rows_come(alloc, catalog, records, live, engine, rows),
        Err(NoMemory) => starve(records, live),
    }
}

fn get_goes(
    alloc: Global,
    catalog: &Catalog,
    records: RecordList,
    live: Live,
    engine: EngineName,
    key: Value,
    got: Got,
) -> Moved
    ensures { Either (spec.get_goes catalog.now records live engine key got) (spec.starve records live) result }
{
    match got {
        Got::Engine(EngineReply::Found(row)) => {
            row_comes(alloc, catalog, records, live, engine, key, row)
        }
        Got::Engine(EngineReply::Fault(fault)) => fault_at_read(records, live, engine, fault),
        _ => starve(records, live),
    }
}

fn scan_goes(
    alloc: Global,
    catalog: &Catalog,
    records: RecordList,
    live: Live,
    engine: EngineName,
    got: Got,
) -> Moved
    ensures { Either (spec.scan_goes catalog.now records live engine got) (spec.starve records live) result }
{
    match got {
        Got::Engine(EngineReply::Rows(rows)) => {
            rows_come(alloc, catalog, records, live, engine, rows)
        }
        Got::Engine(EngineReply::Fault(fault)) => fault_at_read(records, live, engine, fault),
        _ => starve(records, live),
    }
}

fn read_goes(
    alloc: Global,
    catalog: &Catalog,
    records: RecordList,
    live: Live,
    engine: EngineName,
    key: Option<Value>,
    got: Got,
) -> Moved
    ensures { Either (spec.read_goes catalog.now records live engine key got) (spec.starve records live) result }
{
    match key {
        None => scan_goes(alloc, catalog, records, live, engine, got),
        Some(key) => get_goes(alloc, catalog, records, live, engine, key, got),
    }
}

fn put_goes(
    alloc: Global,
    records: RecordList,
    live: Live,
    engine: EngineName,
    writes: WriteList,
    done: usize,
    reply: Twin,
    got: Got,
) -> Moved
    ensures { Either (spec.put_goes records (spec.noted_put live engine got) engine writes done reply got) (spec.starve records (spec.noted_put live engine got)) result }
{
    match got {
        Got::Engine(EngineReply::Done) => {
            let live = has_written(live, engine);
            match done.checked_add(1) {
                Some(next) => put_next(alloc, records, live, engine, writes, next, reply),
                None => starve(records, live),
            }
        }
        Got::Engine(EngineReply::Fault(fault)) => lose_by(records, live, engine, fault),
        _ => starve(records, live),
    }
}

/// Where an answer leads.
pub(crate) fn goes(
    alloc: Global,
    catalog: &Catalog,
    records: RecordList,
    live: Live,
    job: Job,
    got: Got,
) -> Moved
    ensures { spec.GoesAs catalog.now records live job got result }
{
    match job {
        Job::Count => count_goes(records, live, got),
        Job::Open(engine, snapshot) => {
            open_goes(alloc, catalog, records, live, engine, snapshot, got)
        }
        Job::Select => select_goes(records, live, got),
        Job::Read(engine, _, key) => read_goes(alloc, catalog, records, live, engine, key, got),
        Job::Put(engine, writes, done, reply) => {
            put_goes(alloc, records, live, engine, writes, done, reply, got)
        }
        Job::Commit(c, whole, own) => {
            let taken = c.take(got);
            commit_goes(records, live, taken, whole, own)
        }
        Job::Leave(engine, ending, reply, lost) => {
            let next = next_opened(&live, engine);
            drops(records, live, next, ending, reply, lost)
        }
    }
}
