//! How a statement of a transaction is answered.

ghost use Rattle.std.specs.Prelude.{◌≡◌, ◌++◌, Some, IfOk, IfErr};
ghost use Rattle.sk_session.specs.Kept.{said_maybe};
ghost use Rattle.sk_model.specs.Replies.{comes_to as comes_to_spec};
ghost use Rattle.sk_session.specs.Moving as spec;
ghost use Rattle.sk_session.specs.Moving.{Either};

use crate::committing::commits;
use crate::ending::{asks, give_up, number_or_none, refused, starve};
use crate::live::{At, Job, Live, Moved};
use crate::naming::{keeper_of, may_use, put_wish, read_wish, table_named};
use crate::saids::Saids;
use crate::turn::Turn;
use crate::twin::Twin;
use sk_commit::{RegistryCall, Wish};
use sk_expr::{comes_to, key_read, refusal};
use sk_model::{
    Ending, EngineName, ErrWord, KeyedRows, RecordList, Reply, Said, TxKind, WriteList,
};
use sk_rows::{Catalog, Copies, NoMemory, Statement, Table, Value};
use std::alloc::Global;

fn goes_well(reply: &Reply) -> bool
    ensures { result ≡ spec.goes_well reply.now }
{
    matches!(reply, Reply::Count(_) | Reply::Rows(_))
}

/// A transaction outside BEGIN behind its one statement: it commits, or is rolled back.
fn closes(records: RecordList, live: Live, reply: Twin, well: bool) -> Moved
    ensures { result ≡ spec.closes records live reply well }
{
    if well {
        commits(records, live, true, Some(reply))
    } else {
        give_up(records, live, Ending::RolledBack, reply, false)
    }
}

/// The statements with one more, where there is one. Want of memory hands both back.
fn kept(
    said: Saids,
    statement: Option<Statement>,
    reply: Reply,
) -> Result<Saids, (Saids, Statement)>
    ensures ok { IfOk result (λ s. s ≡ said ++ said_maybe (spec.said_now statement reply)) }
    ensures err { IfErr result (λ back. (back.0 ≡ said) × (Some back.1 ≡ statement)) }
{
    let mut said = said;
    match statement {
        None => Ok(said),
        Some(statement) => match said.push(Said { statement, reply }) {
            Ok(()) => Ok(said),
            Err(back) => Err((said, back.statement)),
        },
    }
}

/// The statement of a transaction inside BEGIN was answered this.
fn hears(records: RecordList, live: Live, reply: Twin) -> Moved
    ensures { Either (spec.hears records live reply) (spec.starve records live) result }
{
    let (for_record, told) = reply.parts();
    let Live {
        label,
        kind,
        small,
        mem,
        store,
        wrote_mem,
        wrote_store,
        said,
        statement,
        selected,
        passed,
        drew_mem,
        drew_store,
        room,
    } = live;
    match kept(said, statement, for_record) {
        Ok(said) => Moved {
            records,
            at: At::Inside(Live {
                label,
                kind,
                small,
                mem,
                store,
                wrote_mem,
                wrote_store,
                said,
                statement: None,
                selected,
                passed,
                drew_mem,
                drew_store,
                room,
            }),
            turn: Turn::Said(told),
        },
        Err((said, statement)) => starve(
            records,
            Live {
                label,
                kind,
                small,
                mem,
                store,
                wrote_mem,
                wrote_store,
                said,
                statement: Some(statement),
                selected,
                passed,
                drew_mem,
                drew_store,
                room,
            },
        ),
    }
}

/// The statement was answered this.
#[tactic(auto, unfolding(crate::specs::Moving::say))]
pub(crate) fn say(records: RecordList, live: Live, reply: Twin) -> Moved
    ensures { Either (spec.say records live reply) (spec.starve records live) result }
{
    if live.small {
        let well = goes_well(reply.reply());
        return closes(records, live, reply, well);
    }
    hears(records, live, reply)
}

/// The next of these writes is put, the one at this index. Behind the last one comes the reply.
#[tactic(auto, unfolding(crate::specs::Moving::put_next))]
pub(crate) fn put_next(
    alloc: Global,
    records: RecordList,
    live: Live,
    engine: EngineName,
    writes: WriteList,
    done: usize,
    reply: Twin,
) -> Moved
    ensures { Either (spec.put_next records live engine writes done reply) (spec.starve records live) result }
{
    let wish = match writes.get(done) {
        None => return say(records, live, reply),
        Some(write) => put_wish(alloc, live.label, engine, write),
    };
    match wish {
        Ok(wish) => asks(records, live, Job::Put(engine, writes, done, reply), wish),
        Err(NoMemory) => starve(records, live),
    }
}

fn twin(alloc: Global, reply: Reply) -> Result<Twin, NoMemory>
    ensures { IfOk result (λ t. t ≡ reply) }
{
    let told = reply.copy(alloc)?;
    Ok(Twin::new(reply, told))
}

fn answer_of(
    alloc: Global,
    table: &Table,
    number: u16,
    statement: &Statement,
    rows: KeyedRows,
) -> Result<(Twin, WriteList), NoMemory>
    ensures reply { IfOk result (λ a. a.0 ≡ (comes_to_spec table.now.columns number statement.now rows).0) }
    ensures writes { IfOk result (λ a. a.1 ≡ (comes_to_spec table.now.columns number statement.now rows).1) }
{
    let (reply, writes) = comes_to(alloc, table, number, statement, rows)?;
    Ok((twin(alloc, reply)?, writes))
}

/// What the statement that is being answered comes to over these rows, where it names a table.
fn answer_now(
    alloc: Global,
    catalog: &Catalog,
    statement: &Option<Statement>,
    rows: KeyedRows,
) -> Result<Option<(Twin, WriteList)>, NoMemory>
    ensures { IfOk result (λ a. a ≡ spec.answer_now catalog.now statement.now rows) }
{
    match statement {
        None => Ok(None),
        Some(said) => match table_named(catalog, said) {
            None => Ok(None),
            Some((number, table)) => { Ok(Some(answer_of(alloc, table, number, said, rows)?)) }
        },
    }
}

/// The statement comes to something over the rows that were read.
pub(crate) fn rows_come(
    alloc: Global,
    catalog: &Catalog,
    records: RecordList,
    live: Live,
    engine: EngineName,
    rows: KeyedRows,
) -> Moved
    ensures { Either (spec.rows_come catalog.now records live engine rows) (spec.starve records live) result }
{
    match answer_now(alloc, catalog, &live.statement, rows) {
        Ok(Some((reply, writes))) => put_next(alloc, records, live, engine, writes, 0, reply),
        _ => starve(records, live),
    }
}

/// The read of the statement that is being answered: the engine, the number of the table, and the key, where it names a table.
fn read_now(
    alloc: Global,
    catalog: &Catalog,
    statement: &Option<Statement>,
) -> Result<Option<(EngineName, u16, Option<Value>)>, NoMemory>
    ensures { IfOk result (λ r. r ≡ spec.read_now catalog.now statement.now) }
{
    match statement {
        None => Ok(None),
        Some(said) => match table_named(catalog, said) {
            None => Ok(None),
            Some((number, table)) => {
                let key = key_read(alloc, table, said)?;
                Ok(Some((keeper_of(table.store), number, key)))
            }
        },
    }
}

fn ask_read(
    alloc: Global,
    records: RecordList,
    live: Live,
    engine: EngineName,
    table: u16,
    key: Option<Value>,
) -> Moved
    ensures { Either (spec.ask_read records live engine table key) (spec.starve records live) result }
{
    match read_wish(alloc, live.label, engine, table, &key) {
        Ok(wish) => asks(records, live, Job::Read(engine, table, key), wish),
        Err(NoMemory) => starve(records, live),
    }
}

/// The statement that is being answered reads its table.
pub(crate) fn read_for(alloc: Global, catalog: &Catalog, records: RecordList, live: Live) -> Moved
    ensures { Either (spec.read_for catalog.now records live) (spec.starve records live) result }
{
    match read_now(alloc, catalog, &live.statement) {
        Ok(Some((engine, table, key))) => ask_read(alloc, records, live, engine, table, key),
        _ => starve(records, live),
    }
}

/// A snapshot of the storage engine is selected, for a transaction over both.
fn ask_select(records: RecordList, live: Live) -> Moved
    ensures { result ≡ spec.ask_select records live }
{
    let a = number_or_none(live.mem);
    asks(
        records,
        live,
        Job::Select,
        Wish::Reg(RegistryCall::Select { a }),
    )
}

fn snapshot_of(live: &Live, engine: EngineName) -> Option<u32>
    ensures { result ≡ spec.snapshot_of live.now engine }
{
    match engine {
        EngineName::Mem => live.mem,
        EngineName::Store => live.store,
    }
}

/// The engine is opened where it is not open yet, and then the table is read.
fn open_or_read(
    alloc: Global,
    catalog: &Catalog,
    records: RecordList,
    live: Live,
    engine: EngineName,
) -> Moved
    ensures { Either (spec.open_or_read catalog.now records live (spec.snapshot_of live engine)) (spec.starve records live) result }
{
    match snapshot_of(&live, engine) {
        None => ask_select(records, live),
        Some(_) => read_for(alloc, catalog, records, live),
    }
}

/// What refuses the statement that is being answered, or the engine that it uses.
fn judged(
    catalog: &Catalog,
    kind: TxKind,
    statement: &Option<Statement>,
) -> Result<EngineName, ErrWord>
    ensures { result ≡ spec.judged catalog.now kind statement.now }
{
    match statement {
        None => Err(ErrWord::Memory),
        Some(said) => match table_named(catalog, said) {
            None => Err(ErrWord::Table),
            Some((_, table)) => match refusal(table, said) {
                Some(word) => Err(word),
                None => {
                    let engine = keeper_of(table.store);
                    if may_use(kind, engine) {
                        Ok(engine)
                    } else {
                        Err(ErrWord::Engine)
                    }
                }
            },
        },
    }
}

/// A statement inside a transaction.
pub(crate) fn inside(alloc: Global, catalog: &Catalog, records: RecordList, live: Live) -> Moved
    ensures { Either (spec.inside catalog.now records live) (spec.starve records live) result }
{
    match judged(catalog, live.kind, &live.statement) {
        Err(word) => say(records, live, refused(word)),
        Ok(engine) => open_or_read(alloc, catalog, records, live, engine),
    }
}
