//! The table that a statement names, and what it calls for.

ghost use Rattle.std.specs.Prelude.{◌≡◌, IfOk, IfSome, IfNone, Some, None};
ghost use Rattle.std.specs.Option.{option_copied};
ghost use Rattle.sk_model.specs.Asking as asking;
ghost use Rattle.sk_model.specs.Names.{columns_at};
ghost use Rattle.sk_session.specs.Moving as spec;

use sk_commit::{RegistryCall, Wish};
use sk_expr::target_table;
use sk_model::{Ending, EngineCall, EngineFault, EngineName, ErrWord, Label, Reply, TxKind, Write};
use sk_rows::{Begun, Catalog, Copies, NoMemory, Statement, Table, Value};
use std::alloc::Global;

pub(crate) fn keeper_of(stored: bool) -> EngineName
    ensures { result ≡ asking.keeper_of stored }
{
    if stored {
        EngineName::Store
    } else {
        EngineName::Mem
    }
}

/// Whether a transaction of this kind may use the engine.
pub(crate) fn may_use(kind: TxKind, engine: EngineName) -> bool
    ensures { result ≡ asking.may_use kind engine }
{
    match kind {
        TxKind::Cross => true,
        TxKind::Mem => matches!(engine, EngineName::Mem),
        TxKind::Store => matches!(engine, EngineName::Store),
    }
}

pub(crate) fn kind_begun(begun: Begun) -> TxKind
    ensures { result ≡ asking.kind_begun begun }
{
    match begun {
        Begun::Cross => TxKind::Cross,
        Begun::Mem => TxKind::Mem,
        Begun::Store => TxKind::Store,
    }
}

/// The engine that a transaction opens as it begins.
pub(crate) fn first_engine(kind: TxKind) -> EngineName
    ensures { result ≡ asking.first_engine kind }
{
    match kind {
        TxKind::Cross | TxKind::Mem => EngineName::Mem,
        TxKind::Store => EngineName::Store,
    }
}

/// The kind of a transaction over one engine.
pub(crate) fn engine_kind(engine: EngineName) -> TxKind
    ensures { result ≡ spec.engine_kind engine }
{
    match engine {
        EngineName::Mem => TxKind::Mem,
        EngineName::Store => TxKind::Store,
    }
}

/// What a statement is answered where an engine refused a call of it.
pub(crate) fn fault_reply(engine: EngineName, fault: EngineFault) -> Reply
    ensures { result ≡ asking.fault_reply engine fault }
{
    match fault {
        EngineFault::Old { snapshot, horizon } => Reply::Old {
            engine,
            snapshot,
            horizon,
        },
        EngineFault::Busy { by } => Reply::Busy { by },
        EngineFault::Conflict { by, why } => Reply::Conflict { by, why },
        EngineFault::Device => Reply::Refused(ErrWord::Device),
        EngineFault::NoMemory => Reply::Refused(ErrWord::Memory),
    }
}

pub(crate) fn fault_ending(fault: EngineFault) -> Ending
    ensures { result ≡ spec.fault_ending fault }
{
    match fault {
        EngineFault::Old { .. } => Ending::Old,
        EngineFault::Busy { .. } => Ending::RolledBack,
        EngineFault::Conflict { .. } => Ending::Conflict,
        EngineFault::Device => Ending::Device,
        EngineFault::NoMemory => Ending::NoMemory,
    }
}

/// A call of this engine.
pub(crate) fn on(engine: EngineName, call: EngineCall) -> Wish
    ensures { result ≡ spec.on engine call }
{
    match engine {
        EngineName::Mem => Wish::Mem(call),
        EngineName::Store => Wish::Store(call),
    }
}

/// The counter of this engine.
pub(crate) fn counter_wish(engine: EngineName) -> Wish
    ensures { result ≡ spec.counter_wish engine }
{
    match engine {
        EngineName::Mem => Wish::Reg(RegistryCall::Begin),
        EngineName::Store => Wish::Reg(RegistryCall::StoreNow),
    }
}

fn read_call(
    alloc: Global,
    tx: Label,
    table: u16,
    key: &Option<Value>,
) -> Result<EngineCall, NoMemory>
    ensures { IfOk result (λ c. c ≡ asking.read_call tx table key.now) }
{
    match key {
        None => Ok(EngineCall::Scan { tx, table }),
        Some(key) => Ok(EngineCall::Get {
            tx,
            table,
            key: key.copy(alloc)?,
        }),
    }
}

/// The read of a table, of one key or of all rows.
pub(crate) fn read_wish(
    alloc: Global,
    tx: Label,
    engine: EngineName,
    table: u16,
    key: &Option<Value>,
) -> Result<Wish, NoMemory>
    ensures { IfOk result (λ w. w ≡ spec.on engine (asking.read_call tx table key.now)) }
{
    Ok(on(engine, read_call(alloc, tx, table, key)?))
}

fn put_call(alloc: Global, tx: Label, write: &Write) -> Result<EngineCall, NoMemory>
    ensures { IfOk result (λ c. c ≡ asking.put_call tx write.now) }
{
    Ok(EngineCall::Put {
        tx,
        table: write.table,
        key: write.key.copy(alloc)?,
        row: write.row.copy(alloc)?,
    })
}

/// The put of a write.
pub(crate) fn put_wish(
    alloc: Global,
    tx: Label,
    engine: EngineName,
    write: &Write,
) -> Result<Wish, NoMemory>
    ensures { IfOk result (λ w. w ≡ spec.on engine (asking.put_call tx write.now)) }
{
    Ok(on(engine, put_call(alloc, tx, write)?))
}

#[tactic(auto, using(crate::proofs::Named::none_named))]
fn number_of(catalog: &Catalog, statement: &Statement) -> Option<u16>
    ensures { result ≡ asking.table_named catalog.now statement.now }
{
    match target_table(statement) {
        None => None,
        Some(name) => catalog.find(name),
    }
}

/// The table that a statement names, with its number.
#[tactic(auto, using(crate::proofs::Named::columns_are, crate::proofs::Named::keeper_is, crate::proofs::Named::is_there))]
pub(crate) fn table_named<'a>(
    catalog: &'a Catalog,
    statement: &Statement,
) -> Option<(u16, &'a Table)>
    ensures number { IfSome result (λ r. asking.table_named catalog.now statement.now ≡ Some r.0) }
    ensures columns { IfSome result (λ r. r.1.now.columns ≡ columns_at catalog.now r.0) }
    ensures keeper { IfSome result (λ r. asking.keeper_of r.1.now.store ≡ asking.keeper catalog.now r.0) }
    ensures none { IfNone result (asking.table_named catalog.now statement.now ≡ None) }
{
    let number = number_of(catalog, statement)?;
    match catalog.table(number) {
        None => None,
        Some(table) => Some((number, table)),
    }
}
