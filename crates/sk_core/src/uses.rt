//! How a transaction reads and writes.

ghost use Rattle.std.specs.Prelude.{◌≡◌, IfOk};
ghost use Rattle.sk_model.specs.declared.call.EngineReply.TheVariants as reply;
ghost use Rattle.sk_linked.specs.Plans as plans;

use crate::actor::Actor;
use crate::marks::other;
use crate::now::Now;
use crate::plan::{Calls, Plan};
use sk_linked::CoreReply;
use sk_model::{Ending, EngineCall, EngineFault, EngineName, EngineReply, KeyedRows, Label, Write};
use sk_rows::{Copies, List, NoMemory, Row, Value};
use std::alloc::Global;

fn read_call(
    alloc: Global,
    tx: Label,
    table: u16,
    key: &Option<Value>,
) -> Result<EngineCall, NoMemory>
    ensures { IfOk result (λ c. c ≡ plans.read_call tx table key.now) }
{
    match key {
        None => Ok(EngineCall::Scan { tx, table }),
        Some(key) => Ok(EngineCall::Get {
            tx,
            table,
            key: key.copy(alloc)?,
        }),
    }
}

/// The rows of a key, of which there is one or none.
fn found_rows(alloc: Global, key: &Option<Value>, row: Option<Row>) -> Result<KeyedRows, NoMemory>
    ensures { IfOk result (λ rows. rows ≡ plans.found_rows key.now row) }
{
    let mut rows = KeyedRows::new(alloc);
    match (key, row) {
        (Some(key), Some(row)) => {
            rows.push((key.copy(alloc)?, row))?;
            Ok(rows)
        }
        (Some(_), None) | (None, _) => Ok(rows),
    }
}

fn reads(
    alloc: Global,
    r: &Actor,
    k: &Now,
    name: EngineName,
    call: EngineCall,
    said: CoreReply,
) -> Result<Plan, NoMemory>
    ensures { IfOk result (λ p. p ≡ plans.reads r.now k.now name call said) }
{
    Ok(Plan {
        reply: said,
        calls: Calls::only(alloc, name, List::of_one(alloc, call)?),
        regs: k.state.regs.copy(alloc)?,
        who: r.copy(alloc)?,
    })
}

fn read_plan(
    alloc: Global,
    k: &Now,
    r: &Actor,
    name: EngineName,
    key: &Option<Value>,
    call: EngineCall,
    answered: EngineReply,
) -> Result<Option<Plan>, NoMemory>
    ensures { IfOk result (λ p. p ≡ plans.read_plan k.now r.now name key.now call answered) }
{
    match answered {
        EngineReply::Found(row) => {
            let rows = found_rows(alloc, key, row)?;
            Ok(Some(reads(alloc, r, k, name, call, CoreReply::Rows(rows))?))
        }
        EngineReply::Rows(rows) => {
            Ok(Some(reads(alloc, r, k, name, call, CoreReply::Rows(rows))?))
        }
        EngineReply::Fault(fault) => Ok(Some(reads(
            alloc,
            r,
            k,
            name,
            call,
            CoreReply::Refused(fault),
        )?)),
        EngineReply::Done | EngineReply::Number(_) | EngineReply::Commits(_) => Ok(None),
    }
}

/// What a Read is to do in the engine that keeps the table.
pub(crate) fn read(
    alloc: Global,
    k: &Now,
    r: &Actor,
    table: u16,
    key: &Option<Value>,
) -> Result<Option<Plan>, NoMemory>
    ensures { IfOk result (λ p. p ≡ plans.read_plan k.now r.now (plans.engine_of k.now table) key.now (plans.read_call r.now.label table key.now) (plans.answer k.now (plans.engine_of k.now table) (plans.read_call r.now.label table key.now))) }
{
    let name = k.engine_of(table);
    let call = read_call(alloc, r.label, table, key)?;
    let answered = k.answer(alloc, name, &call)?;
    read_plan(alloc, k, r, name, key, call, answered)
}

fn put_call(alloc: Global, tx: Label, write: &Write) -> Result<EngineCall, NoMemory>
    ensures { IfOk result (λ c. c ≡ plans.put_call tx write.now) }
{
    Ok(EngineCall::Put {
        tx,
        table: write.table,
        key: write.key.copy(alloc)?,
        row: write.row.copy(alloc)?,
    })
}

fn put_done(
    alloc: Global,
    k: &Now,
    r: &Actor,
    name: EngineName,
    write: &Write,
) -> Result<Plan, NoMemory>
    ensures { IfOk result (λ p. Some p ≡ plans.put_plan k.now r.now name write.now reply.Done) }
{
    let put = put_call(alloc, r.label, write)?;
    let mut who = r.copy(alloc)?;
    who.wrote = r.wrote.with(name, true);
    Ok(Plan {
        reply: CoreReply::Done,
        calls: Calls::only(alloc, name, List::of_one(alloc, put)?),
        regs: k.state.regs.copy(alloc)?,
        who,
    })
}

fn put_refused(
    alloc: Global,
    k: &Now,
    r: &Actor,
    name: EngineName,
    write: &Write,
    fault: EngineFault,
) -> Result<Plan, NoMemory>
    ensures { IfOk result (λ p. Some p ≡ plans.put_plan k.now r.now name write.now (reply.Fault fault)) }
{
    let put = put_call(alloc, r.label, write)?;
    let mut calls = List::of_one(alloc, put)?;
    calls.push(EngineCall::DropTx { tx: r.label })?;
    let drops = k.drops(alloc, r, other(name))?;
    Ok(Plan {
        reply: CoreReply::Refused(fault),
        calls: Calls::on_both(name, calls, drops),
        regs: k.state.regs.copy(alloc)?,
        who: r.ended(alloc, Ending::Conflict)?,
    })
}

fn put_plan(
    alloc: Global,
    k: &Now,
    r: &Actor,
    name: EngineName,
    write: &Write,
    answered: &EngineReply,
) -> Result<Option<Plan>, NoMemory>
    ensures { IfOk result (λ p. p ≡ plans.put_plan k.now r.now name write.now answered.now) }
{
    match answered {
        EngineReply::Done => Ok(Some(put_done(alloc, k, r, name, write)?)),
        EngineReply::Fault(fault) => { Ok(Some(put_refused(alloc, k, r, name, write, *fault)?)) }
        EngineReply::Found(_)
        | EngineReply::Rows(_)
        | EngineReply::Number(_)
        | EngineReply::Commits(_) => Ok(None),
    }
}

/// What a Put is to do in the engine that keeps the table.
pub(crate) fn put(
    alloc: Global,
    k: &Now,
    r: &Actor,
    write: &Write,
) -> Result<Option<Plan>, NoMemory>
    ensures { IfOk result (λ p. p ≡ plans.put_plan k.now r.now (plans.engine_of k.now write.now.table) write.now (plans.answer k.now (plans.engine_of k.now write.now.table) (plans.put_call r.now.label write.now))) }
{
    let name = k.engine_of(write.table);
    let call = put_call(alloc, r.label, write)?;
    let answered = k.answer(alloc, name, &call)?;
    put_plan(alloc, k, r, name, write, &answered)
}
