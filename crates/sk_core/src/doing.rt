//! An event of a transaction is done.

ghost use Rattle.std.specs.Prelude.{◌≡◌, ◌++◌, IfOk, Some};
ghost use Rattle.sk_linked.specs.State.{of, table_of};
ghost use Rattle.sk_linked.specs.Machine as machine;
ghost use Rattle.sk_core.specs.Doing.{made_of, recorded_with, applied_with};

use crate::actor::{Actor, OwnCall};
use crate::copies::{same_event, same_reply};
use crate::now::Now;
use crate::plan::Plan;
use crate::planner::{plan, same_label};
use crate::regs::Regs;
use crate::state::State;
use sk_linked::{CoreReply, Did, Event};
use sk_model::{EngineCall, EngineName, Entry, Label};
use sk_rows::{Copies, List, NoMemory};
use sk_table::EngineTable;
use std::alloc::Global;
use std::marker::Model;
use std::mem::replace;

/// The state that an event leaves, and the reply.
#[derive(Drop)]
pub struct Next {
    pub(crate) state: State,
    pub(crate) reply: CoreReply,
}

impl Model for Next {
    ghost use Rattle.sk_linked.specs.Machine.{Next as AnyNext};

    ghost Value = { AnyNext };

    ghost view = { λ n. record { core = n.state; reply = n.reply } };
}

/// The entries that calls leave, one after another, where the condition of each holds when it is made.
fn made(
    alloc: Global,
    table: EngineTable,
    calls: &[EngineCall],
) -> Result<Option<List<Entry>>, NoMemory>
    ensures { IfOk result (λ o. o ≡ made_of table calls.now) }
{
    let mut after = table;
    let mut entries = List::new(alloc);
    for call in calls {
        if !after.may(call)? {
            return Ok(None);
        }
        let reply = after.due(alloc, call)?;
        let entry = Entry {
            call: call.copy(alloc)?,
            reply,
        };
        after = after.step(alloc, &entry)?;
        entries.push(entry)?;
    }
    Ok(Some(entries))
}

/// These entries, and the others behind them.
fn extended(entries: List<Entry>, more: List<Entry>) -> Result<List<Entry>, NoMemory>
    ensures { IfOk result (λ list. list ≡ entries ++ more) }
{
    let mut out = entries;
    let all = more.into_vec();
    for entry in all {
        out.push(entry)?;
    }
    Ok(out)
}

/// The talk with these calls on an engine behind it.
fn add_calls(
    alloc: Global,
    talk: List<OwnCall>,
    name: EngineName,
    entries: &[Entry],
) -> Result<List<OwnCall>, NoMemory>
    ensures { IfOk result (λ t. t ≡ talk ++ machine.calls_on name entries.now) }
{
    let mut talk = talk;
    for entry in entries {
        talk.push(OwnCall {
            engine: name,
            entry: entry.copy(alloc)?,
        })?;
    }
    Ok(talk)
}

/// The transaction, with the event and its reply, and with the calls that it made.
fn recorded(
    alloc: Global,
    happens: &Event,
    reply: &CoreReply,
    who: Actor,
    mem: &[Entry],
    store: &[Entry],
) -> Result<Actor, NoMemory>
    ensures { IfOk result (λ r. r ≡ recorded_with happens.now reply.now who mem.now store.now) }
{
    let mut who = who;
    who.did.push(Did {
        event: same_event(alloc, happens)?,
        reply: same_reply(alloc, reply)?,
    })?;
    let talk = replace(&mut who.talk, List::new(alloc));
    let talk = add_calls(alloc, talk, EngineName::Mem, mem)?;
    who.talk = add_calls(alloc, talk, EngineName::Store, store)?;
    Ok(who)
}

/// The transaction takes the place of the one with its label, or stands behind all.
fn put_actor(alloc: Global, actors: &[Actor], who: &Actor) -> Result<List<Actor>, NoMemory>
    ensures { IfOk result (λ list. list ≡ machine.put_actor who.now actors.now) }
{
    let mut out = List::new(alloc);
    let mut found = false;
    for actor in actors {
        if !found && same_label(who.label, actor.label) {
            out.push(who.copy(alloc)?)?;
            found = true;
        } else {
            out.push(actor.copy(alloc)?)?;
        }
    }
    if !found {
        out.push(who.copy(alloc)?)?;
    }
    Ok(out)
}

/// The state with this transaction, which waits for a durable cut where it is committed and over.
fn with_actor(alloc: Global, state: State, who: &Actor) -> Result<State, NoMemory>
    ensures { IfOk result (λ s. s ≡ record state { actors = machine.put_actor who.now state.actors; queue = machine.queued who.now state.queue }) }
{
    let mut state = state;
    state.actors = put_actor(alloc, state.actors.as_slice(), who)?;
    if who.committed && who.stage.is_over() {
        state.queue.push(who.label)?;
        Ok(state)
    } else {
        Ok(state)
    }
}

/// The state with these entries behind those of the journals, and with this registry.
fn with_entries(
    alloc: Global,
    state: State,
    regs: Regs,
    mem: List<Entry>,
    store: List<Entry>,
) -> Result<State, NoMemory>
    ensures { IfOk result (λ s. s ≡ record state { regs = regs; journals = record { mem = state.journals.mem ++ mem; store = state.journals.store ++ store } }) }
{
    let mut state = state;
    state.regs = regs;
    let old = replace(&mut state.mem, List::new(alloc));
    state.mem = extended(old, mem)?;
    let old = replace(&mut state.store, List::new(alloc));
    state.store = extended(old, store)?;
    Ok(state)
}

/// What a plan leaves, whose calls left these entries.
fn finished(
    alloc: Global,
    k: &Now,
    happens: &Event,
    plan: Plan,
    mem: List<Entry>,
    store: List<Entry>,
) -> Result<Next, NoMemory>
    ensures { IfOk result (λ n. n ≡ record { core = applied_with k.now happens.now plan mem store; reply = plan.reply }) }
{
    let Plan {
        reply,
        calls: _,
        regs,
        who,
    } = plan;
    let who = recorded(
        alloc,
        happens,
        &reply,
        who,
        mem.as_slice(),
        store.as_slice(),
    )?;
    let state = with_actor(alloc, k.state.copy(alloc)?, &who)?;
    let state = with_entries(alloc, state, regs, mem, store)?;
    Ok(Next { state, reply })
}

/// An event that is not lawful now: nothing changes.
pub(crate) fn not_now(alloc: Global, k: &Now) -> Result<Next, NoMemory>
    ensures { IfOk result (λ n. n ≡ machine.not_now k.now) }
{
    Ok(Next {
        state: k.state.copy(alloc)?,
        reply: CoreReply::NotNow,
    })
}

/// The entries that a plan's calls on an engine leave, where the condition of each holds when it is made.
fn entries_left(
    alloc: Global,
    k: &Now,
    plan: &Plan,
    name: EngineName,
) -> Result<Option<List<Entry>>, NoMemory>
    ensures { IfOk result (λ o. o ≡ made_of (table_of k.now name) (of name plan.now.calls)) }
{
    let table = k.own_table(alloc, name)?;
    match name {
        EngineName::Mem => made(alloc, table, plan.calls.mem.as_slice()),
        EngineName::Store => made(alloc, table, plan.calls.store.as_slice()),
    }
}

/// A plan is carried out, where the condition of each of its calls holds.
#[tactic(auto, using(crate::proofs::CarriedOut::mem_refused, crate::proofs::CarriedOut::store_refused, crate::proofs::CarriedOut::carried))]
fn carried_out(alloc: Global, k: &Now, happens: &Event, plan: Plan) -> Result<Next, NoMemory>
    ensures { IfOk result (λ n. n ≡ machine.taken k.now happens.now (Some plan)) }
{
    let mem = entries_left(alloc, k, &plan, EngineName::Mem)?;
    let store = entries_left(alloc, k, &plan, EngineName::Store)?;
    match mem {
        None => not_now(alloc, k),
        Some(mem) => match store {
            None => not_now(alloc, k),
            Some(store) => finished(alloc, k, happens, plan, mem, store),
        },
    }
}

/// An event of the transaction of this label.
pub(crate) fn for_label(
    alloc: Global,
    k: &Now,
    tx: Label,
    happens: &Event,
) -> Result<Next, NoMemory>
    ensures { IfOk result (λ n. n ≡ machine.for_label k.now tx happens.now) }
{
    match plan(alloc, k, tx, happens)? {
        None => not_now(alloc, k),
        Some(plan) => carried_out(alloc, k, happens, plan),
    }
}
