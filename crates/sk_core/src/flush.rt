//! A flush, and a purge.

ghost use Rattle.std.specs.Prelude.{◌≡◌, IfOk, Some, None, true};
ghost use Rattle.sk_model.specs.declared.engine.EngineName.TheVariants as name;
ghost use Rattle.sk_model.specs.declared.call.EngineCall.TheVariants as call;
ghost use Rattle.sk_linked.specs.declared.event.CoreReply.TheVariants as reply;
ghost use Rattle.sk_linked.specs.Reads.{number_at};
ghost use Rattle.sk_linked.specs.Machine as machine;

use crate::actor::Actor;
use crate::doing::{Next, not_now};
use crate::now::{Now, store_table};
use crate::planner::same_label;
use crate::regs::greatest_within;
use crate::state::{Flush, State};
use sk_linked::CoreReply;
use sk_model::{EngineCall, EngineName, Entry, Label, Point};
use sk_rows::{Copies, List, NoMemory};
use std::alloc::Global;

/// The number of this engine.
pub(crate) fn number_at(name: EngineName, point: Point) -> u32
    ensures { result ≡ number_at name point }
{
    match name {
        EngineName::Mem => point.a,
        EngineName::Store => point.b,
    }
}

/// The state after a call of no transaction.
fn called(alloc: Global, k: &Now, name: EngineName, call: EngineCall) -> Result<State, NoMemory>
    ensures { IfOk result (λ s. s ≡ machine.called k.now name call) }
{
    let reply = k.answer(alloc, name, &call)?;
    let mut state = k.state.copy(alloc)?;
    let entry = Entry { call, reply };
    match name {
        EngineName::Mem => {
            state.mem.push(entry)?;
            Ok(state)
        }
        EngineName::Store => {
            state.store.push(entry)?;
            Ok(state)
        }
    }
}

/// The state after both engines were asked for their horizons.
fn asked(alloc: Global, k: &Now) -> Result<State, NoMemory>
    ensures { IfOk result (λ s. s ≡ machine.called (machine.called k.now name.Mem call.Horizon) name.Store call.Horizon) }
{
    let mem = k.answer(alloc, EngineName::Mem, &EngineCall::Horizon)?;
    let store = k.answer(alloc, EngineName::Store, &EngineCall::Horizon)?;
    let mut state = k.state.copy(alloc)?;
    state.mem.push(Entry {
        call: EngineCall::Horizon,
        reply: mem,
    })?;
    state.store.push(Entry {
        call: EngineCall::Horizon,
        reply: store,
    })?;
    Ok(state)
}

fn is_upto_cut(number: Option<u32>, n: u32) -> bool
    ensures { result ≡ machine.is_upto_cut number n }
{
    match number {
        None => true,
        Some(m) => m <= n,
    }
}

/// Whether the cut is past neither what the transaction saw nor what it drew.
fn is_covered(cut: Point, actor: &Actor) -> bool
    ensures { result ≡ machine.is_covered cut actor.now }
{
    (is_upto_cut(actor.opened_mem, cut.a) && is_upto_cut(actor.drew_mem, cut.a))
        && (is_upto_cut(actor.opened_store, cut.b) && is_upto_cut(actor.drew_store, cut.b))
}

fn covers(actors: &[Actor], cut: Point, tx: Label) -> bool
    ensures { result ≡ machine.covers actors.now cut tx }
{
    for actor in actors {
        if same_label(tx, actor.label) && is_covered(cut, actor) {
            return true;
        }
    }
    false
}

/// Who waits still, where a cut is durable.
fn waiting(
    alloc: Global,
    actors: &[Actor],
    cut: Point,
    queue: &[Label],
) -> Result<List<Label>, NoMemory>
    ensures { IfOk result (λ list. list ≡ machine.waiting actors.now cut queue.now) }
{
    let mut out = List::new(alloc);
    for tx in queue {
        if !covers(actors, cut, *tx) {
            out.push(*tx)?;
        }
    }
    Ok(out)
}

/// The state with no flush, where this cut is durable.
fn settled(alloc: Global, state: State, cut: Point) -> Result<State, NoMemory>
    ensures { IfOk result (λ s. s ≡ record state { flush = None; queue = machine.waiting state.actors cut state.queue }) }
{
    let mut state = state;
    state.flush = None;
    state.queue = waiting(alloc, state.actors.as_slice(), cut, state.queue.as_slice())?;
    Ok(state)
}

/// How many calls on the device a flush to this cut makes.
fn device_calls(alloc: Global, state: &State, cut: Point) -> Result<u32, NoMemory>
    ensures { IfOk result (λ n. n ≡ machine.device_calls state.now cut) }
{
    let table = store_table(alloc, state)?;
    let commits = table.commits_between(alloc, state.durable.b, cut.b)?;
    match commits.as_slice() {
        [] => Ok(4),
        [_, ..] => Ok(6),
    }
}

fn is_greater(cut: Point, durable: Point) -> bool
    ensures { result ≡ machine.is_greater cut durable }
{
    !(cut.a <= durable.a && cut.b <= durable.b)
}

fn cut_found(alloc: Global, state: State, cut: Point) -> Result<Next, NoMemory>
    ensures { IfOk result (λ n. n ≡ machine.cut_taken state (Some cut)) }
{
    let reply = CoreReply::Point(Some(cut));
    let durable = state.durable;
    if is_greater(cut, durable) {
        let left = device_calls(alloc, &state, cut)?;
        let mut state = state;
        state.flush = Some(Flush {
            cut,
            left,
            begun: false,
        });
        Ok(Next { state, reply })
    } else {
        let state = settled(alloc, state, durable)?;
        Ok(Next { state, reply })
    }
}

fn no_cut(alloc: Global, state: State) -> Result<Next, NoMemory>
    ensures { IfOk result (λ n. n ≡ machine.cut_taken state None) }
{
    let durable = state.durable;
    Ok(Next {
        state: settled(alloc, state, durable)?,
        reply: CoreReply::Point(None),
    })
}

/// The cut of the two horizons.
fn cut_at(alloc: Global, state: State, x: u32, y: u32) -> Result<Next, NoMemory>
    ensures { IfOk result (λ n. n ≡ machine.cut_at state x y) }
{
    let regs = state.regs.after_cut(alloc, x, y)?;
    let cut = greatest_within(x, y, regs.live()?);
    let mut state = state;
    state.regs = regs;
    match cut {
        None => no_cut(alloc, state),
        Some(cut) => cut_found(alloc, state, cut),
    }
}

/// A flush finds its cut.
pub(crate) fn cut_next(alloc: Global, k: &Now) -> Result<Next, NoMemory>
    ensures { IfOk result (λ n. n ≡ machine.cut_next k.now) }
{
    let x = k.table(EngineName::Mem).horizon_of()?;
    let y = k.table(EngineName::Store).horizon_of()?;
    let state = asked(alloc, k)?;
    let next = cut_at(alloc, state, x, y)?;
    Ok(next)
}

pub(crate) fn may_cut(flush: Option<Flush>) -> bool
    ensures { result ≡ machine.may_cut flush }
{
    match flush {
        None => true,
        Some(flush) => !flush.begun,
    }
}

/// The last call on the device: the cut is durable.
fn flush_ended(alloc: Global, k: &Now, cut: Point) -> Result<Next, NoMemory>
    ensures { IfOk result (λ n. n ≡ record { core = record k.now { durable = cut; flush = None; queue = machine.waiting k.now.actors cut k.now.queue }; reply = reply.Done }) }
{
    let mut state = settled(alloc, k.state.copy(alloc)?, cut)?;
    state.durable = cut;
    Ok(Next {
        state,
        reply: CoreReply::Done,
    })
}

/// A call on the device, and so many are left.
fn flush_goes_on(alloc: Global, k: &Now, cut: Point, left: u32) -> Result<Next, NoMemory>
    ensures { IfOk result (λ n. n ≡ record { core = record k.now { flush = Some (record { cut = cut; left = left; begun = true }) }; reply = reply.Done }) }
{
    let mut state = k.state.copy(alloc)?;
    state.flush = Some(Flush {
        cut,
        left,
        begun: true,
    });
    Ok(Next {
        state,
        reply: CoreReply::Done,
    })
}

#[tactic(auto, using(crate::proofs::FlushLeft::none_left, crate::proofs::FlushLeft::one_left, crate::proofs::FlushLeft::more_left))]
fn flushed(alloc: Global, k: &Now, flush: Flush) -> Result<Next, NoMemory>
    ensures { IfOk result (λ n. n ≡ machine.flushed k.now flush flush.left) }
{
    if flush.left == 0 {
        not_now(alloc, k)
    } else if flush.left == 1 {
        flush_ended(alloc, k, flush.cut)
    } else {
        flush_goes_on(alloc, k, flush.cut, flush.left - 1)
    }
}

/// The flush makes its next call on the device.
pub(crate) fn flush_step(alloc: Global, k: &Now) -> Result<Next, NoMemory>
    ensures { IfOk result (λ n. n ≡ machine.flush_step k.now k.now.flush) }
{
    match k.state.flush {
        None => not_now(alloc, k),
        Some(flush) => flushed(alloc, k, flush),
    }
}

/// An engine gives up what nobody needs.
pub(crate) fn purge_next(alloc: Global, k: &Now, name: EngineName) -> Result<Next, NoMemory>
    ensures { IfOk result (λ n. n ≡ machine.purge_next k.now name) }
{
    let oldest = k.state.regs.oldest()?;
    let upto = number_at(name, oldest).min(number_at(name, k.state.durable));
    let purged = k.table(name).purged_to(upto)?;
    Ok(Next {
        state: called(alloc, k, name, EngineCall::Purge { upto })?,
        reply: CoreReply::Number(purged),
    })
}
