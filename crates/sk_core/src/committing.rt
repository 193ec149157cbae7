//! The steps of a commit, and how a transaction leaves.

ghost use Rattle.std.specs.Prelude.{◌≡◌, [], IfOk, cond, is_some};
ghost use Rattle.sk_model.specs.declared.call.EngineCall.TheVariants as call;
ghost use Rattle.sk_model.specs.declared.call.EngineReply.TheVariants as reply;
ghost use Rattle.sk_weave.specs.declared.answer.DrawFault.TheVariants as fault;
ghost use Rattle.sk_linked.specs.Traces.{drawn_at};
ghost use Rattle.sk_linked.specs.Plans as plans;
ghost use Rattle.sk_core.specs.Progress.{stage_of};

use crate::actor::Actor;
use crate::copies::same_items;
use crate::marks::{none_marked, other};
use crate::now::Now;
use crate::plan::{Calls, Plan};
use crate::progress::{Progress, behind};
use crate::regs::{commit_point, drawn, last_of};
use sk_linked::CoreReply;
use sk_model::{Ending, EngineCall, EngineName, EngineReply, StepName};
use sk_rows::{Copies, List, NoMemory};
use sk_weave::DrawFault;
use std::alloc::Global;

fn close_done(
    alloc: Global,
    k: &Now,
    r: &Actor,
    name: EngineName,
    floor: u32,
) -> Result<Plan, NoMemory>
    ensures { IfOk result (λ p. Some p ≡ plans.close_plan k.now r.now name (reply.Number floor)) }
{
    let close = List::of_one(alloc, EngineCall::Close { tx: r.label })?;
    let mut who = r.stepped(alloc)?;
    who.shut = r.shut.with(name, true);
    Ok(Plan {
        reply: CoreReply::Number(floor),
        calls: Calls::only(alloc, name, close),
        regs: k.state.regs.copy(alloc)?,
        who,
    })
}

/// What a Close is to do.
pub(crate) fn close(
    alloc: Global,
    k: &Now,
    r: &Actor,
    name: EngineName,
) -> Result<Option<Plan>, NoMemory>
    ensures { IfOk result (λ p. p ≡ plans.close_plan k.now r.now name (plans.answer k.now name (call.Close r.now.label))) }
{
    match k.answer(alloc, name, &EngineCall::Close { tx: r.label })? {
        EngineReply::Number(floor) => Ok(Some(close_done(alloc, k, r, name, floor)?)),
        EngineReply::Done
        | EngineReply::Found(_)
        | EngineReply::Rows(_)
        | EngineReply::Commits(_)
        | EngineReply::Fault(_) => Ok(None),
    }
}

fn draw_done(alloc: Global, k: &Now, r: &Actor, name: EngineName, n: u32) -> Result<Plan, NoMemory>
    ensures { IfOk result (λ p. Some p ≡ plans.draw_plan k.now r.now name (Ok n)) }
{
    let mut who = r.stepped(alloc)?;
    match name {
        EngineName::Mem => who.drew_mem = Some(n),
        EngineName::Store => who.drew_store = Some(n),
    }
    Ok(Plan {
        reply: CoreReply::Number(n),
        calls: Calls::none(alloc),
        regs: k.state.regs.after_draw(alloc, name, k.floor_in(r, name))?,
        who,
    })
}

/// A drawn number is void; where none was drawn, the transaction is dropped.
fn voids(
    alloc: Global,
    k: &Now,
    r: &Actor,
    name: EngineName,
    number: Option<u32>,
) -> Result<List<EngineCall>, NoMemory>
    ensures { IfOk result (λ calls. calls ≡ plans.voids k.now r.now name number) }
{
    match number {
        Some(n) => List::of_one(alloc, EngineCall::Void { tx: r.label, n }),
        None => k.drops(alloc, r, name),
    }
}

fn draw_spent(alloc: Global, k: &Now, r: &Actor, name: EngineName) -> Result<Plan, NoMemory>
    ensures { IfOk result (λ p. Some p ≡ plans.draw_plan k.now r.now name (Err fault.Spent)) }
{
    Ok(Plan {
        reply: CoreReply::Spent,
        calls: Calls {
            mem: voids(alloc, k, r, EngineName::Mem, r.drew_mem)?,
            store: voids(alloc, k, r, EngineName::Store, r.drew_store)?,
        },
        regs: k.state.regs.copy(alloc)?,
        who: r.ended(alloc, Ending::Spent)?,
    })
}

/// What a Draw is to do.
pub(crate) fn draw(
    alloc: Global,
    k: &Now,
    r: &Actor,
    name: EngineName,
) -> Result<Option<Plan>, NoMemory>
    ensures { IfOk result (λ p. p ≡ plans.draws k.now r.now name) }
{
    match drawn(k.state.regs.counter(name), k.floor_in(r, name))? {
        Ok(n) => Ok(Some(draw_done(alloc, k, r, name, n)?)),
        Err(DrawFault::Spent) => Ok(Some(draw_spent(alloc, k, r, name)?)),
        Err(DrawFault::Early { .. }) => Ok(None),
    }
}

fn check_plan(alloc: Global, k: &Now, r: &Actor, ca: u32, cb: u32) -> Result<Plan, NoMemory>
    ensures { IfOk result (λ p. p ≡ plans.check_plan k.now r.now ca cb) }
{
    if k.state.regs.passes(ca, cb) {
        let point = commit_point(ca, cb);
        let mut who = r.stepped(alloc)?;
        who.committed = true;
        who.ending = Ending::Committed;
        who.made.push(point)?;
        Ok(Plan {
            reply: CoreReply::Point(Some(point)),
            calls: Calls::none(alloc),
            regs: k.state.regs.after_check(alloc, ca, cb)?,
            who,
        })
    } else {
        let mem = List::of_one(alloc, EngineCall::Void { tx: r.label, n: ca })?;
        let store = List::of_one(alloc, EngineCall::Void { tx: r.label, n: cb })?;
        Ok(Plan {
            reply: CoreReply::CheckFailed(last_of(k.state.regs.points.as_slice())),
            calls: Calls { mem, store },
            regs: k.state.regs.copy(alloc)?,
            who: r.ended(alloc, Ending::CheckFailed)?,
        })
    }
}

/// What a Check is to do.
pub(crate) fn check(alloc: Global, k: &Now, r: &Actor) -> Result<Option<Plan>, NoMemory>
    ensures { IfOk result (λ p. p ≡ plans.checks k.now r.now r.now.drew.mem r.now.drew.store) }
{
    match (r.drew_mem, r.drew_store) {
        (Some(ca), Some(cb)) => Ok(Some(check_plan(alloc, k, r, ca, cb)?)),
        (Some(_), None) | (None, _) => Ok(None),
    }
}

/// How far a transaction is with these steps left.
fn stage_behind(alloc: Global, steps: &[StepName]) -> Result<Progress, NoMemory>
    ensures { IfOk result (λ s. stage_of s ≡ plans.stage_behind steps.now) }
{
    match steps {
        [] => Ok(Progress::Over),
        [_, ..] => Ok(Progress::Stepping(same_items(alloc, steps)?)),
    }
}

/// The calls that end an opening in an engine that was only read.
fn drops_unwritten(
    alloc: Global,
    k: &Now,
    r: &Actor,
    name: EngineName,
) -> Result<List<EngineCall>, NoMemory>
    ensures { IfOk result (λ calls. calls ≡ cond (is_some (drawn_at name r.now.drew)) [] (plans.drops k.now r.now name)) }
{
    if r.drawn_at(name).is_some() {
        Ok(List::new(alloc))
    } else {
        k.drops(alloc, r, name)
    }
}

fn stamp_plan(alloc: Global, k: &Now, r: &Actor, name: EngineName, n: u32) -> Result<Plan, NoMemory>
    ensures { IfOk result (λ p. p ≡ plans.stamp_plan k.now r.now name n) }
{
    let stamp = List::of_one(alloc, EngineCall::Stamp { tx: r.label, n })?;
    let drops = drops_unwritten(alloc, k, r, other(name))?;
    let mut who = r.copy(alloc)?;
    who.committed = true;
    who.ending = Ending::Committed;
    who.shut = if r.drawn_at(other(name)).is_some() {
        r.shut.with(name, false)
    } else {
        none_marked()
    };
    who.stage = stage_behind(alloc, behind(r.todo()))?;
    Ok(Plan {
        reply: CoreReply::Done,
        calls: Calls::on_both(name, stamp, drops),
        regs: k.state.regs.copy(alloc)?,
        who,
    })
}

/// What a Stamp is to do.
pub(crate) fn stamp(
    alloc: Global,
    k: &Now,
    r: &Actor,
    name: EngineName,
) -> Result<Option<Plan>, NoMemory>
    ensures { IfOk result (λ p. p ≡ plans.stamps k.now r.now name (drawn_at name r.now.drew)) }
{
    match r.drawn_at(name) {
        None => Ok(None),
        Some(n) => {
            if r.may_stamp_in(name) {
                Ok(Some(stamp_plan(alloc, k, r, name, n)?))
            } else {
                Ok(None)
            }
        }
    }
}

/// What a Leave is to do.
pub(crate) fn leave(alloc: Global, k: &Now, r: &Actor, name: EngineName) -> Result<Plan, NoMemory>
    ensures { IfOk result (λ p. p ≡ plans.leave_plan k.now r.now name) }
{
    let drop_it = List::of_one(alloc, EngineCall::DropTx { tx: r.label })?;
    let mut who = r.copy(alloc)?;
    who.stage = if k.table(other(name)).opening_of(r.label).is_some() {
        Progress::Leaving
    } else {
        Progress::Over
    };
    who.shut = none_marked();
    who.ending = Ending::RolledBack;
    Ok(Plan {
        reply: CoreReply::Done,
        calls: Calls::only(alloc, name, drop_it),
        regs: k.state.regs.copy(alloc)?,
        who,
    })
}
