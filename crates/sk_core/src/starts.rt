//! How a transaction begins, selects and opens.

ghost use Rattle.std.specs.Prelude.{◌≡◌, ◌++◌, IfOk};
ghost use Rattle.sk_model.specs.declared.engine.EngineName.TheVariants as name;
ghost use Rattle.sk_model.specs.declared.call.EngineCall.TheVariants as call;
ghost use Rattle.sk_model.specs.declared.call.EngineReply.TheVariants as reply;
ghost use Rattle.sk_linked.specs.Plans as plans;

use crate::actor::Actor;
use crate::marks::none_marked;
use crate::now::Now;
use crate::plan::{Calls, Plan};
use crate::progress::Progress;
use crate::regs::selection;
use sk_linked::CoreReply;
use sk_model::{
    Ending, EngineCall, EngineFault, EngineName, EngineReply, Label, Point, PointList, Recycled,
    TxKind,
};
use sk_rows::{Copies, List, NoMemory};
use sk_weave::Selected;
use std::alloc::Global;

/// A transaction that has just begun.
fn newcomer(
    alloc: Global,
    k: &Now,
    tx: Label,
    kind: TxKind,
    mem: Option<u32>,
    chosen: Option<u32>,
) -> Actor
    ensures { result ≡ plans.newcomer k.now tx kind mem chosen }
{
    Actor {
        label: tx,
        kind,
        seen_mem: k.state.regs.mem,
        seen_store: k.state.regs.store,
        chosen,
        opened_mem: mem,
        opened_store: None,
        wrote: none_marked(),
        drew_mem: None,
        drew_store: None,
        shut: none_marked(),
        committed: false,
        stage: Progress::Running,
        ending: Ending::Open,
        made: List::new(alloc),
        did: List::new(alloc),
        talk: List::new(alloc),
    }
}

/// The memory engine is opened at once.
fn begin_mem(
    alloc: Global,
    k: &Now,
    tx: Label,
    kind: TxKind,
    answered: &EngineReply,
) -> Result<Option<Plan>, NoMemory>
    ensures { IfOk result (λ p. p ≡ plans.begin_mem k.now tx kind answered.now) }
{
    let snapshot = k.state.regs.mem;
    match answered {
        EngineReply::Done => {
            let open = List::of_one(alloc, EngineCall::Open { tx, snapshot })?;
            Ok(Some(Plan {
                reply: CoreReply::Number(snapshot),
                calls: Calls::only(alloc, EngineName::Mem, open),
                regs: k.state.regs.copy(alloc)?,
                who: newcomer(alloc, k, tx, kind, Some(snapshot), None),
            }))
        }
        EngineReply::Found(_)
        | EngineReply::Rows(_)
        | EngineReply::Number(_)
        | EngineReply::Commits(_)
        | EngineReply::Fault(_) => Ok(None),
    }
}

fn begin_in_mem(alloc: Global, k: &Now, tx: Label, kind: TxKind) -> Result<Option<Plan>, NoMemory>
    ensures { IfOk result (λ p. p ≡ plans.begin_mem k.now tx kind (plans.answer k.now name.Mem (call.Open tx k.now.regs.mem))) }
{
    let open = EngineCall::Open {
        tx,
        snapshot: k.state.regs.mem,
    };
    let answered = k.answer(alloc, EngineName::Mem, &open)?;
    begin_mem(alloc, k, tx, kind, &answered)
}

/// What a Begin is to do.
pub(crate) fn begin_plan(
    alloc: Global,
    k: &Now,
    tx: Label,
    kind: TxKind,
) -> Result<Option<Plan>, NoMemory>
    ensures { IfOk result (λ p. p ≡ plans.begin_plan k.now tx kind) }
{
    match kind {
        TxKind::Cross => begin_in_mem(alloc, k, tx, TxKind::Cross),
        TxKind::Mem => begin_in_mem(alloc, k, tx, TxKind::Mem),
        TxKind::Store => Ok(Some(Plan {
            reply: CoreReply::Number(k.state.regs.store),
            calls: Calls::none(alloc),
            regs: k.state.regs.copy(alloc)?,
            who: newcomer(alloc, k, tx, TxKind::Store, None, Some(k.state.regs.store)),
        })),
    }
}

fn with_made(points: PointList, made: bool, point: Point) -> Result<PointList, NoMemory>
    ensures { IfOk result (λ ps. ps ≡ points ++ plans.made_if made point) }
{
    let mut points = points;
    if made {
        points.push(point)?;
        Ok(points)
    } else {
        Ok(points)
    }
}

fn select_done(alloc: Global, k: &Now, r: &Actor, a: u32, s: Selected) -> Result<Plan, NoMemory>
    ensures { IfOk result (λ p. p ≡ plans.select_plan k.now r.now a (Ok s)) }
{
    let mut who = r.copy(alloc)?;
    who.chosen = Some(s.b);
    let made = std::mem::replace(&mut who.made, List::new(alloc));
    who.made = with_made(made, s.made, selection(a, s.b))?;
    Ok(Plan {
        reply: CoreReply::Number(s.b),
        calls: Calls::none(alloc),
        regs: k.state.regs.after_selection(alloc, a)?,
        who,
    })
}

fn select_gone(alloc: Global, k: &Now, r: &Actor, a: u32, e: Recycled) -> Result<Plan, NoMemory>
    ensures { IfOk result (λ p. p ≡ plans.select_plan k.now r.now a (Err e)) }
{
    let drops = k.drops(alloc, r, EngineName::Mem)?;
    Ok(Plan {
        reply: CoreReply::Recycled(e),
        calls: Calls::only(alloc, EngineName::Mem, drops),
        regs: k.state.regs.copy(alloc)?,
        who: r.ended(alloc, Ending::Recycled)?,
    })
}

/// What a Select is to do.
pub(crate) fn selects(alloc: Global, k: &Now, r: &Actor) -> Result<Option<Plan>, NoMemory>
    ensures { IfOk result (λ p. p ≡ plans.selects k.now r.now r.now.opened.mem r.now.chosen) }
{
    match (r.opened_mem, r.chosen) {
        (Some(a), None) => match k.state.regs.selected(a)? {
            Ok(s) => Ok(Some(select_done(alloc, k, r, a, s)?)),
            Err(e) => Ok(Some(select_gone(alloc, k, r, a, e)?)),
        },
        (None, _) | (Some(_), Some(_)) => Ok(None),
    }
}

fn open_done(alloc: Global, k: &Now, r: &Actor, b: u32) -> Result<Plan, NoMemory>
    ensures { IfOk result (λ p. Some p ≡ plans.open_plan k.now r.now b reply.Done) }
{
    let open = List::of_one(
        alloc,
        EngineCall::Open {
            tx: r.label,
            snapshot: b,
        },
    )?;
    let mut who = r.copy(alloc)?;
    who.opened_store = Some(b);
    Ok(Plan {
        reply: CoreReply::Done,
        calls: Calls::only(alloc, EngineName::Store, open),
        regs: k.state.regs.copy(alloc)?,
        who,
    })
}

fn open_refused(
    alloc: Global,
    k: &Now,
    r: &Actor,
    b: u32,
    fault: EngineFault,
) -> Result<Plan, NoMemory>
    ensures { IfOk result (λ p. Some p ≡ plans.open_plan k.now r.now b (reply.Fault fault)) }
{
    let open = List::of_one(
        alloc,
        EngineCall::Open {
            tx: r.label,
            snapshot: b,
        },
    )?;
    Ok(Plan {
        reply: CoreReply::Refused(fault),
        calls: Calls {
            mem: k.drops(alloc, r, EngineName::Mem)?,
            store: open,
        },
        regs: k.state.regs.copy(alloc)?,
        who: r.ended(alloc, Ending::Old)?,
    })
}

fn open_plan(
    alloc: Global,
    k: &Now,
    r: &Actor,
    b: u32,
    answered: &EngineReply,
) -> Result<Option<Plan>, NoMemory>
    ensures { IfOk result (λ p. p ≡ plans.open_plan k.now r.now b answered.now) }
{
    match answered {
        EngineReply::Done => Ok(Some(open_done(alloc, k, r, b)?)),
        EngineReply::Fault(fault) => Ok(Some(open_refused(alloc, k, r, b, *fault)?)),
        EngineReply::Found(_)
        | EngineReply::Rows(_)
        | EngineReply::Number(_)
        | EngineReply::Commits(_) => Ok(None),
    }
}

/// What an OpenStore is to do.
pub(crate) fn opens_store(alloc: Global, k: &Now, r: &Actor) -> Result<Option<Plan>, NoMemory>
    ensures { IfOk result (λ p. p ≡ plans.opens_store k.now r.now r.now.chosen r.now.opened.store) }
{
    match (r.chosen, r.opened_store) {
        (Some(b), None) => {
            let open = EngineCall::Open {
                tx: r.label,
                snapshot: b,
            };
            let answered = k.answer(alloc, EngineName::Store, &open)?;
            open_plan(alloc, k, r, b, &answered)
        }
        (None, _) | (Some(_), Some(_)) => Ok(None),
    }
}
