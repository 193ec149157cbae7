//! What each event makes of the state.

ghost use Rattle.std.specs.Prelude.{◌≡◌, IfOk};
ghost use Rattle.sk_linked.specs.declared.event.Event.TheVariants as event;
ghost use Rattle.sk_linked.specs.Machine as machine;
ghost use Rattle.sk_core.specs.Reopening.{CanWeave};

use crate::doing::{Next, for_label, not_now};
use crate::flush::{cut_next, flush_step, may_cut, purge_next};
use crate::now::Now;
use crate::regs::selection;
use crate::reopen::reopened;
use sk_linked::{CoreReply, Event};
use sk_rows::{Copies, NoMemory};
use std::alloc::Global;

fn cut(alloc: Global, k: &Now) -> Result<Next, NoMemory>
    ensures { IfOk result (λ n. n ≡ machine.live_step k.now event.Cut) }
{
    if may_cut(k.state.flush) {
        cut_next(alloc, k)
    } else {
        not_now(alloc, k)
    }
}

fn stop(alloc: Global, k: &Now) -> Result<Next, NoMemory>
    ensures { IfOk result (λ n. n ≡ machine.live_step k.now event.Stop) }
{
    let mut state = k.state.copy(alloc)?;
    state.stopped = true;
    Ok(Next {
        state,
        reply: CoreReply::Done,
    })
}

/// An event while the machine runs.
fn live_step(alloc: Global, k: &Now, happens: &Event) -> Result<Next, NoMemory>
    ensures { IfOk result (λ n. n ≡ machine.live_step k.now happens.now) }
{
    match happens {
        Event::Begin { tx, kind: _ } => for_label(alloc, k, *tx, happens),
        Event::Select { tx } => for_label(alloc, k, *tx, happens),
        Event::OpenStore { tx } => for_label(alloc, k, *tx, happens),
        Event::Read {
            tx,
            table: _,
            key: _,
        } => for_label(alloc, k, *tx, happens),
        Event::Put { tx, write: _ } => for_label(alloc, k, *tx, happens),
        Event::Close { tx, engine: _ } => for_label(alloc, k, *tx, happens),
        Event::Draw { tx, engine: _ } => for_label(alloc, k, *tx, happens),
        Event::Check { tx } => for_label(alloc, k, *tx, happens),
        Event::Stamp { tx, engine: _ } => for_label(alloc, k, *tx, happens),
        Event::Leave { tx, engine: _ } => for_label(alloc, k, *tx, happens),
        Event::Cut => cut(alloc, k),
        Event::FlushStep => flush_step(alloc, k),
        Event::Purge { engine } => purge_next(alloc, k, *engine),
        Event::Stop => stop(alloc, k),
        Event::Reopen => not_now(alloc, k),
    }
}

fn reopen(alloc: Global, k: &Now) -> Result<Next, NoMemory>
    requires { CanWeave k.now }
    ensures { IfOk result (λ n. n ≡ machine.stopped_step k.now event.Reopen) }
{
    let cut = selection(k.state.durable.a, k.state.durable.b);
    Ok(Next {
        state: reopened(alloc, &k.state)?,
        reply: CoreReply::Point(Some(cut)),
    })
}

/// After a stop the machine only opens again.
fn stopped_step(alloc: Global, k: &Now, happens: &Event) -> Result<Next, NoMemory>
    requires { CanWeave k.now }
    ensures { IfOk result (λ n. n ≡ machine.stopped_step k.now happens.now) }
{
    match happens {
        Event::Reopen => reopen(alloc, k),
        Event::Begin { .. }
        | Event::Select { .. }
        | Event::OpenStore { .. }
        | Event::Read { .. }
        | Event::Put { .. }
        | Event::Close { .. }
        | Event::Draw { .. }
        | Event::Check { .. }
        | Event::Stamp { .. }
        | Event::Leave { .. }
        | Event::Cut
        | Event::FlushStep
        | Event::Purge { .. }
        | Event::Stop => not_now(alloc, k),
    }
}

/// What an event makes of the state.
pub(crate) fn next(alloc: Global, k: &Now, happens: &Event) -> Result<Next, NoMemory>
    requires { CanWeave k.now }
    ensures { IfOk result (λ n. n ≡ machine.step k.now happens.now) }
{
    if k.state.stopped {
        stopped_step(alloc, k, happens)
    } else {
        live_step(alloc, k, happens)
    }
}
