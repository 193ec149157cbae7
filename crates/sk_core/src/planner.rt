//! What each event of a transaction is to do.

ghost use Rattle.std.specs.Prelude.{◌≡◌, ◌&&◌, not, IfOk, ◌≤◌, length};
ghost use Rattle.std.specs.Option.{option_copied};
ghost use Rattle.std.specs.List.{filter, list_any};
ghost use Rattle.sk_model.specs.Records.{same_label};
ghost use Rattle.sk_linked.specs.declared.event.Event.TheVariants as event;
ghost use Rattle.sk_linked.specs.Plans as plans;

use crate::actor::{Actor, is_cross};
use crate::committing::{check, close, draw, leave, stamp};
use crate::now::Now;
use crate::plan::Plan;
use crate::starts::{begin_plan, opens_store, selects};
use crate::uses::{put, read};
use sk_linked::Event;
use sk_model::{Label, TxKind};
use sk_rows::NoMemory;
use std::alloc::Global;

/// What the event is to do for the transaction that it names.
fn plan_for(alloc: Global, k: &Now, r: &Actor, happens: &Event) -> Result<Option<Plan>, NoMemory>
    ensures { IfOk result (λ p. p ≡ plans.plan_for k.now r.now happens.now) }
{
    match happens {
        Event::Select { tx: _ } => {
            if r.is_free() && is_cross(r.kind) {
                selects(alloc, k, r)
            } else {
                Ok(None)
            }
        }
        Event::OpenStore { tx: _ } => {
            if r.is_free() {
                opens_store(alloc, k, r)
            } else {
                Ok(None)
            }
        }
        Event::Read { tx: _, table, key } => {
            if r.is_free() && r.is_opened(k.engine_of(*table)) {
                read(alloc, k, r, *table, key)
            } else {
                Ok(None)
            }
        }
        Event::Put { tx: _, write } => {
            if r.is_free() && r.is_opened(k.engine_of(write.table)) {
                put(alloc, k, r, write)
            } else {
                Ok(None)
            }
        }
        Event::Close { tx: _, engine } => {
            if r.may_close(*engine) {
                close(alloc, k, r, *engine)
            } else {
                Ok(None)
            }
        }
        Event::Draw { tx: _, engine } => {
            if r.may_draw(*engine) {
                draw(alloc, k, r, *engine)
            } else {
                Ok(None)
            }
        }
        Event::Check { tx: _ } => {
            if r.may_check() {
                check(alloc, k, r)
            } else {
                Ok(None)
            }
        }
        Event::Stamp { tx: _, engine } => {
            if r.may_stamp_now(*engine) {
                stamp(alloc, k, r, *engine)
            } else {
                Ok(None)
            }
        }
        Event::Leave { tx: _, engine } => {
            if r.may_leave() {
                Ok(Some(leave(alloc, k, r, *engine)?))
            } else {
                Ok(None)
            }
        }
        Event::Begin { .. }
        | Event::Cut
        | Event::FlushStep
        | Event::Purge { .. }
        | Event::Stop
        | Event::Reopen => Ok(None),
    }
}

/// The transaction of a label, where it is there.
pub(crate) fn actor_in(tx: Label, actors: &[Actor]) -> Option<&Actor>
    ensures { option_copied result ≡ plans.actor_in tx actors.now }
{
    for actor in actors {
        if same_label(tx, actor.label) {
            return Some(actor);
        }
    }
    None
}

/// Whether two labels are one.
pub(crate) fn same_label(x: Label, y: Label) -> bool
    ensures { result ≡ same_label x y }
{
    x.session == y.session && x.k == y.k
}

/// Whether some transaction of the label's session is live.
fn is_session_live(tx: Label, actors: &[Actor]) -> bool
    ensures { result ≡ list_any (λ r. plans.of_session tx r && not (plans.is_over r.stage)) actors.now }
{
    for actor in actors {
        if actor.label.session == tx.session && !actor.stage.is_over() {
            return true;
        }
    }
    false
}

/// How many transactions the label's session has had.
fn count_of_session(tx: Label, actors: &[Actor]) -> usize
    ensures count { result ≡ length (filter (plans.of_session tx) actors.now) }
    ensures within { result ≤ length actors.now }
{
    let mut count: usize = 0;
    for actor in actors {
        if actor.label.session == tx.session {
            count += 1;
        }
    }
    count
}

/// Whether the label is its session's next, and no transaction of that session is live.
fn is_next(tx: Label, actors: &[Actor]) -> bool
    ensures { result ≡ plans.is_next tx actors.now }
{
    !is_session_live(tx, actors) && tx.k as usize == count_of_session(tx, actors) + 1
}

/// What a Begin is to do, where its label is there for nobody.
fn begin_new(alloc: Global, k: &Now, tx: Label, kind: TxKind) -> Result<Option<Plan>, NoMemory>
    ensures { IfOk result (λ p. p ≡ plans.plan_new k.now (event.Begin tx kind)) }
{
    if is_next(tx, k.state.actors.as_slice()) {
        begin_plan(alloc, k, tx, kind)
    } else {
        Ok(None)
    }
}

/// For a label that is not there, a Begin alone does something.
fn plan_new(alloc: Global, k: &Now, happens: &Event) -> Result<Option<Plan>, NoMemory>
    ensures { IfOk result (λ p. p ≡ plans.plan_new k.now happens.now) }
{
    match happens {
        Event::Begin { tx, kind } => begin_new(alloc, k, *tx, *kind),
        Event::Select { .. }
        | Event::OpenStore { .. }
        | Event::Read { .. }
        | Event::Put { .. }
        | Event::Close { .. }
        | Event::Draw { .. }
        | Event::Check { .. }
        | Event::Stamp { .. }
        | Event::Leave { .. }
        | Event::Cut
        | Event::FlushStep
        | Event::Purge { .. }
        | Event::Stop
        | Event::Reopen => Ok(None),
    }
}

/// What the event of this label's transaction is to do.
pub(crate) fn plan(
    alloc: Global,
    k: &Now,
    tx: Label,
    happens: &Event,
) -> Result<Option<Plan>, NoMemory>
    ensures { IfOk result (λ p. p ≡ plans.plan_with k.now (plans.actor_in tx k.now.actors) happens.now) }
{
    match actor_in(tx, k.state.actors.as_slice()) {
        None => plan_new(alloc, k, happens),
        Some(actor) => plan_for(alloc, k, actor, happens),
    }
}
