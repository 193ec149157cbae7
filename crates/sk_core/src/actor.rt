//! What the machine keeps of one transaction.

ghost use Rattle.std.specs.Prelude.{◌≡◌, ◌&&◌, IfOk};
ghost use Rattle.sk_linked.specs.Reads.{snapshot_at};
ghost use Rattle.sk_linked.specs.State as state;
ghost use Rattle.sk_linked.specs.Traces.{drawn_at};
ghost use Rattle.sk_linked.specs.Plans as plans;
ghost use Rattle.sk_core.specs.Progress.{stage_of};

use crate::copies::{same_did, same_items};
use crate::marks::{Marks, none_marked, other};
use crate::progress::{Progress, behind, close_of, comes_next, draw_of, stamp_of, steps_of};
use sk_linked::{CoreRecord, DidList};
use sk_model::{Ending, EngineName, Entry, Label, PointList, Record, SaidList, StepName, TxKind};
use sk_rows::{Copies, List, NoMemory};
use std::alloc::Global;
use std::marker::Model;

/// A call of a transaction on one of the engines, with its reply.
#[derive(Drop)]
pub struct OwnCall {
    pub(crate) engine: EngineName,
    pub(crate) entry: Entry,
}

impl Model for OwnCall {
    ghost use Rattle.sk_model.specs.Talks.{OwnCall as AnyCall};

    ghost Value = { AnyCall };

    ghost view = { λ c. record { engine = c.engine; entry = c.entry } };
}

impl Copies for OwnCall {
    fn copy(&self, alloc: Global) -> Result<OwnCall, NoMemory> {
        Ok(OwnCall {
            engine: self.engine,
            entry: self.entry.copy(alloc)?,
        })
    }
}

/// One transaction: what is its own, the two counters when it began, the storage snapshot that it keeps or selected, the snapshots at
/// which it opened the engines, where it wrote, what it drew, where it is closed, how far it has come, and all that it did.
///
/// Contracts see the actor of the definitions.
#[derive(Drop)]
pub struct Actor {
    pub(crate) label: Label,
    pub(crate) kind: TxKind,
    pub(crate) seen_mem: u32,
    pub(crate) seen_store: u32,
    pub(crate) chosen: Option<u32>,
    pub(crate) opened_mem: Option<u32>,
    pub(crate) opened_store: Option<u32>,
    pub(crate) wrote: Marks,
    pub(crate) drew_mem: Option<u32>,
    pub(crate) drew_store: Option<u32>,
    pub(crate) shut: Marks,
    pub(crate) committed: bool,
    pub(crate) stage: Progress,
    pub(crate) ending: Ending,
    pub(crate) made: PointList,
    pub(crate) did: DidList,
    pub(crate) talk: List<OwnCall>,
}

impl Model for Actor {
    ghost use Rattle.sk_linked.specs.State.{Actor as AnyActor};
    ghost use Rattle.sk_core.specs.Progress.{stage_of};

    ghost Value = { AnyActor };

    ghost view = { λ r. record { label = r.label; kind = r.kind; seen = record { mem = r.seen_mem; store = r.seen_store }; chosen = r.chosen; opened = record { mem = r.opened_mem; store = r.opened_store }; wrote = r.wrote; drew = record { mem = r.drew_mem; store = r.drew_store }; shut = r.shut; committed = r.committed; stage = stage_of r.stage; ending = r.ending; made = r.made; did = r.did; talk = r.talk } };
}

impl Copies for Actor {
    fn copy(&self, alloc: Global) -> Result<Actor, NoMemory> {
        Ok(Actor {
            label: self.label,
            kind: self.kind,
            seen_mem: self.seen_mem,
            seen_store: self.seen_store,
            chosen: self.chosen,
            opened_mem: self.opened_mem,
            opened_store: self.opened_store,
            wrote: self.wrote,
            drew_mem: self.drew_mem,
            drew_store: self.drew_store,
            shut: self.shut,
            committed: self.committed,
            stage: self.stage.copy(alloc)?,
            ending: self.ending,
            made: same_items(alloc, self.made.as_slice())?,
            did: same_did(alloc, self.did.as_slice())?,
            talk: self.talk.copy(alloc)?,
        })
    }
}

pub(crate) fn is_cross(kind: TxKind) -> bool
    ensures { result ≡ plans.is_cross kind }
{
    match kind {
        TxKind::Cross => true,
        TxKind::Mem | TxKind::Store => false,
    }
}

impl Actor {
    /// Its snapshot of this engine, where it opened it.
    pub(crate) fn snapshot_at(&self, name: EngineName) -> Option<u32>
        ensures { result ≡ snapshot_at name self.now.opened }
    {
        match name {
            EngineName::Mem => self.opened_mem,
            EngineName::Store => self.opened_store,
        }
    }

    /// The number that it drew from this engine's counter.
    pub(crate) fn drawn_at(&self, name: EngineName) -> Option<u32>
        ensures { result ≡ drawn_at name self.now.drew }
    {
        match name {
            EngineName::Mem => self.drew_mem,
            EngineName::Store => self.drew_store,
        }
    }

    /// Whether it has drawn nothing and is not committed.
    pub(crate) fn is_undrawn(&self) -> bool
        ensures { result ≡ plans.is_undrawn self.now }
    {
        !self.committed && (!self.drew_mem.is_some() && !self.drew_store.is_some())
    }

    /// And it is closed nowhere.
    fn is_untouched(&self) -> bool
        ensures { result ≡ plans.is_untouched self.now }
    {
        self.is_undrawn() && (!self.shut.mem && !self.shut.store)
    }

    /// Whether it may read and write.
    pub(crate) fn is_free(&self) -> bool
        ensures { result ≡ plans.is_free self.now }
    {
        self.stage.is_running() && self.is_untouched()
    }

    /// Whether it opened the engine.
    pub(crate) fn is_opened(&self, name: EngineName) -> bool
        ensures { result ≡ plans.is_opened self.now name }
    {
        self.snapshot_at(name).is_some()
    }

    /// The commit steps that are left.
    pub(crate) fn todo(&self) -> &[StepName]
        ensures { result.now ≡ plans.todo self.now }
    {
        match &self.stage {
            Progress::Running => steps_of(self.wrote),
            Progress::Stepping(steps) => steps.as_slice(),
            Progress::Leaving | Progress::Over => &[],
        }
    }

    pub(crate) fn may_close(&self, name: EngineName) -> bool
        ensures { result ≡ plans.may_close self.now name }
    {
        comes_next(close_of(name), self.todo()) && (self.is_undrawn() && !self.shut.of(name))
    }

    /// The memory engine's number is drawn first.
    fn in_order(&self, name: EngineName) -> bool
        ensures { result ≡ plans.in_order self.now name }
    {
        match name {
            EngineName::Mem => !self.drew_store.is_some(),
            EngineName::Store => true,
        }
    }

    pub(crate) fn may_draw(&self, name: EngineName) -> bool
        ensures { result ≡ plans.may_draw self.now name }
    {
        (comes_next(draw_of(name), self.todo()) && self.in_order(name))
            && ((self.shut.of(name) && self.wrote.of(name))
                && (!self.committed && !self.drawn_at(name).is_some()))
    }

    pub(crate) fn may_check(&self) -> bool
        ensures { result ≡ plans.may_check self.now }
    {
        comes_next(StepName::Check, self.todo())
            && ((self.shut.mem && self.shut.store) && !self.committed)
    }

    pub(crate) fn may_stamp_now(&self, name: EngineName) -> bool
        ensures { result ≡ plans.may_stamp_now self.now name }
    {
        comes_next(stamp_of(name), self.todo()) && self.shut.of(name)
    }

    /// Whether it is committed by its point, or wrote this engine alone.
    pub(crate) fn may_stamp_in(&self, name: EngineName) -> bool
        ensures { result ≡ plans.may_stamp_in self.now name }
    {
        self.committed || (!self.drawn_at(other(name)).is_some() && !self.wrote.of(other(name)))
    }

    pub(crate) fn may_leave(&self) -> bool
        ensures { result ≡ plans.may_leave self.now }
    {
        !self.stage.is_over() && self.is_undrawn()
    }

    /// Its copy, over, with this ending.
    pub(crate) fn ended(&self, alloc: Global, ending: Ending) -> Result<Actor, NoMemory>
        ensures { IfOk result (λ r. r ≡ plans.ended ending self.now) }
    {
        let mut who = self.copy(alloc)?;
        who.stage = Progress::Over;
        who.shut = none_marked();
        who.ending = ending;
        Ok(who)
    }

    /// Its copy, one commit step further.
    pub(crate) fn stepped(&self, alloc: Global) -> Result<Actor, NoMemory>
        ensures { IfOk result (λ r. r ≡ plans.stepped self.now) }
    {
        let mut who = self.copy(alloc)?;
        who.stage = Progress::Stepping(same_items(alloc, behind(self.todo()))?);
        Ok(who)
    }

    /// Its record.
    pub(crate) fn record(&self, alloc: Global) -> Result<CoreRecord, NoMemory>
        ensures { IfOk result (λ r. r ≡ state.record_of self.now) }
    {
        Ok(CoreRecord {
            base: Record {
                label: self.label,
                kind: self.kind,
                mem: self.opened_mem,
                store: self.opened_store,
                said: SaidList::new(alloc),
                ending: self.ending,
                drew_mem: self.drew_mem,
                drew_store: self.drew_store,
                made: same_items(alloc, self.made.as_slice())?,
            },
            did: same_did(alloc, self.did.as_slice())?,
        })
    }
}
