//! The machine.

ghost use Rattle.std.specs.Prelude.{◌≡◌, IfOk, OnErr, map};
ghost use Rattle.sk_weave.specs.RegistryLaws.{CanStart};
ghost use Rattle.sk_linked.specs.Reads.{AreSorted};
ghost use Rattle.sk_linked.specs.State.{core_at, record_of};
ghost use Rattle.sk_linked.specs.Machine.{step};
ghost use Rattle.sk_core.specs.Reachable.{IsReachable, Holds, IsStep, IsAnswered, IsRun};

use crate::doing::Next;
use crate::now::Now;
use crate::shown::{journal_of, records_of};
use crate::state::start_at;
use crate::turn::next;
use sk_linked::{CoreRecordList, CoreReply, Event};
use sk_model::{Journal, Point, PointList, Tables};
use sk_rows::{Catalog, Copies, List, NoMemory};
use std::alloc::Global;
use std::marker::Model;

/// Replies, in the order of their events.
pub type CoreReplyList = List<CoreReply>;

/// The state machine of a run over both engines.
///
/// It is made to be compared with: it has plain lists, and each step makes the next state from nothing, so that a step that wants memory
/// in vain changes nothing.
///
/// Contracts see the state of the definitions, which a run from some beginning leads to.
#[derive(Drop)]
pub struct Core {
    present: Now,
    mem: Journal,
    store: Journal,
    records: CoreRecordList,
    alloc: Global,
}

impl Model for Core {
    ghost use Rattle.sk_linked.specs.State.{Core as AnyCore};
    ghost use Rattle.sk_core.specs.Reachable.{IsReachable, IsShown};

    ghost Value = { AnyCore };

    ghost view = { λ c. c.present };

    ghost invariant = { λ c. IsShown c.present c.mem c.store c.records × IsReachable c.present };
}

/// The machine with this state, and what it hands out.
fn shown(alloc: Global, present: Now) -> Result<Core, NoMemory>
    requires { IsReachable present }
    ensures { IfOk result (λ c. c ≡ present) }
{
    let mem = journal_of(alloc, present.state.mem.as_slice())?;
    let store = journal_of(alloc, present.state.store.as_slice())?;
    let records = records_of(alloc, present.state.actors.as_slice())?;
    Ok(Core {
        present,
        mem,
        store,
        records,
        alloc,
    })
}

impl Core {
    /// The machine at the beginning of a run: with these rows, whose tables are in the order of their keys, and at this selection. The ring of points
    /// has so many partitions, of so many points each.
    pub fn new(
        alloc: Global,
        catalog: &Catalog,
        rows: &Tables,
        start: Point,
        partitions: u32,
        points: u32,
    ) -> Result<Core, NoMemory>
        requires can_start { CanStart partitions points start }
        requires sorted { AreSorted rows.now }
        ensures { IfOk result (λ c. c ≡ core_at catalog.now rows.now start partitions points) }
    {
        let rows = rows.copy(alloc)?;
        let state = start_at(alloc, catalog, rows, start, partitions, points)?;
        let present = Now::new(alloc, state)?;
        shown(alloc, present)
    }

    /// The journal of the memory engine.
    pub fn mem(&self) -> &Journal
        ensures { result.now ≡ self.now.journals.mem }
    {
        &self.mem
    }

    /// The journal of the storage engine.
    pub fn store(&self) -> &Journal
        ensures { result.now ≡ self.now.journals.store }
    {
        &self.store
    }

    /// All points of the run, the first one first.
    pub fn points(&self) -> &PointList
        ensures { result.now ≡ self.now.regs.points }
    {
        &self.present.state.regs.points
    }

    /// The records of this run, in the order in which their transactions began.
    pub fn records(&self) -> &CoreRecordList
        ensures { result.now ≡ map record_of self.now.actors }
    {
        &self.records
    }

    /// Some events led here from a beginning.
    fn is_reached(&self)
        ensures { IsReachable self.now }
    {
        // A value that is read has its invariant.
        let _alloc = self.alloc;
    }

    /// Whatever its events were, what the machine has kept is of one database with one list of commits. It does nothing.
    pub fn holds(&self)
        ensures { Holds self.now }
    {
        self.is_reached();
    }

    /// The machine after an event, and the reply.
    fn stepped(&self, event: &Event) -> Result<(Core, CoreReply), NoMemory>
        ensures { IfOk result (λ p. record { core = p.0; reply = p.1 } ≡ step self.now event.now) }
    {
        self.is_reached();
        let Next { state, reply } = next(self.alloc, &self.present, event)?;
        let present = Now::new(self.alloc, state)?;
        let core = shown(self.alloc, present)?;
        Ok((core, reply))
    }

    /// Takes an event. Want of memory changes nothing.
    fn try_step(&mut self, event: &Event) -> Result<CoreReply, NoMemory>
        ensures ok { IfOk result (λ r. record { core = self.new; reply = r } ≡ step self.old event.now) }
        ensures err { OnErr result (self.new ≡ self.old) }
    {
        let (core, reply) = self.stepped(event)?;
        *self = core;
        Ok(reply)
    }

    fn take(&mut self, event: &Event) -> CoreReply
        ensures { IsStep self.old event.now self.new result }
    {
        match self.try_step(event) {
            Ok(reply) => reply,
            Err(NoMemory) => CoreReply::NoMemory,
        }
    }

    /// Takes an event: `NotNow`, with nothing changed, where it is not the next lawful one of its actor; `NoMemory`, with nothing changed, where
    /// memory is wanted in vain; else what the event makes of the state, with its reply.
    pub fn step(&mut self, event: &Event) -> CoreReply
        ensures step { IsStep self.old event.now self.new result }
        ensures answered { IsAnswered self.old event.now self.new result }
    {
        self.is_reached();
        self.take(event)
    }

    fn take_all(&mut self, events: &[Event]) -> Result<CoreReplyList, NoMemory>
        ensures ok { IfOk result (λ replies. IsRun self.old events.now self.new replies) }
        ensures err { OnErr result (self.new ≡ self.old) }
    {
        let mut replies = Vec::with_capacity(self.alloc, events.len())?;
        for event in events {
            match self.try_step(event) {
                Ok(reply) => replies.push_reserved(reply),
                Err(NoMemory) => {
                    replies.push_reserved(CoreReply::NoMemory);
                    return Ok(List::from_vec(replies));
                }
            }
        }
        Ok(List::from_vec(replies))
    }

    /// Takes events one after another, and hands out their replies. The room for the replies is taken first: where that is refused, nothing is changed.
    /// It stops at the first event that wants memory in vain, whose reply is then the last.
    ///
    /// Whatever the events are, what the machine has kept is of one database with one list of commits.
    pub fn run(&mut self, events: &[Event]) -> Result<CoreReplyList, NoMemory>
        ensures ok { IfOk result (λ replies. IsRun self.old events.now self.new replies) }
        ensures err { OnErr result (self.new ≡ self.old) }
        ensures holds { Holds self.new }
    {
        let replies = self.take_all(events);
        self.holds();
        replies
    }
}
