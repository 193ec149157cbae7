//! The state of the machine.

ghost use Rattle.std.specs.Prelude.{◌≡◌, IfOk};
ghost use Rattle.sk_linked.specs.State.{core_at};

use crate::actor::Actor;
use crate::copies::same_items;
use crate::regs::Regs;
use sk_model::{Entry, Label, Point, Tables};
use sk_rows::{Catalog, Copies, List, NoMemory};
use std::alloc::Global;
use std::marker::Model;

/// A flush in progress: its cut, how many calls on the device are left, and whether one was made.
#[derive(Clone, Copy)]
pub struct Flush {
    pub(crate) cut: Point,
    pub(crate) left: u32,
    pub(crate) begun: bool,
}

impl Model for Flush {
    ghost use Rattle.sk_linked.specs.State.{Flush as AnyFlush};

    ghost Value = { AnyFlush };

    ghost view = { λ f. record { cut = f.cut; left = f.left; begun = f.begun } };

    ghost inverse = { λ f. record { cut = f.cut; left = f.left; begun = f.begun } };
}

/// The tables and the opening rows, the registry, the journals of both engines, the transactions in the order in which they began, who waits for
/// a durable cut, the durable cut, the flush in progress, and whether the run has stopped.
///
/// Contracts see the state of the definitions.
#[derive(Drop)]
pub struct State {
    pub(crate) catalog: Catalog,
    pub(crate) rows: Tables,
    pub(crate) regs: Regs,
    pub(crate) mem: List<Entry>,
    pub(crate) store: List<Entry>,
    pub(crate) actors: List<Actor>,
    pub(crate) queue: List<Label>,
    pub(crate) durable: Point,
    pub(crate) flush: Option<Flush>,
    pub(crate) stopped: bool,
}

impl Model for State {
    ghost use Rattle.sk_linked.specs.State.{Core as AnyCore};

    ghost Value = { AnyCore };

    ghost view = { λ k. record { catalog = k.catalog; rows = k.rows; regs = k.regs; journals = record { mem = k.mem; store = k.store }; actors = k.actors; queue = k.queue; durable = k.durable; flush = k.flush; stopped = k.stopped } };
}

impl Copies for State {
    fn copy(&self, alloc: Global) -> Result<State, NoMemory> {
        Ok(State {
            catalog: self.catalog.copy(alloc)?,
            rows: self.rows.copy(alloc)?,
            regs: self.regs.copy(alloc)?,
            mem: self.mem.copy(alloc)?,
            store: self.store.copy(alloc)?,
            actors: self.actors.copy(alloc)?,
            queue: same_items(alloc, self.queue.as_slice())?,
            durable: self.durable,
            flush: self.flush,
            stopped: self.stopped,
        })
    }
}

/// The state at the beginning of a run.
pub(crate) fn start_at(
    alloc: Global,
    catalog: &Catalog,
    rows: Tables,
    start: Point,
    partitions: u32,
    size: u32,
) -> Result<State, NoMemory>
    ensures { IfOk result (λ k. k ≡ core_at catalog.now rows start partitions size) }
{
    Ok(State {
        catalog: catalog.copy(alloc)?,
        rows,
        regs: Regs {
            mem: start.a,
            store: start.b,
            low: 0,
            points: List::of_one(alloc, start)?,
            partitions,
            size,
        },
        mem: List::new(alloc),
        store: List::new(alloc),
        actors: List::new(alloc),
        queue: List::new(alloc),
        durable: start,
        flush: None,
        stopped: false,
    })
}
