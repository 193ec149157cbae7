//! What the sessions of a run on one thread share.

ghost use Rattle.std.specs.Prelude.{◌≡◌, true, false, IfOk};
ghost use Rattle.sk_weave.specs.RegistryLaws.{CanStart};
ghost use Rattle.sk_store.specs.Loading.{AreOpeningRows};
ghost use Rattle.sk_commit.specs.declared.asking.Wish.TheVariants as wish;
ghost use Rattle.sk_commit.specs.declared.asking.Got.TheVariants as given;
ghost use Rattle.sk_commit.specs.Fits.{CallFits};
ghost use Rattle.sk_session.specs.Conversing.{is_of_transaction};
ghost use Rattle.sk_shared.specs.Kept.{is_close};
ghost use Rattle.sk_session.specs.Common.{Common};
ghost use Rattle.sk_shared.specs.Shared.{Stands, Answers, first_common};
ghost use Rattle.sk_shared.specs.Finished.{IsLeft};

use crate::engines::Engines;
use crate::finished::Finished;
use crate::point_log::PointLog;
use sk_chain::Engine;
use sk_commit::{Got, Wish};
use sk_mem::MemEngine;
use sk_model::{EngineCall, EngineFault, EngineReply, Point, Tables};
use sk_rows::{Catalog, NoMemory};
use sk_session::{Desk, Unanswered};
use sk_store::StoreEngine;
use std::alloc::Global;

/// Both engines with their journals, and the registry with all points of the run: what the sessions of a run on one thread share.
#[derive(Drop)]
pub struct Shared {
    pub(crate) engines: Engines,
    pub(crate) log: PointLog,
}

impl Shared {
    /// What a run begins with: engines with these rows, one list a table, whose numbers begin at this selection, and a registry with so many partitions of so many points each.
    pub fn new(
        alloc: Global,
        catalog: &Catalog,
        rows: &Tables,
        partitions: u32,
        size: u32,
        start: Point,
    ) -> Result<Shared, NoMemory>
        requires start { CanStart partitions size start }
        requires rows { AreOpeningRows catalog.now rows.now }
        ensures { IfOk result (λ x. Stands ⟦<MemEngine as Engine>⟧.stands ⟦<StoreEngine as Engine>⟧.stands x (first_common catalog.now rows.now partitions size start)) }
    {
        let engines = Engines::new(alloc, catalog, rows, start.a, start.b)?;
        let log = PointLog::new(alloc, partitions, size, start)?;
        Ok(Shared { engines, log })
    }

    /// What is left when no session goes on.
    pub fn into_parts(self) -> Finished
        ensures { (c : Common) → Stands ⟦<MemEngine as Engine>⟧.stands ⟦<StoreEngine as Engine>⟧.stands self c → IsLeft result c }
    {
        let Shared { engines, log } = self;
        let (mem, store) = engines.into_parts();
        let (_, mem_journal) = mem.into_parts();
        let (_, store_journal) = store.into_parts();
        let (mem_counter, store_counter, points) = log.into_parts();
        Finished {
            mem_journal,
            mem_counter,
            store_journal,
            store_counter,
            points,
        }
    }

    /// Whether there is room for the point of a commit that begins with this call. So a check seldom finds that there is none.
    fn has_room(&mut self, call: &EngineCall) -> bool
        ensures same { self.new ≡ self.old }
        ensures closes { result ≡ false → is_close call.now ≡ true }
    {
        !is_close(call) || self.log.make_room().is_ok()
    }

    /// A call of the memory engine.
    fn ask_mem(&mut self, call: EngineCall) -> Result<EngineReply, Unanswered>
        requires { is_of_transaction call ≡ true }
        ensures fits { IfOk result (λ reply. CallFits call reply) }
        ensures answered { IfOk result (λ reply. Answers ⟦<MemEngine as Engine>⟧.stands ⟦<StoreEngine as Engine>⟧.stands self.old (wish.Mem call) (given.Engine reply) self.new) }
    {
        if self.has_room(&call) {
            self.engines.ask_mem(call)
        } else {
            Ok(EngineReply::Fault(EngineFault::NoMemory))
        }
    }

    /// A call of the storage engine.
    fn ask_store(&mut self, call: EngineCall) -> Result<EngineReply, Unanswered>
        requires { is_of_transaction call ≡ true }
        ensures fits { IfOk result (λ reply. CallFits call reply) }
        ensures answered { IfOk result (λ reply. Answers ⟦<MemEngine as Engine>⟧.stands ⟦<StoreEngine as Engine>⟧.stands self.old (wish.Store call) (given.Engine reply) self.new) }
    {
        if self.has_room(&call) {
            self.engines.ask_store(call)
        } else {
            Ok(EngineReply::Fault(EngineFault::NoMemory))
        }
    }
}

impl Desk for Shared {
    ghost answers = { Answers ⟦<MemEngine as Engine>⟧.stands ⟦<StoreEngine as Engine>⟧.stands };

    fn answer(&mut self, wish: Wish) -> Result<Got, Unanswered> {
        match wish {
            Wish::Mem(call) => Ok(Got::Engine(self.ask_mem(call)?)),
            Wish::Store(call) => Ok(Got::Engine(self.ask_store(call)?)),
            Wish::Reg(call) => Ok(Got::Reg(self.log.answer(call)?)),
        }
    }
}

/// Whether a commit may begin with the call.
fn is_close(call: &EngineCall) -> bool
    ensures { result ≡ is_close call.now }
{
    matches!(call, EngineCall::Close { .. })
}
