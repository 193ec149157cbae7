//! Both engines, each with its journal.

ghost use Rattle.std.specs.Prelude.{◌≡◌, ◌∷◌, [], true, IfOk, OnErr};
ghost use Rattle.sk_model.specs.declared.engine.EngineName.TheVariants.{Mem, Store};
ghost use Rattle.sk_model.specs.Engine.{engine_at};
ghost use Rattle.sk_store.specs.Loading.{AreOpeningRows};
ghost use Rattle.sk_commit.specs.Fits.{CallFits};
ghost use Rattle.sk_session.specs.Conversing.{is_of_transaction};
ghost use Rattle.sk_shared.specs.Kept.{Keeps, Asks};
ghost use Rattle.sk_shared.specs.Pair.{AsksForNobody};

use crate::asking::{ask, ask_for_nobody};
use sk_chain::{Engine, Noted};
use sk_mem::MemEngine;
use sk_model::{EngineCall, EngineName, EngineReply, Tables};
use sk_rows::{Catalog, NoMemory};
use sk_session::Unanswered;
use sk_store::StoreEngine;
use std::alloc::Global;
use std::marker::Model;

/// Both engines of a run, each with its journal: every reply in it is the right one.
///
/// Contracts see the two.
#[derive(Drop)]
pub struct Engines {
    mem: Noted<MemEngine>,
    store: Noted<StoreEngine>,
}

impl Model for Engines {
    ghost use Rattle.sk_shared.specs.Pair.{EnginePair};
    ghost use Rattle.sk_shared.specs.Kept.{IsKept};
    ghost use Rattle.std.specs.Coded.{codes};
    ghost use Rattle.sk_mem.specs.contracts.engine.MemEngine as mem_engine;
    ghost use Rattle.sk_store.specs.contracts.engine.StoreEngine as store_engine;

    ghost Value = { EnginePair };

    ghost coded = { Prim.hlevel (codes, mem_engine.the_row.coded, store_engine.the_row.coded) };

    ghost view = { λ engines. record { mem = engines.mem; store = engines.store } };

    ghost invariant = { λ engines. IsKept ⟦<MemEngine as Engine>⟧.stands engines.mem × IsKept ⟦<StoreEngine as Engine>⟧.stands engines.store };
}

impl Engines {
    /// Engines with these rows, one list a table, which begin with these numbers.
    pub fn new(
        alloc: Global,
        catalog: &Catalog,
        rows: &Tables,
        a: u32,
        b: u32,
    ) -> Result<Engines, NoMemory>
        requires { AreOpeningRows catalog.now rows.now }
        ensures mem { IfOk result (λ x. Keeps ⟦<MemEngine as Engine>⟧.stands x.mem (engine_at Mem catalog.now rows.now a) []) }
        ensures store { IfOk result (λ x. Keeps ⟦<StoreEngine as Engine>⟧.stands x.store (engine_at Store catalog.now rows.now b) []) }
    {
        let mem = MemEngine::new(alloc, catalog, rows, a)?;
        let store = StoreEngine::new(alloc, catalog, rows, b)?;
        Ok(Engines {
            mem: Noted::new(alloc, mem),
            store: Noted::new(alloc, store),
        })
    }

    /// The two.
    pub fn into_parts(self) -> (Noted<MemEngine>, Noted<StoreEngine>)
        ensures mem { result.0 ≡ self.mem }
        ensures store { result.1 ≡ self.store }
    {
        let Engines { mem, store } = self;
        (mem, store)
    }

    /// Makes the call of a transaction on the memory engine, and enters it with its reply.
    pub fn ask_mem(&mut self, call: EngineCall) -> Result<EngineReply, Unanswered>
        requires { is_of_transaction call ≡ true }
        ensures fits { IfOk result (λ reply. CallFits call reply) }
        ensures asks { Asks ⟦<MemEngine as Engine>⟧.stands self.old.mem call result self.new.mem }
        ensures other { self.new.store ≡ self.old.store }
    {
        ask(&mut self.mem, call)
    }

    /// Makes the call of a transaction on the storage engine, and enters it with its reply.
    pub fn ask_store(&mut self, call: EngineCall) -> Result<EngineReply, Unanswered>
        requires { is_of_transaction call ≡ true }
        ensures fits { IfOk result (λ reply. CallFits call reply) }
        ensures asks { Asks ⟦<StoreEngine as Engine>⟧.stands self.old.store call result self.new.store }
        ensures other { self.new.mem ≡ self.old.mem }
    {
        ask(&mut self.store, call)
    }

    /// Makes a call of no transaction on this engine, and enters it with its reply.
    pub fn ask_for_nobody(
        &mut self,
        name: EngineName,
        call: EngineCall,
    ) -> Result<EngineReply, Unanswered>
        ensures { AsksForNobody ⟦<MemEngine as Engine>⟧.stands ⟦<StoreEngine as Engine>⟧.stands self.old name call result self.new }
    {
        match name {
            EngineName::Mem => ask_for_nobody(&mut self.mem, call),
            EngineName::Store => ask_for_nobody(&mut self.store, call),
        }
    }
}
