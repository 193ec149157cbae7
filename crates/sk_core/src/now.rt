//! The state of the machine with the tables of its engines.

ghost use Rattle.std.specs.Prelude.{◌≡◌, IfOk};
ghost use Rattle.sk_model.specs.declared.engine.EngineName.TheVariants as name;
ghost use Rattle.sk_linked.specs.State.{table_of};
ghost use Rattle.sk_linked.specs.Plans as plans;

use crate::actor::Actor;
use crate::regs::first_of;
use crate::state::State;
use sk_model::{EngineCall, EngineName, EngineReply};
use sk_rows::{List, NoMemory};
use sk_table::{EngineTable, after_entries, keeps};
use std::alloc::Global;
use std::marker::Model;

/// The state of the machine, and what the journals make of the opening rows in each engine.
///
/// Contracts see the state.
#[derive(Drop)]
pub struct Now {
    pub(crate) state: State,
    mem: EngineTable,
    store: EngineTable,
}

impl Model for Now {
    ghost use Rattle.std.specs.Prelude.{◌≡◌};
    ghost use Rattle.sk_model.specs.declared.engine.EngineName.TheVariants.{Mem, Store};
    ghost use Rattle.sk_linked.specs.State.{Core as AnyCore, table_of};

    ghost Value = { AnyCore };

    ghost view = { λ k. k.state };

    ghost invariant = { λ k. (k.mem ≡ table_of k.state Mem) × (k.store ≡ table_of k.state Store) };
}

fn mem_table(alloc: Global, state: &State) -> Result<EngineTable, NoMemory>
    ensures { IfOk result (λ t. t ≡ table_of state.now name.Mem) }
{
    let first = first_of(state.regs.points.as_slice());
    let table = EngineTable::new(alloc, EngineName::Mem, &state.catalog, &state.rows, first.a)?;
    after_entries(alloc, table, state.mem.as_slice())
}

pub(crate) fn store_table(alloc: Global, state: &State) -> Result<EngineTable, NoMemory>
    ensures { IfOk result (λ t. t ≡ table_of state.now name.Store) }
{
    let first = first_of(state.regs.points.as_slice());
    let table = EngineTable::new(
        alloc,
        EngineName::Store,
        &state.catalog,
        &state.rows,
        first.b,
    )?;
    after_entries(alloc, table, state.store.as_slice())
}

impl Now {
    /// The state with its tables, played again from the beginning of the run.
    pub(crate) fn new(alloc: Global, state: State) -> Result<Now, NoMemory>
        ensures { IfOk result (λ k. k ≡ state) }
    {
        let mem = mem_table(alloc, &state)?;
        let store = store_table(alloc, &state)?;
        Ok(Now { state, mem, store })
    }

    /// The table of this engine.
    pub(crate) fn table(&self, name: EngineName) -> &EngineTable
        ensures { result.now ≡ table_of self.now name }
    {
        match name {
            EngineName::Mem => &self.mem,
            EngineName::Store => &self.store,
        }
    }

    /// A table of this engine, to go on with.
    pub(crate) fn own_table(&self, alloc: Global, name: EngineName) -> Result<EngineTable, NoMemory>
        ensures { IfOk result (λ t. t ≡ table_of self.now name) }
    {
        match name {
            EngineName::Mem => mem_table(alloc, &self.state),
            EngineName::Store => store_table(alloc, &self.state),
        }
    }

    /// The right reply of an engine to a call now.
    pub(crate) fn answer(
        &self,
        alloc: Global,
        name: EngineName,
        call: &EngineCall,
    ) -> Result<EngineReply, NoMemory>
        ensures { IfOk result (λ reply. reply ≡ plans.answer self.now name call.now) }
    {
        self.table(name).due(alloc, call)
    }

    /// The calls that drop a transaction in an engine, where it is open there.
    pub(crate) fn drops(
        &self,
        alloc: Global,
        r: &Actor,
        name: EngineName,
    ) -> Result<List<EngineCall>, NoMemory>
        ensures { IfOk result (λ calls. calls ≡ plans.drops self.now r.now name) }
    {
        match self.table(name).opening_of(r.label) {
            None => Ok(List::new(alloc)),
            Some(_) => List::of_one(alloc, EngineCall::DropTx { tx: r.label }),
        }
    }

    /// The floor of a transaction's opening in an engine, or 0.
    pub(crate) fn floor_in(&self, r: &Actor, name: EngineName) -> u32
        ensures { result ≡ plans.floor_in self.now r.now name }
    {
        self.table(name).floor_of(r.label)
    }

    /// The engine that keeps a table.
    pub(crate) fn engine_of(&self, table: u16) -> EngineName
        ensures { result ≡ plans.engine_of self.now table }
    {
        if keeps(EngineName::Store, &self.state.catalog, table) {
            EngineName::Store
        } else {
            EngineName::Mem
        }
    }
}
