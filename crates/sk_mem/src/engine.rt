//! The memory engine.

ghost use Rattle.std.specs.Prelude.{◌≡◌, List, ℕ, T, true, IfOk, length};
ghost use Rattle.std.specs.FinMap.{is_sorted};
ghost use Rattle.sk_rows.specs.Values.{value_cmp};
ghost use Rattle.sk_model.specs.declared.engine.EngineName.TheVariants.{Mem};
ghost use Rattle.sk_model.specs.declared.call.Entry.{Entry};
ghost use Rattle.sk_model.specs.Database.{table_of};
ghost use Rattle.sk_model.specs.Engine.{engine_at};

use crate::first::first_tables;
use crate::rows::MemRows;
use sk_chain::Engine;
use sk_engine::Versioned;
use sk_model::{CommitList, EngineCall, EngineFault, KeyedRows, Label, Tables};
use sk_rows::{Catalog, Copies, NoMemory, Row, Value};
use std::alloc::Global;

/// The memory engine: one chain of versions a row, in an ordered map a table. No device stands behind it, so no call ever fails for one.
#[derive(Drop)]
pub struct MemEngine {
    engine: Versioned<MemRows>,
}

impl MemEngine {
    /// An engine with these rows, one list a table of the catalog, each in the order of its keys, and with this number to begin with.
    pub fn new(
        alloc: Global,
        catalog: &Catalog,
        rows: &Tables,
        start: u32,
    ) -> Result<MemEngine, NoMemory>
        requires count { length rows.now ≡ length catalog.now }
        requires ordered { (t : ℕ) → T (is_sorted value_cmp (table_of rows.now t)) }
        ensures { IfOk result (λ m. (js : List Entry) → ⟦<MemEngine as Engine>⟧.stands m (engine_at Mem catalog.now rows.now start) js) }
    {
        let rows = MemRows {
            alloc,
            catalog: catalog.copy(alloc)?,
            tables: first_tables(alloc, rows.as_slice(), start)?,
        };
        Ok(MemEngine {
            engine: Versioned::new(alloc, rows, start),
        })
    }
}

impl Engine for MemEngine {
    ghost name = { Mem };

    ghost told = { true };

    ghost faults = { λ _. 0 };

    ghost stands = { λ m e js. ⟦<Versioned<MemRows> as Engine>⟧.stands m.engine e js };

    fn open(&mut self, tx: Label, snapshot: u32) -> Result<(), EngineFault> {
        self.engine.open(tx, snapshot)
    }

    fn get(&mut self, tx: Label, table: u16, key: &Value) -> Result<Option<Row>, EngineFault> {
        self.engine.get(tx, table, key)
    }

    fn scan(&mut self, tx: Label, table: u16) -> Result<KeyedRows, EngineFault> {
        self.engine.scan(tx, table)
    }

    fn put(
        &mut self,
        tx: Label,
        table: u16,
        key: &Value,
        row: Option<Row>,
    ) -> Result<(), EngineFault> {
        self.engine.put(tx, table, key, row)
    }

    fn close(&mut self, tx: Label) -> Result<u32, EngineFault> {
        self.engine.close(tx)
    }

    fn stamp(&mut self, tx: Label, n: u32) {
        self.engine.stamp(tx, n);
    }

    fn void(&mut self, tx: Label, n: u32) {
        self.engine.void(tx, n);
    }

    fn drop_tx(&mut self, tx: Label) {
        self.engine.drop_tx(tx);
    }

    fn horizon(&mut self) -> u32 {
        self.engine.horizon()
    }

    fn records(&mut self, from: u32, to: u32) -> Result<CommitList, EngineFault> {
        self.engine.records(from, to)
    }

    fn purge(&mut self, upto: u32) -> Result<u32, EngineFault> {
        self.engine.purge(upto)
    }

    fn may(&self, call: &EngineCall) -> bool {
        self.engine.may(call)
    }

    ghost is_named = { λ m e js h. h.sound.named };
}
