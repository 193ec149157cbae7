//! The storage engine.

ghost use Rattle.std.specs.Prelude.{◌≡◌, ℕ, List, T, true, length, IfOk};
ghost use Rattle.std.specs.FinMap.{is_sorted};
ghost use Rattle.sk_rows.specs.Values.{value_cmp};
ghost use Rattle.sk_model.specs.declared.engine.EngineName.TheVariants.{Store};
ghost use Rattle.sk_model.specs.declared.call.Entry.{Entry};
ghost use Rattle.sk_model.specs.Database.{table_of};
ghost use Rattle.sk_model.specs.Engine.{engine_at};
ghost use Rattle.sk_store.specs.Begun.{no_rows};
ghost use Rattle.sk_store.specs.Loading.{RowsFit};

use crate::first::bare_rows;
use crate::loading::load_tables;
use crate::page_vec::PageVec;
use crate::paged::PagedRows;
use sk_chain::Engine;
use sk_engine::Versioned;
use sk_model::{CommitList, EngineCall, EngineFault, KeyedRows, Label, Tables};
use sk_rows::{Catalog, NoMemory, Row, Value};
use std::alloc::Global;

/// The storage engine: the newest version of each row in a cell of a page, the older ones as undo records. Its pages are in memory,
/// so no call ever fails for a device.
#[derive(Drop)]
pub struct StoreEngine {
    engine: Versioned<PagedRows<PageVec>>,
}

impl StoreEngine {
    /// An engine with these rows, one list a table of the catalog, each in the order of its keys, and with this number to begin with.
    /// Each row fits its table, and so is short enough for a cell.
    pub fn new(
        alloc: Global,
        catalog: &Catalog,
        rows: &Tables,
        start: u32,
    ) -> Result<StoreEngine, NoMemory>
        requires count { length rows.now ≡ length catalog.now }
        requires ordered { (t : ℕ) → T (is_sorted value_cmp (table_of rows.now t)) }
        requires fit { (t : ℕ) → RowsFit catalog.now t (table_of rows.now t) }
        ensures { IfOk result (λ m. (js : List Entry) → ⟦<StoreEngine as Engine>⟧.stands m (engine_at Store catalog.now rows.now start) js) }
    {
        let mut paged = bare_rows(alloc, catalog)?;
        match load_tables(alloc, &mut paged, rows.as_slice(), start) {
            Ok(()) => {
                let engine = Versioned::new(alloc, paged, start);
                Ok(StoreEngine { engine })
            }
            // Pages in memory fail for want of memory alone.
            Err(_) => Err(NoMemory),
        }
    }

    /// An engine of these tables, without rows, and with this number to begin with.
    pub fn without_rows(
        alloc: Global,
        catalog: &Catalog,
        start: u32,
    ) -> Result<StoreEngine, NoMemory>
        ensures { IfOk result (λ m. (js : List Entry) → ⟦<StoreEngine as Engine>⟧.stands m (engine_at Store catalog.now (no_rows catalog.now) start) js) }
    {
        let paged = bare_rows(alloc, catalog)?;
        let engine = Versioned::new(alloc, paged, start);
        Ok(StoreEngine { engine })
    }
}

impl Engine for StoreEngine {
    ghost name = { Store };

    ghost told = { true };

    ghost faults = { λ _. 0 };

    ghost stands = { λ m e js. ⟦<Versioned<PagedRows<PageVec>> as Engine>⟧.stands m.engine e js };

    fn open(&mut self, tx: Label, snapshot: u32) -> Result<(), EngineFault> {
        self.engine.open(tx, snapshot)
    }

    fn get(&mut self, tx: Label, table: u16, key: &Value) -> Result<Option<Row>, EngineFault> {
        self.engine.get(tx, table, key)
    }

    fn scan(&mut self, tx: Label, table: u16) -> Result<KeyedRows, EngineFault> {
        self.engine.scan(tx, table)
    }

    fn put(
        &mut self,
        tx: Label,
        table: u16,
        key: &Value,
        row: Option<Row>,
    ) -> Result<(), EngineFault> {
        self.engine.put(tx, table, key, row)
    }

    fn close(&mut self, tx: Label) -> Result<u32, EngineFault> {
        self.engine.close(tx)
    }

    fn stamp(&mut self, tx: Label, n: u32) {
        self.engine.stamp(tx, n);
    }

    fn void(&mut self, tx: Label, n: u32) {
        self.engine.void(tx, n);
    }

    fn drop_tx(&mut self, tx: Label) {
        self.engine.drop_tx(tx);
    }

    fn horizon(&mut self) -> u32 {
        self.engine.horizon()
    }

    fn records(&mut self, from: u32, to: u32) -> Result<CommitList, EngineFault> {
        self.engine.records(from, to)
    }

    fn purge(&mut self, upto: u32) -> Result<u32, EngineFault> {
        self.engine.purge(upto)
    }

    fn may(&self, call: &EngineCall) -> bool {
        self.engine.may(call)
    }

    ghost is_named = { λ m e js h. h.sound.named };
}
