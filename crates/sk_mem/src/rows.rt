//! The rows of the memory engine.

ghost use Rattle.std.specs.Prelude.{true};
ghost use Rattle.sk_model.specs.declared.engine.EngineName.TheVariants.{Mem};
ghost use Rattle.sk_mem.specs.Chains.{Shows};

use crate::chains::{RowMap, act_at, forget_at, given_at, read_at, write_at};
use crate::scanning::scan_at;
use sk_engine::{Act, Rows};
use sk_model::{EngineFault, EngineName, KeyedRows, Label};
use sk_rows::{Catalog, Row, Value};
use std::alloc::Global;

/// The versions of the rows of all tables: one chain a row, in an ordered map a table.
///
/// A row that has no chain has no version. No device stands behind them.
#[derive(Drop)]
pub struct MemRows {
    pub(crate) alloc: Global,
    pub(crate) catalog: Catalog,
    pub(crate) tables: Vec<RowMap>,
}

impl Rows for MemRows {
    ghost name = { Mem };

    ghost told = { true };

    ghost faults = { λ _. 0 };

    ghost shows = { λ x tables chains. Shows x.catalog x.tables.items tables chains };

    fn engine(&self) -> EngineName {
        EngineName::Mem
    }

    fn catalog(&self) -> &Catalog {
        &self.catalog
    }

    fn see(
        &mut self,
        table: u16,
        key: &Value,
        by: Label,
        snapshot: u32,
    ) -> Result<Option<Row>, EngineFault> {
        read_at(self.alloc, &self.tables, by, snapshot, table, key)
    }

    fn scan(&mut self, table: u16, by: Label, snapshot: u32) -> Result<KeyedRows, EngineFault> {
        scan_at(self.alloc, &self.tables, by, snapshot, table)
    }

    fn given(&mut self, table: u16, key: &Value, n: u32) -> Result<Option<Row>, EngineFault> {
        given_at(self.alloc, &self.tables, table, key, n)
    }

    fn push(
        &mut self,
        table: u16,
        key: &Value,
        by: Label,
        snapshot: u32,
        row: Option<Row>,
    ) -> Result<bool, EngineFault> {
        write_at(self.alloc, &mut self.tables, by, snapshot, table, key, row)
    }

    fn act(&mut self, table: u16, key: &Value, act: Act) {
        act_at(&mut self.tables, table, key, act);
    }

    fn forget(&mut self, table: u16, key: &Value, upto: u32) {
        forget_at(&mut self.tables, table, key, upto);
    }
}
