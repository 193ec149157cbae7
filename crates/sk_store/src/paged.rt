//! The rows of the storage engine.

ghost use Rattle.std.specs.Prelude.{◌≡◌, ◌≤◌, ℕ, List};
ghost use Rattle.sk_rows.specs.declared.table.Table.{Table as AnyTable};
ghost use Rattle.sk_model.specs.declared.engine.EngineName.TheVariants.{Store};
ghost use Rattle.sk_model.specs.declared.call.EngineReply.TheVariants.{Found};
ghost use Rattle.sk_chain.specs.Promise.{replied};
ghost use Rattle.sk_engine.specs.Rows.{Chains, GivesReply, IsRow, given as given_reply, reading};
ghost use Rattle.sk_store.specs.Calls.{KeepsCells};
ghost use Rattle.sk_store.specs.Maps.{Shows};

use crate::heads::{HeadMap, act_at, find_head, forget_at, push_at};
use crate::pages::Pages;
use crate::reading::{read_head, read_stamped};
use crate::scanning::scan_at;
use sk_engine::{Act, Rows};
use sk_model::{EngineFault, EngineName, KeyedRows, Label};
use sk_rows::{Catalog, Row, Value};
use std::alloc::Global;

/// The versions of the rows of all tables: a head a row, in an ordered map a table, the newest version of each row in a cell of a
/// page, and the older ones as undo records.
///
/// A row that has no head has no version.
#[derive(Drop)]
pub struct PagedRows<P: Drop> {
    pub(crate) alloc: Global,
    pub(crate) catalog: Catalog,
    pub(crate) pages: P,
    pub(crate) heads: Vec<HeadMap>,
}

/// What a reader at the snapshot gets of a row, by its table and key.
fn read_at<P: Pages>(
    alloc: Global,
    catalog: &Catalog,
    pages: &mut P,
    heads: &Vec<HeadMap>,
    number: u16,
    key: &Value,
    by: Label,
    snapshot: u32,
) -> Result<Option<Row>, EngineFault>
    ensures later { P.faults pages.old ≤ P.faults pages.new }
    ensures keeps { KeepsCells P.has pages.old pages.new }
    ensures reads { (tables : List AnyTable) (chains : Chains) → Shows P.told (P.has pages.old) catalog.now heads.now.items tables chains
        → GivesReply P.told (P.faults pages.old) (P.faults pages.new) (IsRow tables number key.now (reading (chains number key.now) by snapshot) (replied Found result)) (reading (chains number key.now) by snapshot) (replied Found result) }
{
    let Some(table) = catalog.table(number) else {
        return Ok(None);
    };
    match find_head(heads, number, key) {
        Some(head) => read_head(alloc, pages, head, table, key, by, snapshot),
        None => Ok(None),
    }
}

/// The row of the newest stamped version with a number up to n.
fn given_at<P: Pages>(
    alloc: Global,
    catalog: &Catalog,
    pages: &mut P,
    heads: &Vec<HeadMap>,
    number: u16,
    key: &Value,
    n: u32,
) -> Result<Option<Row>, EngineFault>
    ensures later { P.faults pages.old ≤ P.faults pages.new }
    ensures keeps { KeepsCells P.has pages.old pages.new }
    ensures gives { (tables : List AnyTable) (chains : Chains) → Shows P.told (P.has pages.old) catalog.now heads.now.items tables chains
        → GivesReply P.told (P.faults pages.old) (P.faults pages.new) (IsRow tables number key.now (given_reply (chains number key.now) n) (replied Found result)) (given_reply (chains number key.now) n) (replied Found result) }
{
    let Some(table) = catalog.table(number) else {
        return Ok(None);
    };
    match find_head(heads, number, key) {
        Some(head) => read_stamped(alloc, pages, head, table, key, n),
        None => Ok(None),
    }
}

impl<P: Pages + Drop> Rows for PagedRows<P> {
    ghost name = { Store };

    ghost told = { P.told };

    ghost faults = { λ x. P.faults x.pages };

    ghost shows = { λ x tables chains. Shows P.told (P.has x.pages) x.catalog x.heads.items tables chains };

    fn engine(&self) -> EngineName {
        EngineName::Store
    }

    fn catalog(&self) -> &Catalog {
        &self.catalog
    }

    fn see(
        &mut self,
        table: u16,
        key: &Value,
        by: Label,
        snapshot: u32,
    ) -> Result<Option<Row>, EngineFault> {
        read_at(
            self.alloc,
            &self.catalog,
            &mut self.pages,
            &self.heads,
            table,
            key,
            by,
            snapshot,
        )
    }

    fn scan(&mut self, table: u16, by: Label, snapshot: u32) -> Result<KeyedRows, EngineFault> {
        scan_at(
            self.alloc,
            &self.catalog,
            &mut self.pages,
            &self.heads,
            table,
            by,
            snapshot,
        )
    }

    fn given(&mut self, table: u16, key: &Value, n: u32) -> Result<Option<Row>, EngineFault> {
        given_at(
            self.alloc,
            &self.catalog,
            &mut self.pages,
            &self.heads,
            table,
            key,
            n,
        )
    }

    fn push(
        &mut self,
        table: u16,
        key: &Value,
        by: Label,
        snapshot: u32,
        row: Option<Row>,
    ) -> Result<bool, EngineFault> {
        let Some(found) = self.catalog.table(table) else {
            unreachable!();
        };
        push_at(
            self.alloc,
            &mut self.pages,
            &mut self.heads,
            table,
            found,
            key,
            by,
            snapshot,
            &row,
        )
    }

    fn act(&mut self, table: u16, key: &Value, act: Act) {
        act_at(&mut self.heads, table, key, act);
    }

    fn forget(&mut self, table: u16, key: &Value, upto: u32) {
        forget_at(self.alloc, &mut self.heads, table, key, upto);
    }
}
