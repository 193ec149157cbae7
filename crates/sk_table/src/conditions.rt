//! The condition of each call.

ghost use Rattle.std.specs.Prelude.{◌≡◌, ◌↔◌, ◌&&◌, IsTrue, IfOk, Some, nat_lt, length};
ghost use Rattle.sk_model.specs.Engine.{keeps, is_kept, opening_of};
ghost use Rattle.sk_model.specs.EngineConditions.{may, may_end, is_standing, floor_of, is_short, fits_key, has_table, has_key, has_row};
ghost use Rattle.sk_model.specs.Replies.{key_of};
ghost use Rattle.sk_table.specs.Fitting.{IsRowFor};

use crate::table::EngineTable;
use sk_model::{EngineCall, EngineName, Label};
use sk_rows::{Catalog, LONGEST_TEXT, NoMemory, Row, Table, Value, fits};

/// Whether the engine keeps the table.
fn is_kept(name: EngineName, table: &Table) -> bool
    ensures { result ≡ is_kept name (Some table.now) }
{
    match name {
        EngineName::Mem => !table.store,
        EngineName::Store => table.store,
    }
}

/// Whether there is a table of this number that the engine keeps.
pub fn keeps(name: EngineName, catalog: &Catalog, table: u16) -> bool
    ensures { result ≡ keeps name catalog.now table }
{
    match catalog.table(table) {
        None => false,
        Some(found) => is_kept(name, found),
    }
}

fn is_short(value: &Value) -> bool
    ensures { result ≡ is_short value.now }
{
    match value {
        Value::Text(text) => text.as_slice().len() <= LONGEST_TEXT,
        Value::Int(_) | Value::Bool(_) => true,
    }
}

/// Whether the key is of the sort of the table's key.
fn is_key(table: &Table, key: &Value) -> bool
    ensures { result ≡ fits_key table.now.columns key.now }
{
    match table.columns.as_slice() {
        [] => false,
        [column, ..] => key.sort() == column.sort,
    }
}

/// Whether the row begins with this key.
fn begins_with(row: &Row, key: &Value) -> bool
    ensures { IsTrue result ↔ (key.now ≡ key_of row.now) }
{
    match row.get(0) {
        Some(first) => key.is_same(first),
        None => matches!(key, Value::Bool(false)),
    }
}

/// Whether the row fits the table and begins with the key; of no row, whether the key is no long text.
fn is_row(table: &Table, key: &Value, row: &Option<Row>) -> bool
    ensures { IsRowFor table.now.columns key.now row.now result }
{
    match row {
        None => is_short(key),
        Some(row) => fits(row, table) && begins_with(row, key),
    }
}

impl EngineTable {
    /// Whether the transaction has an opening that is not closed.
    fn is_standing(&self, tx: Label) -> bool
        ensures { result ≡ is_standing (opening_of self.now tx) }
    {
        match self.opening_of(tx) {
            None => false,
            Some(opening) => opening.floor.is_none(),
        }
    }

    /// The floor of the transaction's opening, or 0.
    pub fn floor_of(&self, tx: Label) -> u32
        ensures { result ≡ floor_of (opening_of self.now tx) }
    {
        match self.opening_of(tx) {
            None => 0,
            Some(opening) => match opening.floor {
                None => 0,
                Some(floor) => floor,
            },
        }
    }

    fn has_table(&self, table: u16) -> bool
        ensures { result ≡ has_table self.now table }
    {
        (table as usize) < self.rows.len() && keeps(self.name, &self.catalog, table)
    }

    #[tactic(auto, using(crate::proofs::Goes::columns_none, crate::proofs::Goes::columns_found))]
    fn has_key(&self, table: u16, key: &Value) -> bool
        ensures { result ≡ has_key self.now table key.now }
    {
        match self.catalog.table(table) {
            None => false,
            Some(found) => is_key(found, key),
        }
    }

    /// Whether the key is of the sort of the table's key, and the row goes there.
    #[tactic(auto, using(crate::proofs::Goes::goes_nowhere, crate::proofs::Goes::misfits, crate::proofs::Goes::goes))]
    fn takes_row(&self, table: u16, key: &Value, row: &Option<Row>) -> bool
        ensures { result ≡ (has_key self.now table key.now && has_row self.now table key.now row.now) }
    {
        match self.catalog.table(table) {
            None => false,
            Some(found) => is_key(found, key) && is_row(found, key, row),
        }
    }

    /// Whether the opening is closed, and the number past its floor and not used yet.
    fn may_end(&self, tx: Label, n: u32) -> bool
        ensures { result ≡ may_end self.now tx n }
    {
        match self.opening_of(tx) {
            None => false,
            Some(opening) => match opening.floor {
                None => false,
                Some(floor) => floor < n && !self.is_used(n),
            },
        }
    }

    /// Whether the condition of the call holds.
    pub fn may(&self, call: &EngineCall) -> Result<bool, NoMemory>
        ensures { IfOk result (λ b. b ≡ may self.now call.now) }
    {
        match call {
            EngineCall::Open { tx, snapshot: _ } => Ok(self.opening_of(*tx).is_none()),
            EngineCall::Get { tx, table, key } => {
                Ok(self.is_standing(*tx) && (self.has_table(*table) && self.has_key(*table, key)))
            }
            EngineCall::Scan { tx, table } => Ok(self.is_standing(*tx) && self.has_table(*table)),
            EngineCall::Put {
                tx,
                table,
                key,
                row,
            } => Ok(
                self.is_standing(*tx)
                    && (self.has_table(*table) && self.takes_row(*table, key, row)),
            ),
            EngineCall::Close { tx } => Ok(self.is_standing(*tx)),
            EngineCall::Stamp { tx, n } | EngineCall::Void { tx, n } => Ok(self.may_end(*tx, *n)),
            EngineCall::DropTx { tx } => Ok(self.opening_of(*tx).is_some()),
            EngineCall::Records { from, to } => {
                let horizon = self.horizon_of()?;
                Ok(self.purged <= *from && *to <= horizon)
            }
            EngineCall::Horizon | EngineCall::Purge { .. } => Ok(true),
        }
    }
}
