//! Whether a call may be made.

ghost use Rattle.std.specs.Prelude.{◌≡◌, ◌==◌, ◌↔◌, ◌&&◌, ℕ, not, nat_lt, map, IsTrue, slice_get, Option, Some, None, List, true};
ghost use Rattle.std.specs.Option.{option_map, option_copied};
ghost use Rattle.std.specs.List.{list_any};
ghost use Rattle.sk_rows.specs.Values.{Fits};
ghost use Rattle.sk_rows.specs.declared.table.Table.{Table as AnyTable};
ghost use Rattle.sk_model.specs.Engine.{EngineTable, keeps, is_kept};
ghost use Rattle.sk_model.specs.EngineConditions.{is_short, is_standing, fits_key, has_row};
ghost use Rattle.sk_model.specs.Names.{columns_at};
ghost use Rattle.sk_model.specs.Replies.{key_of};
ghost use Rattle.sk_model.specs.Numbers.{Rises};
ghost use Rattle.sk_engine.specs.Counts.{used, number_in};
ghost use Rattle.sk_engine.specs.Permits.{kept_at, may_stop, IsRowFor};
ghost use Rattle.sk_engine.specs.Stands.{held_in, timed, floor_by};
ghost use Rattle.sk_engine.specs.Engines.{StandsBy};

use crate::book::Book;
use crate::numbers::{Number, count_below};
use crate::openings::{Opening, floor_in};
use crate::rows::Rows;
use sk_model::{EngineCall, EngineName, Label};
use sk_rows::{Catalog, Row, Table, Value, fits};
use std::collections::BTreeMap;

/// Whether the transaction has an opening that is not closed.
pub(crate) fn is_open(openings: &BTreeMap<Label, Opening>, tx: Label) -> bool
    ensures { result ≡ is_standing (option_map timed (held_in openings.now.entries tx)) }
{
    match openings.get(&tx) {
        Some(opening) => opening.floor.is_none(),
        None => false,
    }
}

/// Whether the engine keeps the table.
fn is_kept(name: EngineName, table: &Table) -> bool
    ensures { result ≡ is_kept name (Some table.now) }
{
    match name {
        EngineName::Mem => !table.store,
        EngineName::Store => table.store,
    }
}

/// The table of this number, where the engine keeps it.
fn table_kept(name: EngineName, catalog: &Catalog, table: u16) -> Option<&Table>
    ensures { option_copied result ≡ kept_at name catalog.now table }
{
    match catalog.table(table) {
        Some(found) if is_kept(name, found) => Some(found),
        _ => None,
    }
}

fn is_short(value: &Value) -> bool
    ensures { result ≡ is_short value.now }
{
    match value {
        Value::Text(text) => text.as_slice().len() <= 255,
        Value::Int(_) | Value::Bool(_) => true,
    }
}

/// Whether the key is of the sort of the table's key.
fn is_key(table: &Table, key: &Value) -> bool
    ensures { result ≡ fits_key table.now.columns key.now }
{
    match table.columns.as_slice() {
        [] => false,
        [column, ..] => key.sort() == column.sort,
    }
}

/// Whether the row begins with this key.
fn begins_with(row: &Row, key: &Value) -> bool
    ensures { IsTrue result ↔ (key.now ≡ key_of row.now) }
{
    match row.get(0) {
        Some(first) => key.is_same(first),
        None => matches!(key, Value::Bool(false)),
    }
}

/// Whether the row fits the table and begins with the key; of no row, whether the key is no long text.
fn is_row(table: &Table, key: &Value, row: &Option<Row>) -> bool
    ensures { IsRowFor table.now.columns key.now row.now result }
{
    match row {
        None => is_short(key),
        Some(row) => fits(row, table) && begins_with(row, key),
    }
}

/// Whether the engine keeps the table.
pub(crate) fn has_table(name: EngineName, catalog: &Catalog, table: u16) -> bool
    ensures { result ≡ keeps name catalog.now table }
{
    table_kept(name, catalog, table).is_some()
}

/// Whether the engine keeps the table, and the key is of the sort of its key.
pub(crate) fn takes_key(name: EngineName, catalog: &Catalog, table: u16, key: &Value) -> bool
    ensures { result ≡ (keeps name catalog.now table && fits_key (columns_at catalog.now table) key.now) }
{
    match table_kept(name, catalog, table) {
        Some(found) => is_key(found, key),
        None => false,
    }
}

/// The same, and whether the row goes there.
pub(crate) fn takes_row(
    name: EngineName,
    catalog: &Catalog,
    table: u16,
    key: &Value,
    row: &Option<Row>,
) -> bool
    ensures { (e : EngineTable) → e.catalog ≡ catalog.now → result ≡ (keeps name catalog.now table && (fits_key (columns_at catalog.now table) key.now && has_row e table key.now row.now)) }
{
    match table_kept(name, catalog, table) {
        Some(found) => is_key(found, key) && is_row(found, key, row),
        None => false,
    }
}

/// Whether it is one of these numbers.
fn is_one_of(numbers: &[Number], n: u32) -> bool
    ensures { result ≡ list_any (λ u. u.n == n) numbers.now }
{
    numbers.iter().any(|number| number.n == n)
}

/// Whether the number is used, where the numbers rise. It looks from the end, as far as they are not below it.
fn is_used(numbers: &[Number], n: u32) -> bool
    ensures { (p : ℕ) → Rises number_in p (map used numbers.now) → result ≡ list_any (λ u. u.n == n) numbers.now }
{
    let at = count_below(numbers, n);
    is_one_of(numbers.split_at(at).1, n)
}

/// Whether the transaction is closed, and the number past its floor and not used, where the numbers rise.
pub(crate) fn may_end(book: &Book, tx: Label, n: u32) -> bool
    ensures { (p : ℕ) → Rises number_in p (map used book.now.numbers.items) → result ≡ may_stop (floor_by (held_in book.now.openings.entries tx)) n (list_any (λ u. u.n == n) book.now.numbers.items) }
{
    match floor_in(&book.openings, tx) {
        Some(floor) => floor < n && !is_used(book.numbers.as_slice(), n),
        None => false,
    }
}
