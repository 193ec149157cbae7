//! Rows as cells of pages.

ghost use Rattle.std.specs.Prelude.{◌≡◌, ◌≤◌, ◌↔◌, ◌&&◌, ◌==◌, ℕ, List, length, Option, Some, None, true, IsTrue, IfOk, IfErr};
ghost use Rattle.sk_rows.specs.declared.value.Value.{Value as AnyValue};
ghost use Rattle.sk_rows.specs.Values.{Fits};
ghost use Rattle.sk_model.specs.Replies.{key_of};
ghost use Rattle.sk_model.specs.declared.call.EngineFault.TheVariants as engine_fault;
ghost use Rattle.sk_codec.specs.Spelling.{AreValues, IsValue, row_bytes};
ghost use Rattle.sk_store.specs.Cells.{Cells};
ghost use Rattle.sk_store.specs.Calls.{HasFault, KeepsCells};
ghost use Rattle.sk_store.specs.Writes.{IsRefusal, IsSmall, IsSmallRow, PutsCell, WritesCell};
ghost use Rattle.sk_store.specs.Shown.{IsCell, MayBe};

use crate::head::Spot;
use crate::pages::{PageFault, Pages};
use sk_codec::{CodecFault, put_row, read_row};
use sk_model::EngineFault;
use sk_rows::{NoMemory, Row, Table, Value};
use std::alloc::Global;

/// The words of the engine for a fault of its pages.
pub(crate) fn engine_fault(fault: PageFault) -> EngineFault
    ensures { (before now : ℕ) → HasFault before now fault → IsRefusal before now result }
{
    match fault {
        PageFault::Device => EngineFault::Device,
        PageFault::NoMemory => EngineFault::NoMemory,
    }
}

/// Whether the row begins with this key.
fn begins_with(row: &Row, key: &Value) -> bool
    ensures { IsTrue result ↔ (key.now ≡ key_of row.now) }
{
    match row.get(0) {
        Some(first) => key.is_same(first),
        None => matches!(key, Value::Bool(false)),
    }
}

/// The row of this key that the bytes spell. A device may give other bytes than were written: where they spell no row of the key,
/// there is none.
fn decoded(
    alloc: Global,
    bytes: &[u8],
    table: &Table,
    key: &Value,
) -> Result<Option<Row>, EngineFault>
    ensures memory { IfErr result (λ e. e ≡ engine_fault.NoMemory) }
    ensures fits { IfOk result (λ row. MayBe table.now.columns key.now row) }
    ensures exact { (row : List AnyValue) → Fits row table.now.columns → AreValues row → key.now ≡ key_of row → bytes.now ≡ row_bytes row → IfOk result (λ r. r ≡ Some row) }
{
    match read_row(alloc, bytes, table) {
        Ok(row) => {
            if begins_with(&row, key) {
                Ok(Some(row))
            } else {
                Ok(None)
            }
        }
        Err(CodecFault::NoMemory) => Err(EngineFault::NoMemory),
        Err(_) => Ok(None),
    }
}

/// The row in the cell. An absence has no cell.
pub(crate) fn fetch_cell<P: Pages>(
    alloc: Global,
    pages: &mut P,
    cell: Option<Spot>,
    table: &Table,
    key: &Value,
) -> Result<Option<Row>, EngineFault>
    ensures later { P.faults pages.old ≤ P.faults pages.new }
    ensures caused { IfErr result (λ e. IsRefusal (P.faults pages.old) (P.faults pages.new) e) }
    ensures keeps { KeepsCells P.has pages.old pages.new }
    ensures fits { IfOk result (λ row. MayBe table.now.columns key.now row) }
    ensures exact { (cells : Cells) (row : Option (List AnyValue)) → P.told ≡ true → P.has pages.old cells → IsCell cells table.now.columns key.now cell row → IfOk result (λ r. r ≡ row) }
{
    let Some(at) = cell else {
        return Ok(None);
    };
    let mut bytes = Vec::new(alloc);
    match pages.read(at.page, at.slot, &mut bytes) {
        Ok(true) => decoded(alloc, bytes.as_slice(), table, key),
        Ok(false) => Ok(None),
        Err(fault) => Err(engine_fault(fault)),
    }
}

/// What a value of a program obeys.
fn tell_value(value: &Value)
    ensures { IsValue value.now }
{
    match value {
        Value::Int(n) => {
            let _n = *n;
        }
        Value::Text(text) => {
            let _bytes = text.as_slice();
        }
        Value::Bool(_) => {}
    }
}

/// What the values of a program's row obey.
fn tell_values(values: &[Value])
    ensures { AreValues values.now }
{
    let mut list = values;
    while let [value, rest @ ..] = list {
        tell_value(value);
        list = rest;
    }
}

/// The bytes of a row.
#[tactic(auto, using(crate::proofs::Lengths::row_len))]
fn encoded(alloc: Global, row: &Row) -> Result<Vec<u8>, NoMemory>
    requires { IsSmall row.now }
    ensures ok { IfOk result (λ bytes. bytes.items ≡ row_bytes row.now) }
    ensures small { IfOk result (λ bytes. length bytes.items ≤ 4084) }
    ensures values { AreValues row.now }
{
    tell_values(row.as_slice());
    let mut bytes = Vec::new(alloc);
    put_row(&mut bytes, row)?;
    Ok(bytes)
}

fn is_same(a: Spot, b: Spot) -> bool
    ensures { result ≡ ((a.page == b.page) && (a.slot == b.slot)) }
{
    a.page == b.page && a.slot == b.slot
}

/// Puts the bytes into a slot that is not in use.
fn insert_cell<P: Pages>(pages: &mut P, bytes: &[u8]) -> Result<Spot, PageFault>
    requires { length bytes.now ≤ 4084 }
    ensures later { P.faults pages.old ≤ P.faults pages.new }
    ensures caused { IfErr result (λ e. HasFault (P.faults pages.old) (P.faults pages.new) e) }
    ensures puts { PutsCell P.has P.told pages.old pages.new None bytes.now result }
{
    match pages.insert(bytes) {
        Ok((page, slot)) => Ok(Spot { page, slot }),
        Err(fault) => Err(fault),
    }
}

/// Puts the bytes into another slot, and takes the cell away that had the old ones.
fn move_cell<P: Pages>(pages: &mut P, old: Spot, bytes: &[u8]) -> Result<Spot, PageFault>
    requires { length bytes.now ≤ 4084 }
    ensures later { P.faults pages.old ≤ P.faults pages.new }
    ensures caused { IfErr result (λ e. HasFault (P.faults pages.old) (P.faults pages.new) e) }
    ensures puts { PutsCell P.has P.told pages.old pages.new (Some old) bytes.now result }
{
    let new = insert_cell(pages, bytes)?;
    if !is_same(old, new) {
        // Where this fails, a cell stays that no head names.
        let _ = pages.remove(old.page, old.slot);
    }
    Ok(new)
}

/// Puts the bytes into the cell, or where there is none or no room, into another one.
fn put_cell<P: Pages>(pages: &mut P, cell: Option<Spot>, bytes: &[u8]) -> Result<Spot, PageFault>
    requires { length bytes.now ≤ 4084 }
    ensures later { P.faults pages.old ≤ P.faults pages.new }
    ensures caused { IfErr result (λ e. HasFault (P.faults pages.old) (P.faults pages.new) e) }
    ensures puts { PutsCell P.has P.told pages.old pages.new cell bytes.now result }
{
    let Some(at) = cell else {
        return insert_cell(pages, bytes);
    };
    match pages.replace(at.page, at.slot, bytes) {
        Ok(true) => Ok(at),
        Ok(false) => move_cell(pages, at, bytes),
        Err(fault) => Err(fault),
    }
}

/// Takes the cell away, if there is one.
fn remove_cell<P: Pages>(pages: &mut P, cell: Option<Spot>) -> Result<Option<Spot>, EngineFault>
    ensures later { P.faults pages.old ≤ P.faults pages.new }
    ensures caused { IfErr result (λ e. IsRefusal (P.faults pages.old) (P.faults pages.new) e) }
    ensures writes { WritesCell P.has P.told pages.old pages.new cell None result }
{
    let Some(at) = cell else {
        return Ok(None);
    };
    match pages.remove(at.page, at.slot) {
        Ok(()) => Ok(None),
        Err(fault) => Err(engine_fault(fault)),
    }
}

/// Puts the row into the cell, or where there is none or no room, into another one, and answers which. An absence has no cell.
pub(crate) fn write_cell<P: Pages>(
    alloc: Global,
    pages: &mut P,
    cell: Option<Spot>,
    row: &Option<Row>,
) -> Result<Option<Spot>, EngineFault>
    requires { IsSmallRow row.now }
    ensures later { P.faults pages.old ≤ P.faults pages.new }
    ensures caused { IfErr result (λ e. IsRefusal (P.faults pages.old) (P.faults pages.new) e) }
    ensures writes { WritesCell P.has P.told pages.old pages.new cell row.now result }
{
    let Some(row) = row else {
        return remove_cell(pages, cell);
    };
    let Ok(bytes) = encoded(alloc, row) else {
        return Err(EngineFault::NoMemory);
    };
    match put_cell(pages, cell, bytes.as_slice()) {
        Ok(at) => Ok(Some(at)),
        Err(fault) => Err(engine_fault(fault)),
    }
}
