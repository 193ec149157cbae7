//! Writing a row.

ghost use Rattle.std.specs.Prelude.{◌≡◌, ◌≤◌, ℕ, List, Option, None, Some, IfOk, IfErr};
ghost use Rattle.sk_rows.specs.declared.value.Value.{Value as AnyValue};
ghost use Rattle.sk_rows.specs.declared.table.Column.{Column};
ghost use Rattle.sk_model.specs.declared.call.EngineFault.TheVariants as engine_fault;
ghost use Rattle.sk_chain.specs.Chained.{Chained};
ghost use Rattle.sk_chain.specs.Changing.{pushed};
ghost use Rattle.sk_undo.specs.Log.{AreWhole, IsFree, IsOlder, record_at, row_seen};
ghost use Rattle.sk_store.specs.Cells.{Cells};
ghost use Rattle.sk_store.specs.Heads.{settled_number};
ghost use Rattle.sk_store.specs.Shown.{MayBe, RowShows};
ghost use Rattle.sk_store.specs.Writes.{IsRefusal, IsSmallRow, RowPushed, WroteOr};

use crate::cells::{fetch_cell, write_cell};
use crate::head::{Head, Holds};
use crate::pages::Pages;
use sk_model::{EngineFault, Label};
use sk_rows::{Row, Table, Value};
use sk_undo::UndoLog;
use std::alloc::Global;

/// Writes over a version that is not stamped, or where there is none.
fn write_over<P: Pages>(
    alloc: Global,
    pages: &mut P,
    head: &mut Head,
    by: Label,
    row: &Option<Row>,
) -> Result<(), EngineFault>
    requires small { IsSmallRow row.now }
    requires over { settled_number head.old.holds head.old.newest ≡ None }
    ensures later { P.faults pages.old ≤ P.faults pages.new }
    ensures caused { IfErr result (λ e. IsRefusal (P.faults pages.old) (P.faults pages.new) e) }
    ensures writes { (cells : Cells) (columns : List Column) (key : AnyValue) (c : Chained) → P.has pages.old cells → RowShows P.told cells columns key head.old c → MayBe columns key row.now
        → WroteOr P.has P.told pages.new cells columns key head.old.cell head.new c (pushed c by row.now) result }
{
    match write_cell(alloc, pages, head.cell, row) {
        Ok(cell) => {
            head.cell = cell;
            head.holds = Holds::Pending { by, floor: None };
            Ok(())
        }
        Err(fault) => Err(fault),
    }
}

/// A place for an undo record that names `older`. Numbers of a row rise, so a record of a smaller number is there to be named; where
/// it is not, no place is given.
fn claim_place(undo: &mut UndoLog, older: Option<u32>, n: u32) -> Result<u32, EngineFault>
    ensures seen { (from : Option ℕ) (s : ℕ) → row_seen undo.new from s ≡ row_seen undo.old from s }
    ensures same { (q : ℕ) → record_at undo.new q ≡ record_at undo.old q }
    ensures ok { IfOk result (λ at. AreWhole undo.new × IsFree undo.new at × IsOlder undo.new older n) }
    ensures memory { IfErr result (λ e. e ≡ engine_fault.NoMemory) }
{
    match undo.claim() {
        Ok(at) => {
            if undo.may_name(older, n) {
                Ok(at)
            } else {
                Err(EngineFault::NoMemory)
            }
        }
        Err(_) => Err(EngineFault::NoMemory),
    }
}

/// Writes over the stamped version of this number, which becomes an undo record. What can be refused comes before the cell is
/// written, and nothing behind it.
fn write_on<P: Pages>(
    alloc: Global,
    pages: &mut P,
    head: &mut Head,
    table: &Table,
    key: &Value,
    by: Label,
    n: u32,
    row: &Option<Row>,
) -> Result<(), EngineFault>
    requires small { IsSmallRow row.now }
    requires on { settled_number head.old.holds head.old.newest ≡ Some n }
    ensures later { P.faults pages.old ≤ P.faults pages.new }
    ensures caused { IfErr result (λ e. IsRefusal (P.faults pages.old) (P.faults pages.new) e) }
    ensures writes { (cells : Cells) (c : Chained) → P.has pages.old cells → RowShows P.told cells table.now.columns key.now head.old c → MayBe table.now.columns key.now row.now
        → WroteOr P.has P.told pages.new cells table.now.columns key.now head.old.cell head.new c (pushed c by row.now) result }
{
    let old = match fetch_cell(alloc, pages, head.cell, table, key) {
        Ok(old) => old,
        Err(fault) => return Err(fault),
    };
    let place = match claim_place(&mut head.undo, head.older, n) {
        Ok(place) => place,
        Err(fault) => return Err(fault),
    };
    match write_cell(alloc, pages, head.cell, row) {
        Ok(cell) => {
            head.undo.fill(place, head.older, n, old);
            head.older = Some(place);
            head.cell = cell;
            head.holds = Holds::Pending { by, floor: None };
            Ok(())
        }
        Err(fault) => Err(fault),
    }
}

fn write_row<P: Pages>(
    alloc: Global,
    pages: &mut P,
    head: &mut Head,
    table: &Table,
    key: &Value,
    by: Label,
    row: &Option<Row>,
) -> Result<(), EngineFault>
    requires small { IsSmallRow row.now }
    ensures later { P.faults pages.old ≤ P.faults pages.new }
    ensures caused { IfErr result (λ e. IsRefusal (P.faults pages.old) (P.faults pages.new) e) }
    ensures writes { (cells : Cells) (c : Chained) → P.has pages.old cells → RowShows P.told cells table.now.columns key.now head.old c → MayBe table.now.columns key.now row.now
        → WroteOr P.has P.told pages.new cells table.now.columns key.now head.old.cell head.new c (pushed c by row.now) result }
{
    match head.settled_number() {
        None => write_over(alloc, pages, head, by, row),
        Some(n) => write_on(alloc, pages, head, table, key, by, n, row),
    }
}

/// A write. Answers whether it is the transaction's first to this row.
pub(crate) fn push_row<P: Pages>(
    alloc: Global,
    pages: &mut P,
    head: &mut Head,
    table: &Table,
    key: &Value,
    by: Label,
    snapshot: u32,
    row: &Option<Row>,
) -> Result<bool, EngineFault>
    requires small { IsSmallRow row.now }
    ensures later { P.faults pages.old ≤ P.faults pages.new }
    ensures pushes { (cells : Cells) (c : Chained) → P.has pages.old cells → RowShows P.told cells table.now.columns key.now head.old c → MayBe table.now.columns key.now row.now
        → RowPushed P.has P.told (P.faults pages.old) (P.faults pages.new) pages.new cells table.now.columns key.now head.old.cell head.new c by snapshot row.now result }
{
    if let Some(blocked) = head.conflict(by, snapshot) {
        return Err(EngineFault::Conflict {
            by: blocked.by,
            why: blocked.why,
        });
    }
    let first = !head.is_by(by);
    match write_row(alloc, pages, head, table, key, by, row) {
        Ok(()) => Ok(first),
        Err(fault) => Err(fault),
    }
}
