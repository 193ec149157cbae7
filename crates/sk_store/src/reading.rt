//! What a reader gets of a row.

ghost use Rattle.std.specs.Prelude.{◌≡◌, ◌≤◌, ℕ, true, IfOk, IfErr};
ghost use Rattle.std.specs.Option.{option_copied};
ghost use Rattle.sk_model.specs.declared.call.EngineFault.TheVariants as engine_fault;
ghost use Rattle.sk_model.specs.declared.call.EngineReply.TheVariants.{Found};
ghost use Rattle.sk_chain.specs.Chained.{Chained};
ghost use Rattle.sk_chain.specs.Promise.{replied};
ghost use Rattle.sk_chain.specs.Reading.{last_upto};
ghost use Rattle.sk_engine.specs.Rows.{GivesReply, reading, row_in};
ghost use Rattle.sk_undo.specs.Log.{record_at, row_of, row_seen};
ghost use Rattle.sk_store.specs.Cells.{Cells};
ghost use Rattle.sk_store.specs.Calls.{KeepsCells};
ghost use Rattle.sk_store.specs.Writes.{IsRefusal};
ghost use Rattle.sk_store.specs.Reads.{IsRowOf};
ghost use Rattle.sk_store.specs.Shown.{MayBe, RowShows};

use crate::cells::fetch_cell;
use crate::head::{Head, Sight, is_upto};
use crate::pages::Pages;
use sk_model::{EngineFault, Label};
use sk_rows::{Copies, NoMemory, Row, Table, Value};
use std::alloc::Global;

/// The row of the newest version up to this number among the undo records.
fn copied(alloc: Global, head: &Head, n: u32) -> Result<Option<Row>, EngineFault>
    ensures ok { IfOk result (λ r. r ≡ row_seen head.now.undo head.now.older n) }
    ensures memory { IfErr result (λ e. e ≡ engine_fault.NoMemory) }
{
    let Some(row) = head.undo.row_for(head.older, n) else {
        return Ok(None);
    };
    match row.copy(alloc) {
        Ok(row) => Ok(Some(row)),
        Err(NoMemory) => Err(EngineFault::NoMemory),
    }
}

/// The row of the newest stamped version up to this number.
pub(crate) fn read_stamped<P: Pages>(
    alloc: Global,
    pages: &mut P,
    head: &Head,
    table: &Table,
    key: &Value,
    n: u32,
) -> Result<Option<Row>, EngineFault>
    ensures later { P.faults pages.old ≤ P.faults pages.new }
    ensures caused { IfErr result (λ e. IsRefusal (P.faults pages.old) (P.faults pages.new) e) }
    ensures keeps { KeepsCells P.has pages.old pages.new }
    ensures fits { ((at : ℕ) → MayBe table.now.columns key.now (row_of (record_at head.now.undo at))) → IfOk result (λ row. MayBe table.now.columns key.now row) }
    ensures exact { (cells : Cells) (c : Chained) → P.told ≡ true → P.has pages.old cells → RowShows P.told cells table.now.columns key.now head.now c → IfOk result (λ r. r ≡ row_in (last_upto n c.settled)) }
{
    if is_upto(head.settled_number(), n) {
        fetch_cell(alloc, pages, head.cell, table, key)
    } else {
        copied(alloc, head, n)
    }
}

/// What a reader at the snapshot gets of a row.
pub(crate) fn read_head<P: Pages>(
    alloc: Global,
    pages: &mut P,
    head: &Head,
    table: &Table,
    key: &Value,
    by: Label,
    snapshot: u32,
) -> Result<Option<Row>, EngineFault>
    ensures later { P.faults pages.old ≤ P.faults pages.new }
    ensures keeps { KeepsCells P.has pages.old pages.new }
    ensures fits { ((at : ℕ) → MayBe table.now.columns key.now (row_of (record_at head.now.undo at))) → IfOk result (λ row. MayBe table.now.columns key.now row) }
    ensures reads { (cells : Cells) (c : Chained) → P.has pages.old cells → RowShows P.told cells table.now.columns key.now head.now c
        → GivesReply P.told (P.faults pages.old) (P.faults pages.new) (IsRowOf table.now.columns key.now (reading c by snapshot) (replied Found result)) (reading c by snapshot) (replied Found result) }
{
    match head.sight(by, snapshot) {
        Sight::Own => fetch_cell(alloc, pages, head.cell, table, key),
        Sight::Stamped => read_stamped(alloc, pages, head, table, key, snapshot),
        Sight::Waits { by } => Err(EngineFault::Busy { by }),
    }
}
