//! The rows that an engine begins with.

ghost use Rattle.std.specs.Prelude.{◌≤◌, ℕ, List, [], ◌∷◌, IfOk, length};
ghost use Rattle.sk_rows.specs.declared.table.Table.{Table as AnyTable};
ghost use Rattle.sk_rows.specs.Limits.{most_tables};
ghost use Rattle.sk_model.specs.Database.{row_of};
ghost use Rattle.sk_chain.specs.Chained.{empty};
ghost use Rattle.sk_engine.specs.Rows.{Chains};
ghost use Rattle.sk_engine.specs.Stands.{begun};
ghost use Rattle.sk_store.specs.Loading.{AreOpeningRows, Loads, MayLoad};

use sk_engine::{Act, Rows};
use sk_model::{EngineFault, KeyedRows, Label};
use sk_rows::{Copies, NoMemory, Row, Value};
use std::alloc::Global;

/// By whom the rows are that an engine begins with: no transaction has this label.
const NOBODY: Label = Label { session: 0, k: 0 };

/// Writes a row that has no version yet, and stamps it with the number.
fn load_row<R: Rows>(
    alloc: Global,
    rows: &mut R,
    table: u16,
    entry: &(Value, Row),
    start: u32,
) -> Result<(), EngineFault>
    requires { MayLoad R.shows rows.old table (entry.now ∷ []) }
    ensures { IfOk result (λ _. Loads R.shows rows.old rows.new start table (entry.now ∷ [])) }
{
    let (key, row) = entry;
    let row = match row.copy(alloc) {
        Ok(row) => row,
        Err(NoMemory) => return Err(EngineFault::NoMemory),
    };
    rows.push(table, key, NOBODY, start, Some(row))?;
    rows.act(table, key, Act::Close { floor: 0 });
    rows.act(table, key, Act::Stamp { n: start });
    Ok(())
}

/// The same of the rows of a table, in the order of their keys.
fn load_rows<R: Rows>(
    alloc: Global,
    rows: &mut R,
    table: u16,
    entries: &[(Value, Row)],
    start: u32,
) -> Result<(), EngineFault>
    requires { MayLoad R.shows rows.old table entries.now }
    ensures { IfOk result (λ _. Loads R.shows rows.old rows.new start table entries.now) }
{
    let mut list = entries;
    while let [entry, rest @ ..] = list {
        load_row(alloc, rows, table, entry, start)?;
        list = rest;
    }
    Ok(())
}

/// Gives rows without versions those that an engine begins with, one list a table, each stamped with the number.
pub(crate) fn load_tables<R: Rows>(
    alloc: Global,
    rows: &mut R,
    opening: &[KeyedRows],
    start: u32,
) -> Result<(), EngineFault>
    requires few { length opening.now ≤ most_tables }
    requires fit { (tables : List AnyTable) × R.shows rows.old tables (λ t key. empty) × AreOpeningRows tables opening.now }
    ensures { IfOk result (λ _. (tables : List AnyTable) → R.shows rows.old tables (λ t key. empty) → AreOpeningRows tables opening.now → R.shows rows.new tables (λ t key. begun start (row_of opening.now t key))) }
{
    let mut number: u16 = 0;
    for entries in opening {
        load_rows(alloc, rows, number, entries.as_slice(), start)?;
        number += 1;
    }
    Ok(())
}
