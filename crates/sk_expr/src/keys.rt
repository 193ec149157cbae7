//! What a statement asks for: its table, and the rows that it reads of it.

ghost use Rattle.std.specs.Prelude.{◌≡◌, IfOk};
ghost use Rattle.std.specs.Option.{option_copied};
ghost use Rattle.sk_model.specs.Replies as spec;

use crate::shapes::key_asked;
use sk_rows::{Copies, NoMemory, Statement, Table, Txt, Value};
use std::alloc::Global;

/// The table that a statement names, where a table answers it: BEGIN, COMMIT and ROLLBACK name none.
pub fn target_table(statement: &Statement) -> Option<&Txt>
    ensures { option_copied result ≡ spec.target_table statement.now }
{
    match statement {
        Statement::Begin(_) | Statement::Commit | Statement::Rollback => None,
        Statement::Insert { table, .. }
        | Statement::Select { table, .. }
        | Statement::Update { table, .. }
        | Statement::Delete { table, .. } => Some(table),
    }
}

/// The key of a row: its first value, and FALSE where it has none.
pub(crate) fn key_of(alloc: Global, values: &[Value]) -> Result<Value, NoMemory>
    ensures { IfOk result (λ key. key ≡ spec.key_of values.now) }
{
    match values {
        [] => Ok(Value::Bool(false)),
        [key, ..] => key.copy(alloc),
    }
}

fn copied(alloc: Global, key: Option<&Value>) -> Result<Option<Value>, NoMemory>
    ensures { IfOk result (λ copy. copy ≡ option_copied key.entry) }
{
    match key {
        None => Ok(None),
        Some(key) => Ok(Some(key.copy(alloc)?)),
    }
}

/// The one key that a statement reads of its table, or None where it reads all rows. That of an INSERT of no values is
/// FALSE, which no table has.
///
/// # Errors
///
/// `NoMemory` alone: the key is a copy.
pub fn key_read(
    alloc: Global,
    table: &Table,
    statement: &Statement,
) -> Result<Option<Value>, NoMemory>
    ensures { IfOk result (λ key. key ≡ spec.key_read table.now.columns statement.now) }
{
    let columns = table.columns.as_slice();
    match statement {
        Statement::Begin(_) | Statement::Commit | Statement::Rollback => Ok(None),
        Statement::Insert { values, .. } => Ok(Some(key_of(alloc, values.as_slice())?)),
        Statement::Select { cond, .. }
        | Statement::Update { cond, .. }
        | Statement::Delete { cond, .. } => copied(alloc, key_asked(columns, cond)),
    }
}
