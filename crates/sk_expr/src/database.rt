//! One database that answers statements.

ghost use Rattle.std.specs.Prelude.{◌≡◌, ◌<◌, length, Some, IfOk};
ghost use Rattle.std.specs.Option.{option_copied};
ghost use Rattle.std.specs.FinMap.{find};
ghost use Rattle.sk_rows.specs.Values.{value_cmp};
ghost use Rattle.sk_model.specs.Database.{table_of as table_of_spec};
ghost use Rattle.sk_model.specs.Names.{table_at};
ghost use Rattle.sk_model.specs.Reads.{one_row as one_row_spec, rows_read};
ghost use Rattle.sk_model.specs.Replies as spec;

use crate::answers::{Answer, comes_to, refused};
use crate::keys::{key_read, target_table};
use crate::refusals::refusal;
use sk_model::{ErrWord, KeyedRows};
use sk_rows::{Catalog, Copies, NoMemory, Row, Statement, Table, Txt, Value};
use std::alloc::Global;

fn table_of(tables: &[KeyedRows], number: u16) -> &[(Value, Row)]
    ensures { result.now ≡ table_of_spec tables.now number }
{
    match tables.get(number as usize) {
        None => &[],
        Some(rows) => rows.as_slice(),
    }
}

/// The row of a key, if there is one.
fn row_at<'a>(rows: &'a [(Value, Row)], key: &Value) -> Option<&'a Row>
    ensures { option_copied result ≡ find value_cmp key.now rows.now }
{
    for row in rows {
        if key.compare(&row.0).is_eq() {
            return Some(&row.1);
        }
    }
    None
}

fn one_row(alloc: Global, key: Value, row: Option<&Row>) -> Result<KeyedRows, NoMemory>
    ensures { IfOk result (λ rows. rows ≡ one_row_spec key (option_copied row.entry)) }
{
    let mut rows = KeyedRows::new(alloc);
    if let Some(row) = row {
        rows.push((key, row.copy(alloc)?))?;
    }
    Ok(rows)
}

fn all_rows(alloc: Global, rows: &[(Value, Row)]) -> Result<KeyedRows, NoMemory>
    ensures { IfOk result (λ list. list ≡ rows.now) }
{
    let mut out = Vec::with_capacity(alloc, rows.len())?;
    for item in rows {
        out.push((item.0.copy(alloc)?, item.1.copy(alloc)?))?;
    }
    Ok(KeyedRows::from_vec(out))
}

/// What a statement that is not refused comes to, over those of these rows that it reads.
fn read(
    alloc: Global,
    table: &Table,
    number: u16,
    statement: &Statement,
    rows: &[(Value, Row)],
) -> Result<Answer, NoMemory>
    ensures { IfOk result (λ a. a ≡ spec.comes_to table.now.columns number statement.now (rows_read rows.now (spec.key_read table.now.columns statement.now))) }
{
    match key_read(alloc, table, statement)? {
        None => comes_to(alloc, table, number, statement, all_rows(alloc, rows)?),
        Some(key) => {
            let row = row_at(rows, &key);
            let one = one_row(alloc, key, row)?;
            comes_to(alloc, table, number, statement, one)
        }
    }
}

/// The answer of a table with these rows.
fn answer_in(
    alloc: Global,
    table: &Table,
    number: u16,
    statement: &Statement,
    rows: &[(Value, Row)],
) -> Result<Answer, NoMemory>
    ensures { IfOk result (λ a. a ≡ spec.answer_in table.now.columns number statement.now rows.now (spec.refusal_in table.now.columns statement.now)) }
{
    match refusal(table, statement) {
        Some(word) => Ok(refused(alloc, word)),
        None => read(alloc, table, number, statement, rows),
    }
}

/// The answer of the table of this number.
#[tactic(auto, using(crate::proofs::Tables::columns_there))]
fn answer_at(
    alloc: Global,
    catalog: &Catalog,
    tables: &[KeyedRows],
    statement: &Statement,
    number: u16,
) -> Result<Answer, NoMemory>
    requires { number < length catalog.now }
    ensures { IfOk result (λ a. a ≡ spec.answer_on catalog.now tables.now statement.now (Some number)) }
{
    let table = &catalog.tables()[number as usize];
    answer_in(alloc, table, number, statement, table_of(tables, number))
}

/// The answer of the table of this name, where it is there.
#[tactic(auto, using(crate::proofs::Tables::table_within))]
fn answer_on(
    alloc: Global,
    catalog: &Catalog,
    tables: &[KeyedRows],
    statement: &Statement,
    name: &Txt,
) -> Result<Answer, NoMemory>
    ensures { IfOk result (λ a. a ≡ spec.answer_on catalog.now tables.now statement.now (table_at catalog.now name.now)) }
{
    match catalog.find(name) {
        None => Ok(refused(alloc, ErrWord::Table)),
        Some(number) => answer_at(alloc, catalog, tables, statement, number),
    }
}

/// What the database answers, where it is the database that answers.
pub(crate) fn answer(
    alloc: Global,
    catalog: &Catalog,
    tables: &[KeyedRows],
    statement: &Statement,
) -> Result<Option<Answer>, NoMemory>
    ensures { IfOk result (λ a. a ≡ spec.answer_of catalog.now tables.now statement.now) }
{
    match target_table(statement) {
        None => Ok(None),
        Some(name) => Ok(Some(answer_on(alloc, catalog, tables, statement, name)?)),
    }
}
