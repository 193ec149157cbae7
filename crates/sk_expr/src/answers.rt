//! What a statement that is not refused comes to, over the rows that it read: a reply, and the writes that come with it.

ghost use Rattle.std.specs.Prelude.{◌≡◌, ◌∷◌, [], map, IfOk};
ghost use Rattle.std.specs.List.{list_all};
ghost use Rattle.sk_rows.specs.Memory.{Gives};
ghost use Rattle.sk_rows.specs.Evaluation.{wants_memory};
ghost use Rattle.sk_expr.specs.Changed.{rows_changed};
ghost use Rattle.sk_model.specs.declared.reply.Reply.TheVariants.{Count};
ghost use Rattle.sk_model.specs.Reads.{rows_met as rows_met_spec};
ghost use Rattle.sk_model.specs.Replies as spec;

use crate::changes::new_rows;
use crate::keys::key_of;
use crate::reads::{all_picked, rows_met};
use crate::rooms::has_room;
use sk_model::{ErrWord, KeyedRows, Reply, Write, WriteList};
use sk_rows::{
    Column, Copies, Expr, NameList, NoMemory, Row, SetItem, Statement, Table, Value, ValueFault,
};
use std::alloc::Global;

/// A reply, and the writes that come with it.
pub(crate) type Answer = (Reply, WriteList);

pub(crate) fn refused(alloc: Global, word: ErrWord) -> Answer
    ensures { result ≡ spec.refused word }
{
    (Reply::Refused(word), WriteList::new(alloc))
}

/// The reply of a count. A list of more than 4,294,967,295 rows counts as want of memory.
fn count(n: usize) -> Result<Reply, NoMemory>
    ensures { IfOk result (λ reply. reply ≡ Count n) }
{
    if n > u32::MAX as usize {
        return Err(NoMemory);
    }
    Ok(Reply::Count(n as u32))
}

fn row_put(table: u16, row: (Value, Row)) -> Write
    ensures { result ≡ spec.row_put table row }
{
    Write {
        table,
        key: row.0,
        row: Some(row.1),
    }
}

fn row_gone(table: u16, row: (Value, Row)) -> Write
    ensures { result ≡ spec.row_gone table row }
{
    Write {
        table,
        key: row.0,
        row: None,
    }
}

fn all_put(alloc: Global, table: u16, rows: KeyedRows) -> Result<WriteList, NoMemory>
    ensures { IfOk result (λ writes. writes ≡ map (spec.row_put table) rows) }
{
    let mut writes = Vec::with_capacity(alloc, rows.len())?;
    for row in rows.into_vec() {
        writes.push(row_put(table, row))?;
    }
    Ok(WriteList::from_vec(writes))
}

fn all_gone(alloc: Global, table: u16, rows: KeyedRows) -> Result<WriteList, NoMemory>
    ensures { IfOk result (λ writes. writes ≡ map (spec.row_gone table) rows) }
{
    let mut writes = Vec::with_capacity(alloc, rows.len())?;
    for row in rows.into_vec() {
        writes.push(row_gone(table, row))?;
    }
    Ok(WriteList::from_vec(writes))
}

fn all_have_room(rows: &[(Value, Row)]) -> bool
    ensures { result ≡ list_all (λ r. spec.has_room r.1) rows.now }
{
    rows.iter().all(|r| has_room(r.1.as_slice()))
}

fn values_put(alloc: Global, table: u16, values: &Row) -> Result<WriteList, NoMemory>
    ensures { IfOk result (λ writes. writes ≡ spec.row_put table (spec.key_of values.now, values.now) ∷ []) }
{
    let key = key_of(alloc, values.as_slice())?;
    WriteList::of_one(alloc, row_put(table, (key, values.copy(alloc)?)))
}

/// INSERT of these values, where these rows of its key were found.
fn inserted(
    alloc: Global,
    table: u16,
    values: &Row,
    rows: &[(Value, Row)],
) -> Result<Answer, NoMemory>
    ensures { IfOk result (λ a. a ≡ spec.inserted table values.now rows.now) }
{
    match rows {
        [_, ..] => Ok(refused(alloc, ErrWord::Duplicate)),
        [] => {
            if !has_room(values.as_slice()) {
                return Ok(refused(alloc, ErrWord::Size));
            }
            Ok((Reply::Count(1), values_put(alloc, table, values)?))
        }
    }
}

/// SELECT of the rows that meet the condition.
fn select_answer(
    alloc: Global,
    columns: &[Column],
    names: &Option<NameList>,
    cond: &Option<Expr>,
    rows: KeyedRows,
) -> Result<Answer, NoMemory>
    ensures { IfOk result (λ a. a ≡ spec.select_answer columns.now names.now (rows_met_spec columns.now cond.now rows)) }
{
    match rows_met(alloc, columns, cond, rows) {
        Err(ValueFault::NoMemory) => Err(NoMemory),
        Err(ValueFault::Overflow) => Ok(refused(alloc, ErrWord::Overflow)),
        Ok(met) => {
            let picked = all_picked(alloc, columns, names, met)?;
            Ok((Reply::Rows(picked), WriteList::new(alloc)))
        }
    }
}

/// The new rows of the rows that meet the condition.
fn changed(
    alloc: Global,
    columns: &[Column],
    sets: &[SetItem],
    cond: &Option<Expr>,
    rows: KeyedRows,
) -> Result<KeyedRows, ValueFault>
    ensures { Gives wants_memory result (rows_changed columns.now sets.now cond.now rows) }
{
    let met = rows_met(alloc, columns, cond, rows)?;
    new_rows(alloc, columns, sets, met.as_slice())
}

/// UPDATE of the rows that meet the condition.
fn updated(
    alloc: Global,
    columns: &[Column],
    table: u16,
    sets: &[SetItem],
    cond: &Option<Expr>,
    rows: KeyedRows,
) -> Result<Answer, NoMemory>
    ensures { IfOk result (λ a. a ≡ spec.updated table (rows_changed columns.now sets.now cond.now rows)) }
{
    match changed(alloc, columns, sets, cond, rows) {
        Err(ValueFault::NoMemory) => Err(NoMemory),
        Err(ValueFault::Overflow) => Ok(refused(alloc, ErrWord::Overflow)),
        Ok(new) => {
            if !all_have_room(new.as_slice()) {
                return Ok(refused(alloc, ErrWord::Size));
            }
            let reply = count(new.len())?;
            Ok((reply, all_put(alloc, table, new)?))
        }
    }
}

/// DELETE of the rows that meet the condition.
fn deleted(
    alloc: Global,
    columns: &[Column],
    table: u16,
    cond: &Option<Expr>,
    rows: KeyedRows,
) -> Result<Answer, NoMemory>
    ensures { IfOk result (λ a. a ≡ spec.deleted table (rows_met_spec columns.now cond.now rows)) }
{
    match rows_met(alloc, columns, cond, rows) {
        Err(ValueFault::NoMemory) => Err(NoMemory),
        Err(ValueFault::Overflow) => Ok(refused(alloc, ErrWord::Overflow)),
        Ok(met) => {
            let reply = count(met.len())?;
            Ok((reply, all_gone(alloc, table, met)?))
        }
    }
}

/// What a statement that is not refused comes to, over the rows that it read of its table, whose number is `number`: a
/// reply, and the writes that come with it. The rows that it answers are those that it got, and no copies. BEGIN, COMMIT and ROLLBACK, which no table answers, come to a refusal.
///
/// # Errors
///
/// `NoMemory` alone. A count past 4,294,967,295 rows counts as want of memory.
pub fn comes_to(
    alloc: Global,
    table: &Table,
    number: u16,
    statement: &Statement,
    rows: KeyedRows,
) -> Result<(Reply, WriteList), NoMemory>
    ensures { IfOk result (λ a. a ≡ spec.comes_to table.now.columns number statement.now rows) }
{
    let columns = table.columns.as_slice();
    match statement {
        Statement::Begin(_) | Statement::Commit | Statement::Rollback => {
            Ok(refused(alloc, ErrWord::Table))
        }
        Statement::Insert { values, .. } => inserted(alloc, number, values, rows.as_slice()),
        Statement::Select {
            columns: names,
            cond,
            ..
        } => select_answer(alloc, columns, names, cond, rows),
        Statement::Update { sets, cond, .. } => {
            updated(alloc, columns, number, sets.as_slice(), cond, rows)
        }
        Statement::Delete { cond, .. } => deleted(alloc, columns, number, cond, rows),
    }
}
