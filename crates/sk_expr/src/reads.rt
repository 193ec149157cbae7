//! The rows that meet a condition, and their columns that are asked for.

ghost use Rattle.std.specs.Prelude.{◌≡◌, [], ◌∷◌, ◌++◌, map, Some, IfOk, OnOk};
ghost use Rattle.sk_rows.specs.Memory.{Gives};
ghost use Rattle.sk_rows.specs.Evaluation.{wants_memory};
ghost use Rattle.sk_model.specs.Reads as spec;

use sk_eval::{column_value, holds_over};
use sk_model::{KeyedRows, RowList};
use sk_rows::{Column, Expr, NameList, NoMemory, Row, Value, ValueFault};
use std::alloc::Global;

fn put(out: &mut KeyedRows, row: (Value, Row)) -> Result<(), NoMemory>
    ensures { OnOk result (out.new ≡ out.old ++ row ∷ []) }
{
    Ok(out.push(row)?)
}

/// The rows that meet the condition.
fn rows_holding(
    alloc: Global,
    columns: &[Column],
    cond: &Expr,
    rows: KeyedRows,
) -> Result<KeyedRows, ValueFault>
    ensures { Gives wants_memory result (spec.rows_met columns.now (Some cond.now) rows) }
{
    let mut out = KeyedRows::new(alloc);
    for row in rows.into_vec() {
        if holds_over(alloc, cond, columns, row.1.as_slice())? {
            put(&mut out, row)?;
        }
    }
    Ok(out)
}

/// Those of these rows that meet the condition; a missing one is TRUE.
#[tactic(auto, using(crate::proofs::Taking::all_met))]
pub(crate) fn rows_met(
    alloc: Global,
    columns: &[Column],
    cond: &Option<Expr>,
    rows: KeyedRows,
) -> Result<KeyedRows, ValueFault>
    ensures { Gives wants_memory result (spec.rows_met columns.now cond.now rows) }
{
    match cond {
        None => Ok(rows),
        Some(cond) => rows_holding(alloc, columns, cond, rows),
    }
}

fn named(
    alloc: Global,
    columns: &[Column],
    names: &NameList,
    row: &[Value],
) -> Result<Row, NoMemory>
    ensures { IfOk result (λ picked. picked ≡ spec.picked columns.now (Some names.now) row.now) }
{
    let all = names.as_slice();
    let mut out = Vec::with_capacity(alloc, all.len())?;
    for name in all {
        out.push(column_value(alloc, name, columns, row)?)?;
    }
    Ok(Row::from_vec(out))
}

/// The values of a row that are asked for; no list of names stands for all columns.
fn picked(
    alloc: Global,
    columns: &[Column],
    names: &Option<NameList>,
    row: Row,
) -> Result<Row, NoMemory>
    ensures { IfOk result (λ picked. picked ≡ spec.picked columns.now names.now row) }
{
    match names {
        None => Ok(row),
        Some(names) => named(alloc, columns, names, row.as_slice()),
    }
}

/// The named columns of the rows; no list of names stands for all columns.
pub(crate) fn all_picked(
    alloc: Global,
    columns: &[Column],
    names: &Option<NameList>,
    rows: KeyedRows,
) -> Result<RowList, NoMemory>
    ensures { IfOk result (λ list. list ≡ map (λ r. spec.picked columns.now names.now r.1) rows) }
{
    let mut out = Vec::with_capacity(alloc, rows.len())?;
    for (_, row) in rows.into_vec() {
        out.push(picked(alloc, columns, names, row)?)?;
    }
    Ok(RowList::from_vec(out))
}
