//! The value of an expression.

ghost use Rattle.std.specs.Prelude.{◌≡◌, IfOk};
ghost use Rattle.sk_rows.specs.Memory.{Gives};
ghost use Rattle.sk_rows.specs.Spine.{first_of};
ghost use Rattle.sk_rows.specs.Evaluation.{column_value as column_value_of, holds_in, value_in, wants_memory};
ghost use Rattle.sk_eval.specs.Seen.{result_seen};

use crate::seen::{Seen, column_seen, compute, is_true, owned, see};
use sk_rows::{Column, Expr, First, NoMemory, Row, Table, Txt, Value, ValueFault};
use std::alloc::Global;

/// A copy of the value in the column of this name; where there is none, FALSE.
///
/// # Errors
///
/// Want of memory for the copy of a text.
pub fn column_value(
    alloc: Global,
    name: &Txt,
    columns: &[Column],
    row: &[Value],
) -> Result<Value, NoMemory>
    ensures { IfOk result (λ v. v ≡ column_value_of name.now columns.now row.now) }
{
    owned(alloc, column_seen(name, columns, row))
}

#[cycle(value)]
fn first_over<'a>(
    alloc: Global,
    first: First<'a>,
    columns: &[Column],
    row: &'a [Value],
) -> Result<Seen<'a>, ValueFault>
    ensures { Gives wants_memory (result_seen result) (value_in columns.now row.now (first_of first.entry)) }
{
    match first {
        First::Lit(value) => Ok(see(value)),
        First::Col(name) => Ok(column_seen(name, columns, row)),
        First::Not(a) => {
            let x = seen_over(alloc, a, columns, row)?;
            Ok(Seen::Bool(!is_true(x)))
        }
    }
}

/// The operations of a chain are made by a loop, whose list takes memory.
#[cycle(value)]
#[tactic(auto, using(sk_rows::proofs::Spines::below_pop, crate::proofs::Operations::value_joined, crate::proofs::Operations::operated_pop, crate::proofs::Operations::operated_fails))]
fn chain_over<'a>(
    alloc: Global,
    expr: &'a Expr,
    columns: &[Column],
    row: &'a [Value],
) -> Result<Seen<'a>, ValueFault>
    ensures { Gives wants_memory (result_seen result) (value_in columns.now row.now expr.now) }
{
    let spine = expr.spine(alloc)?;
    let mut operations = spine.operations;
    let mut left = first_over(alloc, spine.first, columns, row)?;
    while let Some(operation) = operations.pop() {
        let right = seen_over(alloc, operation.right, columns, row)?;
        left = compute(operation.op, left, right)?;
    }
    Ok(left)
}

fn is_operation(expr: &Expr) -> bool {
    matches!(expr, Expr::Two(_, _, _))
}

/// The value of an expression. One that is no chain takes no memory.
#[cycle(value)]
fn seen_over<'a>(
    alloc: Global,
    expr: &'a Expr,
    columns: &[Column],
    row: &'a [Value],
) -> Result<Seen<'a>, ValueFault>
    ensures { Gives wants_memory (result_seen result) (value_in columns.now row.now expr.now) }
{
    match expr {
        Expr::Lit(value) => Ok(see(value)),
        Expr::Col(name) => Ok(column_seen(name, columns, row)),
        Expr::Not(a) => {
            let x = seen_over(alloc, a.get(), columns, row)?;
            Ok(Seen::Bool(!is_true(x)))
        }
        Expr::Two(op, a, b) => {
            if is_operation(a.get()) {
                return chain_over(alloc, expr, columns, row);
            }
            let left = seen_over(alloc, a.get(), columns, row)?;
            let right = seen_over(alloc, b.get(), columns, row)?;
            compute(*op, left, right)
        }
    }
}

/// The value of an expression over a row with these columns, as [`value`] has it.
///
/// # Errors
///
/// Those of [`value`].
pub fn value_over(
    alloc: Global,
    expr: &Expr,
    columns: &[Column],
    row: &[Value],
) -> Result<Value, ValueFault>
    ensures { Gives wants_memory result (value_in columns.now row.now expr.now) }
{
    let value = seen_over(alloc, expr, columns, row)?;
    Ok(owned(alloc, value)?)
}

/// Whether a row with these columns meets the condition, as [`holds`] has it.
///
/// # Errors
///
/// Those of [`value`].
pub fn holds_over(
    alloc: Global,
    cond: &Expr,
    columns: &[Column],
    row: &[Value],
) -> Result<bool, ValueFault>
    ensures { Gives wants_memory result (holds_in columns.now row.now cond.now) }
{
    let value = seen_over(alloc, cond, columns, row)?;
    Ok(is_true(value))
}

/// The value of an expression over a row of its table. Both sides of an operator are computed, the left one first.
///
/// The expression is one that was checked against the table, and the row one that fits it: else a value of a wrong sort
/// counts as 0 and as FALSE.
///
/// # Errors
///
/// `Overflow` where a result lies outside 64 bits, and `NoMemory`.
pub fn value(alloc: Global, expr: &Expr, table: &Table, row: &Row) -> Result<Value, ValueFault>
    ensures { Gives wants_memory result (value_in table.now.columns row.now expr.now) }
{
    value_over(alloc, expr, table.columns.as_slice(), row.as_slice())
}

/// Whether the row meets the condition, an expression of sort Bool.
///
/// # Errors
///
/// Those of [`value`].
pub fn holds(alloc: Global, cond: &Expr, table: &Table, row: &Row) -> Result<bool, ValueFault>
    ensures { Gives wants_memory result (holds_in table.now.columns row.now cond.now) }
{
    holds_over(alloc, cond, table.columns.as_slice(), row.as_slice())
}
