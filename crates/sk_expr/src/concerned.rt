//! The rows that a statement has to look at.

ghost use Rattle.std.specs.Prelude.{◌≡◌, IfOk};
ghost use Rattle.sk_rows.specs.Memory.{Gives};
ghost use Rattle.sk_rows.specs.Evaluation.{wants_memory};
ghost use Rattle.sk_model.specs.Reads.{meets as meets_of};
ghost use Rattle.sk_expr.specs.Concerns as spec;

use sk_eval::holds_over;
use sk_rows::{Column, Expr, NoMemory, Row, Statement, Table, ValueFault};
use std::alloc::Global;

/// Whether the row meets the condition; a missing one is TRUE.
fn meets(
    alloc: Global,
    columns: &[Column],
    cond: &Option<Expr>,
    row: &Row,
) -> Result<bool, ValueFault>
    ensures { Gives wants_memory result (meets_of columns.now cond.now row.now) }
{
    match cond {
        None => Ok(true),
        Some(e) => holds_over(alloc, e, columns, row.as_slice()),
    }
}

/// Whether a row counts: it meets the condition, or the condition overflows at it.
fn counts(
    alloc: Global,
    columns: &[Column],
    cond: &Option<Expr>,
    row: &Row,
) -> Result<bool, NoMemory>
    ensures { IfOk result (λ b. b ≡ spec.counts (meets_of columns.now cond.now row.now)) }
{
    match meets(alloc, columns, cond, row) {
        Ok(met) => Ok(met),
        Err(ValueFault::Overflow) => Ok(true),
        Err(ValueFault::NoMemory) => Err(NoMemory),
    }
}

/// Whether a row of the table can matter to a statement that reads all rows. Over those alone it comes to the same
/// ([`only_rows_that_concern_count`](crate::only_rows_that_concern_count)), so the others need not be copied for it.
///
/// # Errors
///
/// `NoMemory` alone.
pub fn concerns(
    alloc: Global,
    table: &Table,
    statement: &Statement,
    row: &Row,
) -> Result<bool, NoMemory>
    ensures { IfOk result (λ b. b ≡ spec.concerns table.now.columns statement.now row.now) }
{
    let columns = table.columns.as_slice();
    match statement {
        Statement::Begin(_) | Statement::Commit | Statement::Rollback => Ok(true),
        Statement::Insert { .. } => Ok(true),
        Statement::Select { cond, .. }
        | Statement::Update { cond, .. }
        | Statement::Delete { cond, .. } => counts(alloc, columns, cond, row),
    }
}
