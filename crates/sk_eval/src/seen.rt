//! Values as an expression sees them.

ghost use Rattle.std.specs.Prelude.{◌≡◌, IfOk, position, slice_get, option_and_then, ◌+ℤ◌, ◌-ℤ◌, ◌*ℤ◌};
ghost use Rattle.std.specs.Option.{option_copied};
ghost use Rattle.std.specs.Str.{bytes_eq};
ghost use Rattle.sk_rows.specs.Values.{value_cmp};
ghost use Rattle.sk_rows.specs.Evaluation.{column_value as column_value_of, compute as compute_of, in_64, int_of as int_of_value, is_true as is_true_of};
ghost use Rattle.sk_eval.specs.Seen.{result_seen, value_seen};

use sk_rows::{Column, Copies, NoMemory, Op, Txt, Value, ValueFault};
use std::alloc::Global;
use std::cmp::Ordering;

/// A value as an expression sees it: a text is borrowed from where it stands.
#[derive(Clone, Copy)]
pub(crate) enum Seen<'a> {
    Int(i64),
    Text(&'a Txt),
    Bool(bool),
}

pub(crate) fn see(value: &Value) -> Seen<'_>
    ensures { value_seen result ≡ value.now }
{
    match value {
        Value::Int(n) => Seen::Int(*n),
        Value::Text(t) => Seen::Text(t),
        Value::Bool(b) => Seen::Bool(*b),
    }
}

/// A value of its own.
pub(crate) fn owned(alloc: Global, value: Seen<'_>) -> Result<Value, NoMemory>
    ensures { IfOk result (λ v. v ≡ value_seen value.entry) }
{
    match value {
        Seen::Int(n) => Ok(Value::Int(n)),
        Seen::Text(t) => Ok(Value::Text(t.copy(alloc)?)),
        Seen::Bool(b) => Ok(Value::Bool(b)),
    }
}

fn int_of(value: Seen<'_>) -> i64
    ensures { result ≡ int_of_value (value_seen value.entry) }
{
    match value {
        Seen::Int(n) => n,
        Seen::Text(_) | Seen::Bool(_) => 0,
    }
}

pub(crate) fn is_true(value: Seen<'_>) -> bool
    ensures { result ≡ is_true_of (value_seen value.entry) }
{
    match value {
        Seen::Bool(b) => b,
        Seen::Int(_) | Seen::Text(_) => false,
    }
}

fn compare(a: Seen<'_>, b: Seen<'_>) -> Ordering
    ensures { result ≡ value_cmp (value_seen a.entry) (value_seen b.entry) }
{
    match (a, b) {
        (Seen::Int(a), Seen::Int(b)) => a.cmp(&b),
        (Seen::Int(_), _) => Ordering::Less,
        (Seen::Text(_), Seen::Int(_)) => Ordering::Greater,
        (Seen::Text(a), Seen::Text(b)) => a.as_slice().cmp(b.as_slice()),
        (Seen::Text(_), Seen::Bool(_)) => Ordering::Less,
        (Seen::Bool(a), Seen::Bool(b)) => a.cmp(&b),
        (Seen::Bool(_), _) => Ordering::Greater,
    }
}

#[tactic(auto, using(crate::proofs::Checked::checked))]
fn add(x: i64, y: i64) -> Result<i64, ValueFault>
    ensures { result ≡ in_64 (x +ℤ y) }
{
    x.checked_add(y).ok_or(ValueFault::Overflow)
}

#[tactic(auto, using(crate::proofs::Checked::checked))]
fn subtract(x: i64, y: i64) -> Result<i64, ValueFault>
    ensures { result ≡ in_64 (x -ℤ y) }
{
    x.checked_sub(y).ok_or(ValueFault::Overflow)
}

#[tactic(auto, using(crate::proofs::Checked::checked))]
fn multiply(x: i64, y: i64) -> Result<i64, ValueFault>
    ensures { result ≡ in_64 (x *ℤ y) }
{
    x.checked_mul(y).ok_or(ValueFault::Overflow)
}

#[tactic(auto, unfolding(sk_rows::specs::Evaluation::compute))]
pub(crate) fn compute<'a>(op: Op, a: Seen<'a>, b: Seen<'a>) -> Result<Seen<'a>, ValueFault>
    ensures { result_seen result ≡ compute_of op (value_seen a.entry) (value_seen b.entry) }
{
    match op {
        Op::Or => Ok(Seen::Bool(is_true(a) || is_true(b))),
        Op::And => Ok(Seen::Bool(is_true(a) && is_true(b))),
        Op::Eq => Ok(Seen::Bool(compare(a, b).is_eq())),
        Op::Ne => Ok(Seen::Bool(compare(a, b).is_ne())),
        Op::Lt => Ok(Seen::Bool(compare(a, b).is_lt())),
        Op::Le => Ok(Seen::Bool(compare(a, b).is_le())),
        Op::Gt => Ok(Seen::Bool(compare(a, b).is_gt())),
        Op::Ge => Ok(Seen::Bool(compare(a, b).is_ge())),
        Op::Add => Ok(Seen::Int(add(int_of(a), int_of(b))?)),
        Op::Sub => Ok(Seen::Int(subtract(int_of(a), int_of(b))?)),
        Op::Mul => Ok(Seen::Int(multiply(int_of(a), int_of(b))?)),
    }
}

fn column_at(name: &Txt, columns: &[Column]) -> Option<usize>
    ensures { result ≡ position (λ c. bytes_eq c.name name.now) columns.now }
{
    columns.iter().position(|c| c.name.is_same(name))
}

fn cell<'a>(name: &Txt, columns: &[Column], row: &'a [Value]) -> Option<&'a Value>
    ensures { option_copied result ≡ option_and_then (λ at. slice_get row.now at) (position (λ c. bytes_eq c.name name.now) columns.now) }
{
    match column_at(name, columns) {
        Some(at) => sqlite_items::at(row, at),
        None => None,
    }
}

/// The value in the column of this name; where there is none, FALSE.
#[tactic(auto, unfolding(sk_rows::specs::Evaluation::column_value))]
pub(crate) fn column_seen<'a>(name: &Txt, columns: &[Column], row: &'a [Value]) -> Seen<'a>
    ensures { value_seen result ≡ column_value_of name.now columns.now row.now }
{
    match cell(name, columns, row) {
        Some(value) => see(value),
        None => Seen::Bool(false),
    }
}
