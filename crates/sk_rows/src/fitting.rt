//! Whether a row fits a table.

ghost use Rattle.std.specs.Prelude.{◌≡◌, ◌↔◌, ◌≤◌, All, IsTrue, map, sum_by};
ghost use Rattle.sk_rows.specs.Values.{Fits, IsShort, encoded_len, sort_of, value_cmp};

use crate::limits::{LONGEST_ROW, LONGEST_TEXT};
use crate::table::{Column, Table};
use crate::value::{Row, Sort, Value};
use std::cmp::Ordering;

impl Value {
    /// The sort of the value.
    pub fn sort(&self) -> Sort
        ensures { result ≡ sort_of self.now }
    {
        match self {
            Value::Int(_) => Sort::Int,
            Value::Text(_) => Sort::Text,
            Value::Bool(_) => Sort::Bool,
        }
    }

    /// The order of values: numbers by size, texts by their bytes, FALSE before TRUE, and across sorts numbers before
    /// texts before truths.
    pub fn compare(&self, other: &Value) -> Ordering
        ensures { result ≡ value_cmp self.now other.now }
    {
        match (self, other) {
            (Value::Int(a), Value::Int(b)) => a.cmp(b),
            (Value::Int(_), _) => Ordering::Less,
            (Value::Text(_), Value::Int(_)) => Ordering::Greater,
            (Value::Text(a), Value::Text(b)) => a.as_slice().cmp(b.as_slice()),
            (Value::Text(_), Value::Bool(_)) => Ordering::Less,
            (Value::Bool(a), Value::Bool(b)) => a.cmp(b),
            (Value::Bool(_), _) => Ordering::Greater,
        }
    }

    fn is_of(&self, sort: Sort) -> bool
        ensures { IsTrue result ↔ (sort_of self.now ≡ sort) }
    {
        self.sort() == sort
    }

    fn is_short(&self) -> bool
        ensures { IsTrue result ↔ IsShort self.now }
    {
        match self {
            Value::Text(t) => t.as_slice().len() <= LONGEST_TEXT,
            Value::Int(_) | Value::Bool(_) => true,
        }
    }

    /// How many bytes the value takes in a file: 8 for a number, 2 more than its own for a text, 1 for a truth.
    pub fn encoded_len(&self) -> usize
        requires { IsShort self.now }
        ensures value { result ≡ encoded_len self.now }
        ensures small { result ≤ 257 }
    {
        match self {
            Value::Int(_) => 8,
            Value::Text(t) => t.as_slice().len() + 2,
            Value::Bool(_) => 1,
        }
    }
}

#[tactic(auto, using(crate::proofs::Maps::map_at))]
fn have_sorts(values: &[Value], columns: &[Column]) -> bool
    ensures { IsTrue result ↔ (map sort_of values.now ≡ map (λ c. c.sort) columns.now) }
{
    if values.len() != columns.len() {
        return false;
    }
    for at in 0..values.len() {
        let value = &values[at];
        let column = &columns[at];
        if !value.is_of(column.sort) {
            return false;
        }
    }
    true
}

fn are_short(values: &[Value]) -> bool
    ensures { IsTrue result ↔ All IsShort values.now }
{
    values.iter().all(|v| v.is_short())
}

fn take_at_most(values: &[Value], limit: usize) -> bool
    requires { All IsShort values.now }
    ensures { IsTrue result ↔ (sum_by encoded_len values.now ≤ limit) }
{
    let mut room: usize = 0;
    for value in values {
        let len = value.encoded_len();
        if len > limit - room {
            return false;
        }
        room += len;
    }
    true
}

/// Whether the row has one value per column, each of its column's sort, no text past 255 bytes, and takes at most 1,024
/// bytes in a file.
pub fn fits(row: &Row, table: &Table) -> bool
    ensures { IsTrue result ↔ Fits row.now table.now.columns }
{
    let values = row.as_slice();
    let columns = table.columns.as_slice();
    have_sorts(values, columns) && are_short(values) && take_at_most(values, LONGEST_ROW)
}
