//! Values and rows.

ghost use Rattle.std.specs.Prelude.{◌≡◌, ◌↔◌, IsTrue};

use crate::copies::Copies;
use crate::list::List;
use crate::memory::NoMemory;
use crate::text::Txt;
use std::alloc::Global;

/// What a column holds.
#[derive(Clone, Copy, Debug, PartialEq, Eq)]
pub enum Sort {
    /// Numbers of 64 bits with a sign.
    Int,
    /// Texts.
    Text,
    /// Truths.
    Bool,
}

/// A value of a row.
#[derive(Debug, Drop)]
pub enum Value {
    /// A number.
    Int(i64),
    /// A text.
    Text(Txt),
    /// A truth.
    Bool(bool),
}

/// The values of a row, in the order of its table's columns.
pub type Row = List<Value>;

/// Values.
pub type ValueList = List<Value>;

impl Value {
    /// Whether two values are one.
    pub fn is_same(&self, other: &Value) -> bool
        ensures { IsTrue result ↔ (self.now ≡ other.now) }
    {
        match (self, other) {
            (Value::Int(a), Value::Int(b)) => a == b,
            (Value::Text(a), Value::Text(b)) => a.is_same(b),
            (Value::Bool(a), Value::Bool(b)) => a == b,
            _ => false,
        }
    }
}

impl Copies for Value {
    fn copy(&self, alloc: Global) -> Result<Value, NoMemory> {
        match self {
            Value::Int(n) => Ok(Value::Int(*n)),
            Value::Text(t) => Ok(Value::Text(t.copy(alloc)?)),
            Value::Bool(b) => Ok(Value::Bool(*b)),
        }
    }
}
