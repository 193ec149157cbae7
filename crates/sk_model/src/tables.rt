//! The rows of a database.

ghost use Rattle.std.specs.Prelude.{◌≡◌, [], ◌∷◌, ◌++◌, length, OnOk, OnErr, IfOk, IfErr};

use sk_rows::{Copies, List, NoMemory, Row, Value};
use std::alloc::{AllocFailed, Global};
use std::marker::Model;

/// Rows with their keys; in a table they stand in the order of the keys.
///
/// Contracts see the list of its pairs.
#[derive(Debug, Drop)]
pub struct KeyedRows {
    rows: List<(Value, Row)>,
}

/// One list of rows for each table of a catalog.
pub type Tables = List<KeyedRows>;

impl Model for KeyedRows {
    ghost use Rattle.std.specs.Prelude.{List as ItemList};
    ghost use Rattle.sk_rows.specs.declared.value.Value.{Value as AnyValue};

    ghost Value = { ItemList (AnyValue × ItemList AnyValue) };

    ghost view = { λ it. it.rows };
}

impl KeyedRows {
    /// No rows.
    pub fn new(alloc: Global) -> KeyedRows
        ensures { result ≡ [] }
    {
        KeyedRows {
            rows: List::new(alloc),
        }
    }

    /// The rows of a vector.
    pub fn from_vec(rows: Vec<(Value, Row)>) -> KeyedRows
        ensures { result ≡ rows.items }
    {
        KeyedRows {
            rows: List::from_vec(rows),
        }
    }

    /// The rows as a vector.
    pub fn into_vec(self) -> Vec<(Value, Row)>
        ensures { result.items ≡ self }
    {
        let KeyedRows { rows } = self;
        rows.into_vec()
    }

    /// The rows as a slice.
    pub fn as_slice(&self) -> &[(Value, Row)]
        ensures { result.now ≡ self.now }
    {
        self.rows.as_slice()
    }

    /// How many rows there are.
    pub fn len(&self) -> usize
        ensures { result ≡ length self.now }
    {
        self.rows.len()
    }

    /// Puts the row behind the others. A refusal hands it back and changes nothing.
    pub fn push(&mut self, row: (Value, Row)) -> Result<(), AllocFailed<(Value, Row)>>
        ensures ok { OnOk result (self.new ≡ self.old ++ row ∷ []) }
        ensures err { OnErr result (self.new ≡ self.old) }
        ensures item { IfErr result (λ e. e.value ≡ row) }
    {
        self.rows.push(row)
    }
}

fn copied(alloc: Global, row: &(Value, Row)) -> Result<(Value, Row), NoMemory>
    ensures { IfOk result (λ r. r ≡ row.now) }
{
    let (key, values) = row;
    Ok((key.copy(alloc)?, values.copy(alloc)?))
}

impl Copies for KeyedRows {
    fn copy(&self, alloc: Global) -> Result<KeyedRows, NoMemory> {
        let mut rows = Vec::new(alloc);
        let all = self.rows.as_slice();
        for row in all {
            rows.push(copied(alloc, row)?)?;
        }
        Ok(KeyedRows::from_vec(rows))
    }
}
