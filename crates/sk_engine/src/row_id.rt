//! Rows by table and key.

use sk_rows::Value;

/// A row's table and key. They are ordered by table, and within a table by key.
#[derive(Debug, Drop, PartialEq, Eq, PartialOrd, Ord)]
pub struct RowId {
    pub table: u16,
    pub key: Value,
}
