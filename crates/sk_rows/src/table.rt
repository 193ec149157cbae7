//! Tables and their columns.

use crate::copies::Copies;
use crate::list::List;
use crate::memory::NoMemory;
use crate::text::Txt;
use crate::value::Sort;
use std::alloc::Global;

/// A column of a table.
#[derive(Debug, Drop)]
pub struct Column {
    /// Its name.
    pub name: Txt,
    /// What it holds.
    pub sort: Sort,
}

/// The columns of a table, in their order.
pub type ColumnList = List<Column>;

/// A table. The first column is the key.
#[derive(Debug, Drop)]
pub struct Table {
    /// Its name.
    pub name: Txt,
    /// Whether the storage engine keeps it.
    pub store: bool,
    /// Its columns.
    pub columns: ColumnList,
}

/// Tables, in the order of their numbers.
pub type TableList = List<Table>;

impl Copies for Column {
    fn copy(&self, alloc: Global) -> Result<Column, NoMemory> {
        Ok(Column {
            name: self.name.copy(alloc)?,
            sort: self.sort,
        })
    }
}

impl Copies for Table {
    fn copy(&self, alloc: Global) -> Result<Table, NoMemory> {
        Ok(Table {
            name: self.name.copy(alloc)?,
            store: self.store,
            columns: self.columns.copy(alloc)?,
        })
    }
}
