//! Statements.

use crate::copies::Copies;
use crate::expr::Expr;
use crate::list::List;
use crate::memory::NoMemory;
use crate::text::Txt;
use crate::value::ValueList;
use std::alloc::Global;

/// Which engines a transaction may use.
#[derive(Clone, Copy, Debug, PartialEq, Eq)]
pub enum Begun {
    /// Both.
    Cross,
    /// The one in memory.
    Mem,
    /// The one on pages.
    Store,
}

/// One column of an UPDATE, and what it is set to.
#[derive(Drop)]
pub struct SetItem {
    /// The column's name.
    pub column: Txt,
    /// Its new value, over the old row.
    pub value: Expr,
}

/// The columns that an UPDATE sets.
pub type SetList = List<SetItem>;

/// Names of columns.
pub type NameList = List<Txt>;

/// What a session says.
#[derive(Drop)]
pub enum Statement {
    /// Begins a transaction.
    Begin(Begun),
    /// Commits it.
    Commit,
    /// Gives it up.
    Rollback,
    /// Writes one row.
    Insert {
        /// The table's name.
        table: Txt,
        /// The row's values, in the order of the columns.
        values: ValueList,
    },
    /// Gives the rows that meet a condition.
    Select {
        /// The table's name.
        table: Txt,
        /// The columns to give, or None for all.
        columns: Option<NameList>,
        /// The condition, or None for all rows.
        cond: Option<Expr>,
    },
    /// Sets columns of the rows that meet a condition.
    Update {
        /// The table's name.
        table: Txt,
        /// The columns and their new values.
        sets: SetList,
        /// The condition, or None for all rows.
        cond: Option<Expr>,
    },
    /// Takes away the rows that meet a condition.
    Delete {
        /// The table's name.
        table: Txt,
        /// The condition, or None for all rows.
        cond: Option<Expr>,
    },
}

impl<T: Copies> Copies for Option<T> {
    fn copy(&self, alloc: Global) -> Result<Option<T>, NoMemory> {
        match self {
            None => Ok(None),
            Some(x) => Ok(Some(x.copy(alloc)?)),
        }
    }
}

impl Copies for SetItem {
    fn copy(&self, alloc: Global) -> Result<SetItem, NoMemory> {
        Ok(SetItem {
            column: self.column.copy(alloc)?,
            value: self.value.copy(alloc)?,
        })
    }
}

impl Copies for Statement {
    fn copy(&self, alloc: Global) -> Result<Statement, NoMemory> {
        match self {
            Statement::Begin(begun) => Ok(Statement::Begin(*begun)),
            Statement::Commit => Ok(Statement::Commit),
            Statement::Rollback => Ok(Statement::Rollback),
            Statement::Insert { table, values } => Ok(Statement::Insert {
                table: table.copy(alloc)?,
                values: values.copy(alloc)?,
            }),
            Statement::Select {
                table,
                columns,
                cond,
            } => Ok(Statement::Select {
                table: table.copy(alloc)?,
                columns: columns.copy(alloc)?,
                cond: cond.copy(alloc)?,
            }),
            Statement::Update { table, sets, cond } => Ok(Statement::Update {
                table: table.copy(alloc)?,
                sets: sets.copy(alloc)?,
                cond: cond.copy(alloc)?,
            }),
            Statement::Delete { table, cond } => Ok(Statement::Delete {
                table: table.copy(alloc)?,
                cond: cond.copy(alloc)?,
            }),
        }
    }
}
