//! Rows, tables and statements as plain data.
#![tactic(auto)]

mod catalog;
mod copies;
mod expr;
mod faults;
mod fitting;
mod laws;
mod limits;
mod list;
mod memory;
mod names;
mod operations;
mod order;
mod statement;
mod table;
mod text;
mod value;

pub use catalog::{Catalog, CatalogFault};
pub use copies::Copies;
pub use expr::{Expr, Op};
pub use faults::{TypeFault, ValueFault};
pub use fitting::fits;
pub use laws::values_are_ordered;
pub use limits::{LONGEST_ROW, LONGEST_TEXT, MOST_COLUMNS, MOST_TABLES};
pub use list::List;
pub use memory::NoMemory;
pub use names::{KEYWORDS, is_keyword, is_name};
pub use operations::{First, Operation, Spine};
pub use sqlite_items::Boxed;
pub use statement::{Begun, NameList, SetItem, SetList, Statement};
pub use table::{Column, ColumnList, Table, TableList};
pub use text::Txt;
pub use value::{Row, Sort, Value, ValueList};

#[cfg(test)]
mod tests;
