//! The tables of a database.

ghost use Rattle.std.specs.Prelude.{◌≡◌, [], ◌∷◌, ◌++◌, slice_get, position, OnOk, OnErr, IfErr, None};
ghost use Rattle.std.specs.Option.{option_copied};
ghost use Rattle.std.specs.Str.{bytes_eq};
ghost use Rattle.sk_rows.specs.Catalog.{add_fault, IsCatalog, IsRefusal, has_column, has_table, are_columns, are_named, has_bool_key};

use crate::copies::Copies;
use crate::limits::{MOST_COLUMNS, MOST_TABLES};
use crate::memory::NoMemory;
use crate::names::is_name;
use crate::table::{Column, Table, TableList};
use crate::text::Txt;
use crate::value::Sort;
use std::alloc::Global;
use std::marker::Model;

/// Why a table was refused: the first of these that applies.
#[derive(Clone, Copy, Debug, PartialEq, Eq)]
pub enum CatalogFault {
    /// The name is spelled wrong, is a keyword, or is there already.
    Name,
    /// There is no column, or more than 16, or a column's name is bad or repeated.
    Columns,
    /// The key is of sort Bool.
    KeyColumn,
    /// There are 64 tables.
    TooMany,
    /// Memory was wanted and refused.
    NoMemory,
}

impl From<NoMemory> for CatalogFault {
    ghost use Rattle.std.specs.Prelude.{◌≡◌};
    ghost use Rattle.sk_rows.specs.declared.catalog.CatalogFault.TheVariants as fault;

    ghost from_gives = { λ _ e. e ≡ fault.NoMemory };

    fn from(_e: NoMemory) -> CatalogFault {
        CatalogFault::NoMemory
    }
}

/// The tables of a database, numbered from 0 in their order.
///
/// Contracts see the list of its tables.
#[derive(Debug, Drop)]
pub struct Catalog {
    tables: TableList,
}

impl Model for Catalog {
    ghost use Rattle.std.specs.Prelude.{List};
    ghost use Rattle.sk_rows.specs.Catalog.{IsCatalog};
    ghost use Rattle.sk_rows.specs.declared.table.Table.{Table as AnyTable};

    ghost Value = { List AnyTable };

    ghost view = { λ c. c.tables };

    ghost invariant = { λ c. IsCatalog c.tables };
}

fn has_column(name: &Txt, columns: &[Column]) -> bool
    ensures { result ≡ has_column name.now columns.now }
{
    columns.iter().any(|c| c.name.is_same(name))
}

fn are_named(columns: &[Column]) -> bool
    ensures { result ≡ are_named columns.now }
{
    match columns {
        [] => true,
        [c, rest @ ..] => is_name(c.name.as_slice())
            && !has_column(&c.name, rest)
            && are_named(rest),
    }
}

#[tactic(auto, unfolding(crate::specs::Catalog::are_columns))]
fn are_columns(columns: &[Column]) -> bool
    ensures { result ≡ are_columns columns.now }
{
    1 <= columns.len() && columns.len() <= MOST_COLUMNS && are_named(columns)
}

#[tactic(auto, unfolding(crate::specs::Catalog::has_bool_key))]
fn has_bool_key(columns: &[Column]) -> bool
    ensures { result ≡ has_bool_key columns.now }
{
    match columns {
        [] => false,
        [c, ..] => matches!(c.sort, Sort::Bool),
    }
}

#[tactic(auto, unfolding(crate::specs::Catalog::has_table))]
fn has_table(name: &Txt, tables: &[Table]) -> bool
    ensures { result ≡ has_table name.now tables.now }
{
    tables.iter().any(|t| t.name.is_same(name))
}

#[tactic(auto, unfolding(crate::specs::Catalog::add_fault))]
fn add_fault(tables: &[Table], table: &Table) -> Option<CatalogFault>
    ensures { result ≡ add_fault tables.now table.now }
{
    let columns = table.columns.as_slice();
    if !is_name(table.name.as_slice()) || has_table(&table.name, tables) {
        Some(CatalogFault::Name)
    } else if !are_columns(columns) {
        Some(CatalogFault::Columns)
    } else if has_bool_key(columns) {
        Some(CatalogFault::KeyColumn)
    } else if tables.len() >= MOST_TABLES {
        Some(CatalogFault::TooMany)
    } else {
        None
    }
}

fn position_of(tables: &[Table], name: &Txt) -> Option<usize>
    ensures { result ≡ position (λ t. bytes_eq t.name name.now) tables.now }
{
    tables.iter().position(|t| t.name.is_same(name))
}

impl Catalog {
    /// A catalog of no tables.
    pub fn new(alloc: Global) -> Catalog
        ensures { result ≡ [] }
    {
        Catalog {
            tables: TableList::new(alloc),
        }
    }

    /// Adds the table at the end. A refusal hands it back and changes nothing.
    pub fn add(&mut self, table: Table) -> Result<(), (Table, CatalogFault)>
        ensures added { OnOk result ((add_fault self.old table ≡ None) × (self.new ≡ self.old ++ table ∷ [])) }
        ensures refused { IfErr result (λ back. (back.0 ≡ table) × IsRefusal (add_fault self.old table) back.1) }
        ensures unchanged { OnErr result (self.new ≡ self.old) }
    {
        if let Some(fault) = add_fault(self.tables.as_slice(), &table) {
            return Err((table, fault));
        }
        if let Err(e) = self.tables.push(table) {
            return Err((e.value, CatalogFault::NoMemory));
        }
        Ok(())
    }

    /// The place of the table of this name, if there is one.
    pub fn find(&self, name: &Txt) -> Option<u16>
        ensures place { result ≡ position (λ t. bytes_eq t.name name.now) self.now }
        ensures catalog { IsCatalog self.now }
    {
        match position_of(self.tables.as_slice(), name) {
            Some(at) => Some(at as u16),
            None => None,
        }
    }

    /// The table at this place, if there is one.
    pub fn table(&self, index: u16) -> Option<&Table>
        ensures value { option_copied result ≡ slice_get self.now index }
        ensures catalog { IsCatalog self.now }
    {
        self.tables.get(index as usize)
    }

    /// All tables, in the order of their numbers.
    pub fn tables(&self) -> &[Table]
        ensures value { result.now ≡ self.now }
        ensures catalog { IsCatalog self.now }
    {
        self.tables.as_slice()
    }
}

impl Copies for Catalog {
    fn copy(&self, alloc: Global) -> Result<Catalog, NoMemory> {
        Ok(Catalog {
            tables: self.tables.copy(alloc)?,
        })
    }
}
