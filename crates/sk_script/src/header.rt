//! Lines that make tables.

ghost use Rattle.std.specs.Prelude.{◌≡◌, IfOk};
ghost use Rattle.sk_rows.specs.Catalog.{has_column as has_column_of};
ghost use Rattle.sk_parse.specs.Input.{Reads};
ghost use Rattle.sk_rows.specs.Memory.{Gives};
ghost use Rattle.sk_script.specs.Header as spec;
ghost use Rattle.sk_script.specs.Lines.{IsLine, wants};

use crate::script::TableLine;
use sk_lex::{Keyword, Token, Word};
use sk_parse::{COMMA, Cursor, Fault, ParseFault};
use sk_rows::{
    Column, ColumnList, Copies, MOST_COLUMNS, MOST_TABLES, NoMemory, Sort, Table, Txt, is_name,
};
use std::alloc::Global;

fn has_table(name: &Txt, tables: &[TableLine]) -> bool
    ensures { result ≡ spec.has_table name.now tables.now }
{
    tables.iter().any(|t| t.table.name.is_same(name))
}

/// The name of one more table behind these.
fn new_table(alloc: Global, tables: &[TableLine], word: &Word) -> Result<Option<Txt>, NoMemory>
    ensures { IfOk result (λ r. r ≡ spec.new_table tables.now word.now) }
{
    match word {
        Word::Name(t) => {
            if is_name(t.as_slice()) && tables.len() < MOST_TABLES && !has_table(t, tables) {
                Ok(Some(t.copy(alloc)?))
            } else {
                Ok(None)
            }
        }
        _ => Ok(None),
    }
}

#[tactic(auto, unfolding(crate::specs::Header::table_name))]
fn table_name(alloc: Global, tables: &[TableLine], cursor: &mut Cursor<'_>) -> Result<Txt, Fault>
    ensures { Reads (spec.table_name tables.now cursor.old) result cursor.new }
{
    let Some(word) = cursor.peek() else {
        return Err(cursor.refuse());
    };
    let found = new_table(alloc, tables, word)?;
    cursor.take(found)
}

fn engine_of(word: &Word) -> Option<bool>
    ensures { result ≡ spec.engine_of word.now }
{
    match word {
        Word::Key(Keyword::Memory) => Some(false),
        Word::Key(Keyword::Storage) => Some(true),
        _ => None,
    }
}

/// Whether the storage engine keeps the table.
#[tactic(auto, unfolding(crate::specs::Header::engine))]
fn engine(cursor: &mut Cursor<'_>) -> Result<bool, Fault>
    ensures { Reads (spec.engine cursor.old) result cursor.new }
{
    let Some(word) = cursor.peek() else {
        return Err(cursor.refuse());
    };
    cursor.take(engine_of(word))
}

fn has_column(name: &Txt, columns: &[Column]) -> bool
    ensures { result ≡ has_column_of name.now columns.now }
{
    columns.iter().any(|c| c.name.is_same(name))
}

/// The name of one more column behind these.
fn new_column(alloc: Global, columns: &[Column], word: &Word) -> Result<Option<Txt>, NoMemory>
    ensures { IfOk result (λ r. r ≡ spec.new_column columns.now word.now) }
{
    match word {
        Word::Name(t) => {
            if is_name(t.as_slice()) && columns.len() < MOST_COLUMNS && !has_column(t, columns) {
                Ok(Some(t.copy(alloc)?))
            } else {
                Ok(None)
            }
        }
        _ => Ok(None),
    }
}

#[tactic(auto, unfolding(crate::specs::Header::column_name))]
fn column_name(alloc: Global, columns: &[Column], cursor: &mut Cursor<'_>) -> Result<Txt, Fault>
    ensures { Reads (spec.column_name columns.now cursor.old) result cursor.new }
{
    let Some(word) = cursor.peek() else {
        return Err(cursor.refuse());
    };
    let found = new_column(alloc, columns, word)?;
    cursor.take(found)
}

fn sort_of(word: &Word) -> Option<Sort>
    ensures { result ≡ spec.sort_of word.now }
{
    match word {
        Word::Key(Keyword::Int) => Some(Sort::Int),
        Word::Key(Keyword::Text) => Some(Sort::Text),
        Word::Key(Keyword::Bool) => Some(Sort::Bool),
        _ => None,
    }
}

#[tactic(auto, unfolding(crate::specs::Header::sort))]
fn sort(cursor: &mut Cursor<'_>) -> Result<Sort, Fault>
    ensures { Reads (spec.sort cursor.old) result cursor.new }
{
    let Some(word) = cursor.peek() else {
        return Err(cursor.refuse());
    };
    cursor.take(sort_of(word))
}

/// Whether a column behind these would be a key of sort Bool.
fn is_bool_key(columns: &[Column], sort: Sort) -> bool
    ensures { result ≡ spec.is_bool_key columns.now sort }
{
    match (columns, sort) {
        ([], Sort::Bool) => true,
        _ => false,
    }
}

/// One more column behind these.
#[tactic(auto, unfolding(crate::specs::Header::column))]
fn column(alloc: Global, columns: &[Column], cursor: &mut Cursor<'_>) -> Result<Column, Fault>
    ensures { Reads (spec.column columns.now cursor.old) result cursor.new }
{
    let refused = cursor.refuse();
    let name = column_name(alloc, columns, cursor)?;
    let sort = sort(cursor)?;
    if is_bool_key(columns, sort) {
        return Err(refused);
    }
    Ok(Column { name, sort })
}

/// One or more columns, with commas between.
#[tactic(auto, unfolding(crate::specs::Header::columns, crate::specs::Header::columns_from))]
fn columns(alloc: Global, cursor: &mut Cursor<'_>) -> Result<ColumnList, Fault>
    ensures { Reads (spec.columns cursor.old) result cursor.new }
{
    let mut found = ColumnList::new(alloc);
    found.push(column(alloc, &[], cursor)?)?;
    for _turn in 0..cursor.left() {
        if !cursor.eat(COMMA) {
            return Ok(found);
        }
        let next = column(alloc, found.as_slice(), cursor)?;
        found.push(next)?;
    }
    Ok(found)
}

/// The table that stands behind the word TABLE.
#[tactic(auto, unfolding(crate::specs::Header::table))]
fn table(alloc: Global, tables: &[TableLine], cursor: &mut Cursor<'_>) -> Result<Table, Fault>
    ensures { Reads (spec.table tables.now cursor.old) result cursor.new }
{
    let name = table_name(alloc, tables, cursor)?;
    let store = engine(cursor)?;
    let columns = columns(alloc, cursor)?;
    if cursor.left() != 0 {
        return Err(cursor.refuse());
    }
    Ok(Table {
        name,
        store,
        columns,
    })
}

/// The place of the token that is the first of so many that are left.
#[tactic(auto, unfolding(crate::specs::Header::place))]
fn place(tokens: &[Token], end: u32, left: usize) -> u32
    requires { IsLine tokens.now end }
    ensures { result ≡ spec.place tokens.now end left }
{
    match tokens.get(tokens.len().saturating_sub(left)) {
        Some(token) => token.from + 1,
        None => end + 1,
    }
}

/// The table that a line makes behind these others, its first word being TABLE.
#[tactic(auto, unfolding(crate::specs::Header::table_line))]
pub fn table_line(
    alloc: Global,
    tables: &[TableLine],
    tokens: &[Token],
    end: u32,
) -> Result<Table, ParseFault>
    requires { IsLine tokens.now end }
    ensures { Gives wants result (spec.table_line tables.now tokens.now end) }
{
    let mut cursor = Cursor::new(tokens);
    cursor.skip();
    match table(alloc, tables, &mut cursor) {
        Ok(found) => Ok(found),
        Err(Fault::Left(left)) => Err(ParseFault::Unexpected {
            place: place(tokens, end, left),
        }),
        Err(Fault::NoMemory) => Err(ParseFault::NoMemory),
    }
}
