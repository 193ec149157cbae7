//! Writing images as bytes.

ghost use Rattle.std.specs.Prelude.{◌≡◌, ◌<◌, ◌≤◌, ◌++◌, ◌∷◌, [], ◌^◌, ℕ, length, All, OnOk, IfOk, Ok};
ghost use Rattle.std.specs.List.{flat_map};
ghost use Rattle.std.specs.Int.{w16, w32, to_be_bytes};
ghost use Rattle.sk_rows.specs.Catalog.{IsCatalog};
ghost use Rattle.sk_rows.specs.Values.{IsShort};
ghost use Rattle.sk_codec.specs.Spelling.{bool_byte, row_bytes};
ghost use Rattle.sk_log.specs.Bases.{AreRowsOf};
ghost use Rattle.sk_log.specs.Images.{base_at};
ghost use Rattle.sk_log.specs.Spelled.{sort_byte, name_bytes, column_bytes, table_bytes, rows_bytes, image_bytes, IsShortName, IsShortTable, AreShortRows};
ghost use Rattle.sk_log.specs.Stores.{no_rows};

use sk_codec::{put_row, put_u16, put_u32};
use sk_model::KeyedRows;
use sk_rows::{Catalog, Column, NoMemory, Row, Sort, Table, Value};
use std::alloc::Global;

fn put_name(out: &mut Vec<u8>, name: &[u8]) -> Result<(), NoMemory>
    requires { IsShortName name.now }
    ensures { OnOk result (out.new.items ≡ out.old.items ++ name_bytes name.now) }
{
    out.push(name.len() as u8)?;
    out.extend_from_slice(name)?;
    Ok(())
}

fn sort_byte(sort: Sort) -> u8
    ensures { result ≡ sort_byte sort }
{
    match sort {
        Sort::Int => 0,
        Sort::Text => 1,
        Sort::Bool => 2,
    }
}

#[tactic(auto, unfolding(crate::specs::Spelled::column_bytes))]
fn put_column(out: &mut Vec<u8>, column: &Column) -> Result<(), NoMemory>
    requires { IsShortName column.now.name }
    ensures { OnOk result (out.new.items ≡ out.old.items ++ column_bytes column.now) }
{
    put_name(out, column.name.as_slice())?;
    out.push(sort_byte(column.sort))?;
    Ok(())
}

fn put_columns(out: &mut Vec<u8>, columns: &[Column]) -> Result<(), NoMemory>
    requires { All (λ c. IsShortName c.name) columns.now }
    ensures { OnOk result (out.new.items ≡ out.old.items ++ flat_map column_bytes columns.now) }
{
    for column in columns {
        put_column(out, column)?;
    }
    Ok(())
}

fn put_counts(out: &mut Vec<u8>, store: bool, columns: &[Column]) -> Result<(), NoMemory>
    requires { length columns.now < 256 }
    ensures { OnOk result (out.new.items ≡ out.old.items ++ bool_byte store ∷ length columns.now ∷ []) }
{
    out.push(u8::from(store))?;
    out.push(columns.len() as u8)?;
    Ok(())
}

#[tactic(auto, unfolding(crate::specs::Spelled::table_bytes))]
fn put_table(out: &mut Vec<u8>, table: &Table) -> Result<(), NoMemory>
    requires { IsShortTable table.now }
    ensures { OnOk result (out.new.items ≡ out.old.items ++ table_bytes table.now) }
{
    let columns = table.columns.as_slice();
    put_name(out, table.name.as_slice())?;
    put_counts(out, table.store, columns)?;
    put_columns(out, columns)
}

fn put_tables(out: &mut Vec<u8>, tables: &[Table]) -> Result<(), NoMemory>
    requires { All IsShortTable tables.now }
    ensures { OnOk result (out.new.items ≡ out.old.items ++ flat_map table_bytes tables.now) }
{
    for table in tables {
        put_table(out, table)?;
    }
    Ok(())
}

fn put_keyed(out: &mut Vec<u8>, row: &(Value, Row)) -> Result<(), NoMemory>
    requires { All IsShort row.now.1 }
    ensures { OnOk result (out.new.items ≡ out.old.items ++ row_bytes row.now.1) }
{
    let (_, values) = row;
    put_row(out, values)
}

fn put_all_keyed(out: &mut Vec<u8>, rows: &[(Value, Row)]) -> Result<(), NoMemory>
    requires { All (λ r. All IsShort r.1) rows.now }
    ensures { OnOk result (out.new.items ≡ out.old.items ++ flat_map (λ r. row_bytes r.1) rows.now) }
{
    for row in rows {
        put_keyed(out, row)?;
    }
    Ok(())
}

fn count_of(rows: &[(Value, Row)]) -> u32
    requires { length rows.now < 2 ^ 32 }
    ensures { result ≡ length rows.now }
{
    rows.len() as u32
}

#[tactic(auto, unfolding(crate::specs::Spelled::rows_bytes))]
fn put_rows(out: &mut Vec<u8>, rows: &KeyedRows) -> Result<(), NoMemory>
    requires { AreShortRows rows.now }
    ensures { OnOk result (out.new.items ≡ out.old.items ++ rows_bytes rows.now) }
{
    let rows = rows.as_slice();
    put_u32(out, count_of(rows))?;
    put_all_keyed(out, rows)
}

fn put_all_rows(out: &mut Vec<u8>, tables: &[KeyedRows]) -> Result<(), NoMemory>
    requires { All AreShortRows tables.now }
    ensures { OnOk result (out.new.items ≡ out.old.items ++ flat_map rows_bytes tables.now) }
{
    for rows in tables {
        put_rows(out, rows)?;
    }
    Ok(())
}

#[tactic(auto, unfolding(crate::specs::Spelled::image_bytes))]
fn spelled(alloc: Global, catalog: &[Table], tables: &[KeyedRows]) -> Result<Vec<u8>, NoMemory>
    requires count { length catalog.now ≤ 64 }
    requires catalog { All IsShortTable catalog.now }
    requires rows { All AreShortRows tables.now }
    ensures { IfOk result (λ text. text.items ≡ image_bytes catalog.now tables.now) }
{
    let mut text = Vec::new(alloc);
    put_u16(&mut text, catalog.len() as u16)?;
    put_tables(&mut text, catalog)?;
    put_all_rows(&mut text, tables)?;
    Ok(text)
}

/// The image of this catalog with these rows, table by table, which is read back as they.
#[tactic(auto, using(crate::proofs::Imaged::short_all))]
pub fn image_text(
    alloc: Global,
    catalog: &Catalog,
    tables: &[KeyedRows],
) -> Result<Vec<u8>, NoMemory>
    requires { AreRowsOf catalog.now tables.now }
    ensures text { IfOk result (λ text. text.items ≡ image_bytes catalog.now tables.now) }
    ensures read { IfOk result (λ text. (file : ℕ) → base_at file text.items (length text.items) ≡ Ok (record { catalog = catalog.now; rows = tables.now })) }
{
    spelled(alloc, catalog.tables(), tables)
}

fn without_rows(alloc: Global, tables: &[Table]) -> Result<Vec<KeyedRows>, NoMemory>
    ensures { IfOk result (λ rows. rows.items ≡ no_rows tables.now) }
{
    let mut all = Vec::new(alloc);
    for _table in tables {
        all.push(KeyedRows::new(alloc))?;
    }
    Ok(all)
}

/// The image of this catalog without rows, which is read as that.
#[tactic(auto, using(crate::proofs::Imaged::empty_rows))]
pub fn empty_image(alloc: Global, catalog: &Catalog) -> Result<Vec<u8>, NoMemory>
    ensures text { IfOk result (λ text. text.items ≡ image_bytes catalog.now (no_rows catalog.now)) }
    ensures read { IfOk result (λ text. (file : ℕ) → base_at file text.items (length text.items) ≡ Ok (record { catalog = catalog.now; rows = no_rows catalog.now })) }
{
    let rows = without_rows(alloc, catalog.tables())?;
    image_text(alloc, catalog, &rows)
}
