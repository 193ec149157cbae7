//! Reading the image of a set: a catalog, and the rows of its tables.

ghost use Rattle.std.specs.Prelude.{◌≡◌, ◌<◌, ◌≤◌, ◌-◌, ◌^◌, ◌++◌, ◌∷◌, [], true, false, length, slice_get, take, map, IfOk, IfErr, OnOk, None};
ghost use Rattle.std.specs.List.{AllByRecursion};
ghost use Rattle.sk_rows.specs.Catalog.{add_fault, has_column, has_table, is_bool};
ghost use Rattle.sk_rows.specs.Names.{is_name};
ghost use Rattle.sk_codec.specs.Reading.{ReadsAs, IsPlace, rest_of, items_at};
ghost use Rattle.sk_codec.specs.declared.fault.ReadFault.TheVariants.{NoMemory};
ghost use Rattle.sk_log.specs.Images.{name_at, new_name_at, sort_at, is_none, column_at, table_at, catalog_at, is_past, rising_at, keyed_at, rows_at, all_rows_at, base_at};
ghost use Rattle.sk_recover.specs.Taking.{IsNewColumn, AreGood, IsNewTable, Rise};
ghost use Rattle.sk_recover.specs.Views.{columns_at, tables_at, keyeds_at, base_of};

use sk_codec::{
    ReadFault, Rest, What, bit_at, field_at, key_sort, row_at, u8_at, u8_in, u16_in, u32_at, wrong,
};
use sk_model::KeyedRows;
use sk_rows::{Catalog, Column, ColumnList, Row, Sort, Table, Txt, Value, is_name};
use std::alloc::Global;
use std::cmp::Ordering;

#[tactic(auto, using(crate::proofs::Names::name_prints), unfolding(sk_log::specs::Images::name_at))]
fn name_at(alloc: Global, rest: Rest<'_>) -> Result<(Txt, Rest<'_>), ReadFault>
    requires { IsPlace rest.place rest.bytes.now }
    ensures value { ReadsAs (λ x. (x.0, rest_of x.1)) result (name_at (rest_of rest.entry)) }
    ensures place { IfOk result (λ x. IsPlace x.1.place x.1.bytes.now) }
    ensures good { IfOk result (λ x. is_name x.0 ≡ true) }
{
    let (len, after) = u8_in(1, 31, rest)?;
    let len = len as usize;
    if after.bytes.len() < len {
        return Err(wrong(What::Length, rest));
    }
    let (text, bytes) = after.bytes.split_at(len);
    if !is_name(text) {
        return Err(wrong(What::Range, rest));
    }
    let name = Txt::from_slice(alloc, text)?;
    let after = Rest {
        file: after.file,
        place: after.place + len as u64,
        bytes,
    };
    Ok((name, after))
}

#[tactic(auto, unfolding(sk_log::specs::Images::sort_at))]
fn sort_at(is_key: bool, rest: Rest<'_>) -> Result<(Sort, Rest<'_>), ReadFault>
    requires { IsPlace rest.place rest.bytes.now }
    ensures value { ReadsAs (λ x. (x.0, rest_of x.1)) result (sort_at is_key (rest_of rest.entry)) }
    ensures place { IfOk result (λ x. IsPlace x.1.place x.1.bytes.now) }
    ensures key { is_key ≡ true → IfOk result (λ x. is_bool x.0 ≡ false) }
{
    let (n, after) = u8_at(rest)?;
    if n == 0 {
        Ok((Sort::Int, after))
    } else if n == 1 {
        Ok((Sort::Text, after))
    } else if n != 2 {
        Err(wrong(What::Tag, rest))
    } else if is_key {
        Err(wrong(What::Range, rest))
    } else {
        Ok((Sort::Bool, after))
    }
}

fn has_column(name: &Txt, columns: &[Column]) -> bool
    ensures { result ≡ has_column name.now columns.now }
{
    columns.iter().any(|c| c.name.is_same(name))
}

#[tactic(auto, unfolding(sk_rows::specs::Catalog::has_table))]
fn has_table(name: &Txt, tables: &[Table]) -> bool
    ensures { result ≡ has_table name.now tables.now }
{
    tables.iter().any(|t| t.name.is_same(name))
}

#[tactic(auto, unfolding(sk_log::specs::Images::new_name_at))]
fn column_name_at<'a>(
    alloc: Global,
    before: &[Column],
    rest: Rest<'a>,
) -> Result<(Txt, Rest<'a>), ReadFault>
    requires { IsPlace rest.place rest.bytes.now }
    ensures value { ReadsAs (λ x. (x.0, rest_of x.1)) result (new_name_at (λ text. has_column text before.now) (rest_of rest.entry)) }
    ensures place { IfOk result (λ x. IsPlace x.1.place x.1.bytes.now) }
    ensures new { IfOk result (λ x. (is_name x.0 ≡ true) × (has_column x.0 before.now ≡ false)) }
{
    let (name, after) = name_at(alloc, rest)?;
    if has_column(&name, before) {
        return Err(wrong(What::Range, rest));
    }
    Ok((name, after))
}

#[tactic(auto, unfolding(sk_log::specs::Images::new_name_at))]
fn table_name_at<'a>(
    alloc: Global,
    before: &[Table],
    rest: Rest<'a>,
) -> Result<(Txt, Rest<'a>), ReadFault>
    requires { IsPlace rest.place rest.bytes.now }
    ensures value { ReadsAs (λ x. (x.0, rest_of x.1)) result (new_name_at (λ text. has_table text before.now) (rest_of rest.entry)) }
    ensures place { IfOk result (λ x. IsPlace x.1.place x.1.bytes.now) }
    ensures new { IfOk result (λ x. (is_name x.0 ≡ true) × (has_table x.0 before.now ≡ false)) }
{
    let (name, after) = name_at(alloc, rest)?;
    if has_table(&name, before) {
        return Err(wrong(What::Range, rest));
    }
    Ok((name, after))
}

fn is_none(columns: &[Column]) -> bool
    ensures { result ≡ is_none columns.now }
{
    match columns {
        [] => true,
        [_, ..] => false,
    }
}

#[tactic(auto, unfolding(sk_log::specs::Images::column_at))]
fn column_at<'a>(
    alloc: Global,
    before: &[Column],
    rest: Rest<'a>,
) -> Result<(Column, Rest<'a>), ReadFault>
    requires { IsPlace rest.place rest.bytes.now }
    ensures value { ReadsAs (λ x. (x.0, rest_of x.1)) result (column_at before.now (rest_of rest.entry)) }
    ensures place { IfOk result (λ x. IsPlace x.1.place x.1.bytes.now) }
    ensures new { IfOk result (λ x. IsNewColumn before.now x.0) }
{
    let (name, after) = column_name_at(alloc, before, rest)?;
    let (sort, after) = sort_at(is_none(before), after)?;
    Ok((Column { name, sort }, after))
}

#[tactic(auto, using(crate::proofs::Catalogs::good_none))]
fn columns_at<'a>(
    alloc: Global,
    count: u8,
    rest: Rest<'a>,
) -> Result<(Vec<Column>, Rest<'a>), ReadFault>
    requires { IsPlace rest.place rest.bytes.now }
    ensures value { ReadsAs (λ x. (x.0.items, rest_of x.1)) result (columns_at count [] (rest_of rest.entry)) }
    ensures place { IfOk result (λ x. IsPlace x.1.place x.1.bytes.now) }
    ensures good { IfOk result (λ x. AreGood count x.0.items) }
{
    let mut columns = Vec::new(alloc);
    let mut left = rest;
    for _ in 0..count {
        let (column, after) = column_at(alloc, columns.as_slice(), left)?;
        columns.push(column)?;
        left = after;
    }
    Ok((columns, left))
}

#[tactic(auto, unfolding(sk_log::specs::Images::table_at))]
fn table_at<'a>(
    alloc: Global,
    before: &[Table],
    rest: Rest<'a>,
) -> Result<(Table, Rest<'a>), ReadFault>
    requires { IsPlace rest.place rest.bytes.now }
    ensures value { ReadsAs (λ x. (x.0, rest_of x.1)) result (table_at before.now (rest_of rest.entry)) }
    ensures place { IfOk result (λ x. IsPlace x.1.place x.1.bytes.now) }
    ensures new { IfOk result (λ x. IsNewTable before.now x.0) }
{
    let (name, after) = table_name_at(alloc, before, rest)?;
    let (store, after) = bit_at(after)?;
    let (count, after) = u8_in(1, 16, after)?;
    let (columns, after) = columns_at(alloc, count, after)?;
    let columns = ColumnList::from_vec(columns);
    Ok((
        Table {
            name,
            store,
            columns,
        },
        after,
    ))
}

/// Adds a table that the catalog takes.
fn add(catalog: &mut Catalog, table: Table) -> Result<(), ReadFault>
    requires { add_fault catalog.old table ≡ None }
    ensures ok { OnOk result (catalog.new ≡ catalog.old ++ table ∷ []) }
    ensures err { IfErr result (λ e. e ≡ NoMemory) }
{
    match catalog.add(table) {
        Ok(()) => Ok(()),
        Err(_) => Err(ReadFault::NoMemory),
    }
}

fn tables_at<'a>(
    alloc: Global,
    count: u16,
    rest: Rest<'a>,
) -> Result<(Catalog, Rest<'a>), ReadFault>
    requires few { count ≤ 64 }
    requires place { IsPlace rest.place rest.bytes.now }
    ensures value { ReadsAs (λ x. (x.0, rest_of x.1)) result (tables_at count [] (rest_of rest.entry)) }
    ensures place { IfOk result (λ x. IsPlace x.1.place x.1.bytes.now) }
{
    let mut catalog = Catalog::new(alloc);
    let mut left = rest;
    for _ in 0..count {
        let (table, after) = table_at(alloc, catalog.tables(), left)?;
        add(&mut catalog, table)?;
        left = after;
    }
    Ok((catalog, left))
}

#[tactic(auto, unfolding(sk_log::specs::Images::catalog_at))]
fn catalog_at(alloc: Global, rest: Rest<'_>) -> Result<(Catalog, Rest<'_>), ReadFault>
    requires { IsPlace rest.place rest.bytes.now }
    ensures value { ReadsAs (λ x. (x.0, rest_of x.1)) result (catalog_at (rest_of rest.entry)) }
    ensures place { IfOk result (λ x. IsPlace x.1.place x.1.bytes.now) }
{
    let (count, after) = u16_in(0, 64, rest)?;
    tables_at(alloc, count, after)
}

fn is_past(before: &[(Value, Row)], key: &Value) -> bool
    ensures { result ≡ is_past (slice_get before.now (length before.now - 1)) key.now }
{
    match before.last() {
        None => true,
        Some((last, _)) => last.compare(key) == Ordering::Less,
    }
}

#[tactic(auto, unfolding(sk_log::specs::Images::rising_at))]
fn rising_at<'a>(
    alloc: Global,
    columns: &[Column],
    before: &[(Value, Row)],
    rest: Rest<'a>,
) -> Result<(Value, Rest<'a>), ReadFault>
    requires { IsPlace rest.place rest.bytes.now }
    ensures value { ReadsAs (λ x. (x.0, rest_of x.1)) result (rising_at columns.now before.now (rest_of rest.entry)) }
    ensures place { IfOk result (λ x. IsPlace x.1.place x.1.bytes.now) }
    ensures past { IfOk result (λ x. is_past (slice_get before.now (length before.now - 1)) x.0 ≡ true) }
{
    let (key, after) = field_at(alloc, key_sort(columns), rest)?;
    if !is_past(before, &key) {
        return Err(wrong(What::Order, rest));
    }
    Ok((key, after))
}

#[tactic(auto, unfolding(sk_log::specs::Images::keyed_at))]
fn keyed_at<'a>(
    alloc: Global,
    columns: &[Column],
    before: &[(Value, Row)],
    rest: Rest<'a>,
) -> Result<((Value, Row), Rest<'a>), ReadFault>
    requires { IsPlace rest.place rest.bytes.now }
    ensures value { ReadsAs (λ x. (x.0, rest_of x.1)) result (keyed_at columns.now before.now (rest_of rest.entry)) }
    ensures place { IfOk result (λ x. IsPlace x.1.place x.1.bytes.now) }
    ensures past { IfOk result (λ x. is_past (slice_get before.now (length before.now - 1)) x.0.0 ≡ true) }
{
    let (key, _) = rising_at(alloc, columns, before, rest)?;
    let (row, after) = row_at(alloc, columns, rest)?;
    Ok(((key, row), after))
}

#[tactic(auto, using(crate::proofs::Rising::rise_none))]
fn keyeds_at<'a>(
    alloc: Global,
    columns: &[Column],
    count: u32,
    rest: Rest<'a>,
) -> Result<(Vec<(Value, Row)>, Rest<'a>), ReadFault>
    requires { IsPlace rest.place rest.bytes.now }
    ensures value { ReadsAs (λ x. (x.0.items, rest_of x.1)) result (keyeds_at columns.now count [] (rest_of rest.entry)) }
    ensures place { IfOk result (λ x. IsPlace x.1.place x.1.bytes.now) }
    ensures rise { IfOk result (λ x. Rise x.0.items) }
{
    let mut rows = Vec::new(alloc);
    let mut left = rest;
    for _ in 0..count {
        let (row, after) = keyed_at(alloc, columns, rows.as_slice(), left)?;
        rows.push(row)?;
        left = after;
    }
    Ok((rows, left))
}

#[tactic(auto, unfolding(sk_log::specs::Images::rows_at))]
fn rows_at<'a>(
    alloc: Global,
    columns: &[Column],
    rest: Rest<'a>,
) -> Result<(KeyedRows, Rest<'a>), ReadFault>
    requires { IsPlace rest.place rest.bytes.now }
    ensures value { ReadsAs (λ x. (x.0, rest_of x.1)) result (rows_at columns.now (rest_of rest.entry)) }
    ensures place { IfOk result (λ x. IsPlace x.1.place x.1.bytes.now) }
    ensures rise { IfOk result (λ x. Rise x.0) }
{
    let (count, after) = u32_at(rest)?;
    let (rows, after) = keyeds_at(alloc, columns, count, after)?;
    Ok((KeyedRows::from_vec(rows), after))
}

fn all_rows_at<'a>(
    alloc: Global,
    tables: &[Table],
    rest: Rest<'a>,
) -> Result<(Vec<KeyedRows>, Rest<'a>), ReadFault>
    requires { IsPlace rest.place rest.bytes.now }
    ensures value { ReadsAs (λ x. (x.0.items, rest_of x.1)) result (all_rows_at tables.now (rest_of rest.entry)) }
    ensures count { IfOk result (λ x. length x.0.items ≡ length tables.now) }
    ensures place { IfOk result (λ x. IsPlace x.1.place x.1.bytes.now) }
    ensures rise { IfOk result (λ x. AllByRecursion Rise x.0.items) }
{
    let mut all = Vec::new(alloc);
    let mut left = rest;
    for table in tables {
        let (rows, after) = rows_at(alloc, table.columns.as_slice(), left)?;
        all.push(rows)?;
        left = after;
    }
    Ok((all, left))
}

/// The first bytes, as many as are asked for or as there are.
pub fn first(bytes: &[u8], size: u64) -> &[u8]
    ensures { result.now ≡ take size bytes.now }
{
    if size < bytes.len() as u64 {
        bytes.split_at(size as usize).0
    } else {
        bytes
    }
}

/// The catalog and the rows of an image of this size, all of it.
#[tactic(auto, unfolding(sk_log::specs::Images::base_at))]
pub fn base_at(
    alloc: Global,
    file: u8,
    bytes: &[u8],
    size: u64,
) -> Result<(Catalog, Vec<KeyedRows>), ReadFault>
    ensures value { ReadsAs base_of result (base_at file bytes.now size) }
    ensures count { IfOk result (λ x. length x.1.items ≡ length x.0) }
    ensures rise { IfOk result (λ x. AllByRecursion Rise x.1.items) }
{
    let rest = Rest {
        file,
        place: 0,
        bytes: first(bytes, size),
    };
    let (catalog, after) = catalog_at(alloc, rest)?;
    let (rows, after) = all_rows_at(alloc, catalog.tables(), after)?;
    if after.place != size {
        return Err(wrong(What::Length, after));
    }
    Ok((catalog, rows))
}
