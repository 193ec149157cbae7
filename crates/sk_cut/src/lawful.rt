//! Whether a batch is a group that an opened store obeys.
//!
//! The batches of a run are made of what both engines tell. That these are such groups is not proved yet, so they are tested before
//! they are written.

ghost use Rattle.std.specs.Prelude.{◌≡◌, ◌↔◌, ◌<◌, ◌≤◌, ◌+◌, ◌∷◌, [], true, false, length, slice_get, IsTrue, IfSome, IfNone};
ghost use Rattle.std.specs.List.{filter, AllByRecursion};
ghost use Rattle.sk_rows.specs.Values.{IsShort};
ghost use Rattle.sk_codec.specs.Records.{is_of, columns_of, key_of};
ghost use Rattle.sk_codec.specs.Spelling.{IsValue, AreValues, IsContent, IsWrite, IsOther, IsRecord, own_of, other_of, number_or_0};
ghost use Rattle.sk_log.specs.Groups.{same_number, same_label, is_half};
ghost use Rattle.sk_log.specs.Lawful.{ArePairs, IsGroup, is_both};
ghost use Rattle.sk_cut.specs.Batches.{CanBeCounted, CanBeSpelled, as_cut};
ghost use Rattle.sk_cut.specs.Tested.{AreTested, Climbs, IsKey, IsLabel, IsOwn, IsTested};

use crate::pipeline::Batch;
use sk_codec::key_sort;
use sk_model::{Commit, GREATEST_NUMBER, Label, Point, Write};
use sk_rows::{Catalog, Column, LONGEST_TEXT, Row, Table, Value, fits};

/// Whether the cut rises to one whose numbers may be there.
fn climbs(cut: &Point, to: &Point) -> bool
    ensures { IsTrue result ↔ Climbs cut.now to.now }
{
    cut.a <= to.a
        && to.a <= GREATEST_NUMBER
        && cut.b <= to.b
        && to.b <= GREATEST_NUMBER
        && (cut.a < to.a || cut.b < to.b)
}

fn is_label(label: Label) -> bool
    ensures { IsTrue result ↔ IsLabel label }
{
    1 <= label.session && label.session <= 64 && 1 <= label.k
}

fn own_of(store: bool, commit: &Commit) -> Option<u32>
    ensures { result ≡ own_of store commit.now }
{
    if store { commit.store } else { commit.mem }
}

fn other_of(store: bool, commit: &Commit) -> Option<u32>
    ensures { result ≡ other_of store commit.now }
{
    if store { commit.mem } else { commit.store }
}

fn number_or_0(number: Option<u32>) -> u32
    ensures { result ≡ number_or_0 number }
{
    match number {
        None => 0,
        Some(n) => n,
    }
}

/// Whether the number is there, past one and at most another.
fn is_own(above: u32, upto: u32, own: Option<u32>) -> bool
    ensures { IsTrue result ↔ IsOwn above upto own }
{
    match own {
        None => false,
        Some(n) => above < n && n <= upto && n <= GREATEST_NUMBER,
    }
}

fn is_other(other: Option<u32>) -> bool
    ensures { IsTrue result ↔ IsOther other }
{
    match other {
        None => true,
        Some(n) => n <= GREATEST_NUMBER,
    }
}

/// What a value of a program obeys. It does nothing.
fn tell_value(value: &Value)
    ensures { IsValue value.now }
{
    match value {
        Value::Int(n) => {
            let _n = *n;
        }
        Value::Text(text) => {
            let _bytes = text.as_slice();
        }
        Value::Bool(_) => {}
    }
}

/// What the values of a program's row obey. It changes nothing.
fn tell_values(values: &[Value])
    ensures { AreValues values.now }
{
    let mut list = values;
    while let [value, rest @ ..] = list {
        tell_value(value);
        list = rest;
    }
}

fn is_short(value: &Value) -> bool
    ensures { IsTrue result ↔ IsShort value.now }
{
    match value {
        Value::Text(text) => text.as_slice().len() <= LONGEST_TEXT,
        Value::Int(_) | Value::Bool(_) => true,
    }
}

/// Whether the value is a key of a table with these columns.
fn is_key(columns: &[Column], key: &Value) -> bool
    ensures { IsTrue result ↔ IsKey columns.now key.now }
{
    key.sort() == key_sort(columns) && is_short(key)
}

/// Whether the row begins with this key.
fn begins_with(row: &[Value], key: &Value) -> bool
    ensures { IsTrue result ↔ (key.now ≡ key_of row.now) }
{
    match row {
        [] => matches!(key, Value::Bool(false)),
        [first, ..] => key.is_same(first),
    }
}

/// Whether this may be written to the table: a row that fits it and begins with the key, or a key without a row.
fn is_content(table: &Table, key: &Value, row: &Option<Row>) -> bool
    ensures { IsTrue result ↔ IsContent table.now.columns key.now row.now }
{
    match row {
        None => {
            tell_value(key);
            is_key(table.columns.as_slice(), key)
        }
        Some(row) => {
            tell_values(row.as_slice());
            begins_with(row.as_slice(), key) && fits(row, table)
        }
    }
}

/// The table of this number, where this engine keeps it.
fn table_of(tables: &[Table], store: bool, number: u16) -> Option<&Table>
    ensures found { IfSome result (λ t. IsTrue (is_of store (slice_get tables.now number)) × (t.now.columns ≡ columns_of (slice_get tables.now number))) }
    ensures none { IfNone result (is_of store (slice_get tables.now number) ≡ false) }
{
    match tables.get(number as usize) {
        Some(table) => {
            if table.store != store {
                return None;
            }
            Some(table)
        }
        None => None,
    }
}

/// Whether a log of this engine may hold the write.
fn is_write(tables: &[Table], store: bool, write: &Write) -> bool
    ensures { IsTrue result ↔ IsWrite tables.now store write.now }
{
    match table_of(tables, store, write.table) {
        None => false,
        Some(table) => is_content(table, &write.key, &write.row),
    }
}

fn are_writes(tables: &[Table], store: bool, writes: &[Write]) -> bool
    ensures { IsTrue result ↔ AllByRecursion (IsWrite tables.now store) writes.now }
{
    let mut left = writes;
    while let [write, more @ ..] = left {
        if !is_write(tables, store, write) {
            return false;
        }
        left = more;
    }
    true
}

/// Whether a log of this engine may hold the commit, with a number past one and at most another.
fn is_record(tables: &[Table], store: bool, above: u32, upto: u32, commit: &Commit) -> bool
    ensures { IsTrue result ↔ IsRecord tables.now store (above + 1) upto commit.now }
{
    is_label(commit.label)
        && is_own(above, upto, own_of(store, commit))
        && is_other(other_of(store, commit))
        && commit.writes.len() < 4294967296
        && are_writes(tables, store, commit.writes.as_slice())
}

/// Whether a log of this engine may hold the commits, with numbers that rise past one and up to another.
fn are_records(tables: &[Table], store: bool, above: u32, upto: u32, commits: &[Commit]) -> bool
    ensures { IsTrue result ↔ AreTested tables.now store upto above commits.now }
{
    let mut last = above;
    let mut left = commits;
    while let [commit, more @ ..] = left {
        if !is_record(tables, store, last, upto, commit) {
            return false;
        }
        last = number_or_0(own_of(store, commit));
        left = more;
    }
    true
}

fn same_number(a: Option<u32>, b: Option<u32>) -> bool
    ensures { result ≡ same_number a b }
{
    match a {
        None => match b {
            None => true,
            Some(_) => false,
        },
        Some(n) => match b {
            None => false,
            Some(m) => n == m,
        },
    }
}

fn same_label(a: Label, b: Label) -> bool
    ensures { result ≡ same_label a b }
{
    a.session == b.session && a.k == b.k
}

fn is_half(s: &Commit, m: &Commit) -> bool
    ensures { result ≡ is_half s.now m.now }
{
    same_label(s.label, m.label) && same_number(s.mem, m.mem) && same_number(s.store, m.store)
}

fn is_both(commit: &Commit) -> bool
    ensures { result ≡ is_both commit.now }
{
    commit.mem.is_some() && commit.store.is_some()
}

/// The first commit of both engines, and the commits behind it.
fn next_both(commits: &[Commit]) -> Option<(&Commit, &[Commit])>
    ensures some { IfSome result (λ x. filter is_both commits.now ≡ x.0.now ∷ filter is_both x.1.now) }
    ensures fewer { IfSome result (λ x. length x.1.now < length commits.now) }
    ensures none { IfNone result (filter is_both commits.now ≡ []) }
{
    let mut left = commits;
    while let [commit, more @ ..] = left {
        if is_both(commit) {
            return Some((commit, more));
        }
        left = more;
    }
    None
}

/// Whether the commits of both engines are the same in both lists, in one order.
fn are_pairs(store: &[Commit], mem: &[Commit]) -> bool
    ensures { IsTrue result ↔ ArePairs (filter is_both store.now) (filter is_both mem.now) }
{
    let mut ours = store;
    let mut theirs = mem;
    'pairs: while let Some((one, more)) = next_both(ours) {
        let Some((other, rest)) = next_both(theirs) else {
            return false;
        };
        if !is_half(one, other) {
            return false;
        }
        ours = more;
        theirs = rest;
    }
    next_both(theirs).is_none()
}

/// Whether each part of the batch is as it has to be.
fn is_tested(tables: &[Table], cut: &Point, batch: &Batch) -> bool
    ensures { IsTrue result ↔ IsTested tables.now cut.now batch.now }
{
    let mem = batch.mem.as_slice();
    let store = batch.store.as_slice();
    climbs(cut, &batch.cut)
        && are_records(tables, false, cut.a, batch.cut.a, mem)
        && are_records(tables, true, cut.b, batch.cut.b, store)
        && are_pairs(store, mem)
}

/// Whether the batch is a group that may stand behind this cut in a store with these tables: its cut rises, the commits of each
/// engine have numbers past the one cut and up to the other, each may stand in its log, and those of both engines are the same in
/// both. It takes no memory, and looks at each write once.
#[tactic(auto, using(crate::proofs::Grouped::group_of, crate::proofs::Grouped::spelled_of, crate::proofs::Grouped::tested_group))]
pub fn is_lawful(catalog: &Catalog, cut: Point, batch: &Batch) -> bool
    ensures group { result ≡ true → IsGroup catalog.now (as_cut cut) batch.now.cut batch.now.mem batch.now.store }
    ensures spelled { result ≡ true → CanBeSpelled batch.now }
    // It says no to a group only where a commit has more writes than four bytes can count.
    ensures only { IsGroup catalog.now (as_cut cut) batch.now.cut batch.now.mem batch.now.store → CanBeCounted batch.now → result ≡ true }
{
    is_tested(catalog.tables(), &cut, batch)
}
