//! What of a script does not go with a store that is there.

ghost use Rattle.std.specs.Prelude.{◌≡◌, is_some};
ghost use Rattle.sk_serial.specs.Stored as spec;

use sk_rows::{Column, Sort, Table};
use sk_script::{OptionLine, Script, TableLine};

fn same_sort(a: Sort, b: Sort) -> bool
    ensures { result ≡ spec.same_sort a b }
{
    match a {
        Sort::Int => matches!(b, Sort::Int),
        Sort::Text => matches!(b, Sort::Text),
        Sort::Bool => matches!(b, Sort::Bool),
    }
}

fn same_column(a: &Column, b: &Column) -> bool
    ensures { result ≡ spec.same_column a.now b.now }
{
    a.name.as_slice() == b.name.as_slice() && same_sort(a.sort, b.sort)
}

fn same_columns(a: &[Column], b: &[Column]) -> bool
    ensures { result ≡ spec.same_columns a.now b.now }
{
    let mut left = a;
    let mut right = b;
    while let [one, more @ ..] = left {
        match right {
            [other, others @ ..] => {
                if !same_column(one, other) {
                    return false;
                }
                right = others;
            }
            [] => return false,
        }
        left = more;
    }
    right.is_empty()
}

fn same_table(a: &Table, b: &Table) -> bool
    ensures { result ≡ spec.same_table a.now b.now }
{
    a.name.as_slice() == b.name.as_slice()
        && a.store == b.store
        && same_columns(a.columns.as_slice(), b.columns.as_slice())
}

/// The first of these lines whose table is not the stored one in its place, or else the last one where more tables are stored.
fn first_unlike(last: u32, lines: &[TableLine], stored: &[Table]) -> Option<u32>
    ensures { result ≡ spec.first_unlike last lines.now stored.now }
{
    let mut last = last;
    let mut lines = lines;
    let mut tables = stored;
    while let [line, more @ ..] = lines {
        match tables {
            [table, others @ ..] => {
                if !same_table(&line.table, table) {
                    return Some(line.line);
                }
                tables = others;
            }
            [] => return Some(line.line),
        }
        last = line.line;
        lines = more;
    }
    if tables.is_empty() { None } else { Some(last) }
}

/// A script without tables takes those of the store.
fn table_fault(lines: &[TableLine], stored: &[Table]) -> Option<u32>
    ensures { result ≡ spec.table_fault lines.now stored.now }
{
    match lines {
        [] => None,
        [first, ..] => first_unlike(first.line, lines, stored),
    }
}

fn sets_start(line: &OptionLine) -> bool
    ensures { result ≡ spec.sets_start line.now }
{
    line.name.as_slice() == b"startm".as_slice() || line.name.as_slice() == b"starts".as_slice()
}

/// The first line that sets from which number an engine counts, which a store that is there has for itself.
fn start_fault(lines: &[OptionLine]) -> Option<u32>
    ensures { result ≡ spec.start_fault lines.now }
{
    let mut rest = lines;
    while let [line, more @ ..] = rest {
        if sets_start(line) {
            return Some(line.line);
        }
        rest = more;
    }
    None
}

fn least(a: Option<u32>, b: Option<u32>) -> Option<u32>
    ensures { result ≡ spec.least a b }
{
    match a {
        None => b,
        Some(m) => match b {
            None => a,
            Some(n) => Some(if n < m { n } else { m }),
        },
    }
}

/// The first line of the script that does not go with a store of these tables.
pub(crate) fn stored_fault(script: &Script, stored: &[Table]) -> Option<u32>
    ensures { result ≡ spec.stored_fault script.now stored.now }
{
    least(
        table_fault(script.tables.as_slice(), stored),
        start_fault(script.options.as_slice()),
    )
}
