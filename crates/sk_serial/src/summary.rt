//! The line that sums up a run of a script that was generated.

ghost use Rattle.std.specs.Prelude.{◌≡◌, ◌++◌, OnOk};
ghost use Rattle.std.specs.String.{string_bytes};
ghost use Rattle.sk_serial.specs.Summary as spec;

use sk_model::{Commit, Ending, Point, Record, Reply};
use sk_rows::{NoMemory, Row, Value};
use std::fmt::Write;

/// How many of the records met another transaction's write.
fn conflicts(records: &[Record]) -> usize
    ensures { result ≡ spec.conflicts records.now }
{
    let mut met = 0;
    let mut rest = records;
    while let [record, more @ ..] = rest {
        if matches!(record.ending, Ending::Conflict) {
            met += 1;
        }
        rest = more;
    }
    met
}

/// The number in the second column of a row.
fn second(row: &[Value]) -> Option<i64>
    ensures { result ≡ spec.second row.now }
{
    match row {
        [_, Value::Int(n), ..] => Some(*n),
        _ => None,
    }
}

/// A sum with one number more, where there is one and the sum has 64 bits.
#[tactic(auto, using(crate::proofs::Totals::plus_is))]
fn plus(sum: i64, n: Option<i64>) -> Option<i64>
    ensures { result ≡ spec.plus sum n }
{
    match n {
        None => None,
        Some(n) => sum.checked_add(n),
    }
}

/// What the numbers in the second columns come to, where each row has one and all sums have 64 bits.
#[tactic(auto, using(crate::proofs::Totals::none_stays))]
fn total(rows: &[Row]) -> Option<i64>
    ensures { result ≡ spec.total rows.now }
{
    let mut sum: i64 = 0;
    let mut rest = rows;
    while let [row, more @ ..] = rest {
        match plus(sum, second(row.as_slice())) {
            None => return None,
            Some(all) => sum = all,
        }
        rest = more;
    }
    Some(sum)
}

/// What the stock of the last reply comes to, where it is a list of rows.
fn stock(last: &Option<Reply>) -> Option<i64>
    ensures { result ≡ spec.stock last.now }
{
    match last {
        Some(Reply::Rows(rows)) => total(rows.as_slice()),
        _ => None,
    }
}

fn put_stock(out: &mut String, stock: Option<i64>) -> Result<(), NoMemory>
    ensures { OnOk result (string_bytes out.new ≡ string_bytes out.old ++ spec.stock_text stock) }
{
    match stock {
        Some(n) => write!(out, "{}", n)?,
        None => write!(out, "-")?,
    }
    Ok(())
}

fn put_counts(
    out: &mut String,
    transfers: u32,
    order: usize,
    conflicts: usize,
) -> Result<(), NoMemory>
    ensures { OnOk result (string_bytes out.new ≡ string_bytes out.old ++ spec.counts_text transfers order conflicts) }
{
    write!(
        out,
        "GEN transfers {} list {} conflict {} stock ",
        transfers, order, conflicts,
    )?;
    Ok(())
}

fn put_cut(out: &mut String, cut: Point) -> Result<(), NoMemory>
    ensures { OnOk result (string_bytes out.new ≡ string_bytes out.old ++ spec.cut_text cut) }
{
    write!(out, " cut {} {}\n", cut.a, cut.b)?;
    Ok(())
}

/// Puts the line: so many transfers, the length of the list, the records that met another's write, what the stock of the last reply
/// comes to, and the durable cut.
pub(crate) fn put_summary(
    out: &mut String,
    transfers: u32,
    order: &[Commit],
    records: &[Record],
    last: &Option<Reply>,
    cut: Point,
) -> Result<(), NoMemory>
    ensures { OnOk result (string_bytes out.new ≡ string_bytes out.old ++ spec.summary transfers order.now records.now last.now cut) }
{
    put_counts(out, transfers, order.len(), conflicts(records))?;
    put_stock(out, stock(last))?;
    put_cut(out, cut)
}
