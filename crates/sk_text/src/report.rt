//! What is printed behind the replies: the list of commits, the transactions, and the durable cut.

ghost use Rattle.std.specs.Prelude.{◌≡◌, ◌++◌, IfOk, OnOk};
ghost use Rattle.std.specs.BTreeSet.{contains};
ghost use Rattle.std.specs.List.{flat_map};
ghost use Rattle.std.specs.String.{string_bytes};
ghost use Rattle.sk_model.specs.declared.label.Label.{Label as AnyLabel};
ghost use Rattle.sk_model.specs.Engine.{label_cmp};
ghost use Rattle.sk_text.specs.Text as spec;

use crate::pieces::{ending_word, kind_word, put, put_label, put_number};
use sk_model::{Commit, Ending, Label, Point, Receipt, Record};
use sk_rows::NoMemory;
use std::alloc::Global;
use std::collections::BTreeSet;

fn put_order_line(out: &mut String, commit: &Commit) -> Result<(), NoMemory>
    ensures { OnOk result (string_bytes out.new ≡ string_bytes out.old ++ spec.order_line commit.now) }
{
    put(out, "ORDER ")?;
    put_label(out, commit.label)?;
    put(out, " ")?;
    put_number(out, commit.mem)?;
    put(out, " ")?;
    put_number(out, commit.store)?;
    put(out, "\n")
}

fn put_order(out: &mut String, order: &[Commit]) -> Result<(), NoMemory>
    ensures { OnOk result (string_bytes out.new ≡ string_bytes out.old ++ flat_map spec.order_line order.now) }
{
    for commit in order {
        put_order_line(out, commit)?;
    }
    Ok(())
}

fn put_numbers(out: &mut String, mem: Option<u32>, store: Option<u32>) -> Result<(), NoMemory>
    ensures { OnOk result (string_bytes out.new ≡ string_bytes out.old ++ spec.pair_text mem store) }
{
    put_number(out, mem)?;
    put(out, " ")?;
    put_number(out, store)
}

fn ack_word(is_named: bool, ending: Ending) -> &'static str
    ensures { result.now ≡ spec.ack_text is_named ending }
{
    match ending {
        Ending::Committed => { if is_named { "acked" } else { "pending" } }
        _ => "-",
    }
}

#[tactic(auto, unfolding(crate::specs::Text::record_line))]
fn put_record_line(
    out: &mut String,
    is_named: bool,
    of: &Record,
    place: u32,
) -> Result<(), NoMemory>
    ensures { OnOk result (string_bytes out.new ≡ string_bytes out.old ++ spec.record_line is_named of.now place) }
{
    put(out, "TX ")?;
    put_label(out, of.label)?;
    put(out, " ")?;
    put(out, kind_word(of.kind))?;
    put(out, " ")?;
    put_numbers(out, of.mem, of.store)?;
    write!(out, " {place} ")?;
    put(out, ending_word(of.ending))?;
    put(out, " ")?;
    put_numbers(out, of.drew_mem, of.drew_store)?;
    put(out, " ")?;
    put(out, ack_word(is_named, of.ending))?;
    put(out, "\n")
}

/// The line of a transaction, where the set has those that receipts name.
fn put_line_of(
    out: &mut String,
    named: &BTreeSet<Label>,
    of: &Record,
    place: u32,
) -> Result<(), NoMemory>
    ensures { OnOk result (string_bytes out.new ≡ string_bytes out.old ++ spec.record_line (contains label_cmp named.now of.now.label) of.now place) }
{
    let is_named = named.contains(&of.label);
    put_record_line(out, is_named, of, place)
}

fn put_record_lines(
    out: &mut String,
    named: &BTreeSet<Label>,
    mut records: &[Record],
    mut places: &[u32],
) -> Result<(), NoMemory>
    ensures { OnOk result (string_bytes out.new ≡ string_bytes out.old ++ spec.record_lines (contains label_cmp named.now) records.entry.now places.entry.now) }
{
    while let [first, more @ ..] = records {
        let [place, rest @ ..] = places else {
            return Ok(());
        };
        put_line_of(out, named, first, *place)?;
        records = more;
        places = rest;
    }
    Ok(())
}

/// The transactions that the receipts name.
fn labels_of(alloc: Global, receipts: &[Receipt]) -> Result<BTreeSet<Label>, NoMemory>
    ensures { IfOk result (λ named. (q : AnyLabel) → contains label_cmp named q ≡ spec.is_named receipts.now q) }
{
    let mut named = BTreeSet::new(alloc);
    for receipt in receipts {
        named.insert(receipt.label)?;
    }
    Ok(named)
}

/// The lines of transactions, of which the receipts name some.
fn put_transactions(
    alloc: Global,
    out: &mut String,
    receipts: &[Receipt],
    records: &[Record],
    places: &[u32],
) -> Result<(), NoMemory>
    ensures { OnOk result (string_bytes out.new ≡ string_bytes out.old ++ spec.record_lines (spec.is_named receipts.now) records.now places.now) }
{
    let named = labels_of(alloc, receipts)?;
    put_record_lines(out, &named, records, places)
}

#[tactic(auto, unfolding(crate::specs::Text::cut_line))]
fn put_cut(out: &mut String, cut: Point) -> Result<(), NoMemory>
    ensures { OnOk result (string_bytes out.new ≡ string_bytes out.old ++ spec.cut_line cut) }
{
    Ok(write!(out, "CUT {} {}\n", cut.a, cut.b)?)
}

/// Writes the report of a run: the commits in the order of the database's one list; the transactions, each with the length of the
/// prefix of that list that it read, and a committed one with whether a receipt of the run names it; and the durable cut.
#[tactic(auto, unfolding(crate::specs::Text::report))]
pub fn put_report(
    alloc: Global,
    out: &mut String,
    order: &[Commit],
    records: &[Record],
    places: &[u32],
    receipts: &[Receipt],
    cut: Point,
) -> Result<(), NoMemory>
    ensures { OnOk result (string_bytes out.new ≡ string_bytes out.old ++ spec.report order.now records.now places.now receipts.now cut) }
{
    put_order(out, order)?;
    put_transactions(alloc, out, receipts, records, places)?;
    put_cut(out, cut)
}
