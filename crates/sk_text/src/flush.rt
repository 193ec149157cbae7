//! The lines of a flush.

ghost use Rattle.std.specs.Prelude.{◌≡◌, ◌++◌, OnOk};
ghost use Rattle.std.specs.List.{flat_map};
ghost use Rattle.std.specs.String.{string_bytes};
ghost use Rattle.sk_text.specs.Text as spec;

use crate::pieces::{put, put_label};
use sk_model::{EngineFault, FlushFault, Point, Receipt};
use sk_outcome::FlushNote;
use sk_rows::NoMemory;

fn put_ack_line(out: &mut String, receipt: &Receipt) -> Result<(), NoMemory>
    ensures { OnOk result (string_bytes out.new ≡ string_bytes out.old ++ spec.ack_line receipt.now) }
{
    put(out, "ACK ")?;
    put_label(out, receipt.label)?;
    put(out, "\n")
}

fn put_acks(out: &mut String, receipts: &[Receipt]) -> Result<(), NoMemory>
    ensures { OnOk result (string_bytes out.new ≡ string_bytes out.old ++ flat_map spec.ack_line receipts.now) }
{
    for receipt in receipts {
        put_ack_line(out, receipt)?;
    }
    Ok(())
}

#[tactic(auto, unfolding(crate::specs::Text::flush_line))]
fn put_flush_line(out: &mut String, cut: Point) -> Result<(), NoMemory>
    ensures { OnOk result (string_bytes out.new ≡ string_bytes out.old ++ spec.flush_line cut) }
{
    Ok(write!(out, "FLUSH {} {}\n", cut.a, cut.b)?)
}

fn put_refused_line(out: &mut String, refused: FlushFault) -> Result<(), NoMemory>
    ensures { OnOk result (string_bytes out.new ≡ string_bytes out.old ++ spec.refused_line refused) }
{
    match refused {
        FlushFault::Device => put(out, "FLUSH device\n"),
        FlushFault::LogFull { length } => Ok(write!(out, "FLUSH full {length}\n")?),
        FlushFault::NoMemory => put(out, "FLUSH memory\n"),
    }
}

fn put_flushed_by(
    out: &mut String,
    refused: Option<FlushFault>,
    receipts: &[Receipt],
    cut: Point,
) -> Result<(), NoMemory>
    ensures { OnOk result (string_bytes out.new ≡ string_bytes out.old ++ spec.flushed_by refused receipts.now cut) }
{
    match refused {
        None => {
            put_acks(out, receipts)?;
            put_flush_line(out, cut)
        }
        Some(refused) => put_refused_line(out, refused),
    }
}

fn put_flushed(out: &mut String, note: &FlushNote) -> Result<(), NoMemory>
    ensures { OnOk result (string_bytes out.new ≡ string_bytes out.old ++ spec.flushed_lines note.now) }
{
    if note.unread {
        put(out, "SWEEP device\n")
    } else {
        put_flushed_by(out, note.refused, note.receipts.as_slice(), note.cut)
    }
}

fn put_sweep_line(out: &mut String, failed: Option<EngineFault>) -> Result<(), NoMemory>
    ensures { OnOk result (string_bytes out.new ≡ string_bytes out.old ++ spec.sweep_line failed) }
{
    match failed {
        None => Ok(()),
        Some(EngineFault::NoMemory) => put(out, "SWEEP memory\n"),
        Some(_) => put(out, "SWEEP device\n"),
    }
}

/// Writes the lines of a flush: its receipts and the durable cut, or the one line of its refusal. Each purge behind it that failed
/// has a line.
#[tactic(auto, unfolding(crate::specs::Text::flush_text))]
pub fn put_flush_lines(out: &mut String, note: &FlushNote) -> Result<(), NoMemory>
    ensures { OnOk result (string_bytes out.new ≡ string_bytes out.old ++ spec.flush_text note.now) }
{
    put_flushed(out, note)?;
    put_sweep_line(out, note.sweep_mem)?;
    put_sweep_line(out, note.sweep_store)
}
