//! The lines of a reply.

ghost use Rattle.std.specs.Prelude.{◌≡◌, ◌++◌, OnOk};
ghost use Rattle.std.specs.String.{string_bytes};
ghost use Rattle.sk_text.specs.Text as spec;

use crate::pieces::{
    engine_word, put, put_drawn, put_label, put_row, put_two, put_why, refusal_word, step_word,
};
use sk_model::{EngineName, Label, Point, Recycled, Reply, StepName, Why};
use sk_rows::{NoMemory, Row};

fn put_began(out: &mut String, label: Label) -> Result<(), NoMemory>
    ensures { OnOk result (string_bytes out.new ≡ string_bytes out.old ++ spec.reply_text (Reply.Began label)) }
{
    put(out, "OK ")?;
    put_label(out, label)
}

fn put_step(out: &mut String, step: StepName, drawn: Option<u32>) -> Result<(), NoMemory>
    ensures { OnOk result (string_bytes out.new ≡ string_bytes out.old ++ spec.reply_text (Reply.Step step drawn)) }
{
    put(out, "STEP ")?;
    put(out, step_word(step))?;
    put_drawn(out, drawn)
}

#[tactic(auto, unfolding(crate::specs::Text::failed_at))]
fn put_failed_at(out: &mut String, point: Point) -> Result<(), NoMemory>
    ensures { OnOk result (string_bytes out.new ≡ string_bytes out.old ++ spec.failed_at point) }
{
    Ok(write!(out, "CHECKFAILED {} {}", point.a, point.b)?)
}

fn put_check_failed(out: &mut String, point: Point, mem: u32, store: u32) -> Result<(), NoMemory>
    ensures { OnOk result (string_bytes out.new ≡ string_bytes out.old ++ spec.reply_text (Reply.CheckFailed point mem store)) }
{
    put_failed_at(out, point)?;
    put(out, " drew ")?;
    put_two(out, mem, store)
}

fn put_conflict(out: &mut String, by: Label, why: Why) -> Result<(), NoMemory>
    ensures { OnOk result (string_bytes out.new ≡ string_bytes out.old ++ spec.reply_text (Reply.Conflict by why)) }
{
    put(out, "CONFLICT ")?;
    put_label(out, by)?;
    put(out, " ")?;
    put_why(out, why)
}

fn put_busy(out: &mut String, by: Label) -> Result<(), NoMemory>
    ensures { OnOk result (string_bytes out.new ≡ string_bytes out.old ++ spec.reply_text (Reply.Busy by)) }
{
    put(out, "BUSY ")?;
    put_label(out, by)
}

fn put_recycled(out: &mut String, at: Recycled) -> Result<(), NoMemory>
    ensures { OnOk result (string_bytes out.new ≡ string_bytes out.old ++ spec.reply_text (Reply.Recycled at)) }
{
    Ok(write!(out, "RECYCLED {} {} {}", at.a, at.oldest.a, at.oldest.b)?)
}

fn put_old(
    out: &mut String,
    engine: EngineName,
    snapshot: u32,
    horizon: u32,
) -> Result<(), NoMemory>
    ensures { OnOk result (string_bytes out.new ≡ string_bytes out.old ++ spec.reply_text (Reply.Old engine snapshot horizon)) }
{
    put(out, "OLD ")?;
    put(out, engine_word(engine))?;
    Ok(write!(out, " {snapshot} {horizon}")?)
}

/// A reply on one line; of rows, how many they are.
fn put_reply(out: &mut String, reply: &Reply) -> Result<(), NoMemory>
    ensures { OnOk result (string_bytes out.new ≡ string_bytes out.old ++ spec.reply_text reply.now) }
{
    match reply {
        Reply::Began(label) => put_began(out, *label),
        Reply::Count(n) => Ok(write!(out, "COUNT {n}")?),
        Reply::Rows(rows) => {
            let count = rows.len();
            Ok(write!(out, "ROWS {count}")?)
        }
        Reply::Committed => put(out, "COMMITTED"),
        Reply::RolledBack => put(out, "ROLLEDBACK"),
        Reply::Step(step, drawn) => put_step(out, *step, *drawn),
        Reply::CheckFailed { point, mem, store } => put_check_failed(out, *point, *mem, *store),
        Reply::Spent(engine) => {
            put(out, "SPENT ")?;
            put(out, engine_word(*engine))
        }
        Reply::Conflict { by, why } => put_conflict(out, *by, *why),
        Reply::Busy { by } => put_busy(out, *by),
        Reply::Recycled(at) => put_recycled(out, *at),
        Reply::Old {
            engine,
            snapshot,
            horizon,
        } => put_old(out, *engine, *snapshot, *horizon),
        Reply::Refused(word) => {
            put(out, "ERR ")?;
            put(out, refusal_word(*word))
        }
    }
}

fn put_row_line(out: &mut String, session: u16, row: &Row) -> Result<(), NoMemory>
    ensures { OnOk result (string_bytes out.new ≡ string_bytes out.old ++ spec.row_line session row.now) }
{
    write!(out, "{session}: ROW ")?;
    put_row(out, row.as_slice())?;
    put(out, "\n")
}

fn put_row_lines(out: &mut String, session: u16, rows: &[Row]) -> Result<(), NoMemory>
    ensures { OnOk result (string_bytes out.new ≡ string_bytes out.old ++ spec.row_lines session rows.now) }
{
    for row in rows {
        put_row_line(out, session, row)?;
    }
    Ok(())
}

fn put_rows_before(out: &mut String, session: u16, reply: &Reply) -> Result<(), NoMemory>
    ensures { OnOk result (string_bytes out.new ≡ string_bytes out.old ++ spec.rows_before session reply.now) }
{
    match reply {
        Reply::Rows(rows) => put_row_lines(out, session, rows.as_slice()),
        _ => Ok(()),
    }
}

/// Writes the lines of a reply to a line of this session: its rows one a line, if it has any, and the reply itself.
#[tactic(auto, unfolding(crate::specs::Text::reply_lines))]
pub fn put_reply_lines(out: &mut String, session: u16, reply: &Reply) -> Result<(), NoMemory>
    ensures { OnOk result (string_bytes out.new ≡ string_bytes out.old ++ spec.reply_lines session reply.now) }
{
    put_rows_before(out, session, reply)?;
    write!(out, "{session}: ")?;
    put_reply(out, reply)?;
    put(out, "\n")
}
