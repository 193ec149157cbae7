//! Small pieces of the printed text: labels, numbers, values, names.

ghost use Rattle.std.specs.Prelude.{◌≡◌, ◌++◌, ◌<◌, OnOk};
ghost use Rattle.std.specs.List.{flat_map};
ghost use Rattle.std.specs.String.{string_bytes};
ghost use Rattle.sk_rows.specs.Text.{ArePrintable};
ghost use Rattle.sk_text.specs.Text as spec;

use sk_model::{Ending, EngineName, ErrWord, Label, StepName, TxKind, Why};
use sk_rows::{NoMemory, Value};

pub fn put(out: &mut String, piece: &str) -> Result<(), NoMemory>
    ensures { OnOk result (string_bytes out.new ≡ string_bytes out.old ++ piece.now) }
{
    Ok(out.push_str(piece)?)
}

pub fn put_label(out: &mut String, label: Label) -> Result<(), NoMemory>
    ensures { OnOk result (string_bytes out.new ≡ string_bytes out.old ++ spec.label_text label) }
{
    Ok(write!(out, "{}.{}", label.session, label.k)?)
}

pub fn put_number(out: &mut String, number: Option<u32>) -> Result<(), NoMemory>
    ensures { OnOk result (string_bytes out.new ≡ string_bytes out.old ++ spec.number_text number) }
{
    match number {
        None => put(out, "-"),
        Some(n) => Ok(write!(out, "{n}")?),
    }
}

#[tactic(auto, unfolding(crate::specs::Text::two_text))]
pub fn put_two(out: &mut String, a: u32, b: u32) -> Result<(), NoMemory>
    ensures { OnOk result (string_bytes out.new ≡ string_bytes out.old ++ spec.two_text a b) }
{
    Ok(write!(out, "{a} {b}")?)
}

fn put_byte(out: &mut String, b: u8) -> Result<(), NoMemory>
    requires { b < 128 }
    ensures { OnOk result (string_bytes out.new ≡ string_bytes out.old ++ spec.quoted b) }
{
    if b == b'\'' {
        put(out, "''")
    } else {
        Ok(out.push(char::from(b))?)
    }
}

fn put_quoted(out: &mut String, text: &[u8]) -> Result<(), NoMemory>
    requires { ArePrintable text.now }
    ensures { OnOk result (string_bytes out.new ≡ string_bytes out.old ++ flat_map spec.quoted text.now) }
{
    for b in text {
        put_byte(out, *b)?;
    }
    Ok(())
}

pub fn put_value(out: &mut String, value: &Value) -> Result<(), NoMemory>
    ensures { OnOk result (string_bytes out.new ≡ string_bytes out.old ++ spec.value_text value.now) }
{
    match value {
        Value::Int(n) => Ok(write!(out, "{n}")?),
        Value::Text(t) => {
            put(out, "'")?;
            put_quoted(out, t.as_slice())?;
            put(out, "'")
        }
        Value::Bool(true) => put(out, "TRUE"),
        Value::Bool(false) => put(out, "FALSE"),
    }
}

pub fn put_row(out: &mut String, row: &[Value]) -> Result<(), NoMemory>
    ensures { OnOk result (string_bytes out.new ≡ string_bytes out.old ++ spec.row_text row.now) }
{
    let [first, more @ ..] = row else {
        return Ok(());
    };
    put_value(out, first)?;
    for value in more {
        put(out, ", ")?;
        put_value(out, value)?;
    }
    Ok(())
}

pub fn engine_word(engine: EngineName) -> &'static str
    ensures { result.now ≡ spec.engine_text engine }
{
    match engine {
        EngineName::Mem => "memory",
        EngineName::Store => "storage",
    }
}

pub fn step_word(step: StepName) -> &'static str
    ensures { result.now ≡ spec.step_text step }
{
    match step {
        StepName::CloseMem => "close m",
        StepName::CloseStore => "close s",
        StepName::DrawMem => "draw m",
        StepName::DrawStore => "draw s",
        StepName::Check => "check",
        StepName::StampMem => "stamp m",
        StepName::StampStore => "stamp s",
    }
}

pub fn put_drawn(out: &mut String, drawn: Option<u32>) -> Result<(), NoMemory>
    ensures { OnOk result (string_bytes out.new ≡ string_bytes out.old ++ spec.drawn_text drawn) }
{
    match drawn {
        None => Ok(()),
        Some(n) => Ok(write!(out, " {n}")?),
    }
}

pub fn put_why(out: &mut String, why: Why) -> Result<(), NoMemory>
    ensures { OnOk result (string_bytes out.new ≡ string_bytes out.old ++ spec.why_text why) }
{
    match why {
        Why::Open => put(out, "open"),
        Why::Closed => put(out, "closed"),
        Why::Past { number, snapshot } => Ok(write!(out, "past {number} {snapshot}")?),
    }
}

pub fn refusal_word(word: ErrWord) -> &'static str
    ensures { result.now ≡ spec.word_text word }
{
    match word {
        ErrWord::Committing => "committing",
        ErrWord::Ended => "ended",
        ErrWord::InTransaction => "intransaction",
        ErrWord::NoTransaction => "notransaction",
        ErrWord::Table => "table",
        ErrWord::Column => "column",
        ErrWord::Key => "key",
        ErrWord::Type => "type",
        ErrWord::Engine => "engine",
        ErrWord::Overflow => "overflow",
        ErrWord::Duplicate => "duplicate",
        ErrWord::Size => "size",
        ErrWord::Device => "device",
        ErrWord::Memory => "memory",
    }
}

pub fn kind_word(kind: TxKind) -> &'static str
    ensures { result.now ≡ spec.kind_text kind }
{
    match kind {
        TxKind::Cross => "cross",
        TxKind::Mem => "memory",
        TxKind::Store => "storage",
    }
}

pub fn ending_word(ending: Ending) -> &'static str
    ensures { result.now ≡ spec.ending_text ending }
{
    match ending {
        Ending::Open => "open",
        Ending::Committed => "committed",
        Ending::RolledBack => "rolledback",
        Ending::Conflict => "conflict",
        Ending::CheckFailed => "checkfailed",
        Ending::Recycled => "recycled",
        Ending::Old => "old",
        Ending::Spent => "spent",
        Ending::Device => "device",
        Ending::NoMemory => "memory",
    }
}
