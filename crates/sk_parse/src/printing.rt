//! Prints words and expressions, each word behind a space.

ghost use Rattle.std.specs.Prelude.{◌≡◌, ◌≤◌, ◌++◌, OnOk};
ghost use Rattle.std.specs.List.{flat_map};
ghost use Rattle.sk_lex.specs.declared.token.Word.TheVariants as word;
ghost use Rattle.sk_rows.specs.declared.value.Value.TheVariants as value;
ghost use Rattle.sk_lex.specs.Spelling as spelling;
ghost use Rattle.sk_parse.specs.Spelled as spec;
ghost use Rattle.sk_rows.specs.Spine.{first_of};
ghost use Rattle.sk_parse.specs.Printed as print;
ghost use Rattle.sk_parse.specs.Chains as chain;

use sk_lex::Keyword;
use sk_rows::{Expr, First, NoMemory, Op, Operation, Value};

fn put_bytes(out: &mut Vec<u8>, bytes: &[u8]) -> Result<(), NoMemory>
    ensures { OnOk result (out.new.items ≡ out.old.items ++ bytes.now) }
{
    Ok(out.extend_from_slice(bytes)?)
}

#[cycle(digits)]
fn put_digits(out: &mut Vec<u8>, places: usize, n: u64) -> Result<(), NoMemory>
    ensures { OnOk result (out.new.items ≡ out.old.items ++ spelling.digits places n) }
{
    if places == 0 {
        return Ok(());
    }
    put_front(out, places - 1, n)?;
    out.push(48 + (n % 10) as u8)?;
    Ok(())
}

#[cycle(digits)]
fn put_front(out: &mut Vec<u8>, places: usize, n: u64) -> Result<(), NoMemory>
    ensures { OnOk result (out.new.items ≡ out.old.items ++ spec.front_digits places n) }
{
    if n < 10 {
        Ok(())
    } else {
        put_digits(out, places, n / 10)
    }
}

fn put_quoted(out: &mut Vec<u8>, mut text: &[u8]) -> Result<(), NoMemory>
    ensures { OnOk result (out.new.items ≡ out.old.items ++ flat_map spelling.quoted text.entry.now) }
{
    while let [b, rest @ ..] = text {
        if *b == b'\'' {
            out.push(39)?;
        }
        out.push(*b)?;
        text = rest;
    }
    Ok(())
}

#[tactic(auto, unfolding(sk_lex::specs::Spelling::key_text))]
fn key_text(k: Keyword) -> &'static [u8]
    ensures { result.now ≡ spelling.key_text k }
{
    match k {
        Keyword::Table => b"TABLE",
        Keyword::Set => b"SET",
        Keyword::Memory => b"MEMORY",
        Keyword::Storage => b"STORAGE",
        Keyword::Int => b"INT",
        Keyword::Text => b"TEXT",
        Keyword::Bool => b"BOOL",
        Keyword::Step => b"STEP",
        Keyword::Flush => b"FLUSH",
        Keyword::Checkpoint => b"CHECKPOINT",
        Keyword::Stop => b"STOP",
        Keyword::Begin => b"BEGIN",
        Keyword::Commit => b"COMMIT",
        Keyword::Rollback => b"ROLLBACK",
        Keyword::Insert => b"INSERT",
        Keyword::Into => b"INTO",
        Keyword::Values => b"VALUES",
        Keyword::Select => b"SELECT",
        Keyword::From => b"FROM",
        Keyword::Where => b"WHERE",
        Keyword::Update => b"UPDATE",
        Keyword::Delete => b"DELETE",
        Keyword::Or => b"OR",
        Keyword::And => b"AND",
        Keyword::Not => b"NOT",
        Keyword::True => b"TRUE",
        Keyword::False => b"FALSE",
    }
}

/// A keyword in capitals.
pub fn put_key(out: &mut Vec<u8>, k: Keyword) -> Result<(), NoMemory>
    ensures { OnOk result (out.new.items ≡ out.old.items ++ spelling.spaced (word.Key k)) }
{
    out.push(32)?;
    put_bytes(out, key_text(k))
}

/// A mark of one or two bytes, the second 0 where there is one.
pub fn put_mark(out: &mut Vec<u8>, a: u8, b: u8) -> Result<(), NoMemory>
    ensures { OnOk result (out.new.items ≡ out.old.items ++ spelling.spaced (word.Mark a b)) }
{
    out.push(32)?;
    out.push(a)?;
    if b != 0 {
        out.push(b)?;
    }
    Ok(())
}

/// A name as it is.
pub fn put_name(out: &mut Vec<u8>, t: &[u8]) -> Result<(), NoMemory>
    ensures { OnOk result (out.new.items ≡ out.old.items ++ spelling.spaced (word.Name t.now)) }
{
    out.push(32)?;
    put_bytes(out, t)
}

fn put_number(out: &mut Vec<u8>, n: u64) -> Result<(), NoMemory>
    ensures { OnOk result (out.new.items ≡ out.old.items ++ spelling.spaced (word.Number n)) }
{
    out.push(32)?;
    put_digits(out, 20, n)
}

fn put_text(out: &mut Vec<u8>, t: &[u8]) -> Result<(), NoMemory>
    ensures { OnOk result (out.new.items ≡ out.old.items ++ spelling.spaced (word.Text t.now)) }
{
    out.push(32)?;
    out.push(39)?;
    put_quoted(out, t)?;
    out.push(39)?;
    Ok(())
}

fn put_op(out: &mut Vec<u8>, op: Op) -> Result<(), NoMemory>
    ensures { OnOk result (out.new.items ≡ out.old.items ++ spelling.spaced (print.op_word op)) }
{
    match op {
        Op::Or => put_key(out, Keyword::Or),
        Op::And => put_key(out, Keyword::And),
        Op::Eq => put_mark(out, 61, 0),
        Op::Ne => put_mark(out, 60, 62),
        Op::Lt => put_mark(out, 60, 0),
        Op::Le => put_mark(out, 60, 61),
        Op::Gt => put_mark(out, 62, 0),
        Op::Ge => put_mark(out, 62, 61),
        Op::Add => put_mark(out, 43, 0),
        Op::Sub => put_mark(out, 45, 0),
        Op::Mul => put_mark(out, 42, 0),
    }
}

/// The rule that has the operator, counted from the outermost, 0.
pub fn strength(op: Op) -> u8
    ensures { result ≡ print.strength op }
{
    match op {
        Op::Or => 0,
        Op::And => 1,
        Op::Add | Op::Sub => 4,
        Op::Mul => 5,
        _ => 3,
    }
}

/// The rule at whose place the left side stands.
pub fn left_at(op: Op) -> u8
    ensures { result ≡ print.left_at op }
{
    match op {
        Op::Or => 0,
        Op::And => 1,
        Op::Mul => 5,
        _ => 4,
    }
}

/// The rule at whose place the right side stands.
pub fn right_at(op: Op) -> u8
    ensures { result ≡ print.right_at op }
{
    match op {
        Op::Or => 1,
        Op::And => 2,
        Op::Add | Op::Sub => 5,
        Op::Mul => 6,
        _ => 4,
    }
}

#[tactic(auto, using(crate::proofs::Spelling::negative_text, crate::proofs::Spelling::positive_text))]
fn put_int(out: &mut Vec<u8>, n: i64) -> Result<(), NoMemory>
    ensures { OnOk result (out.new.items ≡ out.old.items ++ spec.literal_text (value.Int n)) }
{
    if n < 0 {
        put_mark(out, 45, 0)?;
        put_number(out, n.unsigned_abs())
    } else {
        put_number(out, n as u64)
    }
}

/// A literal.
pub fn put_literal(out: &mut Vec<u8>, v: &Value) -> Result<(), NoMemory>
    ensures { OnOk result (out.new.items ≡ out.old.items ++ spec.literal_text v.now) }
{
    match v {
        Value::Int(n) => put_int(out, *n),
        Value::Text(t) => put_text(out, t.as_slice()),
        Value::Bool(true) => put_key(out, Keyword::True),
        Value::Bool(false) => put_key(out, Keyword::False),
    }
}

fn put_open(out: &mut Vec<u8>, asked: bool) -> Result<(), NoMemory>
    ensures { OnOk result (out.new.items ≡ out.old.items ++ spec.opened asked) }
{
    if asked { put_mark(out, 40, 0) } else { Ok(()) }
}

fn put_close(out: &mut Vec<u8>, asked: bool) -> Result<(), NoMemory>
    ensures { OnOk result (out.new.items ≡ out.old.items ++ spec.closed asked) }
{
    if asked { put_mark(out, 41, 0) } else { Ok(()) }
}

fn put_opens(
    out: &mut Vec<u8>,
    mut operations: &[Operation<'_>],
    mut at: u8,
) -> Result<(), NoMemory>
    ensures { OnOk result (out.new.items ≡ out.old.items ++ chain.opens operations.entry.now at) }
{
    while let [operation, rest @ ..] = operations {
        put_open(out, strength(operation.op) < at)?;
        at = left_at(operation.op);
        operations = rest;
    }
    Ok(())
}

/// The rule at whose place the left side of these operations stands, the outermost of them at the place `at`.
#[tactic(auto, using(crate::proofs::Chains::place_push))]
fn place_in(operations: &[Operation<'_>], at: u8) -> u8
    ensures { result ≡ chain.place_in operations.now at }
{
    match operations {
        [] => at,
        [.., last] => left_at(last.op),
    }
}

#[cycle(expression)]
fn put_first(out: &mut Vec<u8>, first: First<'_>, at: u8) -> Result<(), NoMemory>
    ensures { OnOk result (out.new.items ≡ out.old.items ++ spec.text (first_of first.entry) at) }
{
    match first {
        First::Lit(v) => put_literal(out, v),
        First::Col(t) => put_name(out, t.as_slice()),
        First::Not(a) => {
            put_open(out, 2 < at)?;
            put_key(out, Keyword::Not)?;
            put_expr(out, a, 2)?;
            put_close(out, 2 < at)
        }
    }
}

/// What stands behind the left side of an operation that is at the place of a rule.
#[cycle(expression)]
fn put_behind(out: &mut Vec<u8>, operation: Operation<'_>, at: u8) -> Result<(), NoMemory>
    ensures { OnOk result (out.new.items ≡ out.old.items ++ chain.behind_one operation.entry at) }
{
    put_op(out, operation.op)?;
    put_expr(out, operation.right, right_at(operation.op))?;
    put_close(out, strength(operation.op) < at)
}

/// What stands at the place of a rule, in parentheses where the grammar asks for them.
#[cycle(expression)]
#[tactic(auto, using(sk_rows::proofs::Spines::below_pop, crate::proofs::Chains::text_joined, crate::proofs::Chains::behind_pop))]
pub fn put_expr(out: &mut Vec<u8>, e: &Expr, at: u8) -> Result<(), NoMemory>
    ensures { OnOk result (out.new.items ≡ out.old.items ++ spec.text e.now at) }
{
    let spine = e.spine(*out.allocator())?;
    let mut operations = spine.operations;
    put_opens(out, operations.as_slice(), at)?;
    put_first(out, spine.first, place_in(operations.as_slice(), at))?;
    while let Some(operation) = operations.pop() {
        put_behind(out, operation, place_in(operations.as_slice(), at))?;
    }
    Ok(())
}
