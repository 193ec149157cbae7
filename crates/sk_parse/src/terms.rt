//! Names, literals and operators: what a word is, alone.

ghost use Rattle.std.specs.Prelude.{◌≡◌, IfOk};
ghost use Rattle.sk_parse.specs.Input.{Reads};
ghost use Rattle.sk_parse.specs.Terms as spec;

use crate::cursor::Cursor;
use crate::fault::Fault;
use crate::marks::MINUS;
use sk_lex::{Keyword, Word};
use sk_rows::{Copies, LONGEST_TEXT, NoMemory, Op, Txt, Value, is_name};
use std::alloc::Global;

/// The levels of operators that group to the left.
#[derive(Clone, Copy, Debug)]
pub enum Level {
    /// `OR`
    Or,
    /// `AND`
    And,
    /// `+` and `-`
    Sum,
    /// `*`
    Prod,
}

fn name_of(alloc: Global, word: &Word) -> Result<Option<Txt>, NoMemory>
    ensures { IfOk result (λ r. r ≡ spec.name_of word.now) }
{
    match word {
        Word::Name(t) => {
            if is_name(t.as_slice()) {
                Ok(Some(t.copy(alloc)?))
            } else {
                Ok(None)
            }
        }
        _ => Ok(None),
    }
}

/// A name of a table or a column.
#[tactic(auto, unfolding(crate::specs::Terms::name))]
pub fn name(alloc: Global, cursor: &mut Cursor<'_>) -> Result<Txt, Fault>
    ensures { Reads (spec.name cursor.old) result cursor.new }
{
    let Some(word) = cursor.peek() else {
        return Err(cursor.refuse());
    };
    let Some(found) = name_of(alloc, word)? else {
        return Err(cursor.refuse());
    };
    cursor.skip();
    Ok(found)
}

fn int_of(n: u64) -> Option<Value>
    ensures { result ≡ spec.int_of n }
{
    if n < 9_223_372_036_854_775_808 {
        Some(Value::Int(n as i64))
    } else {
        None
    }
}

fn negative_int(n: u64) -> Option<Value>
    ensures { result ≡ spec.negative_int n }
{
    if n < 9_223_372_036_854_775_808 {
        Some(Value::Int(-(n as i64)))
    } else if n == 9_223_372_036_854_775_808 {
        Some(Value::Int(i64::MIN))
    } else {
        None
    }
}

fn text_of(alloc: Global, t: &Txt) -> Result<Option<Value>, NoMemory>
    ensures { IfOk result (λ r. r ≡ spec.text_of t.now) }
{
    if t.as_slice().len() <= LONGEST_TEXT {
        Ok(Some(Value::Text(t.copy(alloc)?)))
    } else {
        Ok(None)
    }
}

fn value_of(alloc: Global, word: &Word) -> Result<Option<Value>, NoMemory>
    ensures { IfOk result (λ r. r ≡ spec.value_of word.now) }
{
    match word {
        Word::Number(n) => Ok(int_of(*n)),
        Word::Text(t) => text_of(alloc, t),
        Word::Key(Keyword::True) => Ok(Some(Value::Bool(true))),
        Word::Key(Keyword::False) => Ok(Some(Value::Bool(false))),
        _ => Ok(None),
    }
}

fn negative_of(word: &Word) -> Option<Value>
    ensures { result ≡ spec.negative_of word.now }
{
    match word {
        Word::Number(n) => negative_int(*n),
        _ => None,
    }
}

#[tactic(auto, unfolding(crate::specs::Terms::negative))]
fn negative(cursor: &mut Cursor<'_>) -> Result<Value, Fault>
    ensures { Reads (spec.negative cursor.old) result cursor.new }
{
    let Some(word) = cursor.peek() else {
        return Err(cursor.refuse());
    };
    let Some(found) = negative_of(word) else {
        return Err(cursor.refuse());
    };
    cursor.skip();
    Ok(found)
}

#[tactic(auto, unfolding(crate::specs::Terms::plain))]
fn plain(alloc: Global, cursor: &mut Cursor<'_>) -> Result<Value, Fault>
    ensures { Reads (spec.plain cursor.old) result cursor.new }
{
    let Some(word) = cursor.peek() else {
        return Err(cursor.refuse());
    };
    let Some(found) = value_of(alloc, word)? else {
        return Err(cursor.refuse());
    };
    cursor.skip();
    Ok(found)
}

/// A number with or without a minus, a text, TRUE or FALSE.
#[tactic(auto, unfolding(crate::specs::Terms::literal))]
pub fn literal(alloc: Global, cursor: &mut Cursor<'_>) -> Result<Value, Fault>
    ensures { Reads (spec.literal cursor.old) result cursor.new }
{
    if cursor.eat(MINUS) {
        negative(cursor)
    } else {
        plain(alloc, cursor)
    }
}

fn sum_op(a: u8) -> Option<Op>
    ensures { result ≡ spec.sum_op a }
{
    match a {
        b'+' => Some(Op::Add),
        b'-' => Some(Op::Sub),
        _ => None,
    }
}

fn prod_op(a: u8) -> Option<Op>
    ensures { result ≡ spec.prod_op a }
{
    if a == b'*' { Some(Op::Mul) } else { None }
}

/// The operator of this level that a word is.
pub fn grouping(level: Level, word: &Word) -> Option<Op>
    ensures { result ≡ spec.grouping level word.now }
{
    match (level, word) {
        (Level::Or, Word::Key(Keyword::Or)) => Some(Op::Or),
        (Level::And, Word::Key(Keyword::And)) => Some(Op::And),
        (Level::Sum, Word::Mark(a, 0)) => sum_op(*a),
        (Level::Prod, Word::Mark(a, 0)) => prod_op(*a),
        _ => None,
    }
}

fn compared(a: u8, b: u8) -> Option<Op>
    ensures { result ≡ spec.compared a b }
{
    if a == b'=' && b == 0 {
        Some(Op::Eq)
    } else if a == b'<' && b == b'>' {
        Some(Op::Ne)
    } else if a == b'<' && b == b'=' {
        Some(Op::Le)
    } else if a == b'<' && b == 0 {
        Some(Op::Lt)
    } else if a == b'>' && b == b'=' {
        Some(Op::Ge)
    } else if a == b'>' && b == 0 {
        Some(Op::Gt)
    } else {
        None
    }
}

/// The comparison that a word is.
pub fn comparison(word: &Word) -> Option<Op>
    ensures { result ≡ spec.comparison word.now }
{
    match word {
        Word::Mark(a, b) => compared(*a, *b),
        _ => None,
    }
}
