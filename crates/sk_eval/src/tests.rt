use super::*;
use sk_rows::{Boxed, Column, Expr, List, Op, Row, Sort, Table, Txt, TypeFault, Value, ValueFault};
use std::test::Fail;

// What is wanted of an expression.
#[derive(Clone, Copy, PartialEq, Eq)]
enum Wanted {
    Number(i64),
    Truth(bool),
    Overflow,
    UnknownColumn,
    TypeMismatch,
}

fn text(rt: &HostRuntime, word: &[u8]) -> Result<Txt, Fail> {
    let bytes = word.to_vec(rt.alloc())?;
    match Txt::from_vec(bytes) {
        Ok(text) => Ok(text),
        Err(_) => Err("the bytes are no text")?,
    }
}

fn column(rt: &HostRuntime, name: &[u8], sort: Sort) -> Result<Column, Fail> {
    Ok(Column {
        name: text(rt, name)?,
        sort,
    })
}

// The table of the columns `id` and `v` of numbers, `t` of texts and `b` of truths.
fn table(rt: &HostRuntime) -> Result<Table, Fail> {
    let mut columns = Vec::new(rt.alloc());
    columns.push(column(rt, b"id", Sort::Int)?)?;
    columns.push(column(rt, b"v", Sort::Int)?)?;
    columns.push(column(rt, b"t", Sort::Text)?)?;
    columns.push(column(rt, b"b", Sort::Bool)?)?;
    Ok(Table {
        name: text(rt, b"a")?,
        store: false,
        columns: List::from_vec(columns),
    })
}

// The row 1, v, 'ab', TRUE.
fn row(rt: &HostRuntime, v: i64) -> Result<Row, Fail> {
    let mut values = Vec::new(rt.alloc());
    values.push(Value::Int(1))?;
    values.push(Value::Int(v))?;
    values.push(Value::Text(text(rt, b"ab")?))?;
    values.push(Value::Bool(true))?;
    Ok(List::from_vec(values))
}

fn operator(word: &str) -> Option<Op> {
    match word {
        "OR" => Some(Op::Or),
        "AND" => Some(Op::And),
        "=" => Some(Op::Eq),
        "<>" => Some(Op::Ne),
        "<" => Some(Op::Lt),
        "<=" => Some(Op::Le),
        ">" => Some(Op::Gt),
        ">=" => Some(Op::Ge),
        "+" => Some(Op::Add),
        "-" => Some(Op::Sub),
        "*" => Some(Op::Mul),
        _ => None,
    }
}

// A value or a column.
fn leaf(rt: &HostRuntime, word: &str) -> Result<Expr, Fail> {
    if word == "TRUE" || word == "FALSE" {
        return Ok(Expr::Lit(Value::Bool(word == "TRUE")));
    }
    if let Ok(number) = word.parse::<i64>() {
        return Ok(Expr::Lit(Value::Int(number)));
    }
    match word.as_bytes() {
        [b'\'', rest @ ..] => Ok(Expr::Lit(Value::Text(text(rt, rest)?))),
        name => Ok(Expr::Col(text(rt, name)?)),
    }
}

fn top(rt: &HostRuntime, stack: &mut Vec<Expr>) -> Result<Boxed<Expr>, Fail> {
    match stack.pop() {
        Some(e) => Ok(Boxed::new(rt.alloc(), e)?),
        None => Err("an operator has too few sides")?,
    }
}

fn put_word(rt: &HostRuntime, stack: &mut Vec<Expr>, word: &str) -> Result<(), Fail> {
    let e = match operator(word) {
        Some(op) => {
            let right = top(rt, stack)?;
            let left = top(rt, stack)?;
            Expr::Two(op, left, right)
        }
        None if word == "NOT" => Expr::Not(top(rt, stack)?),
        None => leaf(rt, word)?,
    };
    stack.push(e)?;
    Ok(())
}

// The expression of these words, each operator behind its sides.
fn expr(rt: &HostRuntime, words: &str) -> Result<Expr, Fail> {
    let mut stack = Vec::new(rt.alloc());
    for word in words.split(' ') {
        put_word(rt, &mut stack, word)?;
    }
    match stack.pop() {
        Some(e) => Ok(e),
        None => Err("there is no expression")?,
    }
}

fn answer(rt: &HostRuntime, e: &Expr, a: &Table, r: &Row) -> Result<Wanted, Fail> {
    match type_check(e, a) {
        Err(TypeFault::UnknownColumn) => return Ok(Wanted::UnknownColumn),
        Err(TypeFault::TypeMismatch) => return Ok(Wanted::TypeMismatch),
        Ok(_) => {}
    }
    match value(rt.alloc(), e, a, r) {
        Ok(Value::Int(n)) => Ok(Wanted::Number(n)),
        Ok(Value::Bool(b)) => Ok(Wanted::Truth(b)),
        Ok(Value::Text(_)) => Err("a text is not wanted")?,
        Err(ValueFault::Overflow) => Ok(Wanted::Overflow),
        Err(ValueFault::NoMemory) => Err("no memory")?,
    }
}

const AT_TEN: [(&str, Wanted); 30] = [
    ("v 1 +", Wanted::Number(11)),
    ("v 12 -", Wanted::Number(-2)),
    ("v v *", Wanted::Number(100)),
    ("2 3 4 + *", Wanted::Number(14)),
    ("v 10 =", Wanted::Truth(true)),
    ("v 10 <>", Wanted::Truth(false)),
    ("v 10 <", Wanted::Truth(false)),
    ("v 10 <=", Wanted::Truth(true)),
    ("v 9 >", Wanted::Truth(true)),
    ("v 11 >=", Wanted::Truth(false)),
    ("t 'ab =", Wanted::Truth(true)),
    ("t 'b <", Wanted::Truth(true)),
    ("t 'abc <", Wanted::Truth(true)),
    ("'B t <", Wanted::Truth(true)),
    ("b FALSE AND", Wanted::Truth(false)),
    ("b FALSE OR", Wanted::Truth(true)),
    ("b NOT", Wanted::Truth(false)),
    ("b TRUE =", Wanted::Truth(true)),
    ("v 20 < b NOT AND", Wanted::Truth(false)),
    ("b 9223372036854775807 v * 0 = OR", Wanted::Overflow),
    ("FALSE 9223372036854775807 1 + 0 = AND", Wanted::Overflow),
    ("-9223372036854775808 1 -", Wanted::Overflow),
    ("-9223372036854775808 -1 *", Wanted::Overflow),
    ("w NOT", Wanted::UnknownColumn),
    ("v NOT", Wanted::TypeMismatch),
    ("v t +", Wanted::TypeMismatch),
    ("v t =", Wanted::TypeMismatch),
    ("b TRUE <", Wanted::TypeMismatch),
    ("w v v AND +", Wanted::UnknownColumn),
    ("v v AND w +", Wanted::TypeMismatch),
];

#[test]
fn values_worked_out_by_hand(rt: HostRuntime) -> Result<(), Fail> {
    let a = table(&rt)?;
    let r = row(&rt, 10)?;
    for (words, wanted) in AT_TEN {
        let e = expr(&rt, words)?;
        assert!(rt; answer(&rt, &e, &a, &r)? == wanted);
    }
    Ok(())
}

#[test]
fn the_greatest_number_and_a_condition(rt: HostRuntime) -> Result<(), Fail> {
    let a = table(&rt)?;
    let sum = expr(&rt, "v 1 +")?;
    assert!(rt; answer(&rt, &sum, &a, &row(&rt, 9223372036854775807)?)? == Wanted::Overflow);
    let less = expr(&rt, "v 3 <")?;
    assert!(rt; matches!(type_check(&less, &a), Ok(Sort::Bool)));
    assert!(rt; matches!(holds(rt.alloc(), &less, &a, &row(&rt, 2)?), Ok(true)));
    assert!(rt; matches!(holds(rt.alloc(), &less, &a, &row(&rt, 3)?), Ok(false)));
    Ok(())
}
