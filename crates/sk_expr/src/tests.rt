use super::*;
use sk_model::{
    Commit, CommitList, Ending, ErrWord, KeyedRows, Label, PointList, Record, Reply, RowList, Said,
    SaidList, Tables, TxKind, Write, WriteList,
};
use sk_rows::{
    Boxed, Catalog, Column, ColumnList, Expr, NameList, Op, Row, SetItem, SetList, Sort, Statement,
    Table, Txt, Value,
};
use std::test::Fail;

const GREATEST: i64 = 9223372036854775807;

fn text(rt: &HostRuntime, word: &[u8]) -> Result<Txt, Fail> {
    let bytes = word.to_vec(rt.alloc())?;
    match Txt::from_vec(bytes) {
        Ok(text) => Ok(text),
        Err(_) => Err("the bytes are no text")?,
    }
}

fn two(rt: &HostRuntime, op: Op, left: Expr, right: Expr) -> Result<Expr, Fail> {
    let left = Boxed::new(rt.alloc(), left)?;
    let right = Boxed::new(rt.alloc(), right)?;
    Ok(Expr::Two(op, left, right))
}

fn literal(n: i64) -> Expr {
    Expr::Lit(Value::Int(n))
}

// The column, this operator, and 1.
fn with_one(rt: &HostRuntime, column: &[u8], op: Op) -> Result<Expr, Fail> {
    two(rt, op, Expr::Col(text(rt, column)?), literal(1))
}

// `v AND TRUE OR zz = 1`
fn unknown_behind_a_wrong_sort(rt: &HostRuntime) -> Result<Expr, Fail> {
    let left = two(
        rt,
        Op::And,
        Expr::Col(text(rt, b"v")?),
        Expr::Lit(Value::Bool(true)),
    )?;
    two(rt, Op::Or, left, with_one(rt, b"zz", Op::Eq)?)
}

fn table(
    rt: &HostRuntime,
    name: &[u8],
    columns: &[&[u8]],
    sort: Sort,
    store: bool,
) -> Result<Table, Fail> {
    let mut list = ColumnList::new(rt.alloc());
    for column in columns {
        list.push(Column {
            name: text(rt, column)?,
            sort,
        })?;
    }
    Ok(Table {
        name: text(rt, name)?,
        store,
        columns: list,
    })
}

// The tables `a` and `c` of the numbers `id` and `v`, and `w` of five texts.
fn catalog(rt: &HostRuntime) -> Result<Catalog, Fail> {
    let mut catalog = Catalog::new(rt.alloc());
    let numbers: [&[u8]; 2] = [b"id", b"v"];
    let texts: [&[u8]; 5] = [b"id", b"a", b"b", b"c", b"d"];
    let a = catalog.add(table(rt, b"a", &numbers, Sort::Int, false)?);
    let c = catalog.add(table(rt, b"c", &numbers, Sort::Int, true)?);
    let w = catalog.add(table(rt, b"w", &texts, Sort::Text, true)?);
    if a.is_err() || c.is_err() || w.is_err() {
        Err("a table was refused")?
    }
    Ok(catalog)
}

fn row(rt: &HostRuntime, key: i64, v: i64) -> Result<Row, Fail> {
    let mut row = Row::new(rt.alloc());
    row.push(Value::Int(key))?;
    row.push(Value::Int(v))?;
    Ok(row)
}

// Five texts of 255 times this byte.
fn large(rt: &HostRuntime, byte: u8) -> Result<Row, Fail> {
    let long = [byte; 255];
    let mut row = Row::new(rt.alloc());
    for _ in 0..5 {
        row.push(Value::Text(text(rt, &long)?))?;
    }
    Ok(row)
}

// The row (1, v) of `a`, and in `w` one whose key is 255 times the letter a.
fn opening(rt: &HostRuntime, v: i64) -> Result<Tables, Fail> {
    let mut numbers = KeyedRows::new(rt.alloc());
    numbers.push((Value::Int(1), row(rt, 1, v)?))?;
    let mut texts = KeyedRows::new(rt.alloc());
    texts.push((Value::Text(text(rt, &[b'a'; 255])?), large(rt, b'a')?))?;
    let mut tables = Tables::new(rt.alloc());
    tables.push(numbers)?;
    tables.push(KeyedRows::new(rt.alloc()))?;
    tables.push(texts)?;
    Ok(tables)
}

fn select(rt: &HostRuntime, table: &[u8], cond: Option<Expr>) -> Result<Statement, Fail> {
    Ok(Statement::Select {
        table: text(rt, table)?,
        columns: None,
        cond,
    })
}

fn update(
    rt: &HostRuntime,
    column: &[u8],
    value: Expr,
    cond: Option<Expr>,
) -> Result<Statement, Fail> {
    let mut sets = SetList::new(rt.alloc());
    sets.push(SetItem {
        column: text(rt, column)?,
        value,
    })?;
    Ok(Statement::Update {
        table: text(rt, b"a")?,
        sets,
        cond,
    })
}

fn insert(rt: &HostRuntime, table: &[u8], values: Row) -> Result<Statement, Fail> {
    Ok(Statement::Insert {
        table: text(rt, table)?,
        values,
    })
}

// `SELECT z FROM a`
fn select_z(rt: &HostRuntime) -> Result<Statement, Fail> {
    let mut names = NameList::new(rt.alloc());
    names.push(text(rt, b"z")?)?;
    Ok(Statement::Select {
        table: text(rt, b"a")?,
        columns: Some(names),
        cond: None,
    })
}

fn short_row(rt: &HostRuntime) -> Result<Row, Fail> {
    let mut row = Row::new(rt.alloc());
    row.push(Value::Int(2))?;
    Ok(row)
}

fn record(rt: &HostRuntime, said: SaidList) -> Record {
    Record {
        label: Label { session: 1, k: 1 },
        kind: TxKind::Cross,
        mem: Some(0),
        store: Some(0),
        said,
        ending: Ending::Committed,
        drew_mem: None,
        drew_store: None,
        made: PointList::new(rt.alloc()),
    }
}

// Whether a record of this statement alone is explained over the opening tables.
fn is_explained(rt: &HostRuntime, statement: Statement, reply: Reply) -> Result<bool, Fail> {
    let mut said = SaidList::new(rt.alloc());
    said.push(Said { statement, reply })?;
    let tx = record(rt, said);
    let answer = explain(
        rt.alloc(),
        &catalog(rt)?,
        &[],
        &opening(rt, GREATEST)?,
        &tx,
        0,
    );
    match answer {
        Ok(answer) => Ok(answer),
        Err(_) => Err("no memory")?,
    }
}

// Statements that are refused over the opening tables, each with its word. An unknown name comes before a set key and
// before a wrong sort.
fn refused_statement(rt: &HostRuntime, number: usize) -> Result<(Statement, ErrWord), Fail> {
    match number {
        0 => Ok((select(rt, b"z", None)?, ErrWord::Table)),
        1 => Ok((select_z(rt)?, ErrWord::Column)),
        2 => {
            let cond = unknown_behind_a_wrong_sort(rt)?;
            Ok((select(rt, b"a", Some(cond))?, ErrWord::Column))
        }
        3 => {
            let cond = with_one(rt, b"z", Op::Eq)?;
            Ok((update(rt, b"id", literal(2), Some(cond))?, ErrWord::Column))
        }
        4 => Ok((update(rt, b"id", literal(2), None)?, ErrWord::Key)),
        5 => Ok((insert(rt, b"a", short_row(rt)?)?, ErrWord::Type)),
        6 => Ok((
            update(rt, b"v", with_one(rt, b"v", Op::Add)?, None)?,
            ErrWord::Overflow,
        )),
        7 => Ok((insert(rt, b"w", large(rt, b'a')?)?, ErrWord::Duplicate)),
        _ => Ok((insert(rt, b"w", large(rt, b'b')?)?, ErrWord::Size)),
    }
}

const WORDS: [ErrWord; 7] = [
    ErrWord::Table,
    ErrWord::Column,
    ErrWord::Key,
    ErrWord::Type,
    ErrWord::Overflow,
    ErrWord::Duplicate,
    ErrWord::Size,
];

#[test]
fn each_refusal_by_its_word_alone(rt: HostRuntime) -> Result<(), Fail> {
    for number in 0..9 {
        for word in WORDS {
            let (statement, wanted) = refused_statement(&rt, number)?;
            let answer = is_explained(&rt, statement, Reply::Refused(word))?;
            assert!(rt; answer == (word == wanted));
        }
    }
    Ok(())
}

fn rows(rt: &HostRuntime, v: i64) -> Result<Reply, Fail> {
    let mut rows = RowList::new(rt.alloc());
    rows.push(row(rt, 1, v)?)?;
    Ok(Reply::Rows(rows))
}

fn no_rows(rt: &HostRuntime) -> Reply {
    Reply::Rows(RowList::new(rt.alloc()))
}

// `UPDATE a SET v = v + 1`, then `SELECT * FROM a WHERE id = 1`, then `DELETE FROM a`, then `SELECT * FROM a`.
#[test]
fn a_record_sees_its_own_writes(rt: HostRuntime) -> Result<(), Fail> {
    let mut said = SaidList::new(rt.alloc());
    said.push(Said {
        statement: update(&rt, b"v", with_one(&rt, b"v", Op::Add)?, None)?,
        reply: Reply::Count(1),
    })?;
    said.push(Said {
        statement: select(&rt, b"a", Some(with_one(&rt, b"id", Op::Eq)?))?,
        reply: rows(&rt, 11)?,
    })?;
    said.push(Said {
        statement: Statement::Delete {
            table: text(&rt, b"a")?,
            cond: None,
        },
        reply: Reply::Count(1),
    })?;
    said.push(Said {
        statement: select(&rt, b"a", None)?,
        reply: no_rows(&rt),
    })?;
    let tx = record(&rt, said);
    let answer = explain(rt.alloc(), &catalog(&rt)?, &[], &opening(&rt, 10)?, &tx, 0);
    assert!(rt; matches!(answer, Ok(true)));
    Ok(())
}

fn empty(rt: &HostRuntime) -> Result<Tables, Fail> {
    let mut tables = Tables::new(rt.alloc());
    for _ in 0..3 {
        tables.push(KeyedRows::new(rt.alloc()))?;
    }
    Ok(tables)
}

// (1, 10) into `a` and (1, 20) into `c`.
fn order(rt: &HostRuntime) -> Result<CommitList, Fail> {
    let mut writes = WriteList::new(rt.alloc());
    writes.push(Write {
        table: 0,
        key: Value::Int(1),
        row: Some(row(rt, 1, 10)?),
    })?;
    writes.push(Write {
        table: 1,
        key: Value::Int(1),
        row: Some(row(rt, 1, 20)?),
    })?;
    let mut order = CommitList::new(rt.alloc());
    order.push(Commit {
        label: Label { session: 2, k: 1 },
        mem: Some(1),
        store: Some(1),
        writes,
    })?;
    Ok(order)
}

// A transaction that reads both tables and sees neither of the two writes of the commit beside it.
#[test]
fn a_reader_beside_a_commit(rt: HostRuntime) -> Result<(), Fail> {
    let mut said = SaidList::new(rt.alloc());
    said.push(Said {
        statement: select(&rt, b"a", None)?,
        reply: no_rows(&rt),
    })?;
    said.push(Said {
        statement: select(&rt, b"c", None)?,
        reply: no_rows(&rt),
    })?;
    said.push(Said {
        statement: Statement::Commit,
        reply: Reply::Committed,
    })?;
    let tx = record(&rt, said);
    let order = order(&rt)?;
    let commits = order.as_slice();
    let catalog = catalog(&rt)?;
    let before = explain(rt.alloc(), &catalog, commits, &empty(&rt)?, &tx, 0);
    assert!(rt; matches!(before, Ok(true)));
    let behind = explain(rt.alloc(), &catalog, commits, &empty(&rt)?, &tx, 1);
    assert!(rt; matches!(behind, Ok(false)));
    Ok(())
}
