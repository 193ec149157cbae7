ghost use Rattle.std.specs.Prelude.{◌≡◌, IfOk};
ghost use Rattle.sk_store.specs.Begun.{no_rows};

use super::*;
use sk_model::{KeyedRows, Point, Reply, Tables};
use sk_rows::{
    Begun, Catalog, Column, ColumnList, Expr, SetItem, SetList, Sort, Statement, Table, Txt, Value,
    ValueList,
};
use sk_session::{Session, Unanswered};
use std::alloc::Global;
use std::process::Abort;
use std::test::Fail;

const START: Point = Point {
    a: 0,
    b: 0,
    commit: false,
};

// What a session says of table `a`, in memory, or `c`, on pages, each with the columns `id` and `v`.
#[derive(Clone, Copy, Debug)]
enum Say {
    Begin,
    Insert(u8, i64, i64),
    SetAll(u8, i64),
    Select(u8),
    Commit,
    Step,
}

// What it is answered, in short: of a check that failed the point and the two numbers.
#[derive(Clone, Copy, Debug, PartialEq, Eq)]
enum Heard {
    Began,
    Count(u32),
    Rows(usize),
    Committed,
    Step(Option<u32>),
    CheckFailed(u32, u32, u32, u32),
    Other,
}

fn in_short(reply: &Reply) -> Heard {
    match reply {
        Reply::Began(_) => Heard::Began,
        Reply::Count(count) => Heard::Count(*count),
        Reply::Rows(rows) => Heard::Rows(rows.len()),
        Reply::Committed => Heard::Committed,
        Reply::Step(_, number) => Heard::Step(*number),
        Reply::CheckFailed { point, mem, store } => {
            Heard::CheckFailed(point.a, point.b, *mem, *store)
        }
        _ => Heard::Other,
    }
}

fn text(alloc: Global, word: &[u8]) -> Result<Txt, Fail> {
    let bytes = Vec::from_slice(alloc, word)?;
    Ok(Txt::from_vec(bytes).ok().ok_or("a name")?)
}

fn table(alloc: Global, name: u8, store: bool) -> Result<Table, Fail> {
    let mut columns = ColumnList::new(alloc);
    for word in [b"id".as_slice(), b"v".as_slice()] {
        columns.push(Column {
            name: text(alloc, word)?,
            sort: Sort::Int,
        })?;
    }
    Ok(Table {
        name: text(alloc, &[name])?,
        store,
        columns,
    })
}

fn statement(alloc: Global, say: Say) -> Result<Option<Statement>, Fail> {
    Ok(match say {
        Say::Begin => Some(Statement::Begin(Begun::Cross)),
        Say::Insert(name, id, v) => {
            let mut values = ValueList::new(alloc);
            values.push(Value::Int(id))?;
            values.push(Value::Int(v))?;
            Some(Statement::Insert {
                table: text(alloc, &[name])?,
                values,
            })
        }
        Say::SetAll(name, v) => {
            let item = SetItem {
                column: text(alloc, b"v")?,
                value: Expr::Lit(Value::Int(v)),
            };
            Some(Statement::Update {
                table: text(alloc, &[name])?,
                sets: SetList::of_one(alloc, item)?,
                cond: None,
            })
        }
        Say::Select(name) => Some(Statement::Select {
            table: text(alloc, &[name])?,
            columns: None,
            cond: None,
        }),
        Say::Commit => Some(Statement::Commit),
        Say::Step => None,
    })
}

// No rows, for each table of the catalog.
fn empty_tables(alloc: Global, catalog: &Catalog) -> Result<Tables, Fail>
    ensures { IfOk result (λ rows. rows ≡ no_rows catalog.now) }
{
    let mut rows = Tables::new(alloc);
    for _table in catalog.tables() {
        rows.push(KeyedRows::new(alloc))?;
    }
    Ok(rows)
}

// A session says a line, which the desk has the calls of.
fn answer(
    alloc: Global,
    session: &mut Session,
    catalog: &Catalog,
    shared: &mut Shared,
    said: Option<&Statement>,
) -> Result<Reply, Unanswered> {
    match said {
        Some(said) => session.line(alloc, catalog, shared, said),
        None => session.step(alloc, catalog, shared),
    }
}

// Two sessions say these lines, and each is answered so.
fn play(rt: &impl Abort, alloc: Global, lines: &[(u16, Say, Heard)]) -> Result<Shared, Fail> {
    let mut catalog = Catalog::new(alloc);
    if catalog.add(table(alloc, b'a', false)?).is_err()
        || catalog.add(table(alloc, b'c', true)?).is_err()
    {
        return Err("a table was refused")?;
    }
    let rows = empty_tables(alloc, &catalog)?;
    let mut shared = Shared::new(alloc, &catalog, &rows, 2, 8, START)?;
    let mut one = Session::new(alloc, 1);
    let mut two = Session::new(alloc, 2);
    for (number, say, want) in lines {
        let said = statement(alloc, *say)?;
        let reply = if *number == 1 {
            answer(alloc, &mut one, &catalog, &mut shared, said.as_ref())
        } else {
            answer(alloc, &mut two, &catalog, &mut shared, said.as_ref())
        };
        match reply {
            Ok(reply) => assert_eq!(rt; in_short(&reply), *want, "{number}: {say:?}"),
            Err(_) => return Err("no answer")?,
        }
    }
    Ok(shared)
}

// The anchor of session 1 is before the commit of session 2, so its reads of the storage engine are too.
#[test]
fn skew(rt: HostRuntime) -> Result<(), Fail> {
    let shared = play(
        &rt,
        rt.alloc(),
        &[
            (1, Say::Begin, Heard::Began),
            (1, Say::Select(b'a'), Heard::Rows(0)),
            (2, Say::Begin, Heard::Began),
            (2, Say::Insert(b'a', 1, 10), Heard::Count(1)),
            (2, Say::Insert(b'c', 1, 20), Heard::Count(1)),
            (2, Say::Commit, Heard::Committed),
            (1, Say::Select(b'c'), Heard::Rows(0)),
            (1, Say::Commit, Heard::Committed),
        ],
    )?;
    let left = shared.into_parts();
    assert_eq!(&rt; left.points.len(), 2);
    assert_eq!(&rt; left.mem_journal.len(), 8);
    assert_eq!(&rt; left.store_journal.len(), 8);
    Ok(())
}

// The selection of session 2 is past the storage number of session 1's commit.
#[test]
fn a_failed_check(rt: HostRuntime) -> Result<(), Fail> {
    play(
        &rt,
        rt.alloc(),
        &[
            (1, Say::Begin, Heard::Began),
            (1, Say::Insert(b'a', 1, 1), Heard::Count(1)),
            (1, Say::Insert(b'c', 1, 1), Heard::Count(1)),
            (1, Say::Step, Heard::Step(None)),
            (1, Say::Step, Heard::Step(None)),
            (1, Say::Step, Heard::Step(Some(1))),
            (2, Say::Begin, Heard::Began),
            (2, Say::Select(b'c'), Heard::Rows(0)),
            (1, Say::Commit, Heard::CheckFailed(1, 0, 1, 1)),
        ],
    )?;
    Ok(())
}

// Each reads what the other writes, and both commit.
#[test]
fn write_skew(rt: HostRuntime) -> Result<(), Fail> {
    play(
        &rt,
        rt.alloc(),
        &[
            (1, Say::Begin, Heard::Began),
            (1, Say::Insert(b'a', 1, 10), Heard::Count(1)),
            (1, Say::Insert(b'c', 1, 20), Heard::Count(1)),
            (1, Say::Commit, Heard::Committed),
            (1, Say::Begin, Heard::Began),
            (2, Say::Begin, Heard::Began),
            (1, Say::Select(b'c'), Heard::Rows(1)),
            (2, Say::Select(b'a'), Heard::Rows(1)),
            (1, Say::SetAll(b'a', 0), Heard::Count(1)),
            (2, Say::SetAll(b'c', 0), Heard::Count(1)),
            (1, Say::Commit, Heard::Committed),
            (2, Say::Commit, Heard::Committed),
        ],
    )?;
    Ok(())
}
